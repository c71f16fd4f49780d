ghost use Rattle.std.specs.Prelude.{IfErr, IfNone, IfSome};
ghost use Rattle.cob_program_faults.specs.Identity.{Loses};
ghost use Rattle.cob_program_ends.specs.Inputs.{LosesNone, input_named};
ghost use Rattle.cob_program_ends.specs.Ends.{LosesInput, NamesInput};

use cob_program_faults::{CommandFault, FileIdentity, FileName, lead_to_one_file, loses};
use cob_program_line::ConvertLine;
use std::rt::Files;

/// Which files a conversion reads.
#[derive(Clone, Copy)]
pub struct Inputs {
    in_book: Option<FileIdentity>,
    out_book: Option<FileIdentity>,
    moves: Option<FileIdentity>,
    records: Option<FileIdentity>,
}

impl Inputs {
    /// The files that the options of a conversion name for reading.
    pub fn of<R: Files>(rt: &R, line: &ConvertLine<'_>) -> Inputs {
        let in_book = FileIdentity::of(rt, line.texts.in_book);
        let out_book = FileIdentity::of(rt, line.texts.out_book);
        let moves = FileIdentity::of(rt, line.texts.moves);
        let records = FileIdentity::of_input(rt, line.input);
        Inputs {
            in_book,
            out_book,
            moves,
            records,
        }
    }

    /// The first of them, in the order in which they are read, that an output would lose.
    pub fn lost_by(&self, output: Option<FileIdentity>) -> Option<FileName>
        ensures lost { IfSome result (λ name. Loses output (input_named self.now name)) }
        ensures none { IfNone result (LosesNone output self.now) }
        ensures input { IfSome result NamesInput }
    {
        if loses(output, self.in_book) {
            Some(FileName::InBook)
        } else if loses(output, self.out_book) {
            Some(FileName::OutBook)
        } else if loses(output, self.moves) {
            Some(FileName::Moves)
        } else if loses(output, self.records) {
            Some(FileName::In)
        } else {
            None
        }
    }
}

/// Asks of the output of a conversion that it is none of the files that are read, by whatever names.
///
/// # Errors
///
/// The first file that it is.
pub fn judge_output<R: Files>(
    rt: &R,
    line: &ConvertLine<'_>,
    output: &str,
) -> Result<(), CommandFault>
    ensures { IfErr result LosesInput }
{
    match Inputs::of(rt, line).lost_by(FileIdentity::of_output(rt, output)) {
        Some(name) => Err(CommandFault::OneFile(name)),
        None => Ok(()),
    }
}

/// Whether what is written to a file goes to standard output, by whatever name.
pub fn is_standard_output<R: Files>(rt: &R, name: &str) -> bool {
    name == "-"
        || lead_to_one_file(
            FileIdentity::of_output(rt, name),
            FileIdentity::of_output(rt, "-"),
        )
}

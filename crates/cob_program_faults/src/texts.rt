ghost use Rattle.std.specs.Prelude.{IfErr, IfOk};
ghost use Rattle.cob_convert_record.specs.Conversion.{in_length};
ghost use Rattle.cob_records.specs.Forms.{HasBlockSize};
ghost use Rattle.cob_program_faults.specs.Lengths.{FitsLrecl};
ghost use Rattle.cob_program_faults.specs.Texts.{LacksConversion, LacksText};

use crate::fault::{CommandFault, FileName};
use crate::lengths::fitting;
use crate::whole_text::read_text;
use cob_codec::Reading;
use cob_convert::Converter;
use cob_records::Form;
use std::rt::Files;

/// The text in the file that an option names.
///
/// # Errors
///
/// A file that is not opened or not read, want of memory.
pub fn text_of<R: AllocGlobal + Files>(
    rt: &R,
    path: &str,
    name: FileName,
) -> Result<Vec<u8>, CommandFault>
    ensures { IfErr result (LacksText name) }
{
    match read_text(rt, path) {
        Ok(text) => Ok(text),
        Err(fault) => Err(CommandFault::of_text(fault, name)),
    }
}

/// The files of the three texts of a conversion.
#[derive(Clone, Copy)]
pub struct Texts<'a> {
    pub in_book: &'a str,
    pub out_book: &'a str,
    pub moves: &'a str,
}

impl Texts<'_> {
    /// Reads the three texts of a conversion, and prepares it, its binary senders read so, its records fitting the record length of the input that is said.
    ///
    /// # Errors
    ///
    /// A file that is not opened or not read, a text that is refused, blocks of the output that are too short, records that do not fit that length, want of
    /// memory.
    pub fn prepared<R: AllocGlobal + Files>(
        self,
        rt: &R,
        in_form: Form,
        out_form: Form,
        reading: Reading,
        lrecl: Option<u64>,
    ) -> Result<Converter, CommandFault>
        requires in_block { HasBlockSize in_form }
        requires out_block { HasBlockSize out_form }
        ensures fits { IfOk result (λ made. FitsLrecl in_form lrecl (in_length made)) }
        ensures lacks { IfErr result LacksConversion }
    {
        let in_book = text_of(rt, self.in_book, FileName::InBook)?;
        let out_book = text_of(rt, self.out_book, FileName::OutBook)?;
        let moves = text_of(rt, self.moves, FileName::Moves)?;
        match Converter::prepare_with(
            rt.alloc(),
            &in_book,
            &out_book,
            &moves,
            in_form,
            out_form,
            reading,
        ) {
            Ok(converter) => fitting(converter, in_form, lrecl),
            Err(refused) => Err(CommandFault::from(refused)),
        }
    }
}

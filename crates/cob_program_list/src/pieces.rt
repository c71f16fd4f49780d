ghost use Rattle.std.specs.Prelude.{◌≡◌, ◌<◌, ◌≤◌, false, IfErr, IfOk};
ghost use Rattle.cob_limits.specs.Limits.{longest_record};
ghost use Rattle.cob_records.specs.Forms.{HasBlockSize};
ghost use Rattle.cob_records.specs.Frame.{is_write_fault};
ghost use Rattle.cob_records_parts.specs.Cut.{IfFrame};
ghost use Rattle.cob_program_faults.specs.declared.fault.CommandFault.TheVariants.{Unprinted};
ghost use Rattle.cob_program_faults.specs.Texts.{LacksRecordLayout, StopsListing};
ghost use Rattle.cob_program_faults.specs.Ends.{EndsAmong};
ghost use Rattle.cob_program_list.specs.Ends.{MayEndListing};
ghost use Rattle.cob_program_list.specs.Listed.{uncut_fault};

use crate::copybook::read_record_book;
use crate::ends::tell_listed;
use cob_convert::Status;
use cob_convert_stream::Reason;
use cob_program_faults::{CommandFault, FileName, opened};
use cob_program_line::PiecesLine;
use cob_records::{Form, open_source, size_of};
use cob_records_parts::{MOST_RECORDS_CUT, Piece, PiecesFault, pieces_in, pieces_of_size};
use cob_report_show::limit_reason;
use std::io::{Eprint, Input, Print};
use std::rt::Files;

/// What is told of a file that is not cut.
fn uncut(fault: PiecesFault) -> CommandFault
    requires { IfFrame fault (λ why. is_write_fault why ≡ false) }
    ensures told { result ≡ uncut_fault fault }
    ensures stops { StopsListing result }
{
    match fault {
        PiecesFault::Frame { number, fault } => {
            CommandFault::Stopped(Reason::of_frame(fault).at(number, 0))
        }
        PiecesFault::Limit => CommandFault::Stopped(limit_reason().at(MOST_RECORDS_CUT + 1, 0)),
        PiecesFault::Memory => CommandFault::Memory,
    }
}

/// The greatest length of the records that the file has, by their copybook.
///
/// # Errors
///
/// Those of [`read_record_book`].
fn greatest_of<R: AllocGlobal + Files>(rt: &R, line: &PiecesLine<'_>) -> Result<u16, CommandFault>
    ensures some { IfOk result (λ greatest. 0 < greatest) }
    ensures most { IfOk result (λ greatest. greatest ≤ longest_record) }
    ensures lacks { IfErr result LacksRecordLayout }
{
    let listed = read_record_book(rt, line.book, line.form, line.lrecl)?;
    Ok(listed.layout.greatest())
}

/// Cuts the file that `--in` names in pieces: in form f by its size alone, else by its descriptors.
///
/// # Errors
///
/// A file that is not opened or not read, or has no size, a copybook that is refused, a frame that can't be read, want of memory.
pub fn cut<R: AllocGlobal + Files + Input>(
    rt: &R,
    line: &PiecesLine<'_>,
) -> Result<Vec<Piece>, CommandFault>
    requires block { HasBlockSize line.now.form }
    requires pieces { 0 < line.now.pieces }
    ensures { IfErr result MayEndListing }
{
    let greatest = greatest_of(rt, line)?;
    let Some(size) = size_of(rt, line.input) else {
        return Err(CommandFault::CannotOpen(FileName::In));
    };
    if let Form::Fixed = line.form {
        return Ok(pieces_of_size(rt.alloc(), size, greatest, line.pieces)?);
    }
    let mut source = opened(open_source(rt, line.input), FileName::In)?;
    match pieces_in(
        rt.alloc(),
        &mut source,
        line.form,
        greatest,
        size,
        line.pieces,
    ) {
        Ok(pieces) => Ok(pieces),
        Err(fault) => Err(uncut(fault)),
    }
}

/// Prints a line for each piece on standard output.
///
/// # Errors
///
/// A line that is not printed.
fn print_pieces<R: Print>(rt: &R, pieces: &[Piece]) -> Result<(), CommandFault>
    ensures { IfErr result (λ fault. fault ≡ Unprinted) }
{
    for piece in pieces {
        if println!(rt; "{piece}").is_err() {
            return Err(CommandFault::Unprinted);
        }
    }
    Ok(())
}

/// Prints where the pieces of the file that `--in` names begin, how many bytes each has, and the number of its first record.
///
/// # Errors
///
/// Those of [`cut`]; a line that is not printed.
pub fn list_pieces<R: AllocGlobal + Files + Input + Print>(
    rt: &R,
    line: &PiecesLine<'_>,
) -> Result<(), CommandFault>
    requires block { HasBlockSize line.now.form }
    requires pieces { 0 < line.now.pieces }
    ensures { IfErr result MayEndListing }
{
    let pieces = cut(rt, line)?;
    print_pieces(rt, &pieces)
}

/// Lists the pieces of a file, prints what is at fault, and answers how the program ends.
pub fn do_pieces<R: AllocGlobal + Files + Input + Print + Eprint>(
    rt: &R,
    line: &PiecesLine<'_>,
) -> Status
    requires block { HasBlockSize line.now.form }
    requires pieces { 0 < line.now.pieces }
    ensures { EndsAmong MayEndListing result }
{
    tell_listed(rt, list_pieces(rt, line))
}

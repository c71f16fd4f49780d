//! What the texts of a conversion come to.

ghost use Rattle.std.specs.Prelude.{◌≡◌, IfErr};
ghost use Rattle.cob_program_faults.specs.declared.fault.CommandFault.TheVariants.{Memory};
ghost use Rattle.cob_program_texts.specs.CheckEnds.{MayEndCheck};

use crate::checking::Checked;
use cob_back_runs::{carried, untested};
use cob_convert::Converter;
use cob_program_faults::{CommandFault, FileName, text_of};
use cob_program_line::CheckLine;
use cob_records::Form;
use cob_report_cover::{CoverText, cover_text};
use cob_report_lossless::{LinedMoves, lines_of_deeds};
use std::alloc::Global;
use std::rt::Files;

/// What the texts of a conversion came to.
fn checked_of(converter: &Converter) -> Checked {
    Checked {
        input: converter.in_length(),
        output: converter.out_length(),
        moves: converter.moves(),
    }
}

/// The lists of a conversion, whose statements stand on these lines.
fn lists_on(alloc: Global, converter: &Converter, lines: &[u32]) -> Result<CoverText, CommandFault>
    ensures { IfErr result (λ fault. fault ≡ Memory) }
{
    let lined = LinedMoves {
        moves: carried(converter.conversion()),
        lines,
    };
    let always = untested(alloc, converter.conversion())?;
    Ok(cover_text(alloc, &lined, &always)?)
}

/// The lists of a conversion of this paragraph, where they are asked for.
fn lists_of(
    alloc: Global,
    converter: &Converter,
    moves: &[u8],
    cover: bool,
) -> Result<CoverText, CommandFault>
    ensures { IfErr result (λ fault. fault ≡ Memory) }
{
    if !cover {
        return Ok(CoverText {
            text: String::new(alloc),
            is_open: false,
        });
    }
    match lines_of_deeds(alloc, moves, converter.conversion().deeds()) {
        Ok(lines) => lists_on(alloc, converter, &lines.statements),
        // The paragraph was read before: only memory can lack.
        Err(_) => Err(CommandFault::Memory),
    }
}

/// What a conversion of this paragraph came to, and its lists.
fn told_of(
    alloc: Global,
    converter: &Converter,
    moves: &[u8],
    cover: bool,
) -> Result<(Checked, CoverText), CommandFault>
    ensures { IfErr result (λ fault. fault ≡ Memory) }
{
    let lists = lists_of(alloc, converter, moves, cover)?;
    Ok((checked_of(converter), lists))
}

/// What the texts of a conversion come to, and its lists.
fn prepared(
    alloc: Global,
    in_book: &[u8],
    out_book: &[u8],
    moves: &[u8],
    cover: bool,
) -> Result<(Checked, CoverText), CommandFault>
    ensures { IfErr result MayEndCheck }
{
    match Converter::prepare(alloc, in_book, out_book, moves, Form::Fixed, Form::Fixed) {
        Ok(converter) => told_of(alloc, &converter, moves, cover),
        Err(refused) => Err(CommandFault::from(refused)),
    }
}

/// Reads the three texts of a conversion and prepares it, and answers what they come to and, where that is asked for, the lists of what they leave open.
///
/// # Errors
///
/// A file that is not opened or not read, a text that is refused, want of memory.
pub(crate) fn read_texts<R: AllocGlobal + Files>(
    rt: &R,
    line: &CheckLine<'_>,
    cover: bool,
) -> Result<(Checked, CoverText), CommandFault>
    ensures { IfErr result MayEndCheck }
{
    let in_book = text_of(rt, line.texts.in_book, FileName::InBook)?;
    let out_book = text_of(rt, line.texts.out_book, FileName::OutBook)?;
    let moves = text_of(rt, line.texts.moves, FileName::Moves)?;
    prepared(rt.alloc(), &in_book, &out_book, &moves, cover)
}

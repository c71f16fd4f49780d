ghost use Rattle.std.specs.Prelude.{◌≡◌, IfErr, IfOk, IsTrue};
ghost use Rattle.std.specs.Bool.{Decides};
ghost use Rattle.cob_program_faults.specs.declared.fault.CommandFault.TheVariants.{Memory};
ghost use Rattle.cob_back_runs.specs.Keeps.{AreLossless, Keeps};
ghost use Rattle.cob_convert.specs.Means.{Means};
ghost use Rattle.cob_program_texts.specs.Answers.{is_yes, IsAnswer, IsRefusal, IsRefusedBack, IsRefusedThere, RefusesTexts};
ghost use Rattle.cob_program_texts.specs.LosslessEnds.{RefusesConversion};

use crate::refusals::{refused_back, refused_there};
use cob_back_runs::{ConversionLoss, Direction, Loss, carried, first_loss};
use cob_convert::{Converter, PrepareFault};
use cob_program_faults::CommandFault;
use cob_records::Form;
use cob_report_lossless::{DeedLines, LinedMoves, lines_of_deeds, told_loss, told_test};
use std::alloc::Global;

/// The conversion of records of fixed length that three texts say.
fn prepared(
    alloc: Global,
    in_book: &[u8],
    out_book: &[u8],
    paragraph: &[u8],
) -> Result<Converter, PrepareFault>
    ensures means { IfOk result (λ made. Means in_book.now out_book.now paragraph.now made) }
    ensures refused { IfErr result
        (λ fault. IsRefusal fault in_book.now out_book.now paragraph.now) }
{
    Converter::prepare(
        alloc,
        in_book,
        out_book,
        paragraph,
        Form::Fixed,
        Form::Fixed,
    )
}

/// The conversion from the record of the first copybook to that of the second.
fn converter_there(
    alloc: Global,
    in_book: &[u8],
    out_book: &[u8],
    there: &[u8],
) -> Result<Converter, CommandFault>
    ensures means { IfOk result (λ made. Means in_book.now out_book.now there.now made) }
    ensures refused { IfErr result
        (λ fault. IsRefusedThere fault in_book.now out_book.now there.now) }
{
    match prepared(alloc, in_book, out_book, there) {
        Ok(converter) => Ok(converter),
        Err(fault) => Err(refused_there(fault)),
    }
}

/// The conversion from the record of the second copybook to that of the first.
fn converter_back(
    alloc: Global,
    in_book: &[u8],
    out_book: &[u8],
    back: &[u8],
) -> Result<Converter, CommandFault>
    ensures means { IfOk result (λ made. Means out_book.now in_book.now back.now made) }
    ensures refused { IfErr result
        (λ fault. IsRefusedBack fault in_book.now out_book.now back.now) }
{
    match prepared(alloc, out_book, in_book, back) {
        Ok(converter) => Ok(converter),
        Err(fault) => Err(refused_back(fault)),
    }
}

/// What two copybooks and two paragraphs come to.
#[derive(Drop)]
pub enum Answer {
    /// The conversions lose nothing.
    Yes,
    /// They may lose something: the first point in which they may, in words.
    No(String),
}

/// The paragraphs there and back, as they are written.
#[derive(Clone, Copy)]
struct Paragraphs<'a> {
    there: &'a [u8],
    back: &'a [u8],
}

/// The lines of the paragraph of a conversion. It was read before, so that only memory can lack.
fn deed_lines(alloc: Global, converter: &Converter, text: &[u8]) -> Result<DeedLines, CommandFault>
    ensures { IfErr result (λ fault. fault ≡ Memory) }
{
    match lines_of_deeds(alloc, text, converter.conversion().deeds()) {
        Ok(lines) => Ok(lines),
        Err(_) => Err(CommandFault::Memory),
    }
}

/// A point in which conversions may lose something, in words; the statements of their paragraphs stand on these lines.
fn words_on<'a>(
    alloc: Global,
    forth: &'a Converter,
    home: &'a Converter,
    lines: &'a [u32],
    lines_back: &'a [u32],
    loss: Loss,
) -> Result<String, CommandFault>
    ensures { IfErr result (λ fault. fault ≡ Memory) }
{
    let there = LinedMoves {
        moves: carried(forth.conversion()),
        lines,
    };
    let back = LinedMoves {
        moves: carried(home.conversion()),
        lines: lines_back,
    };
    match told_loss(alloc, &there, &back, loss)? {
        Some(told) => Ok(format!(in alloc; "{told}")?),
        None => Ok(String::new(alloc)),
    }
}

/// The first test of a conversion, in words.
fn words_of_test(
    alloc: Global,
    converter: &Converter,
    text: &[u8],
    way: Direction,
) -> Result<String, CommandFault>
    ensures { IfErr result (λ fault. fault ≡ Memory) }
{
    let lines = deed_lines(alloc, converter, text)?;
    let conversion = converter.conversion();
    let layouts = carried(conversion).layouts;
    match told_test(layouts, conversion.deeds(), &lines, way) {
        Some(told) => Ok(format!(in alloc; "{told}")?),
        None => Ok(String::new(alloc)),
    }
}

/// A point in which the moves of conversions may lose something, in words.
fn words_of_moves(
    alloc: Global,
    forth: &Converter,
    home: &Converter,
    paragraphs: Paragraphs<'_>,
    loss: Loss,
) -> Result<String, CommandFault>
    ensures { IfErr result (λ fault. fault ≡ Memory) }
{
    let lines = deed_lines(alloc, forth, paragraphs.there)?;
    let lines_back = deed_lines(alloc, home, paragraphs.back)?;
    let words = words_on(
        alloc,
        forth,
        home,
        &lines.statements,
        &lines_back.statements,
        loss,
    )?;
    Ok(words)
}

/// A point in which conversions may lose something, in words.
fn words_of(
    alloc: Global,
    forth: &Converter,
    home: &Converter,
    paragraphs: Paragraphs<'_>,
    loss: ConversionLoss,
) -> Result<String, CommandFault>
    ensures { IfErr result (λ fault. fault ≡ Memory) }
{
    match loss {
        ConversionLoss::Test(Direction::There) => {
            words_of_test(alloc, forth, paragraphs.there, Direction::There)
        }
        ConversionLoss::Test(Direction::Back) => {
            words_of_test(alloc, home, paragraphs.back, Direction::Back)
        }
        ConversionLoss::Moves(loss) => words_of_moves(alloc, forth, home, paragraphs, loss),
    }
}

/// Whether two conversions lose nothing, and the first point in which they may lose something, in words.
fn answer_between(
    alloc: Global,
    forth: &Converter,
    home: &Converter,
    paragraphs: Paragraphs<'_>,
) -> Result<Answer, CommandFault>
    ensures exactly { IfOk result
        (λ answer. Decides (is_yes answer) (AreLossless forth.now home.now)) }
    ensures keeps { IfOk result
        (λ answer. IsTrue (is_yes answer) → Keeps forth.now home.now) }
    ensures memory { IfErr result (λ fault. fault ≡ Memory) }
{
    match first_loss(forth, home) {
        None => Ok(Answer::Yes),
        Some(loss) => {
            let words = words_of(alloc, forth, home, paragraphs, loss)?;
            Ok(Answer::No(words))
        }
    }
}

/// Whether the conversion back that the texts say brings back all that this one there takes, and the first point in which it may not, in words.
fn answer_from(
    alloc: Global,
    forth: &Converter,
    in_book: &[u8],
    out_book: &[u8],
    there: &[u8],
    back: &[u8],
) -> Result<Answer, CommandFault>
    ensures answer { Means in_book.now out_book.now there.now forth.now → IfOk result
        (λ a. IsAnswer in_book.now out_book.now there.now back.now (is_yes a)) }
    ensures refused { IfErr result
        (λ fault. IsRefusedBack fault in_book.now out_book.now back.now) }
{
    match converter_back(alloc, in_book, out_book, back) {
        Ok(home) => answer_between(alloc, forth, &home, Paragraphs { there, back }),
        Err(fault) => Err(fault),
    }
}

/// Whether the conversion back that the texts say brings back all that the one there takes, and the first point in which it may not, in words.
///
/// # Errors
///
/// The first text that is refused, those of the conversion there before those of the one back; want of memory.
pub fn answer_of(
    alloc: Global,
    in_book: &[u8],
    out_book: &[u8],
    there: &[u8],
    back: &[u8],
) -> Result<Answer, CommandFault>
    ensures answer { IfOk result
        (λ answer. IsAnswer in_book.now out_book.now there.now back.now (is_yes answer)) }
    ensures refused { IfErr result
        (λ fault. RefusesTexts fault in_book.now out_book.now there.now back.now) }
    ensures may { IfErr result RefusesConversion }
{
    match converter_there(alloc, in_book, out_book, there) {
        Ok(forth) => answer_from(alloc, &forth, in_book, out_book, there, back),
        Err(fault) => Err(fault),
    }
}

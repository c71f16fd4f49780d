//! The command.

ghost use Rattle.std.specs.Prelude.{◌<◌, IfErr};
ghost use Rattle.cob_records.specs.Forms.{HasBlockSize};
ghost use Rattle.cob_program_faults.specs.Ends.{EndsAtRecord};
ghost use Rattle.cob_program_map.specs.Books.{HaveTheirNames};
ghost use Rattle.cob_program_map.specs.Ends.{MayNotMap};

use crate::books::{NamedBook, NamedBooks, names_of_book};
use crate::ends::{Unmapped, tell_mapped};
use crate::mapping::print_conversion;
use cob_convert::{Converter, Status};
use cob_convert_record::Conversion;
use cob_program_faults::{CommandFault, FileName, judge_lrecl, text_of};
use cob_program_line::MapLine;
use cob_report_lossless::lines_of_deeds;
use std::io::{Eprint, Input, Print};
use std::rt::Files;

/// Prints the page of a conversion between these copybooks, which this paragraph says.
fn print_lined<R: AllocGlobal + Files + Input + Print>(
    rt: &R,
    line: &MapLine<'_>,
    books: NamedBooks<'_>,
    conversion: &Conversion,
    moves: &[u8],
) -> Result<(), Unmapped>
    requires record { 0 < line.now.record }
    requires names { HaveTheirNames books }
    ensures { IfErr result MayNotMap }
{
    match lines_of_deeds(rt.alloc(), moves, conversion.deeds()) {
        Ok(lines) => print_conversion(rt, line, books, conversion, lines.statements.as_slice()),
        // The paragraph was read before, so that only memory can lack.
        Err(_) => Err(Unmapped::Fault(CommandFault::Memory)),
    }
}

/// Reads the condition-names of both copybooks, and prints the page of the conversion between them, which this paragraph says.
fn print_named<R: AllocGlobal + Files + Input + Print>(
    rt: &R,
    line: &MapLine<'_>,
    in_book: &[u8],
    out_book: &[u8],
    conversion: &Conversion,
    moves: &[u8],
) -> Result<(), Unmapped>
    requires { 0 < line.now.record }
    ensures { IfErr result MayNotMap }
{
    let in_names = names_of_book(rt.alloc(), in_book)?;
    let out_names = names_of_book(rt.alloc(), out_book)?;
    let books = NamedBooks {
        input: NamedBook {
            text: in_book,
            names: in_names.as_slice(),
        },
        output: NamedBook {
            text: out_book,
            names: out_names.as_slice(),
        },
    };
    print_lined(rt, line, books, conversion, moves)
}

/// Prints the page of the conversion that three texts say, where its records fit the record length that the input is said to have.
fn print_fitting<R: AllocGlobal + Files + Input + Print>(
    rt: &R,
    line: &MapLine<'_>,
    in_book: &[u8],
    out_book: &[u8],
    converter: &Converter,
    moves: &[u8],
) -> Result<(), Unmapped>
    requires { 0 < line.now.record }
    ensures { IfErr result MayNotMap }
{
    let greatest = converter.in_length();
    judge_lrecl(FileName::InBook, line.forms.input, line.lrecl, greatest)?;
    print_named(rt, line, in_book, out_book, converter.conversion(), moves)
}

/// Prints the page of the conversion that three texts say.
fn print_texts<R: AllocGlobal + Files + Input + Print>(
    rt: &R,
    line: &MapLine<'_>,
    in_book: &[u8],
    out_book: &[u8],
    moves: &[u8],
) -> Result<(), Unmapped>
    requires in_block { HasBlockSize line.now.forms.input }
    requires out_block { HasBlockSize line.now.forms.output }
    requires record { 0 < line.now.record }
    ensures { IfErr result MayNotMap }
{
    match Converter::prepare_with(
        rt.alloc(),
        in_book,
        out_book,
        moves,
        line.forms.input,
        line.forms.output,
        line.forms.reading,
    ) {
        Ok(converter) => print_fitting(rt, line, in_book, out_book, &converter, moves),
        Err(refused) => Err(Unmapped::Fault(CommandFault::from(refused))),
    }
}

/// Prints the page of a mapping on standard output, with a record where one is named.
///
/// # Errors
///
/// A file that is not opened or not read, a text that is refused, a record that is not there or that stops, a page that is not printed, want of memory.
pub fn print_map<R: AllocGlobal + Files + Input + Print>(
    rt: &R,
    line: &MapLine<'_>,
) -> Result<(), Unmapped>
    requires in_block { HasBlockSize line.now.forms.input }
    requires out_block { HasBlockSize line.now.forms.output }
    requires record { 0 < line.now.record }
    ensures { IfErr result MayNotMap }
{
    let in_book = text_of(rt, line.texts.in_book, FileName::InBook)?;
    let out_book = text_of(rt, line.texts.out_book, FileName::OutBook)?;
    let moves = text_of(rt, line.texts.moves, FileName::Moves)?;
    print_texts(rt, line, &in_book, &out_book, &moves)
}

/// Prints the page of a mapping, or what is at fault, and answers how the program ends.
pub fn do_map<R: AllocGlobal + Files + Input + Print + Eprint>(rt: &R, line: &MapLine<'_>) -> Status
    requires in_block { HasBlockSize line.now.forms.input }
    requires out_block { HasBlockSize line.now.forms.output }
    requires record { 0 < line.now.record }
    ensures { EndsAtRecord result }
{
    tell_mapped(rt, print_map(rt, line))
}

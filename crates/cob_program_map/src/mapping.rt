//! The page, made of what was read, and printed.

ghost use Rattle.std.specs.Prelude.{◌<◌, IfErr, IfOk};
ghost use Rattle.cob_report_cover.specs.Covered.{AreMarks, IsByteCovered};
ghost use Rattle.cob_report_cover.specs.Losing.{AreAllLosses};
ghost use Rattle.cob_program_map.specs.Books.{HaveTheirNames};
ghost use Rattle.cob_program_map.specs.Told.{AreAllTold};
ghost use Rattle.cob_program_map.specs.Ends.{MayNotMap};

use crate::books::NamedBooks;
use crate::drawn::{converted_of, record_shown};
use crate::ends::Unmapped;
use crate::shown::Shown;
use cob_back_losses::{Losses, Unkept, descriptions_lost};
use cob_back_runs::{MovesBetween, carried, tested_statements};
use cob_convert_record::Conversion;
use cob_program_faults::CommandFault;
use cob_program_line::MapLine;
use cob_report_cover::{bytes_covered, losses_in};
use cob_report_map::{ConditionNames, Converted, Mapping, Page, TextNames};
use std::alloc::{AllocError, Global};
use std::io::{Input, Print};
use std::rt::Files;

/// What stands on the page beside both records and their moves: the bytes of the output record that are covered, what single moves may lose, and by which bytes
/// they may lose their description.
#[derive(Drop)]
struct PageMarks {
    covered: Vec<bool>,
    losses: Vec<Losses>,
    descriptions: Vec<Option<Unkept>>,
}

/// The statements of moves by their text: the lines of all, and before which of them a test stands.
#[derive(Clone, Copy)]
struct StatementText<'a> {
    lines: &'a [u32],
    tested: &'a [bool],
}

/// A record that is shown, as it is drawn, where one is.
fn converted_in(shown: &Option<Shown>) -> Option<Converted<'_>> {
    match shown {
        Some(shown) => Some(converted_of(shown)),
        None => None,
    }
}

/// What stands on the page of these moves.
fn marks_of(alloc: Global, moves: &MovesBetween<'_>) -> Result<PageMarks, AllocError>
    ensures covered { IfOk result
        (λ marks. AreMarks (IsByteCovered moves.now) marks.covered.items) }
    ensures losses { IfOk result (λ marks.
        AreAllLosses moves.now.layouts moves.now.statements.now marks.losses.items) }
    ensures descriptions { IfOk result (λ marks.
        AreAllTold moves.now marks.descriptions.items) }
{
    let covered = bytes_covered(alloc, moves)?;
    let losses = losses_in(alloc, moves)?;
    let descriptions = descriptions_lost(alloc, moves)?;
    Ok(PageMarks {
        covered,
        losses,
        descriptions,
    })
}

/// The names of the files of the texts, as they are told.
fn names_of<'a>(line: &MapLine<'a>) -> TextNames<'a> {
    TextNames {
        in_book: line.told.in_book,
        out_book: line.told.out_book,
        moves: line.told.moves,
    }
}

/// A mapping between these copybooks as it is drawn.
fn mapping_of<'a>(
    moves: &MovesBetween<'a>,
    names: TextNames<'a>,
    books: NamedBooks<'a>,
    statements: StatementText<'a>,
    marks: &'a PageMarks,
    shown: &'a Option<Shown>,
) -> Mapping<'a>
    requires names { HaveTheirNames books }
    requires covered { AreMarks (IsByteCovered moves.now) marks.now.covered.items }
    requires losses { AreAllLosses moves.now.layouts moves.now.statements.now
        marks.now.losses.items }
    requires descriptions { AreAllTold moves.now marks.now.descriptions.items }
{
    Mapping {
        input: moves.layouts.input,
        output: moves.layouts.output,
        statements: moves.statements,
        lines: statements.lines,
        tested: statements.tested,
        names,
        conditions: ConditionNames {
            input: books.input.names,
            output: books.output.names,
        },
        covered: marks.covered.as_slice(),
        losses: marks.losses.as_slice(),
        descriptions: marks.descriptions.as_slice(),
        converted: converted_in(shown),
    }
}

/// Prints the page of a mapping.
fn print_page<R: AllocGlobal + Print>(rt: &R, mapping: &Mapping<'_>) -> Result<(), Unmapped>
    ensures { IfErr result MayNotMap }
{
    let page = Page::new(rt.alloc(), mapping)?;
    match print!(rt; "{page}") {
        Ok(()) => Ok(()),
        Err(_) => Err(Unmapped::Fault(CommandFault::Unprinted)),
    }
}

/// Prints the page of these moves, with what stands on it and the record that is shown.
fn print_marked<R: AllocGlobal + Print>(
    rt: &R,
    line: &MapLine<'_>,
    books: NamedBooks<'_>,
    moves: &MovesBetween<'_>,
    statements: StatementText<'_>,
    marks: &PageMarks,
    shown: &Option<Shown>,
) -> Result<(), Unmapped>
    requires names { HaveTheirNames books }
    requires covered { AreMarks (IsByteCovered moves.now) marks.now.covered.items }
    requires losses { AreAllLosses moves.now.layouts moves.now.statements.now
        marks.now.losses.items }
    requires descriptions { AreAllTold moves.now marks.now.descriptions.items }
    ensures { IfErr result MayNotMap }
{
    let mapping = mapping_of(moves, names_of(line), books, statements, marks, shown);
    print_page(rt, &mapping)
}

/// Reads the record that is to be shown, and prints the page of these moves of a conversion.
fn print_shown<R: AllocGlobal + Files + Input + Print>(
    rt: &R,
    line: &MapLine<'_>,
    books: NamedBooks<'_>,
    conversion: &Conversion,
    moves: &MovesBetween<'_>,
    statements: StatementText<'_>,
    marks: &PageMarks,
) -> Result<(), Unmapped>
    requires record { 0 < line.now.record }
    requires names { HaveTheirNames books }
    requires covered { AreMarks (IsByteCovered moves.now) marks.now.covered.items }
    requires losses { AreAllLosses moves.now.layouts moves.now.statements.now
        marks.now.losses.items }
    requires descriptions { AreAllTold moves.now marks.now.descriptions.items }
    ensures { IfErr result MayNotMap }
{
    let shown = record_shown(rt, conversion, line)?;
    print_marked(rt, line, books, moves, statements, marks, &shown)
}

/// Prints the page of a conversion between these copybooks, of whose statements these are the lines.
///
/// # Errors
///
/// A file that is not opened, a record that is not there or that stops, a page that is not printed, want of memory.
pub(crate) fn print_conversion<R: AllocGlobal + Files + Input + Print>(
    rt: &R,
    line: &MapLine<'_>,
    books: NamedBooks<'_>,
    conversion: &Conversion,
    lines: &[u32],
) -> Result<(), Unmapped>
    requires record { 0 < line.now.record }
    requires names { HaveTheirNames books }
    ensures { IfErr result MayNotMap }
{
    let moves = carried(conversion);
    let tested = tested_statements(rt.alloc(), conversion, moves.statements)?;
    let marks = marks_of(rt.alloc(), &moves)?;
    let statements = StatementText {
        lines,
        tested: tested.as_slice(),
    };
    print_shown(rt, line, books, conversion, &moves, statements, &marks)
}

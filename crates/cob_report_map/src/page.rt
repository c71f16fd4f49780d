//! The page.

ghost use Rattle.std.specs.Prelude.{IfOk};
ghost use Rattle.cob_report_map.specs.Joined.{ends_in};
ghost use Rattle.cob_report_map.specs.Named.{HaveNamesOf};
ghost use Rattle.cob_report_html.specs.Ends.{AreCountsAtFirsts};

use crate::aligned::aligned;
use crate::joined::{ends_of, marked_ends, tested_ends};
use crate::lines::{Group, Sides, write_constant_text, write_line};
use crate::lists::{write_move, write_runs};
use crate::lost::Lost;
use crate::style::{
    BARE_HEAD, BYTES_HEAD, CONSTANTS_END, DRAWING_END, HEAD, LINES_END, LIST_END, MOVES_HEAD,
    NAMES_STYLE, PAGE_END, RIBBONS_END, RIBBONS_HEAD, STYLE, TESTED_KEY,
};
use crate::tiles::{Counted, count_bare, write_tiles};
use crate::tones::{Tones, tones_of};
use cob_back_losses::{Losses, Unkept};
use cob_copybook_conditions::ConditionName;
use cob_layout::{Layout, Spot};
use cob_move_data::StatementMoves;
use cob_report_boxes::{
    Drawn, EntryRow, GivenRecord, rows_of_entries, write_boxes, write_bytes, write_ribbon,
};
use cob_report_html::{Escaped, SHEET, counts_of, tops_of};
use cob_report_lossless::{LinedSingle, singles_of};
use cob_report_words::NamedOccurrence;
use std::alloc::{AllocError, Global};
use std::fmt;

/// What stands between the parts of the line below the page's heading.
const BETWEEN: &str = " &#183; ";

/// How high the head of the page is on paper.
const HEAD_HEIGHT: u32 = 190;

/// Where the first box begins.
const FIRST_TOP: u32 = 0;

/// A record that is given: where its entries stand, by their numbers, and its bytes.
#[derive(Clone, Copy)]
pub struct Record<'a> {
    pub spots: &'a [Spot],
    pub bytes: &'a [u8],
}

/// A record, and what it becomes.
#[derive(Clone, Copy)]
pub struct Converted<'a> {
    /// Its number in its file.
    pub number: u64,
    pub input: Record<'a>,
    pub output: Record<'a>,
}

/// The names of the files from which the texts were read.
#[derive(Clone, Copy)]
pub struct TextNames<'a> {
    pub in_book: &'a str,
    pub out_book: &'a str,
    pub moves: &'a str,
}

/// The condition-names of both copybooks.
#[derive(Clone, Copy)]
pub struct ConditionNames<'a> {
    pub input: &'a [ConditionName],
    pub output: &'a [ConditionName],
}

/// What is drawn.
#[derive(Clone, Copy)]
pub struct Mapping<'a> {
    pub input: &'a Layout,
    pub output: &'a Layout,
    pub statements: &'a [StatementMoves],
    /// The lines of the statements.
    pub lines: &'a [u32],
    /// Of each statement, whether a test stands before it.
    pub tested: &'a [bool],
    pub names: TextNames<'a>,
    pub conditions: ConditionNames<'a>,
    /// Of each byte of the output record, whether a receiver covers it.
    pub covered: &'a [bool],
    /// What each single move may lose.
    pub losses: &'a [Losses],
    /// Of each single move, the first byte by which it may lose its description.
    pub descriptions: &'a [Option<Unkept>],
    /// A record that is given.
    pub converted: Option<Converted<'a>>,
}

/// The single moves, and of each how many join the same, where it is the first of them, whether one of those that join the same may lose its
/// description, and whether a test stands before all of them.
#[derive(Drop)]
struct Joins<'a> {
    singles: Vec<LinedSingle<'a>>,
    counts: Vec<Option<usize>>,
    undescribed: Vec<bool>,
    tested: Vec<bool>,
}

/// A mapping, which prints as a page.
#[derive(Drop)]
pub struct Page<'a> {
    mapping: Mapping<'a>,
    sides: Sides<'a>,
    joins: Joins<'a>,
}

/// A record that is given, as it is drawn.
fn contents_of<'a>(record: Record<'a>) -> GivenRecord<'a> {
    GivenRecord {
        spots: record.spots,
        bytes: record.bytes,
    }
}

/// The record that is given on one side, as it is drawn.
fn given<'a>(record: Option<Record<'a>>) -> Option<GivenRecord<'a>> {
    match record {
        Some(record) => Some(contents_of(record)),
        None => None,
    }
}

/// Both records that are given, as they are drawn.
fn given_records<'a>(mapping: &Mapping<'a>) -> (Option<GivenRecord<'a>>, Option<GivenRecord<'a>>) {
    match mapping.converted {
        Some(one) => (given(Some(one.input)), given(Some(one.output))),
        None => (None, None),
    }
}

/// Both records as they are drawn, with these rows and tones.
fn drawn_sides<'a>(
    alloc: Global,
    mapping: &Mapping<'a>,
    from: Vec<EntryRow>,
    to: Vec<EntryRow>,
    tones: Tones,
) -> Result<Sides<'a>, AllocError>
    ensures { IfOk result (HaveNamesOf mapping.now.conditions) }
{
    let boxes = aligned(alloc, FIRST_TOP, &from, &to, &tones.partners)?;
    let (input, output) = given_records(mapping);
    let input = Drawn {
        layout: mapping.input,
        names: mapping.conditions.input,
        letter: "i",
        contents: input,
        covered: &[],
        receives: false,
        tones: tones.input,
        rows: from,
        tops: tops_of(alloc, FIRST_TOP, &boxes.input)?,
    };
    let output = Drawn {
        layout: mapping.output,
        names: mapping.conditions.output,
        letter: "o",
        contents: output,
        covered: mapping.covered,
        receives: true,
        tones: tones.output,
        rows: to,
        tops: tops_of(alloc, FIRST_TOP, &boxes.output)?,
    };
    Ok(Sides { input, output })
}

/// Both records as they are drawn.
fn sides_of<'a>(alloc: Global, mapping: &Mapping<'a>) -> Result<Sides<'a>, AllocError>
    ensures { IfOk result (HaveNamesOf mapping.now.conditions) }
{
    let (input, output) = given_records(mapping);
    let ConditionNames {
        input: in_names,
        output: out_names,
    } = mapping.conditions;
    let from = rows_of_entries(alloc, mapping.input, in_names, input)?;
    let to = rows_of_entries(alloc, mapping.output, out_names, output)?;
    let singles = singles_of(alloc, mapping.statements, mapping.lines)?;
    let tones = tones_of(
        alloc,
        &from,
        &to,
        &singles,
        mapping.losses,
        mapping.descriptions,
    )?;
    drawn_sides(alloc, mapping, from, to, tones)
}

/// Of each single move of statements how many join the same, where it is the first of them.
fn counts_in(alloc: Global, statements: &[StatementMoves]) -> Result<Vec<Option<usize>>, AllocError>
    ensures { IfOk result (λ counts. AreCountsAtFirsts (ends_in statements.now) counts.items) }
{
    let ends = ends_of(alloc, statements)?;
    counts_of(alloc, &ends)
}

/// Of each single move of a mapping whether one of those that join the same may lose its description.
fn undescribed_in(alloc: Global, mapping: &Mapping<'_>) -> Result<Vec<bool>, AllocError> {
    let ends = ends_of(alloc, mapping.statements)?;
    marked_ends(alloc, &ends, mapping.descriptions)
}

/// Of each single move of a mapping whether a test stands before all of those that join the same.
fn tested_in(alloc: Global, mapping: &Mapping<'_>) -> Result<Vec<bool>, AllocError> {
    let ends = ends_of(alloc, mapping.statements)?;
    tested_ends(alloc, mapping.statements, &ends, mapping.tested)
}

/// The single moves of a mapping, and how many join the same.
fn joins_of<'a>(alloc: Global, mapping: &Mapping<'a>) -> Result<Joins<'a>, AllocError> {
    let singles = singles_of(alloc, mapping.statements, mapping.lines)?;
    let undescribed = undescribed_in(alloc, mapping)?;
    let tested = tested_in(alloc, mapping)?;
    match counts_in(alloc, mapping.statements) {
        Ok(counts) => Ok(Joins {
            singles,
            counts,
            undescribed,
            tested,
        }),
        Err(refused) => Err(refused),
    }
}

impl<'a> Page<'a> {
    /// The page of a mapping.
    ///
    /// # Errors
    ///
    /// Where no memory is left.
    pub fn new(alloc: Global, mapping: &Mapping<'a>) -> Result<Page<'a>, AllocError>
        // Each record is drawn with the condition-names of its own copybook.
        ensures { IfOk result (λ page. HaveNamesOf mapping.now.conditions page.sides) }
    {
        let sides = sides_of(alloc, mapping)?;
        match joins_of(alloc, mapping) {
            Ok(joins) => Ok(Page {
                mapping: *mapping,
                sides,
                joins,
            }),
            Err(refused) => Err(refused),
        }
    }
}

/// What is written of single moves that join the same, at the first of them: their line, the text of a constant, or a row of the list.
#[derive(Clone, Copy)]
enum Writing {
    Line,
    Constant,
    Row,
}

/// Writes one of these of single moves, of which this is the first.
fn write_one<'a, W: fmt::Write>(
    f: &mut fmt::Formatter<W>,
    page: &Page<'a>,
    writing: Writing,
    group: Group<'a>,
) -> fmt::Result {
    match writing {
        Writing::Row => write_move(f, &page.sides, group),
        Writing::Line => write_line(f, &page.sides, group),
        Writing::Constant => write_constant_text(f, &page.sides, group),
    }
}

/// Writes one of these for the single moves that join the same, at the first of them.
fn write_joined<W: fmt::Write>(
    f: &mut fmt::Formatter<W>,
    page: &Page<'_>,
    writing: Writing,
) -> fmt::Result {
    let joins = &page.joins;
    let losses = page.mapping.losses.iter();
    let marks = losses
        .zip(joins.undescribed.iter())
        .zip(joins.tested.iter());
    for ((single, count), ((losses, undescribed), tested)) in joins
        .singles
        .iter()
        .zip(joins.counts.iter())
        .zip(marks)
    {
        if let Some(count) = count {
            let lost = Lost {
                losses: *losses,
                description: *undescribed,
            };
            let group = Group {
                first: *single,
                count: *count,
                lost,
                tested: *tested,
            };
            write_one(f, page, writing, group)?;
        }
    }
    Ok(())
}

/// The record of a layout, by its name.
fn record_name(layout: &Layout) -> NamedOccurrence<'_> {
    NamedOccurrence::new(layout.root(), 0, &[])
}

/// Writes the page's head, and the first line of its body.
fn write_head<W: fmt::Write>(f: &mut fmt::Formatter<W>, mapping: &Mapping<'_>) -> fmt::Result {
    let (input, output) = (record_name(mapping.input), record_name(mapping.output));
    f.write_str(HEAD)?;
    write!(f, "<title>{input} to {output}</title>\n<style>")?;
    f.write_str(STYLE)?;
    let names = mapping.conditions;
    if !names.input.is_empty() || !names.output.is_empty() {
        f.write_str(NAMES_STYLE)?;
    }
    writeln!(
        f,
        "</style></head><body>\n<h1>{input} <span>to</span> {output}</h1>"
    )
}

/// Writes the names of the texts, and the number of the record that is shown.
fn write_names<W: fmt::Write>(f: &mut fmt::Formatter<W>, mapping: &Mapping<'_>) -> fmt::Result {
    let names = mapping.names;
    let in_book = Escaped {
        text: names.in_book,
    };
    let out_book = Escaped {
        text: names.out_book,
    };
    let moves = Escaped { text: names.moves };
    write!(f, "<p>{in_book}, {out_book}, {moves}")?;
    if let Some(converted) = mapping.converted {
        write!(f, "{BETWEEN}record {}", converted.number)?;
    }
    let (from, to) = (mapping.input.greatest(), mapping.output.greatest());
    writeln!(f, "{BETWEEN}{from} bytes in, {to} bytes out</p>")
}

/// Writes the tiles, and below them the ribbons of both records.
fn write_summary<W: fmt::Write>(f: &mut fmt::Formatter<W>, page: &Page<'_>) -> fmt::Result {
    let Mapping {
        losses,
        descriptions,
        covered,
        ..
    } = page.mapping;
    let counted = Counted {
        singles: page.joins.singles.as_slice(),
        losses,
        descriptions,
        covered,
    };
    write_tiles(f, &page.sides, counted)?;
    f.write_str(RIBBONS_HEAD)?;
    write_ribbon(f, &page.sides.input)?;
    write_ribbon(f, &page.sides.output)?;
    f.write_str(RIBBONS_END)
}

/// Writes the boxes of a record.
fn write_side<W: fmt::Write>(
    f: &mut fmt::Formatter<W>,
    drawn: &Drawn<'_>,
    class: &'static str,
) -> fmt::Result {
    writeln!(f, "<div class=\"side {class}\">")?;
    write_boxes(f, drawn)?;
    f.write_str("</div>\n")
}

/// Writes the drawing.
fn write_drawing<W: fmt::Write>(f: &mut fmt::Formatter<W>, page: &Page<'_>) -> fmt::Result {
    let (input, output) = (&page.sides.input, &page.sides.output);
    let height = input.whole_height().max(output.whole_height());
    // A drawing that has no room below the head of the page begins on a sheet of its own.
    let class = if height < SHEET - HEAD_HEIGHT {
        "map"
    } else {
        "map long"
    };
    writeln!(f, "<div class=\"{class}\" style=\"--h:{height}\">")?;
    write_side(f, input, "in")?;
    writeln!(
        f,
        "<svg class=\"lines\" viewBox=\"0 0 100 {height}\" preserveAspectRatio=\"none\">"
    )?;
    write_joined(f, page, Writing::Line)?;
    f.write_str(LINES_END)?;
    write_joined(f, page, Writing::Constant)?;
    f.write_str(CONSTANTS_END)?;
    write_side(f, output, "out")?;
    f.write_str(DRAWING_END)
}

/// Writes the list of moves.
fn write_moves<W: fmt::Write>(f: &mut fmt::Formatter<W>, page: &Page<'_>) -> fmt::Result {
    f.write_str(MOVES_HEAD)?;
    write_joined(f, page, Writing::Row)?;
    f.write_str(LIST_END)
}

/// Writes the list of bytes that no receiver covers, where there are some.
fn write_bare_bytes<W: fmt::Write>(f: &mut fmt::Formatter<W>, page: &Page<'_>) -> fmt::Result {
    if count_bare(page.mapping.covered) == 0 {
        return Ok(());
    }
    f.write_str(BARE_HEAD)?;
    write_runs(f, &page.sides.output)?;
    f.write_str(LIST_END)
}

/// Writes the list of the bytes of both records, where they are given.
fn write_all_bytes<W: fmt::Write>(f: &mut fmt::Formatter<W>, page: &Page<'_>) -> fmt::Result {
    if page.mapping.converted.is_none() {
        return Ok(());
    }
    f.write_str(BYTES_HEAD)?;
    write_bytes(f, &page.sides.input)?;
    write_bytes(f, &page.sides.output)?;
    f.write_str(LIST_END)
}

impl fmt::Display for Page<'_> {
    fn fmt<W: fmt::Write>(&self, f: &mut fmt::Formatter<W>) -> fmt::Result {
        write_head(f, &self.mapping)?;
        write_names(f, &self.mapping)?;
        write_summary(f, self)?;
        if !self.mapping.tested.iter().all(|tested| !*tested) {
            f.write_str(TESTED_KEY)?;
        }
        write_drawing(f, self)?;
        write_moves(f, self)?;
        write_bare_bytes(f, self)?;
        write_all_bytes(f, self)?;
        f.write_str(PAGE_END)
    }
}

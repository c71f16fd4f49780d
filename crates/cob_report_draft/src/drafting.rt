//! A paragraph to begin with.

use crate::compared::fits;
use crate::counts::counts_among;
use crate::instead::{SEVERAL, UNNAMED};
use crate::pairs::{Records, has_namesake, is_own_group, is_own_item, paired};
use crate::progress::{DraftProgress, Saying};
use crate::words::CounterNames;
use crate::writing::DraftText;
use cob_layout::Layout;
use cob_limits::MAX_SUBSCRIPTS;
use cob_report_partners::{DraftBearer, Partner, Prefixes, counter_name};
use std::alloc::{AllocError, Global};
use std::fmt;

/// What a draft lacks.
#[derive(Clone, Copy, PartialEq, Eq)]
pub enum Lacking {
    /// A statement.
    Statement,
    /// Lines for which a text has no room.
    Lines,
    /// Statements for which its loops have no room.
    Turns,
    /// A statement, where both records have one name, so that none tells two of their entries apart.
    TwoNames,
    /// A name of the input record that begins with its prefix.
    InputPrefix,
    /// A name of the output record that begins with its prefix.
    OutputPrefix,
}

impl fmt::Display for Lacking {
    fn fmt<W: fmt::Write>(&self, f: &mut fmt::Formatter<W>) -> fmt::Result {
        f.write_str(match self {
            Lacking::Statement => "the paragraph lacks a statement",
            Lacking::Lines => "the paragraph lacks the lines that its text has no room for",
            Lacking::Turns => "the paragraph lacks the statements that its loops have no room for",
            Lacking::TwoNames => {
                "the paragraph lacks a statement: both records have one name, say --records-as in-out"
            }
            Lacking::InputPrefix => "no name of the input record begins with its prefix",
            Lacking::OutputPrefix => "no name of the output record begins with its prefix",
        })
    }
}

/// A draft: the text of a paragraph, and what it lacks, if it lacks something.
#[derive(Drop)]
pub struct Draft {
    pub text: String,
    pub lacking: Option<Lacking>,
}

impl<'s, 'a> DraftProgress<'s, 'a> {
    /// Adds what there is of an item of the output record.
    fn push_item(
        &mut self,
        records: &'s Records<'a>,
        to: &'s DraftBearer<'a>,
    ) -> Result<(), AllocError> {
        match records.partner_of(self.alloc, to)? {
            Partner::Missing => Ok(()),
            Partner::Several => self.push_piece(to, Saying::Noted(SEVERAL)),
            Partner::One(from) => match paired(&records.both, from, to) {
                Some(pair) => self.push_item_from(records, &pair),
                None => self.push_piece(to, Saying::Noted(UNNAMED)),
            },
        }
    }

    /// Adds what there is of each item and each group of the output record.
    fn push_statements(&mut self, records: &'s Records<'a>) -> Result<(), AllocError> {
        let mut next = 0;
        for (number, to) in records.both.outputs().iter().enumerate() {
            if number < next {
                continue;
            }
            if is_own_item(to) {
                self.push_item(records, to)?;
            } else if is_own_group(to) && self.push_group(records, to)? {
                next = to.entry.last.saturating_add(1);
            }
        }
        Ok(())
    }

    /// Adds all statements, as often as that needs.
    fn push_all(&mut self, records: &'s Records<'a>) -> Result<(), AllocError> {
        self.push_statements(records)?;
        if records.output.varies() {
            self.begin_again();
            self.push_statements(records)?;
        }
        Ok(())
    }
}

/// What a draft lacks.
fn lacking_in(progress: &DraftProgress<'_, '_>, text: &DraftText) -> Option<Lacking> {
    if text.lines.is_cut {
        return Some(Lacking::Lines);
    }
    if progress.is_full {
        return Some(Lacking::Turns);
    }
    if progress.pairs.is_empty() {
        return Some(Lacking::Statement);
    }
    None
}

/// The letters with which the names of counters begin, that of the outermost loop first.
const LETTERS: [u8; MAX_SUBSCRIPTS] = *b"IJKLMNO";

/// Adds the name of a counter with this letter, if there is one, and answers whether there is.
fn push_counter(
    alloc: Global,
    records: &Records<'_>,
    letter: u8,
    counters: &mut CounterNames,
) -> Result<bool, AllocError> {
    match counter_name(alloc, &records.both, letter)? {
        Some(name) => {
            counters.push(name)?;
            Ok(true)
        }
        None => Ok(false),
    }
}

/// The names of the counters of loops in one another, that of the outermost first.
fn counters_of(alloc: Global, records: &Records<'_>) -> Result<CounterNames, AllocError> {
    let mut counters = Vec::new(alloc);
    for letter in LETTERS {
        if !push_counter(alloc, records, letter, &mut counters)? {
            break;
        }
    }
    Ok(counters)
}

/// What a draft comes to. The move of a count stands only where a statement fills its table, which is found out where all such moves stand. So a draft of tables
/// that vary is made once more, where the moves of those counts stand alone.
fn progress_of<'s, 'a>(
    alloc: Global,
    records: &'s Records<'a>,
) -> Result<DraftProgress<'s, 'a>, AllocError> {
    let counts = counts_among(alloc, records.both.outputs())?;
    let mut progress = DraftProgress::new(alloc, records, counts)?;
    progress.push_all(records)?;
    Ok(progress)
}

impl DraftText {
    /// Adds all that a draft has come to.
    fn push_progress(
        &mut self,
        records: &Records<'_>,
        progress: &DraftProgress<'_, '_>,
    ) -> Result<(), AllocError> {
        self.push_pieces(records, progress)?;
        self.push_unfilled(records, &progress.received)?;
        self.push_untaken(records.both.inputs(), &progress.sent)
    }
}

/// The draft that has this text.
fn draft_in(progress: &DraftProgress<'_, '_>, text: DraftText) -> Draft {
    let lacking = lacking_in(progress, &text);
    Draft {
        text: text.lines.text,
        lacking,
    }
}

/// The draft that is written of what it has come to.
fn written(
    alloc: Global,
    records: &Records<'_>,
    progress: &DraftProgress<'_, '_>,
) -> Result<Draft, AllocError> {
    let mut text = DraftText::new(alloc, counters_of(alloc, records)?);
    text.push_progress(records, progress)?;
    Ok(draft_in(progress, text))
}

/// Whether both records have a name, and it is one.
fn have_one_name(records: &Records<'_>) -> bool {
    let input = records.both.inputs().get(..1);
    match (input, records.both.outputs().first()) {
        (Some(input), Some(output)) => has_namesake(input, output),
        _ => false,
    }
}

/// Whose names do not begin with its prefix, if there is such a record. Of one prefix for both records, one of them has to have it.
fn unfit(records: &Records<'_>, prefixes: Prefixes<'_>) -> Option<Lacking> {
    let input = fits(prefixes.input, records.both.inputs());
    let output = fits(prefixes.output, records.both.outputs());
    let one_fits = prefixes.input == prefixes.output && (input || output);
    if one_fits || (input && output) {
        return None;
    }
    if input {
        Some(Lacking::OutputPrefix)
    } else {
        Some(Lacking::InputPrefix)
    }
}

/// What a draft is told to lack: first the names that a prefix asks for.
fn lacking_told(
    records: &Records<'_>,
    prefixes: Prefixes<'_>,
    lacking: Option<Lacking>,
) -> Option<Lacking> {
    match (unfit(records, prefixes), lacking) {
        (Some(unfit), _) => Some(unfit),
        (None, Some(Lacking::Statement)) if have_one_name(records) => Some(Lacking::TwoNames),
        (None, lacking) => lacking,
    }
}

/// A draft between two records.
fn draft_between(
    alloc: Global,
    records: &Records<'_>,
    prefixes: Prefixes<'_>,
) -> Result<Draft, AllocError> {
    let progress = progress_of(alloc, records)?;
    let Draft { text, lacking } = written(alloc, records, &progress)?;
    Ok(Draft {
        text,
        lacking: lacking_told(records, prefixes, lacking),
    })
}

/// A paragraph to begin with, between the records of two layouts. Names are compared without these prefixes, and written as they are.
///
/// # Errors
///
/// Where no memory is left.
pub fn draft_of(
    alloc: Global,
    input: &Layout,
    output: &Layout,
    prefixes: Prefixes<'_>,
) -> Result<Draft, AllocError> {
    let mut records = Records::of(alloc, input, output)?;
    records.compare_behind(alloc, prefixes)?;
    draft_between(alloc, &records, prefixes)
}

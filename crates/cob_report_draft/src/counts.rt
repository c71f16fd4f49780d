//! The counts of tables that vary: to which of them something is moved, and the tables of which are filled.

use crate::pairs::{PartnerPair, Records, is_item, number_of};
use cob_report_partners::{CountMove, DraftBearer, DraftCounts};
use std::alloc::{AllocError, Global};
use std::mem::replace;

/// What a draft has done with the counts of the output record.
#[derive(Drop)]
pub(crate) struct CountProgress {
    /// The moves to them that stand where their tables are filled.
    moved: Vec<CountMove>,
    /// The numbers of those that may be moved.
    filled: Vec<usize>,
    /// The numbers of those whose tables have statements.
    filling: Vec<usize>,
}

/// Whether an entry is the count of a table.
pub(crate) fn is_count(bearer: &DraftBearer<'_>) -> bool {
    bearer.entry.counts && is_item(bearer)
}

/// The numbers of the counts of a record that has these entries.
pub(crate) fn counts_among(
    alloc: Global,
    entries: &[DraftBearer<'_>],
) -> Result<Vec<usize>, AllocError> {
    let mut counts = Vec::new(alloc);
    for entry in entries {
        if is_count(entry) {
            counts.push(number_of(entry))?;
        }
    }
    Ok(counts)
}

impl CountProgress {
    /// Nothing yet, where the counts with these numbers may be moved.
    pub(crate) fn new(alloc: Global, filled: Vec<usize>) -> CountProgress {
        CountProgress {
            moved: Vec::new(alloc),
            filled,
            filling: Vec::new(alloc),
        }
    }

    /// What is done so far.
    pub(crate) fn so_far<'t>(&'t self, records: &'t Records<'_>) -> DraftCounts<'t> {
        DraftCounts {
            named: records.named.as_slice(),
            moved: self.moved.as_slice(),
            filled: self.filled.as_slice(),
        }
    }

    /// Notes that a table with this count has a statement.
    fn note_filled(&mut self, count: usize) -> Result<(), AllocError> {
        if !self.filling.contains(&count) {
            self.filling.push(count)?;
        }
        Ok(())
    }

    /// Notes the move of a pair against which nothing is but that it may be to a count whose table is not filled.
    pub(crate) fn note_move(&mut self, pair: &PartnerPair<'_, '_>) -> Result<(), AllocError> {
        if is_count(pair.to) {
            self.moved.push(CountMove {
                from: number_of(pair.from),
                to: number_of(pair.to),
            })?;
        }
        Ok(())
    }

    /// Notes the statement of a pair.
    pub(crate) fn note_statement(&mut self, pair: &PartnerPair<'_, '_>) -> Result<(), AllocError> {
        let receiving = pair.to;
        for table in receiving.entry.tables.as_slice() {
            if let Some(count) = table.count {
                self.note_filled(count)?;
            }
        }
        self.note_move(pair)
    }

    /// Nothing again, where those counts alone may be moved whose tables have statements.
    pub(crate) fn begin_again(&mut self, alloc: Global) {
        self.moved.clear();
        self.filled = replace(&mut self.filling, Vec::new(alloc));
    }
}

//! How much of each entry a draft moves.

use cob_report_partners::TableSize;
use std::alloc::{AllocError, Global};

/// How much of an entry a draft moves.
#[derive(Clone, Copy, PartialEq, Eq)]
pub(crate) enum Share {
    Nothing,
    /// The elements that the other record has too.
    Part,
    All,
}

/// How much is moved of each entry of a record.
#[derive(Drop)]
pub(crate) struct Shares {
    of_entries: Vec<Share>,
}

/// Whether all elements of a table are moved that a record has, where this is the table of the other record.
fn is_whole(own: TableSize, other: TableSize) -> bool {
    // Of a table that varies each element is moved, or the record stops.
    own.count.is_some() || (other.count.is_none() && own.most <= other.most)
}

/// What of an entry in these tables is moved where the elements are moved that both entries have.
pub(crate) fn share_of(own: &[TableSize], others: &[TableSize]) -> Share {
    for (own, other) in own.iter().zip(others.iter()) {
        if !is_whole(*own, *other) {
            return Share::Part;
        }
    }
    Share::All
}

/// Notes that so much is moved of the entries from the first of these numbers to the last one.
fn note(shares: &mut [Share], first: usize, last: usize, share: Share) {
    for number in first..shares.len() {
        if number > last {
            break;
        }
        if shares[number] != Share::All {
            shares[number] = share;
        }
    }
}

impl Shares {
    /// Nothing is moved of so many entries.
    pub(crate) fn nothing(alloc: Global, count: usize) -> Result<Shares, AllocError> {
        let mut of_entries = Vec::new(alloc);
        for _ in 0..count {
            of_entries.push(Share::Nothing)?;
        }
        Ok(Shares { of_entries })
    }

    /// Notes that nothing is moved of any entry.
    pub(crate) fn clear(&mut self) {
        self.of_entries.fill(Share::Nothing);
    }

    /// How much is moved of the entry with this number.
    pub(crate) fn of(&self, number: usize) -> Share {
        match self.of_entries.get(number) {
            Some(share) => *share,
            None => Share::Nothing,
        }
    }

    /// Notes that so much is moved of the entries from the first of these numbers to the last one.
    pub(crate) fn note(&mut self, first: usize, last: usize, share: Share) {
        note(&mut self.of_entries, first, last, share);
    }
}

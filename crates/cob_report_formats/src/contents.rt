//! What a record holds.

use cob_layout::Spot;

/// A record that came: where its entries stand, by their numbers, and its bytes.
#[derive(Clone, Copy)]
pub(crate) struct ReceivedRecord<'a> {
    pub(crate) spots: &'a [Spot],
    pub(crate) bytes: &'a [u8],
}

/// How many elements a table has.
pub(crate) fn times_at(spots: &[Spot], table: usize) -> u32 {
    Spot::of(spots, table).times
}

impl<'a> ReceivedRecord<'a> {
    /// How many bytes an element stands behind the first, in a table that has so many before it and stands so many bytes behind its own first.
    pub(crate) fn behind(&self, behind: usize, table: usize, earlier: u32) -> usize {
        let length = Spot::of(self.spots, table).length as usize;
        behind.saturating_add(length.saturating_mul(earlier as usize))
    }

    /// The bytes of the element of an item that stands so many bytes behind the first.
    pub(crate) fn field(&self, number: usize, behind: usize) -> &'a [u8] {
        let spot = Spot::of(self.spots, number);
        let start = behind.saturating_add(spot.offset as usize);
        let end = start.saturating_add(spot.length as usize);
        match self.bytes.get(start..end) {
            Some(bytes) => bytes,
            None => &[],
        }
    }
}

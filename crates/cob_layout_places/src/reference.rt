//! References to elements of entries.

use arrayvec::ArrayVec;
use cob_limits::MAX_SUBSCRIPTS;

/// A reference to an entry of a record.
#[derive(Drop)]
pub struct Ref {
    /// The number of the entry: its place among all entries of the record, a parent before its children, from 0.
    pub node: usize,
    /// For each table that holds the entry or that it is, the outermost first, the number of the element, from 1.
    pub subscripts: ArrayVec<u32, MAX_SUBSCRIPTS>,
}

//! Bytes that differ, of which the first are told.

ghost use Rattle.std.specs.Prelude.{◌≡◌, ◌∷◌, ◌++◌, ◌+◌, ◌<◌, ◌≤◌, ◌^◌, List, []};
ghost use Rattle.cob_report_compare.specs.Bytes.{AreFirstBytes, AreFirstOfBytes, difference_at_byte};

use crate::differences::MOST_TOLD;
use arrayvec::ArrayVec;

/// A byte that differs in two records.
#[derive(Clone, Copy, Drop)]
pub struct ByteDifference {
    /// Where it stands in both.
    pub offset: usize,
    /// What stands there on the left.
    pub left: u8,
    /// What stands there on the right.
    pub right: u8,
}

impl Default for ByteDifference {
    fn default() -> ByteDifference {
        ByteDifference {
            offset: 0,
            left: 0,
            right: 0,
        }
    }
}

/// The first bytes that differ in two records, and how many there are.
#[derive(Drop)]
pub struct FirstBytes {
    /// The first of them.
    pub first: ArrayVec<ByteDifference, MOST_TOLD>,
    /// How many there are, also of those that are not told.
    pub count: usize,
}

/// Adds a byte behind those so far.
fn add_byte(told: &mut FirstBytes, byte: ByteDifference)
    requires { told.old.count + 1 < 2 ^ 64 }
    ensures told { (all : List ByteDifference) → AreFirstOfBytes all told.old
        → AreFirstOfBytes (all ++ byte ∷ []) told.new }
    ensures few { told.new.count ≡ told.old.count + 1 }
{
    told.count += 1;
    if !told.first.is_full() {
        told.first.push(byte);
    }
}

/// Adds a byte behind those so far, where it differs.
fn note_byte(told: &mut FirstBytes, byte: ByteDifference)
    requires { told.old.count + 1 < 2 ^ 64 }
    ensures told { (all : List ByteDifference) → AreFirstOfBytes all told.old
        → AreFirstOfBytes (all ++ difference_at_byte byte) told.new }
    ensures few { told.new.count ≤ told.old.count + 1 }
{
    if byte.left != byte.right {
        add_byte(told, byte);
    }
}

/// The bytes that differ in two records, as far as both go.
pub(crate) fn byte_differences(left: &[u8], right: &[u8]) -> FirstBytes
    ensures { AreFirstBytes left.now right.now result }
{
    let mut told = FirstBytes {
        first: ArrayVec::new(),
        count: 0,
    };
    for offset in 0..left.len().min(right.len()) {
        note_byte(
            &mut told,
            ByteDifference {
                offset,
                left: left[offset],
                right: right[offset],
            },
        );
    }
    told
}

//! Streams of records of one length, cut by their size.

ghost use Rattle.std.specs.Prelude.{◌≡◌, ℕ, ◌*◌, ◌+◌, ◌-◌, ◌<◌, ◌≤◌, List, length, IfOk};
ghost use Rattle.cob_limits.specs.Limits.{longest_record};
ghost use Rattle.cob_records_parts.specs.Cut.{AreCut};
ghost use Rattle.cob_records.specs.declared.records.Form.TheVariants.{Fixed};

use crate::cut::{finish, push_piece};
use crate::piece::{Piece, Start};
use std::alloc::{AllocError, Global};

/// The share of so many records that each of so many pieces has, rounded up, and one record at least.
fn share(left: u64, parts: u64) -> u64
    requires { 0 < parts }
    ensures { 0 < result }
{
    let rest = u64::from(left % parts > 0);
    (left / parts).saturating_add(rest).max(1)
}

/// How many bytes some of the records that are left have, for which there is room.
fn bytes_of(count: u64, left: u64, greatest: u16, room: u64) -> u64
    requires some { 0 < count }
    requires count { count ≤ left }
    requires low { 0 < greatest }
    requires room { left * greatest ≤ room }
    ensures value { result ≡ count * greatest }
    ensures some { 0 < result }
    ensures within { result ≤ room }
    ensures rest { (left - count) * greatest + result ≤ room }
{
    count * u64::from(greatest)
}

/// Cuts a stream of records of one length, of which there are so many bytes, in pieces of nearly equal size, so many at most, each but the last of
/// whole records.
///
/// # Errors
///
/// Where no memory is left.
pub fn pieces_of_size(
    alloc: Global,
    size: u64,
    greatest: u16,
    most: u64,
) -> Result<Vec<Piece>, AllocError>
    requires low { 0 < greatest }
    requires most { 0 < most }
    ensures cut { IfOk result (λ pieces. (bytes : List ℕ) → length bytes ≡ size
        → AreCut Fixed greatest bytes pieces.items) }
    ensures few { IfOk result (λ pieces. length pieces.items ≤ most) }
{
    let mut pieces = Vec::new(alloc);
    let mut start = Start {
        offset: 0,
        first: 1,
    };
    let mut left = size / u64::from(greatest);
    for done in 1..most {
        let count = share(left, most - done + 1);
        if count >= left {
            return finish(pieces, start, size);
        }
        let bytes = bytes_of(count, left, greatest, size - start.offset);
        push_piece(&mut pieces, start, start.offset + bytes)?;
        start = Start {
            offset: start.offset + bytes,
            first: start.first + count,
        };
        left -= count;
    }
    finish(pieces, start, size)
}

//! Copies and fills of few bytes.

ghost use Rattle.std.specs.Prelude.{◌≡◌, ◌*◌, ◌<◌, ◌≤◌, length, replicate};
ghost use Rattle.cob_cp037.specs.Named.{space_byte};

use cob_cp037::SPACE;

/// The longest copy that costs no call.
const SHORT: usize = 32;

/// Copies so many bytes in front, and so many at the end again, since a copy of a known length costs no call. Both are read before one is written, so
/// that the compiler need not ask whether they share bytes.
#[inline(always)]
fn copy_ends<const N: usize>(from: &[u8], to: &mut [u8])
    requires long { length from.now ≡ length to.old }
    requires least { N ≤ length to.old }
    requires most { length to.old ≤ 2 * N }
    ensures { to.new ≡ from.now }
{
    let count = to.len();
    let mut front = [0; N];
    let mut back = [0; N];
    front.copy_from_slice(&from[..N]);
    back.copy_from_slice(&from[count - N..count]);
    to[..N].copy_from_slice(&front);
    to[count - N..].copy_from_slice(&back);
}

/// Copies fewer than eight bytes.
#[inline(always)]
fn copy_few(from: &[u8], to: &mut [u8])
    requires same { length from.now ≡ length to.old }
    requires few { length to.old < 8 }
    ensures { to.new ≡ from.now }
{
    let count = to.len();
    if count >= 4 {
        copy_ends::<4>(from, to);
    } else if count >= 2 {
        copy_ends::<2>(from, to);
    } else if count >= 1 {
        copy_ends::<1>(from, to);
    }
}

/// Copies bytes, a few of them without a call.
#[inline(always)]
pub fn copy_all(from: &[u8], to: &mut [u8])
    requires { length from.now ≡ length to.old }
    ensures { to.new ≡ from.now }
{
    let count = to.len();
    if count < 8 {
        copy_few(from, to);
    } else if count <= 16 {
        copy_ends::<8>(from, to);
    } else if count <= SHORT {
        copy_ends::<16>(from, to);
    } else {
        to.copy_from_slice(from);
    }
}

/// Writes so many spaces in front, and so many at the end again.
#[inline(always)]
fn fill_ends<const N: usize>(to: &mut [u8])
    requires least { N ≤ length to.old }
    requires most { length to.old ≤ 2 * N }
    ensures { to.new ≡ replicate (length to.old) space_byte }
{
    let count = to.len();
    to[..N].fill(SPACE);
    to[count - N..].fill(SPACE);
}

/// Writes fewer than eight spaces.
#[inline(always)]
fn fill_few(to: &mut [u8])
    requires few { length to.old < 8 }
    ensures { to.new ≡ replicate (length to.old) space_byte }
{
    let count = to.len();
    if count >= 4 {
        fill_ends::<4>(to);
    } else if count >= 2 {
        fill_ends::<2>(to);
    } else if count >= 1 {
        fill_ends::<1>(to);
    }
}

/// Writes spaces into all bytes, a few of them without a call.
#[inline(always)]
pub(crate) fn fill_spaces(to: &mut [u8])
    ensures { to.new ≡ replicate (length to.old) space_byte }
{
    let count = to.len();
    if count < 8 {
        fill_few(to);
    } else if count <= 16 {
        fill_ends::<8>(to);
    } else {
        to.fill(SPACE);
    }
}

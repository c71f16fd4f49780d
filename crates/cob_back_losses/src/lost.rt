//! The first byte by which a move may lose its description.

ghost use Rattle.std.specs.Prelude.{◌≡◌, ◌<◌, ℕ, IfOk, IsTrue, length};
ghost use Rattle.cob_copybook_tree.specs.Nodes.{node};
ghost use Rattle.cob_back_losses.specs.Bytes.{element_bytes};
ghost use Rattle.cob_back_losses.specs.Keeping.{HoldsSent, IsMarked, Nothing, TellsFirstUnkept, moves_bytes, sent_element};

use crate::bytes::{ItemByte, bytes_of};
use crate::keeping::{JudgedSent, Unkept, first_unkept, is_marked};
use cob_copybook_tree::{MANY, Node, element_length};
use std::alloc::{AllocError, Global};

/// Whether a move copies bytes, whatever they are: a group is on either side.
fn moves_bytes(from: &JudgedSent<'_>, to: &Node) -> bool
    ensures { result ≡ moves_bytes (sent_element from.now) (node to.now) }
{
    match from {
        JudgedSent::Entry(entry) => entry.kind.is_group() || to.kind.is_group(),
        JudgedSent::Constant(_) => to.kind.is_group(),
    }
}

/// The bytes of an entry that is sent, up to a limit; none of a constant.
fn sent_bytes<'a>(
    alloc: Global,
    from: &JudgedSent<'a>,
    limit: usize,
) -> Result<Vec<ItemByte<'a>>, AllocError>
    ensures { IfOk result (λ bytes. HoldsSent (sent_element from.now) bytes.items limit) }
{
    match from {
        JudgedSent::Entry(entry) => bytes_of(alloc, entry, limit),
        JudgedSent::Constant(_) => Ok(Vec::new(alloc)),
    }
}

/// Whether all bytes of an entry's element are marked, of which the first ones, so many, are.
fn are_marked(marks: &[bool], front: usize, entry: &Node) -> bool
    requires { (at : ℕ) → at < front → IsMarked marks.now at }
    ensures { IsTrue result → (at : ℕ) → at < length (element_bytes (node entry.now))
        → IsMarked marks.now at }
{
    let count = element_length(entry);
    if count == MANY {
        return false;
    }
    for at in front..count as usize {
        if !is_marked(marks, at) {
            return false;
        }
    }
    true
}

/// The first byte of an entry's element that a move of bytes doesn't keep, where these of its bytes are covered, among them the first ones, so many.
fn unkept_byte(
    alloc: Global,
    from: &JudgedSent<'_>,
    to: &Node,
    covered: &[bool],
    front: usize,
) -> Result<Option<Unkept>, AllocError>
    requires moves { IsTrue (moves_bytes (sent_element from.now) (node to.now)) }
    requires front { (at : ℕ) → at < front → IsMarked covered.now at }
    ensures { IfOk result (λ lost. TellsFirstUnkept (sent_element from.now) (node to.now)
        (IsMarked covered.now) lost) }
{
    if are_marked(covered, front, to) {
        return Ok(None);
    }
    let received = bytes_of(alloc, to, usize::MAX)?;
    let bytes = sent_bytes(alloc, from, received.len())?;
    Ok(first_unkept(from, &bytes, &received, covered))
}

/// The same as [`description_lost_among`], where it is known of the first bytes, so many, that they are covered: these are not looked at.
pub(crate) fn description_lost_behind(
    alloc: Global,
    from: &JudgedSent<'_>,
    to: &Node,
    covered: &[bool],
    front: usize,
) -> Result<Option<Unkept>, AllocError>
    requires { (at : ℕ) → at < front → IsMarked covered.now at }
    ensures { IfOk result (λ lost. TellsFirstUnkept (sent_element from.now) (node to.now)
        (IsMarked covered.now) lost) }
{
    if !moves_bytes(from, to) {
        return Ok(None);
    }
    unkept_byte(alloc, from, to, covered, front)
}

/// The first byte of an entry's element by which the move of a sender may lose its description, where these of its bytes are covered; those behind the marks
/// are not. None exactly where it may not lose it: no byte is copied, or each that is not covered is described as what it gets.
///
/// # Errors
///
/// Where no memory is left.
pub fn description_lost_among(
    alloc: Global,
    from: &JudgedSent<'_>,
    to: &Node,
    covered: &[bool],
) -> Result<Option<Unkept>, AllocError>
    ensures { IfOk result (λ lost. TellsFirstUnkept (sent_element from.now) (node to.now)
        (IsMarked covered.now) lost) }
{
    description_lost_behind(alloc, from, to, covered, 0)
}

/// The first byte of an entry's element by which the move of a sender may lose its description, where nothing covers it.
///
/// # Errors
///
/// Where no memory is left.
pub fn description_lost(
    alloc: Global,
    from: &JudgedSent<'_>,
    to: &Node,
) -> Result<Option<Unkept>, AllocError>
    ensures { IfOk result
        (λ lost. TellsFirstUnkept (sent_element from.now) (node to.now) Nothing lost) }
{
    description_lost_among(alloc, from, to, &[])
}

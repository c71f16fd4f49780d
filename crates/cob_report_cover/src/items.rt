//! The items of a record, and runs of bytes.

ghost use Rattle.std.specs.Prelude.{◌≡◌, ◌≢◌, ◌≤◌, ◌<◌, ℕ, false, get_or, length};

use cob_copybook_tree::{Kind, Node};
use std::alloc::AllocError;

/// Adds the items that stand in no redefinition, of this entry and those beneath it, in their order.
pub(crate) fn push_items<'a>(entry: &'a Node, items: &mut Vec<&'a Node>) -> Result<(), AllocError> {
    if entry.redefines.is_some() {
        return Ok(());
    }
    if let Kind::Item(_) = &entry.kind {
        items.push(entry)?;
    }
    for child in entry.children.iter() {
        push_items(child, items)?;
    }
    Ok(())
}

/// Where a run of marks that are all so ends, which begins at `from`: there, or further on.
pub(crate) fn run_end(marks: &[bool], from: usize, is: bool) -> usize
    requires { from ≤ length marks.now }
    ensures low { from ≤ result }
    ensures high { result ≤ length marks.now }
    ensures same { (o : ℕ) → from ≤ o → o < result → get_or marks.now o false ≡ is }
    ensures other { result < length marks.now → get_or marks.now result false ≢ is }
{
    for at in from..marks.len() {
        if marks[at] != is {
            return at;
        }
    }
    marks.len()
}

/// The marks of a place, as far as there are marks.
pub(crate) fn marks_at(marks: &[bool], offset: u32, count: u32) -> &[bool] {
    let start = (offset as usize).min(marks.len());
    let (_, behind) = marks.split_at(start);
    let (own, _) = behind.split_at((count as usize).min(behind.len()));
    own
}

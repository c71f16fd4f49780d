//! What items hold before the first move, in words.

use cob_copybook_tree::{Kind, Node, Value};
use cob_report_words::ConstantText;
use std::alloc::{AllocError, Global};
use std::fmt;

/// What an item holds.
#[derive(Clone, Copy)]
pub(crate) enum ItemContent<'a> {
    /// Its VALUE.
    Own(&'a Value),
    /// Its part of a group's VALUE.
    Part(&'a Value),
    Zeros,
    Spaces,
    /// Bytes of others, since it begins at another byte under other counts.
    Shifted,
}

/// What an item holds without a VALUE.
fn filled(kind: &Kind) -> ItemContent<'static> {
    match kind {
        Kind::Item(item) if item.picture.category().shows_number() => ItemContent::Zeros,
        _ => ItemContent::Spaces,
    }
}

/// What an entry holds beneath a group without a VALUE.
fn own_held(entry: &Node) -> ItemContent<'_> {
    match &entry.value {
        Some(value) => ItemContent::Own(value),
        None => filled(&entry.kind),
    }
}

/// What an entry holds, where this is the VALUE of a group above it.
fn held_beneath<'a>(entry: &'a Node, above: Option<&'a Value>) -> ItemContent<'a> {
    match above {
        Some(value) => ItemContent::Part(value),
        None => own_held(entry),
    }
}

/// The VALUE of a group above the entries beneath an entry.
fn value_beneath<'a>(entry: &'a Node, above: Option<&'a Value>) -> Option<&'a Value> {
    match above {
        Some(value) => Some(value),
        None => entry.value.as_ref(),
    }
}

/// Adds what an entry and those beneath it hold, in their order.
fn push_held<'a>(
    entry: &'a Node,
    above: Option<&'a Value>,
    held: &mut Vec<ItemContent<'a>>,
) -> Result<(), AllocError> {
    held.push(held_beneath(entry, above))?;
    let value = value_beneath(entry, above);
    for child in entry.children.iter() {
        push_held(child, value, held)?;
    }
    Ok(())
}

/// What each entry of a record holds, by the numbers of the entries.
///
/// # Errors
///
/// Where no memory is left.
pub(crate) fn held_in(alloc: Global, root: &Node) -> Result<Vec<ItemContent<'_>>, AllocError> {
    let mut held = Vec::new(alloc);
    push_held(root, None, &mut held)?;
    Ok(held)
}

/// What the entry with this number holds, of what each entry of a record holds.
pub(crate) fn held_at<'a>(held: &[ItemContent<'a>], number: usize) -> ItemContent<'a> {
    match held.get(number) {
        Some(held) => *held,
        None => ItemContent::Spaces,
    }
}

impl fmt::Display for ItemContent<'_> {
    fn fmt<W: fmt::Write>(&self, f: &mut fmt::Formatter<W>) -> fmt::Result {
        match self {
            ItemContent::Own(value) => write!(f, "{}", ConstantText { value: *value }),
            ItemContent::Part(value) => {
                write!(f, "its part of {}", ConstantText { value: *value })
            }
            ItemContent::Zeros => f.write_str("zeros"),
            ItemContent::Spaces => f.write_str("spaces"),
            ItemContent::Shifted => {
                f.write_str("what the greatest counts put there, behind a table that varies")
            }
        }
    }
}

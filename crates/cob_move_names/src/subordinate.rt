//! The entries below a group that may be in a pair, and which of them correspond.

ghost use Rattle.std.specs.Prelude.{◌≡◌, ◌||◌, List, [], ◌∷◌, map, IfOk, OnOk, bytes_eq};
ghost use Rattle.cob_copybook_names.specs.Naming.{with_name};
ghost use Rattle.cob_copybook_names.specs.Listed.{texts};
ghost use Rattle.cob_copybook_tree.specs.declared.node.Node.TheViews.{out-Node};
ghost use Rattle.cob_copybook_tree.specs.Nodes.{resolved_entry};
ghost use Rattle.cob_move_names.specs.PlainPairs.{ListsSubordinates, ListsSubordinate, subordinate};
ghost use Rattle.cob_move_names.specs.Pairs.{correspond, is_elementary, is_left_out, may_correspond, same_names};

use cob_layout_places::{Kind, Name, Node, is_table};
use cob_move_receive::{SenderKind, may_move};
use std::alloc::{AllocError, Global};
use std::rc::Rc;

/// An entry below a group.
#[derive(Drop)]
pub(crate) struct Subordinate<'a> {
    pub entry: &'a Node,
    pub name: &'a [u8],
    /// The names of the groups between, the nearest first. The entries of one group share them.
    pub between: Rc<Vec<&'a [u8]>>,
}

/// The names of the groups between that stand above what is below an entry: FILLER adds none.
fn between_below<'a>(
    alloc: Global,
    entry: &'a Node,
    between: &Rc<Vec<&'a [u8]>>,
) -> Result<Rc<Vec<&'a [u8]>>, AllocError>
    ensures { IfOk result (λ v. texts v.value.items
        ≡ with_name (out-Node entry.now).name (texts between.now.value.items)) }
{
    let Some(name) = &entry.name else {
        return between.clone();
    };
    let mut names = Vec::new(alloc);
    names.push(name.as_bytes())?;
    names.extend_from_slice(between.as_slice())?;
    Ok(Rc::new(alloc, names)?)
}

/// Whether an entry is left out with all below it.
fn is_left_out(entry: &Node) -> bool
    ensures { result ≡ is_left_out (resolved_entry (out-Node entry.now)) }
{
    entry.redefines.is_some() || is_table(entry.occurs)
}

/// Puts an entry behind those that are listed, unless it is FILLER.
fn list_entry<'a>(
    between: &Rc<Vec<&'a [u8]>>,
    entry: &'a Node,
    list: &mut Vec<Subordinate<'a>>,
) -> Result<(), AllocError>
    ensures { OnOk result (ListsSubordinate (texts between.now.value.items) entry.now list.old.items
        list.new.items) }
{
    if let Some(name) = &entry.name {
        list.push(Subordinate {
            entry,
            name: name.as_bytes(),
            between: between.clone()?,
        })?;
    }
    Ok(())
}

/// Puts what may be in a pair behind what is listed: entries and what is below them, in their order.
///
/// # Errors
///
/// Memory was refused.
pub(crate) fn list_entries<'a>(
    alloc: Global,
    between: &Rc<Vec<&'a [u8]>>,
    entries: &'a [Node],
    list: &mut Vec<Subordinate<'a>>,
) -> Result<(), AllocError>
    ensures { OnOk result (ListsSubordinates (texts between.now.value.items) entries.now
        list.old.items list.new.items) }
{
    for entry in entries {
        if is_left_out(entry) {
            continue;
        }
        list_entry(between, entry, list)?;
        let below = between_below(alloc, entry, between)?;
        list_entries(alloc, &below, entry.children.as_slice(), list)?;
    }
    Ok(())
}

/// Whether two names are the same.
fn is_same(a: &[u8], b: &[u8]) -> bool
    ensures { result ≡ bytes_eq a.now b.now }
{
    a == b
}

/// Whether two lists of names are the same.
fn same_names(a: &[&[u8]], b: &[&[u8]]) -> bool
    ensures { result ≡ same_names (texts a.now) (texts b.now) }
{
    let Some((first, more)) = a.split_first() else {
        return b.is_empty();
    };
    let Some((other, others)) = b.split_first() else {
        return false;
    };
    is_same(first, other) && same_names(more, others)
}

/// Whether an entry is elementary.
fn is_elementary(kind: &Kind) -> bool
    ensures { result ≡ is_elementary kind.now }
{
    matches!(kind, Kind::Item(_))
}

/// Whether one of two entries is no group.
pub fn is_no_group(from: &Kind, to: &Kind) -> bool
    ensures { result ≡ (is_elementary from.now || is_elementary to.now) }
{
    is_elementary(from) || is_elementary(to)
}

/// Whether a move between two entries may be one of a pair.
fn may_correspond(from: &Kind, to: &Kind) -> bool
    ensures { result ≡ may_correspond from.now to.now }
{
    is_no_group(from, to) && may_move(&SenderKind::Entry(from), to)
}

/// Whether two entries correspond.
pub(crate) fn correspond(from: &Subordinate<'_>, to: &Subordinate<'_>) -> bool
    ensures { result ≡ correspond (subordinate from.now) (subordinate to.now) }
{
    is_same(from.name, to.name)
        && same_names(from.between.as_slice(), to.between.as_slice())
        && may_correspond(&from.entry.kind, &to.entry.kind)
}

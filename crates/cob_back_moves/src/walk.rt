//! The occurrences of the named items of a record, gone through without memory: the first that isn't returned.

ghost use Rattle.std.specs.Prelude.{◌≡◌, ◌+◌, ◌≤◌, length, IfNone, IfSome};
ghost use Rattle.cob_copybook_tree.specs.declared.node.Kind.TheVariants.{Item as ItemKind};
ghost use Rattle.cob_copybook_tree.specs.declared.node.Node.TheViews.{out-Node};
ghost use Rattle.cob_copybook_tree.specs.Nodes.{MayHold, forest, node, tree_of};
ghost use Rattle.cob_limits.specs.Limits.{most_dimensions};
ghost use Rattle.cob_layout.specs.Sound.{AreNested, IsSound, own_dimension};
ghost use Rattle.cob_layout_places.specs.Lengths.{AreLeaves};
ghost use Rattle.cob_back_moves.specs.Brought.{AllReturned, AreLegal, IsFine, IsLostItem, singles_in};
ghost use Rattle.cob_back_moves.specs.Walk.{AllFine, ElementHas, EntryHas, HasItem, IsLostEntry};

use crate::returned::{ItemElement, Starts, is_returned};
use crate::some::MovesBetween;
use arrayvec::ArrayVec;
use cob_copybook_tree::{Item, Kind, Node};
use cob_layout_places::is_table;
use cob_limits::MAX_SUBSCRIPTS;
use std::slice;

/// The subscripts of the tables outside, the outermost first.
type Subscripts = ArrayVec<u32, MAX_SUBSCRIPTS>;

/// The number of an item's entry, where it has a name and isn't returned under these subscripts.
fn lost_item(
    there: &MovesBetween<'_>,
    back: &MovesBetween<'_>,
    entry: &Node,
    item: &Item,
    subscripts: &[u32],
    starts: &Starts<'_>,
) -> Option<usize>
    requires there { AreLegal there.now }
    requires back { AreLegal back.now }
    requires kind { (out-Node entry.now).kind ≡ ItemKind item.now }
    requires leaf { MayHold (node entry.now).top.kind (node entry.now).beneath }
    ensures fine { IfNone result (AllFine (IsFine there.now back.now)
        (ElementHas (node entry.now).top (node entry.now).beneath) subscripts.now) }
    ensures lost { IfSome result (λ r. IsLostEntry (IsFine there.now back.now)
        (ElementHas (node entry.now).top (node entry.now).beneath) subscripts.now r) }
{
    if entry.name.is_none() {
        return None;
    }
    let number = entry.number;
    let element = ItemElement {
        number,
        subscripts,
        item,
    };
    if is_returned(there, back, &element, starts) {
        return None;
    }
    Some(number)
}

/// The number of the first entry of one element of an entry of which an item isn't returned.
#[cycle(entries)]
fn lost_in_element(
    there: &MovesBetween<'_>,
    back: &MovesBetween<'_>,
    entry: &Node,
    subscripts: &mut Subscripts,
    starts: &Starts<'_>,
) -> Option<usize>
    requires there { AreLegal there.now }
    requires back { AreLegal back.now }
    requires nested { AreNested (length subscripts.old.items) (node entry.now).beneath }
    requires leaf { MayHold (node entry.now).top.kind (node entry.now).beneath }
    requires leaves { AreLeaves (node entry.now).beneath }
    ensures fine { IfNone result (AllFine (IsFine there.now back.now)
        (ElementHas (node entry.now).top (node entry.now).beneath) subscripts.old.items) }
    ensures lost { IfSome result (λ r. IsLostEntry (IsFine there.now back.now)
        (ElementHas (node entry.now).top (node entry.now).beneath) subscripts.old.items r) }
    ensures same { subscripts.new.items ≡ subscripts.old.items }
{
    match &entry.kind {
        Kind::Item(item) => { lost_item(there, back, entry, item, subscripts.as_slice(), starts) }
        Kind::Group => {
            lost_in_entries(there, back, entry.children.as_slice(), subscripts, starts)
        }
    }
}

/// That of all elements of an entry.
#[cycle(entries)]
fn lost_in_entry(
    there: &MovesBetween<'_>,
    back: &MovesBetween<'_>,
    entry: &Node,
    subscripts: &mut Subscripts,
    starts: &Starts<'_>,
) -> Option<usize>
    requires there { AreLegal there.now }
    requires back { AreLegal back.now }
    requires own { length subscripts.old.items + own_dimension (node entry.now).top.occurs
        ≤ most_dimensions }
    requires beneath { AreNested (length subscripts.old.items
        + own_dimension (node entry.now).top.occurs) (node entry.now).beneath }
    requires leaf { MayHold (node entry.now).top.kind (node entry.now).beneath }
    requires leaves { AreLeaves (node entry.now).beneath }
    ensures fine { IfNone result (AllFine (IsFine there.now back.now)
        (EntryHas (node entry.now).top (node entry.now).beneath) subscripts.old.items) }
    ensures lost { IfSome result (λ r. IsLostEntry (IsFine there.now back.now)
        (EntryHas (node entry.now).top (node entry.now).beneath) subscripts.old.items r) }
    ensures same { subscripts.new.items ≡ subscripts.old.items }
{
    if !is_table(entry.occurs) {
        return lost_in_element(there, back, entry, subscripts, starts);
    }
    let most = entry.occurs.most();
    for done in 0..most {
        subscripts.push(done + 1);
        let lost = lost_in_element(there, back, entry, subscripts, starts);
        subscripts.pop();
        if let Some(number) = lost {
            return Some(number);
        }
    }
    None
}

/// That of entries side by side.
#[cycle(entries)]
fn lost_in_entries(
    there: &MovesBetween<'_>,
    back: &MovesBetween<'_>,
    entries: &[Node],
    subscripts: &mut Subscripts,
    starts: &Starts<'_>,
) -> Option<usize>
    requires there { AreLegal there.now }
    requires back { AreLegal back.now }
    requires nested { AreNested (length subscripts.old.items) (forest entries.now) }
    requires leaves { AreLeaves (forest entries.now) }
    ensures fine { IfNone result (AllFine (IsFine there.now back.now)
        (λ r rs i. HasItem r rs i (forest entries.now)) subscripts.old.items) }
    ensures lost { IfSome result (λ n. IsLostEntry (IsFine there.now back.now)
        (λ r rs i. HasItem r rs i (forest entries.now)) subscripts.old.items n) }
    ensures same { subscripts.new.items ≡ subscripts.old.items }
{
    for entry in entries {
        if let Some(number) = lost_in_entry(there, back, entry, subscripts, starts) {
            return Some(number);
        }
    }
    None
}

/// The number of the first entry of a record that has a name and is an item, and of which an occurrence isn't moved there to an item that loses
/// nothing of it and moved back from where it came. It takes no memory.
pub(crate) fn first_lost(
    there: &MovesBetween<'_>,
    back: &MovesBetween<'_>,
    root: &Node,
    starts: &Starts<'_>,
) -> Option<usize>
    requires there { AreLegal there.now }
    requires back { AreLegal back.now }
    requires sound { IsSound (tree_of root.now) }
    ensures fine { IfNone result
        (AllReturned (tree_of root.now) (singles_in there.now) (singles_in back.now)) }
    ensures lost { IfSome result (λ r.
        IsLostItem (tree_of root.now) (singles_in there.now) (singles_in back.now) r) }
{
    let mut subscripts = ArrayVec::new();
    lost_in_entries(there, back, slice::from_ref(root), &mut subscripts, starts)
}

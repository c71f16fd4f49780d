//! Areas of storage, and the entries that redefine them.

ghost use Rattle.std.specs.Prelude.{◌≡◌, ◌≤◌, ◌↔◌, [], ◌∷◌, map, Some, IsTrue};
ghost use Rattle.std.specs.Option.{IsNone};
ghost use Rattle.cob_copybook_tree.specs.Nodes.{node, forest};
ghost use Rattle.cob_copybook_tree.specs.Lengths.{greatest_number, sum_of, whole_length};
ghost use Rattle.cob_limits.specs.Limits.{longest_record};
ghost use Rattle.cob_copybook_rules.specs.Areas.{hold_varying, Bears, FitsArea, MayFollow, AreAreas, ArePossible};
ghost use Rattle.cob_copybook_rules.specs.Greatest.{greatest_whole};
ghost use Rattle.cob_copybook_rules.specs.Short.{IsShortArea};

use cob_copybook_tree::{Name, Node, whole_length};
use std::slice;

/// Whether one of the entries, or of those beneath them, is a table that varies.
fn hold_varying(entries: &[Node]) -> bool
    ensures { result ≡ hold_varying (forest entries.now) }
{
    for entry in entries {
        if entry.occurs.is_varying() || hold_varying(entry.children.as_slice()) {
            return true;
        }
    }
    false
}

/// Whether one of the entries has this name and level.
fn bears(area: &[Node], name: &Name, level: u8) -> bool
    ensures yes { IsTrue result → Bears name.now level (map node area.now) }
    ensures must { Bears name.now level (map node area.now) → IsTrue result }
{
    for entry in area {
        if entry.level == level && entry.is_called(name) {
            return true;
        }
    }
    false
}

/// Whether an entry, with all its occurrences, is no longer than the first of an area.
fn is_no_longer(entry: &Node, first: &Node) -> bool
    requires { greatest_whole (node first.now) ≤ longest_record }
    ensures { IsTrue result ↔ (greatest_whole (node entry.now)
        ≤ greatest_whole (node first.now)) }
{
    whole_length(entry) <= whole_length(first)
}

/// Whether an entry may redefine the area that the other one began.
fn fits_area(first: &Node, entry: &Node) -> bool
    requires { greatest_whole (node first.now) ≤ longest_record }
    ensures yes { IsTrue result → FitsArea (node first.now) (node entry.now) }
    ensures must { FitsArea (node first.now) (node entry.now) → IsTrue result }
{
    first.occurs.is_once()
        && !hold_varying(slice::from_ref(first))
        && !hold_varying(slice::from_ref(entry))
        && is_no_longer(entry, first)
}

/// Whether an entry may stand behind those of an area: it redefines none, or it redefines that one.
fn may_follow(area: &[Node], entry: &Node) -> bool
    requires { IsShortArea (map node area.now) }
    ensures yes { IsTrue result
        → MayFollow (node entry.now).top.redefines (map node area.now) (node entry.now) }
    ensures must { MayFollow (node entry.now).top.redefines (map node area.now) (node entry.now)
        → IsTrue result }
{
    match (&entry.redefines, area.first()) {
        (None, _) => true,
        (Some(_), None) => false,
        (Some(name), Some(first)) => bears(area, name, entry.level) && fits_area(first, entry),
    }
}

/// The line of an entry that redefines what it may not.
pub(crate) fn wrong_area(entries: &[Node]) -> Option<u32>
    requires short { sum_of greatest_number (forest entries.now) ≤ longest_record }
    requires possible { ArePossible (forest entries.now) }
    ensures fine { IsNone result → AreAreas [] (forest entries.now) }
    ensures must { AreAreas [] (forest entries.now) → IsNone result }
{
    let mut start = 0;
    for (i, entry) in entries.iter().enumerate() {
        if !may_follow(&entries[start..i], entry) {
            return Some(entry.line);
        }
        if let Some(line) = wrong_area(entry.children.as_slice()) {
            return Some(line);
        }
        if entry.redefines.is_none() {
            start = i;
        }
    }
    None
}

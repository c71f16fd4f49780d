//! The key of records, by the names of its items.

ghost use Rattle.std.specs.Prelude.{◌≡◌, ◌≤◌, [], length, map, IfOk};
ghost use Rattle.cob_report_show.specs.Elements.{named_in, named_item};
ghost use Rattle.cob_report_compare.specs.Keys.{AreKeyItems, most_keys};

use crate::fault::{ComparisonFault, NameRule};
use crate::names::entries_named;
use cob_layout::Layout;
use cob_report_compare::{MOST_KEYS, key_items};
use cob_report_show::ListedItem;
use std::alloc::Global;

/// Whether a named item has this number.
fn is_item(named: &[ListedItem], number: usize) -> bool {
    for item in named {
        if item.number == number {
            return true;
        }
    }
    false
}

/// Whether each of these numbers is one of a named item.
fn are_items(named: &[ListedItem], numbers: &[usize]) -> bool {
    for number in numbers {
        if !is_item(named, *number) {
            return false;
        }
    }
    true
}

/// The items of the key that a text names, with commas between their names; none where there is no text.
///
/// # Errors
///
/// Names that break a rule, a group or an item in a table, more items than a key has at most, want of memory.
pub(crate) fn key_of(
    alloc: Global,
    layout: &Layout,
    named: &[ListedItem],
    names: Option<&str>,
) -> Result<Vec<ListedItem>, ComparisonFault>
    requires named { map named_item named.now ≡ named_in [] layout.now }
    ensures keys { IfOk result (λ keys. AreKeyItems layout.now (map named_item keys.items)) }
    ensures few { IfOk result (λ keys. length keys.items ≤ most_keys) }
{
    let numbers = match entries_named(alloc, layout, names)? {
        Ok(numbers) => numbers,
        Err(rule) => return Err(ComparisonFault::Key(rule)),
    };
    if numbers.len() > MOST_KEYS {
        return Err(ComparisonFault::Key(NameRule::Grammar));
    }
    if !are_items(named, &numbers) {
        return Err(ComparisonFault::Key(NameRule::Group));
    }
    match key_items(alloc, named, &numbers)? {
        Some(keys) => Ok(keys),
        None => Err(ComparisonFault::Key(NameRule::Table)),
    }
}

//! Two records of one layout.

ghost use Rattle.std.specs.Prelude.{◌≡◌, length, map, IsTrue, IsFalse};
ghost use Rattle.cob_report_show.specs.Elements.{named_item};
ghost use Rattle.cob_report_show.specs.Records.{HoldsRecord};
ghost use Rattle.cob_report_compare.specs.Chosen.{AreCompared};
ghost use Rattle.cob_report_compare.specs.Differences.{AreFirstDifferences, IsBytesComparison, IsComparison};
ghost use Rattle.cob_report_compare.specs.Equal.{IsCompleteRecord, OccurAlike, printed_of};

use crate::bytes::{FirstBytes, byte_differences};
use crate::differences::FirstDifferences;
use crate::elements::{ComparedRecord, add_items, times_in};
use crate::laws::same_bytes_are_equal;
use cob_layout::{Counts, places_end_in_length, records_are_sound};
use cob_report_show::ListedItem;

/// How two records of one layout compare.
#[derive(Drop)]
pub enum Comparison<'a> {
    /// They have the same bytes.
    Same,
    /// They are equal by value, and have not the same bytes.
    Equal,
    /// They are not equal by value.
    Differ(FirstDifferences<'a>),
    /// They have not the same bytes, where these are what is compared.
    Unlike(FirstBytes),
}

/// Whether each entry occurs as often in one record as in the other.
fn occur_alike(left: ComparedRecord, right: ComparedRecord) -> bool
    ensures yes { IsTrue result → OccurAlike (printed_of left.entry) (printed_of right.entry) }
    ensures no { IsFalse result
        → OccurAlike (printed_of left.entry) (printed_of right.entry) → ⊥ }
{
    let entries = left.places.spots().len().max(right.places.spots().len());
    for number in 0..entries {
        if times_in(left.places, number) != times_in(right.places, number) {
            return false;
        }
    }
    true
}

/// The differences of two records of one layout in these items, of which the first are told.
fn differences<'a>(
    left: ComparedRecord,
    right: ComparedRecord,
    items: &'a [ListedItem],
) -> FirstDifferences<'a>
    requires one { left.layout.now ≡ right.layout.now }
    requires left { HoldsRecord left.layout.now left.places.now (length left.bytes.now) }
    requires right { HoldsRecord right.layout.now right.places.now (length right.bytes.now) }
    requires items { AreCompared left.layout.now (map named_item items.now) }
    ensures told { AreFirstDifferences (map named_item items.now) (printed_of left.entry)
        (printed_of right.entry) result }
{
    // The elements of all items stand within both records: the layout is that of a record description, which is sound.
    records_are_sound();
    places_end_in_length();
    let _ = left.layout.greatest();
    let mut told = FirstDifferences::new();
    add_items(left, right, items, &mut told);
    told
}

/// Compares two records of one layout in these items, which are those of [`compared_items`](crate::compared_items). It takes no memory.
pub fn compare_records<'a>(
    left: ComparedRecord,
    right: ComparedRecord,
    items: &'a [ListedItem],
) -> Comparison<'a>
    requires one { left.layout.now ≡ right.layout.now }
    requires left { IsCompleteRecord (printed_of left) }
    requires right { IsCompleteRecord (printed_of right) }
    requires items { AreCompared left.layout.now (map named_item items.now) }
    // Equal exactly where they are so by value, and else the elements that differ.
    ensures is { IsComparison (map named_item items.now) (printed_of left.entry)
        (printed_of right.entry) result }
{
    // Records with the same bytes are equal by value, since the layout is that of a record description.
    same_bytes_are_equal();
    let _ = left.layout.greatest();
    if left.bytes == right.bytes {
        return Comparison::Same;
    }
    let told = differences(left, right, items);
    if occur_alike(left, right) && told.is_empty() {
        return Comparison::Equal;
    }
    Comparison::Differ(told)
}

/// Compares two records by their bytes.
pub fn compare_bytes<'a>(left: &[u8], right: &[u8]) -> Comparison<'a>
    ensures is { IsBytesComparison left.now right.now result }
{
    if left == right {
        return Comparison::Same;
    }
    Comparison::Unlike(byte_differences(left, right))
}

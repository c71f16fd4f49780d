//! Whether an item holds one value in two records.

ghost use Rattle.std.specs.Prelude.{◌≡◌, length, IsTrue, IsFalse};
ghost use Rattle.cob_copybook_tree.specs.Items.{IsNumberItem};
ghost use Rattle.cob_copybook_tree.specs.Lengths.{item_size};
ghost use Rattle.cob_report_compare.specs.Equal.{AreOneNumber, SameValue};

use cob_layout::{Item, is_number_item, read_number};

/// Whether the bytes on both sides represent one number of an item.
fn are_one_number(item: &Item, left: &[u8], right: &[u8]) -> bool
    requires number { IsNumberItem item.now }
    requires left { length left.now ≡ item_size item.now }
    requires right { length right.now ≡ item_size item.now }
    ensures yes { IsTrue result → AreOneNumber item.now left.now right.now }
    ensures no { IsFalse result → AreOneNumber item.now left.now right.now → ⊥ }
{
    let Some(one) = read_number(item, left) else {
        return false;
    };
    let Some(other) = read_number(item, right) else {
        return false;
    };
    one.negative() == other.negative() && one.digits().as_slice() == other.digits().as_slice()
}

/// Whether an item of these bytes holds one value on both sides.
pub(crate) fn same_value(item: &Item, left: &[u8], right: &[u8]) -> bool
    requires left { length left.now ≡ item_size item.now }
    requires right { length right.now ≡ item_size item.now }
    ensures yes { IsTrue result → SameValue item.now left.now right.now }
    ensures no { IsFalse result → SameValue item.now left.now right.now → ⊥ }
{
    if left == right {
        return true;
    }
    if !is_number_item(item) {
        return false;
    }
    are_one_number(item, left, right)
}

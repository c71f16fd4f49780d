//! Two files of one layout, and two records of them.

ghost use Rattle.std.specs.Prelude.{◌≡◌, length, map};
ghost use Rattle.cob_report_show.specs.Elements.{named_item};
ghost use Rattle.cob_report_compare.specs.Chosen.{AreCompared};
ghost use Rattle.cob_report_compare.specs.Differences.{IsMeasured};
ghost use Rattle.cob_report_compare.specs.Equal.{IsCompleteRecord, printed_of};
ghost use Rattle.cob_report_compare.specs.Printable.{IsTellable};

use crate::elements::ComparedRecord;
use crate::records::{Comparison, compare_bytes, compare_records};
use cob_layout::Layout;
use cob_records::Form;
use cob_report_show::ListedItem;

/// Two files of one layout that are compared.
#[derive(Clone, Copy)]
pub struct ComparedFiles<'a> {
    pub layout: &'a Layout,
    /// The items that are compared.
    pub items: &'a [ListedItem],
    /// The items of the key by which records are pairs. Without one they are pairs by their places.
    pub keys: &'a [ListedItem],
    /// Whether their bytes are compared in the place of these.
    pub by_bytes: bool,
    /// How many records that differ or stand alone are told at most.
    pub most: u64,
    /// How the records stand in the file on the left.
    pub left_form: Form,
    /// How the records stand in the file on the right.
    pub right_form: Form,
}

/// Compares two records.
pub(crate) fn compare_pair<'a>(
    files: ComparedFiles<'a>,
    left: ComparedRecord,
    right: ComparedRecord,
) -> Comparison<'a>
    requires one { left.layout.now ≡ right.layout.now }
    requires same { files.layout.now ≡ left.layout.now }
    requires left { IsCompleteRecord (printed_of left) }
    requires right { IsCompleteRecord (printed_of right) }
    requires items { AreCompared files.layout.now (map named_item files.items.now) }
    ensures is { IsMeasured files.entry.by_bytes (map named_item files.entry.items.now)
        (printed_of left.entry) (printed_of right.entry) result }
    ensures tells { IsTellable left.entry.bytes.now right.entry.bytes.now result }
{
    if files.by_bytes {
        compare_bytes(left.bytes, right.bytes)
    } else {
        compare_records(left, right, files.items)
    }
}

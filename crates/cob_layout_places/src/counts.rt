ghost use Rattle.std.specs.Prelude.{◌≡◌, ◌≢◌, ℕ, ◌+◌, ◌<◌, ◌≤◌, List, [], length, Ok, Err, Result, Some, IfOk, IfErr, IfSome, IfNone};
ghost use Rattle.cob_copybook_tree.specs.declared.node.Item.{Item};
ghost use Rattle.cob_copybook_tree.specs.declared.node.Kind.TheVariants.{Item as ItemKind};
ghost use Rattle.cob_copybook_tree.specs.Nodes.{node, tree_of};
ghost use Rattle.cob_copybook_tree.specs.Lengths.{item_size};
ghost use Rattle.cob_copybook_tree.specs.Items.{IsNumberItem};
ghost use Rattle.cob_layout_places.specs.Lengths.{times, EntryFits};
ghost use Rattle.cob_layout_places.specs.Places.{place_of};
ghost use Rattle.cob_layout_places.specs.Counts.{IsCountValue, IsCountable, IsCounted, IsCountedThere, kind_in, SaysOfTable};

use crate::naturals::read_natural;
use crate::places::{Found, seek};
use crate::varying::{Table, kind_with};
use cob_copybook_tree::{Item, Kind, Node};

/// A count that gives no number from its table's least to its greatest one.
#[derive(Clone, Copy, PartialEq, Eq)]
pub struct CountFault {
    /// Where the count's item begins, in bytes from the start of the storage.
    pub offset: u32,
    /// Whether the item ends past the bytes of the storage.
    pub short: bool,
}

/// The fault of a count that is no item: no record has one.
const NOWHERE: CountFault = CountFault {
    offset: 0,
    short: false,
};

/// The number that a table's count gives, if it gives one.
#[inline(always)]
fn count(item: &Item, table: Table, part: &[u8]) -> Option<u32>
    requires number { IsNumberItem item.now }
    requires long { length part.now ≡ item_size item.now }
    ensures found { IfSome result (λ v. IsCountValue item.now table part.now v) }
    ensures none { IfNone result ((v : ℕ) → IsCountValue item.now table part.now v → ⊥) }
{
    let count = read_natural(item, table.most, part)?;
    if count < table.least {
        return None;
    }
    Some(count)
}

/// What the bytes say of a table whose count is this item and stands there.
///
/// # Errors
///
/// The count gives no number from its table's least to its greatest one, or ends past the bytes.
#[inline(always)]
pub fn count_at(item: &Item, table: Table, found: Found, bytes: &[u8]) -> Result<u32, CountFault>
    requires number { IsNumberItem item.now }
    requires long { found.length ≡ item_size item.now }
    ensures ok { IfOk result (λ v. SaysOfTable item.now table found bytes.now (Ok v)) }
    ensures err { IfErr result (λ e. SaysOfTable item.now table found bytes.now (Err e)) }
{
    let start = found.offset as usize;
    let end = start + found.length as usize;
    if bytes.len() < end {
        return Err(CountFault {
            offset: found.offset,
            short: true,
        });
    }
    match count(item, table, &bytes[start..end]) {
        Some(count) => Ok(count),
        None => Err(CountFault {
            offset: found.offset,
            short: false,
        }),
    }
}

/// The item with this number among those of a record.
fn item_with(root: &Node, number: usize) -> Option<&Item>
    ensures found { IfSome result
        (λ item. kind_in number (tree_of root.now) ≡ Some (ItemKind item.now)) }
    ensures none { IfNone result
        ((item : Item) → kind_in number (tree_of root.now) ≢ Some (ItemKind item)) }
{
    match kind_with(root, number)? {
        Kind::Item(item) => Some(item),
        Kind::Group => None,
    }
}

/// What the bytes say of a table whose count stands there under some counts.
///
/// # Errors
///
/// The count gives no number from its table's least to its greatest one, or ends past the bytes.
pub fn count_there(root: &Node, table: Table, found: Found, bytes: &[u8]) -> Result<u32, CountFault>
    requires countable { IsCountable (tree_of root.now) table }
    requires stands { (counts : List ℕ)
        × (place_of (times counts) table.count (tree_of root.now) 0 0 [] ≡ Some found) }
    ensures ok { IfOk result (λ v. IsCountedThere
        (tree_of root.now) bytes.now table found (Ok v)) }
    ensures err { IfErr result (λ e. IsCountedThere
        (tree_of root.now) bytes.now table found (Err e)) }
{
    match item_with(root, table.count) {
        Some(item) => count_at(item, table, found, bytes),
        None => Err(NOWHERE),
    }
}

/// What the bytes say of a table under the counts so far.
///
/// # Errors
///
/// The count gives no number from its table's least to its greatest one, or ends past the bytes.
pub fn count_of(root: &Node, table: Table, bytes: &[u8], counts: &[u32]) -> Result<u32, CountFault>
    requires fit { EntryFits 0 (node root.now).top (node root.now).beneath }
    requires countable { IsCountable (tree_of root.now) table }
    ensures ok { IfOk result (λ v. IsCounted (tree_of root.now) bytes.now table counts.now (Ok v)) }
    ensures err { IfErr result
        (λ e. IsCounted (tree_of root.now) bytes.now table counts.now (Err e)) }
{
    match seek(root, table.count, counts, 0, &[]) {
        Some(found) => count_there(root, table, found, bytes),
        None => Err(NOWHERE),
    }
}

ghost use Rattle.std.specs.Prelude.{◌≡◌, ◌<◌, ◌≤◌, length};
ghost use Rattle.cob_copybook_tree.specs.Nodes.{node, tree_of};
ghost use Rattle.cob_copybook_tree.specs.Lengths.{element_length, greatest_number, whole_length};
ghost use Rattle.cob_layout_places.specs.Lengths.{times, MayOccur};
ghost use Rattle.cob_limits.specs.Limits.{longest_record};

use cob_copybook_tree::{Kind, Node, ResolvedOccurs};

/// How often an entry occurs under these counts, which stand by the numbers of their tables.
///
/// A count counts as its table's greatest number where it is more; a table without a count has no element.
pub fn times_of(entry: &Node, counts: &[u32]) -> u32
    ensures { result ≡ times counts.now (node entry.now).top }
{
    match entry.occurs {
        ResolvedOccurs::Once => 1,
        ResolvedOccurs::Fixed(times) => times,
        ResolvedOccurs::Varying { most, .. } => match counts.get(entry.number) {
            Some(count) => (*count).min(most),
            None => 0,
        },
    }
}

/// The length of one element of an entry under these counts, in bytes: at most 32,752.
pub fn element_of(entry: &Node, counts: &[u32]) -> u32
    requires possible { MayOccur (tree_of entry.now) }
    requires small { whole_length greatest_number (node entry.now).top (node entry.now).beneath ≤
        longest_record }
    ensures { result ≡ element_length (times counts.now) (node entry.now).top
        (node entry.now).beneath }
{
    match &entry.kind {
        Kind::Item(item) => u32::from(item.size()),
        Kind::Group => {
            let mut sum = 0;
            for child in entry.children.iter() {
                if child.redefines.is_none() {
                    sum += times_of(child, counts) * element_of(child, counts);
                }
            }
            sum
        }
    }
}

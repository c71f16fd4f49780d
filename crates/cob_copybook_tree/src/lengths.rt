ghost use Rattle.std.specs.Prelude.{◌≡◌, ◌*◌, min};
ghost use Rattle.cob_copybook_tree.specs.declared.lengths.TheConstants.{MANY};
ghost use Rattle.cob_copybook_tree.specs.Nodes.{node};
ghost use Rattle.cob_copybook_tree.specs.Lengths.{element_length, greatest_number, greatest_number_by, whole_length};

use crate::node::{Kind, Node, ResolvedOccurs};

/// The length that each greater one counts as.
pub const MANY: u32 = 65_536;

impl ResolvedOccurs {
    /// How often the entry occurs at most.
    pub fn most(self) -> u32
        ensures { result ≡ greatest_number_by self }
    {
        match self {
            ResolvedOccurs::Once => 1,
            ResolvedOccurs::Fixed(times) => times,
            ResolvedOccurs::Varying { most, .. } => most,
        }
    }
}

/// So many times a length.
fn repeated(times: u32, length: u32) -> u32
    ensures { result ≡ min (times * length) MANY }
{
    (u64::from(times) * u64::from(length)).min(u64::from(MANY)) as u32
}

/// The greatest length of one element of an entry, in bytes. One of over [`MANY`] bytes counts as [`MANY`].
pub fn element_length(entry: &Node) -> u32
    ensures { result ≡ min (element_length greatest_number (node entry.now).top
        (node entry.now).beneath) MANY }
{
    match &entry.kind {
        Kind::Item(item) => u32::from(item.size()),
        Kind::Group => {
            let mut sum: u32 = 0;
            for child in entry.children.iter() {
                if child.redefines.is_none() {
                    let length = repeated(child.occurs.most(), element_length(child));
                    sum = (sum + length).min(MANY);
                }
            }
            sum
        }
    }
}

/// The greatest length of all elements of an entry together, in bytes. One of over [`MANY`] bytes counts as [`MANY`].
pub fn whole_length(entry: &Node) -> u32
    ensures { result ≡ min (whole_length greatest_number (node entry.now).top
        (node entry.now).beneath) MANY }
{
    repeated(entry.occurs.most(), element_length(entry))
}

ghost use Rattle.std.specs.Prelude.{IsTrue};
ghost use Rattle.std.specs.Option.{IsNone};
ghost use Rattle.cob_copybook_tree.specs.Branches.{forest_of};
ghost use Rattle.cob_copybook_rules.specs.Signs.{MayBeSigned, AreSigned};

use crate::usages::inherited;
use cob_copybook_tree::{Branch, Sign, Usage, keeps_sign};
use cob_picture::Picture;

/// Whether an entry with the usage and the picture may have the sign.
fn may_be_signed(sign: Option<Sign>, usage: Option<Usage>, picture: &Option<Picture>) -> bool
    ensures yes { IsTrue result → MayBeSigned sign usage picture.now }
    ensures must { MayBeSigned sign usage picture.now → IsTrue result }
{
    match (sign, picture) {
        (Some(_), Some(picture)) => keeps_sign(usage.unwrap_or(Usage::Display), picture),
        _ => true,
    }
}

/// The line of an item whose sign isn't allowed beneath groups with the usage `above`.
pub(crate) fn wrong_sign(above: Option<Usage>, branches: &[Branch]) -> Option<u32>
    ensures fine { IsNone result → AreSigned above (forest_of branches.now) }
    ensures must { AreSigned above (forest_of branches.now) → IsNone result }
{
    for branch in branches {
        let entry = &branch.entry;
        let usage = inherited(above, entry.usage);
        if !may_be_signed(entry.sign, usage, &entry.picture) {
            return Some(entry.line);
        }
        if let Some(line) = wrong_sign(usage, branch.children.as_slice()) {
            return Some(line);
        }
    }
    None
}

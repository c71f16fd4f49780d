//! Plain copies.

ghost use Rattle.std.specs.Prelude.{◌≡◌, IsTrue};
ghost use Rattle.cob_move_receive.specs.Copying.{CopiesBytes, copies_bytes, is_of_characters, takes_characters};

use cob_copybook_tree::{Item, Kind};
use cob_picture::Category;

/// Whether an item holds characters without insertions.
pub fn is_of_characters(item: &Item) -> bool
    ensures { result ≡ is_of_characters item.now.picture.category }
{
    matches!(
        item.picture.category(),
        Category::Alphabetic | Category::Alphanumeric
    )
}

/// Whether an item of characters gets another's characters from the left.
fn takes_characters(from: &Item, to: &Item) -> bool
    ensures { result ≡ takes_characters from.now to.now }
{
    is_of_characters(from) && is_of_characters(to) && !to.justified
}

/// Whether the move of a sender to a receiver of its length is a plain copy: a group is on either side, or both are alphabetic or alphanumeric,
/// and the receiver isn't JUSTIFIED.
#[tactic(auto, using(crate::proofs::CopyingLemmas::copies))]
pub fn copies_bytes(sender: &Kind, receiver: &Kind) -> bool
    ensures value { result ≡ copies_bytes sender.now receiver.now }
    ensures copies { IsTrue result → CopiesBytes sender.now receiver.now }
{
    match sender {
        Kind::Group => true,
        Kind::Item(from) => match receiver {
            Kind::Group => true,
            Kind::Item(to) => takes_characters(from, to),
        },
    }
}

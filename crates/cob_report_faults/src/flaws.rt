//! Which part of a number's bytes is to blame.

ghost use Rattle.std.specs.Prelude.{◌≡◌, ℕ, Bool, List, IfNone, IfSome, length};
ghost use Rattle.cob_copybook_tree.specs.Items.{IsFlawOf, IsNumberItem, IsSentBy};
ghost use Rattle.cob_copybook_tree.specs.Lengths.{item_size};

use cob_codec::{NumberFlaw, Reading};
use cob_copybook_tree::{Item, read_sent};

/// Why the bytes of a number item that is sent represent none by a reading. None exactly where they represent one.
pub fn number_flaw(reading: Reading, item: &Item, bytes: &[u8]) -> Option<NumberFlaw>
    requires number { IsNumberItem item.now }
    requires long { length bytes.now ≡ item_size item.now }
    ensures found { IfSome result (IsFlawOf item.now bytes.now) }
    ensures only { IfSome result (λ flaw. (negative : Bool) (digits : List ℕ)
        → IsSentBy reading item.now bytes.now negative digits → ⊥) }
    ensures none { IfNone result ((negative : Bool) × (digits : List ℕ)
        × IsSentBy reading item.now bytes.now negative digits) }
{
    match read_sent(reading, item, bytes) {
        Some(_) => None,
        None => item.flaw(bytes),
    }
}

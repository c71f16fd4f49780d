//! The numbers of items that are not below zero, in few steps where these tell them.

ghost use Rattle.std.specs.Prelude.{◌≡◌, ◌≤◌, ◌<◌, ℕ, length, IfSome, IfNone};
ghost use Rattle.cob_copybook_tree.specs.Items.{IsNumberItem};
ghost use Rattle.cob_copybook_tree.specs.Lengths.{item_size};
ghost use Rattle.cob_decimal.specs.Decimal.{IsDigits, number_of};
ghost use Rattle.cob_layout_places.specs.Counts.{IsNatural};

use cob_copybook_tree::{Item, read_number};

/// The whole number of these digits, if it is no more than that.
fn whole(digits: &[u8], most: u32) -> Option<u32>
    requires { IsDigits digits.now }
    ensures found { IfSome result (λ v. (v ≡ number_of digits.now) × (v ≤ most)) }
    ensures none { IfNone result (most < number_of digits.now) }
{
    let mut value: u64 = 0;
    for digit in digits {
        value = value * 10 + u64::from(*digit);
        if value > u64::from(most) {
            return None;
        }
    }
    Some(value as u32)
}

/// The number that the bytes of an item represent, if it is not below zero and no more than that, by way of its digits.
#[inline(never)]
fn natural_by_digits(item: &Item, most: u32, bytes: &[u8]) -> Option<u32>
    requires number { IsNumberItem item.now }
    requires long { length bytes.now ≡ item_size item.now }
    ensures found { IfSome result (λ v. IsNatural item.now bytes.now v × (v ≤ most)) }
    ensures none { IfNone result ((v : ℕ) → IsNatural item.now bytes.now v → v ≤ most → ⊥) }
{
    let number = read_number(item, bytes)?;
    if number.negative() {
        return None;
    }
    whole(number.digits().as_slice(), most)
}

/// The number that the bytes of an item represent, if it is not below zero and no more than that. Minus zero is zero. The scale of the item
/// is not looked at: the number is that of its digits.
#[inline(always)]
pub(crate) fn read_natural(item: &Item, most: u32, bytes: &[u8]) -> Option<u32>
    requires number { IsNumberItem item.now }
    requires long { length bytes.now ≡ item_size item.now }
    ensures found { IfSome result (λ v. IsNatural item.now bytes.now v × (v ≤ most)) }
    ensures none { IfNone result ((v : ℕ) → IsNatural item.now bytes.now v → v ≤ most → ⊥) }
{
    match item.quick_natural(bytes) {
        Some(number) if number <= most => Some(number),
        _ => natural_by_digits(item, most, bytes),
    }
}

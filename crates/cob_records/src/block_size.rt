ghost use Rattle.std.specs.Prelude.{◌≡◌, ℕ, IfSome, Some};
ghost use Rattle.cob_records.specs.BlockSize.{SaysBlockSize};

use cob_limits::MAX_BLOCK;

/// The least greatest size of blocks: that of both descriptors of a block with one record, the record apart.
const LEAST_BLOCK: u16 = 8;

/// The greatest size of blocks that a word says, if it says one: one to five decimal digits of a number from 8 to 32,760.
pub fn block_size_of(word: &[u8]) -> Option<u16>
    ensures found { IfSome result (SaysBlockSize word.now) }
    ensures only { (most : ℕ) → SaysBlockSize word.now most → result ≡ Some most }
{
    if word.is_empty() || word.len() > 5 {
        return None;
    }
    let mut number: u16 = 0;
    let mut rest = word;
    while let Some((digit, after)) = rest.split_first() {
        if !digit.is_ascii_digit() {
            return None;
        }
        number = number
            .saturating_mul(10)
            .saturating_add(u16::from(*digit - b'0'));
        rest = after;
    }
    if number < LEAST_BLOCK || number > MAX_BLOCK {
        return None;
    }
    Some(number)
}

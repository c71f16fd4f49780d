ghost use Rattle.std.specs.Prelude.{◌≡◌, ℕ, IfSome, Some};
ghost use Rattle.cob_program_line.specs.Numbers.{SaysNumber};

/// The number that a word says, if it says one: in decimal digits, below the greatest of 64 bits.
pub(crate) fn number_of(word: &[u8]) -> Option<u64>
    ensures found { IfSome result (SaysNumber word.now) }
    ensures only { (number : ℕ) → SaysNumber word.now number → result ≡ Some number }
{
    if word.is_empty() {
        return None;
    }
    let mut number: u64 = 0;
    let mut rest = word;
    while let Some((digit, after)) = rest.split_first() {
        if !digit.is_ascii_digit() {
            return None;
        }
        number = number
            .saturating_mul(10)
            .saturating_add(u64::from(*digit - b'0'));
        rest = after;
    }
    if number == u64::MAX {
        return None;
    }
    Some(number)
}

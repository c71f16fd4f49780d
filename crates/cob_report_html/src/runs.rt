//! Runs of bytes that are not covered.

ghost use Rattle.std.specs.Prelude.{◌≡◌, not};
ghost use Rattle.std.specs.List.{prefix_len};

/// How many bytes at the front are not covered, of bytes that are or are not.
pub fn bare_length(covered: &[bool]) -> usize
    ensures { result ≡ prefix_len not covered.now }
{
    for (at, covered) in covered.iter().enumerate() {
        if *covered {
            return at;
        }
    }
    covered.len()
}

//! Sums of texts.

ghost use Rattle.std.specs.Prelude.{◌≡◌, IfOk, string_bytes};
ghost use Rattle.hex.specs.Hex.{encode_lower};
ghost use Rattle.sha2.specs.Sha256.{sha256};

use sha2::{Digest, Sha256};
use std::alloc::{AllocError, Global};

/// The SHA-256 of a text, in hexadecimal digits.
///
/// # Errors
///
/// Where no memory is left.
pub fn sum_of(alloc: Global, text: &[u8]) -> Result<String, AllocError>
    ensures { IfOk result (λ digits. string_bytes digits ≡ encode_lower (sha256 text.now)) }
{
    hex::encode(alloc, Sha256::digest(text))
}

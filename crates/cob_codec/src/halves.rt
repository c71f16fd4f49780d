//! The half bytes of bytes.

ghost use Rattle.std.specs.Prelude.{◌≡◌, ◌<◌, ◌*◌, length, slice_index};
ghost use Rattle.cob_codec.specs.Packed.{halves};

/// The half byte with this number, the high one of each byte first.
pub(crate) fn half_at(bytes: &[u8], at: usize) -> u8
    requires { at < 2 * length bytes.now }
    ensures { result ≡ slice_index (halves bytes.now) at }
{
    let byte = bytes[at / 2];
    if at % 2 == 0 { byte / 16 } else { byte % 16 }
}

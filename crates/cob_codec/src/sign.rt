ghost use Rattle.std.specs.Prelude.{◌≡◌};
ghost use Rattle.cob_codec.specs.Sign.{sign_meaning, sign_code};

/// Whether a sign code is minus, if it is a sign.
pub(crate) fn sign_of(signed: bool, code: u8) -> Option<bool>
    ensures { result ≡ sign_meaning signed code }
{
    match code {
        0xA | 0xC | 0xE | 0xF => Some(false),
        0xB | 0xD if signed => Some(true),
        _ => None,
    }
}

/// The sign code that is written.
pub(crate) fn code_of(signed: bool, negative: bool) -> u8
    ensures { result ≡ sign_code signed negative }
{
    match (signed, negative) {
        (false, _) => 0xF,
        (true, false) => 0xC,
        (true, true) => 0xD,
    }
}

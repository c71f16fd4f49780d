use thiserror::Error;

/// Why a text is no picture. It prints as `P1` to `P7`.
#[derive(Clone, Copy, Debug, PartialEq, Eq, Error)]
pub enum PictureFault {
    /// There is no character.
    #[error("P1")]
    Empty,
    /// A character that begins no symbol: small letters are none.
    #[error("P2")]
    UnknownSymbol,
    /// A bracket behind no symbol, or without a closed number above 0.
    #[error("P3")]
    BadRepeat,
    /// The symbols stand in an order that no category has.
    #[error("P4")]
    Order,
    /// A picture of a number has no digit, or more than `MAX_DIGITS`.
    #[error("P5")]
    Digits,
    /// Over `MAX_PICTURE_TEXT` characters, or more bytes than `MAX_RECORD` or, of an edited item, `MAX_EDITED_SIZE`.
    #[error("P6")]
    TooLong,
    /// What the standard has and this profile leaves out: E, N, G and U, a P in a numeric edited picture, and a currency sign
    /// before a floating sign.
    #[error("P7")]
    LeftOut,
}

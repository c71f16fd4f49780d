//! Numbers, as they are told.

use arrayvec::ArrayVec;
use cob_decimal::Number;
use std::fmt;

/// Writes a number, as `-0.50`.
pub(crate) fn write_number<W: fmt::Write>(
    f: &mut fmt::Formatter<W>,
    number: &Number,
) -> fmt::Result {
    let mut text: ArrayVec<u8, 64> = ArrayVec::new();
    number.write_text(&mut text);
    for character in text.as_slice() {
        write!(f, "{}", char::from(*character))?;
    }
    Ok(())
}

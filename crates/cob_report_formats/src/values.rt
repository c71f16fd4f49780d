//! The values of items.

use arrayvec::ArrayVec;
use cob_layout::{Item, is_number_item};
use cob_report_show::number_text;

/// What bytes are as the value of an item.
#[derive(Drop)]
pub(crate) enum FormattedValue {
    /// A number, by its text.
    Number(ArrayVec<u8, 64>),
    /// The bytes of a number item that represent none.
    NoNumber,
    /// Those of an item of characters.
    Characters,
}

/// What bytes are as the value of an item.
pub(crate) fn shown_value(item: &Item, bytes: &[u8]) -> FormattedValue {
    if !is_number_item(item) {
        return FormattedValue::Characters;
    }
    if bytes.len() != usize::from(item.size()) {
        return FormattedValue::NoNumber;
    }
    match number_text(item, bytes) {
        Some(text) => FormattedValue::Number(text),
        None => FormattedValue::NoNumber,
    }
}

//! The single moves of bytes that may lose their description, as they are told.

use crate::elements::{write_element, write_sent};
use crate::occurrences::occurrence_with;
use cob_back_losses::{Gets, Unkept, place_of};
use cob_back_moves::BothLayouts;
use cob_copybook_tree::Value;
use cob_move_data::Sent;
use cob_report_lossless::LinedSingle;
use cob_report_words::{ConstantText, DescribedText, GotText, NamedOccurrence};
use std::fmt;

/// A single move of bytes that may lose their description, and the first byte that does not keep it.
#[derive(Clone, Copy)]
pub(crate) struct Undescribed<'a> {
    pub(crate) layouts: BothLayouts<'a>,
    pub(crate) single: LinedSingle<'a>,
    pub(crate) unkept: Unkept,
}

/// Writes what an item gets of a constant.
fn write_characters_of<W: fmt::Write>(f: &mut fmt::Formatter<W>, value: &Value) -> fmt::Result {
    match value {
        Value::Figurative(_) => write!(f, "characters of {}", ConstantText { value }),
        Value::Number { .. } | Value::Literal(_) | Value::All(_) => {
            write!(f, "characters of a literal")
        }
    }
}

impl Undescribed<'_> {
    /// Writes the item that has the byte, and where it stands.
    fn write_item<W: fmt::Write>(&self, f: &mut fmt::Formatter<W>) -> fmt::Result {
        let output = self.layouts.output;
        let receiver = self.single.receiver;
        let front = match place_of(output, receiver.number, receiver.subscripts) {
            Some(place) => place.offset,
            None => 0,
        };
        let at = u32::try_from(self.unkept.at).unwrap_or(u32::MAX);
        let byte = front.saturating_add(at);
        let occurrence = occurrence_with(output, self.unkept.item, byte);
        let named = occurrence.named(output);
        let described = DescribedText { named: &named };
        write!(f, "{described}, at {}", occurrence.place.offset)
    }

    /// Writes what the byte gets.
    fn write_gets<W: fmt::Write>(&self, f: &mut fmt::Formatter<W>) -> fmt::Result {
        match (self.unkept.gets, self.single.sent) {
            (Gets::Item(number), Sent::Entry { side, .. }) => {
                let named = NamedOccurrence::new(self.layouts.of(side).root(), number, &[]);
                write!(f, "{}", GotText { sent: Some(&named) })
            }
            (Gets::Character, Sent::Constant(value)) => write_characters_of(f, value),
            (_, Sent::Constant(_)) => write!(f, "spaces behind the literal's end"),
            (_, Sent::Entry { .. }) => write!(f, "{}", GotText { sent: None }),
        }
    }
}

impl fmt::Display for Undescribed<'_> {
    fn fmt<W: fmt::Write>(&self, f: &mut fmt::Formatter<W>) -> fmt::Result {
        let LinedSingle {
            line,
            sent,
            receiver,
        } = &self.single;
        write!(f, "may lose the description, line {line}: ")?;
        write_sent(f, &self.layouts, *sent)?;
        write!(f, " to ")?;
        write_element(f, self.layouts.output, *receiver)?;
        write!(f, ": ")?;
        self.write_item(f)?;
        write!(f, " gets ")?;
        self.write_gets(f)
    }
}

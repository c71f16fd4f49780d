//! What items are, as a copybook writes it.

use crate::pictures::PictureText;
use cob_copybook_tree::{Item, Sign};
use std::fmt;

/// What an item is, which prints as its picture and what else a copybook says of its bytes: `PIC S9(7)V99 COMP-3`.
#[derive(Clone, Copy)]
pub struct ItemText<'a> {
    pub item: &'a Item,
}

/// Writes where a sign stands, where a clause says so.
fn write_sign<W: fmt::Write>(f: &mut fmt::Formatter<W>, sign: Sign) -> fmt::Result {
    let place = if sign.leading { "LEADING" } else { "TRAILING" };
    write!(f, " SIGN {place}")?;
    if sign.separate {
        write!(f, " SEPARATE")?;
    }
    Ok(())
}

impl fmt::Display for ItemText<'_> {
    fn fmt<W: fmt::Write>(&self, f: &mut fmt::Formatter<W>) -> fmt::Result {
        let picture = PictureText {
            picture: &self.item.picture,
        };
        write!(f, "PIC {picture}")?;
        if !self.item.usage.is_display() {
            write!(f, " {}", self.item.usage.name())?;
        }
        match self.item.sign {
            Some(sign) => write_sign(f, sign),
            None => Ok(()),
        }
    }
}

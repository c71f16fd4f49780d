//! What is against the move of an entry to its partner, in words.

use crate::pairs::{PartnerPair, Records, is_item, kind_of};
use cob_back_losses::{Gets, Losses, Unkept};
use cob_copybook_tree::{Item, Kind};
use cob_report_partners::Objection;
use cob_report_words::{DescribedText, GotText, NamedOccurrence, PictureText};
use std::fmt;

/// What is against a move.
#[derive(Clone, Copy)]
pub(crate) struct ObjectionReason<'s, 'a> {
    pub(crate) records: &'s Records<'a>,
    pub(crate) pair: PartnerPair<'s, 'a>,
    pub(crate) objection: Objection,
}

/// Writes what the move of an item to another one may lose, with both pictures.
fn write_losses<W: fmt::Write>(
    f: &mut fmt::Formatter<W>,
    from: &Item,
    to: &Item,
    losses: Losses,
) -> fmt::Result {
    let from = PictureText {
        picture: &from.picture,
    };
    let to = PictureText {
        picture: &to.picture,
    };
    write!(f, "PIC {from} to PIC {to} may lose {losses}:")
}

impl ObjectionReason<'_, '_> {
    /// Writes what the move may lose, with both pictures where it is of an item to an item.
    fn write_loses<W: fmt::Write>(&self, f: &mut fmt::Formatter<W>, losses: Losses) -> fmt::Result {
        match (kind_of(self.pair.from), kind_of(self.pair.to)) {
            (Kind::Item(from), Kind::Item(to)) => write_losses(f, from, to, losses),
            _ => {
                let objection = Objection::Loses(losses);
                write!(f, "{objection}:")
            }
        }
    }

    /// Writes which item does not keep its description, and what it gets.
    fn write_description<W: fmt::Write>(
        &self,
        f: &mut fmt::Formatter<W>,
        unkept: Unkept,
    ) -> fmt::Result {
        let named = NamedOccurrence::new(self.records.output.root(), unkept.item, &[]);
        let described = DescribedText { named: &named };
        write!(f, "It moves bytes, and {described}, gets ")?;
        match unkept.gets {
            Gets::Item(number) => {
                let sent = NamedOccurrence::new(self.records.input.root(), number, &[]);
                write!(f, "{}:", GotText { sent: Some(&sent) })
            }
            Gets::Space | Gets::Character => write!(f, "{}:", GotText { sent: None }),
        }
    }
}

impl fmt::Display for ObjectionReason<'_, '_> {
    fn fmt<W: fmt::Write>(&self, f: &mut fmt::Formatter<W>) -> fmt::Result {
        match self.objection {
            Objection::Loses(losses) => self.write_loses(f, losses),
            Objection::Description(unkept) => self.write_description(f, unkept),
            Objection::Counts if !is_item(self.pair.to) => {
                f.write_str("A table whose count it holds is not filled:")
            }
            objection => write!(f, "{objection}:"),
        }
    }
}

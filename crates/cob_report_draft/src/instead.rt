//! What may be moved in the place of a move of bytes that may not stand: items alone.

use crate::pairs::{
    PartnerPair, Records, has_namesake, is_item, is_own_group, is_own_item, kind_of, number_of,
    paired,
};
use crate::progress::{DraftProgress, Saying, is_of_bytes};
use crate::shares::Share;
use cob_copybook_tree::Kind;
use cob_report_partners::{DraftBearer, Partner, only_item_beneath};
use std::alloc::AllocError;

/// What is said of an item whose partner isn't known.
pub(crate) const SEVERAL: &str = "several entries of the input record have this name";

/// What is said of an item that no statement can name, or whose partner none can.
pub(crate) const UNNAMED: &str = "its name does not tell it from another entry";

/// An item beneath a group that no partner is moved to, and why.
#[derive(Clone, Copy)]
struct Left {
    /// The number of its entry.
    number: usize,
    why: &'static str,
}

/// What stands above the only item of a group that is moved to an item.
fn only_words(to: &DraftBearer<'_>) -> &'static str {
    match kind_of(to) {
        Kind::Item(item) if item.picture.category().shows_number() => "Its only number:",
        _ => "Its only item of characters:",
    }
}

/// Whether an item with a name stands beneath a group of the output record.
fn has_items(outputs: &[DraftBearer<'_>], group: &DraftBearer<'_>) -> bool {
    let first = number_of(group).saturating_add(1);
    for number in first..outputs.len() {
        if number > group.entry.last {
            break;
        }
        if is_own_item(&outputs[number]) {
            return true;
        }
    }
    false
}

/// Why an item of the output record has no partner.
fn missing_words(records: &Records<'_>, to: &DraftBearer<'_>) -> &'static str {
    match records.compared_output(to) {
        Some(to) if has_namesake(records.compared().inputs(), to) => {
            "no entry of its name is its partner"
        }
        _ => "no entry has its name",
    }
}

impl<'s, 'a> DraftProgress<'s, 'a> {
    /// Adds what there is of an item of the output record and its partner.
    pub(crate) fn push_item_from(
        &mut self,
        records: &'s Records<'a>,
        pair: &PartnerPair<'s, 'a>,
    ) -> Result<(), AllocError> {
        match self.push_pair(records, pair)? {
            Some(objection) if is_of_bytes(pair, objection) => self.push_only(records, pair),
            _ => Ok(()),
        }
    }

    /// Adds what there is, in the place of a group's move to an item, of the only item of the group that may take it.
    fn push_only(
        &mut self,
        records: &'s Records<'a>,
        group: &PartnerPair<'s, 'a>,
    ) -> Result<(), AllocError> {
        let (sending, to) = (group.from, group.to);
        if let Partner::One(from) = only_item_beneath(&records.both, &sending.entry, to) {
            if let Some(pair) = paired(&records.both, from, to) {
                self.push_piece(to, Saying::Remark(only_words(to)))?;
                self.push_pair(records, &pair)?;
                return Ok(());
            }
        }
        self.push_piece(
            to,
            Saying::Remark("No item of it alone can take its place."),
        )
    }

    /// Adds what there is of a group of the output record: the move of an item, if its partner is one. Answers whether its items were looked at one by one.
    pub(crate) fn push_group(
        &mut self,
        records: &'s Records<'a>,
        to: &'s DraftBearer<'a>,
    ) -> Result<bool, AllocError> {
        let Partner::One(from) = records.partner_of(self.alloc, to)? else {
            return Ok(false);
        };
        if !is_item(from) {
            return Ok(false);
        }
        let Some(pair) = paired(&records.both, from, to) else {
            return Ok(false);
        };
        match self.push_pair(records, &pair)? {
            Some(objection) if is_of_bytes(&pair, objection) => {
                self.push_items(records, &pair)?;
                Ok(true)
            }
            _ => Ok(false),
        }
    }

    /// Adds what there is, in the place of an item's move to a group, of the items of the group.
    fn push_items(
        &mut self,
        records: &'s Records<'a>,
        group: &PartnerPair<'s, 'a>,
    ) -> Result<(), AllocError> {
        let outputs = records.both.outputs();
        if !has_items(outputs, group.to) {
            return self.push_piece(group.to, Saying::Remark("No item of it has a name."));
        }
        self.push_piece(group.to, Saying::Remark("Its items one by one:"))?;
        let mut left = Vec::new(self.alloc);
        let receiving = group.to;
        let first = number_of(receiving).saturating_add(1);
        for number in first..outputs.len() {
            if number > receiving.entry.last {
                break;
            }
            let to = &outputs[number];
            if is_own_item(to) {
                if let Some(why) = self.push_item_of(records, group, to)? {
                    left.push(Left { number, why })?;
                }
            } else if is_own_group(to) {
                self.push_group_of(records, to)?;
            }
        }
        self.push_left(outputs, &left)
    }

    /// Adds what there is of an item of a group, whose partner may stand in a redefinition of the group's. Answers why it has none, where it has none.
    fn push_item_of(
        &mut self,
        records: &'s Records<'a>,
        group: &PartnerPair<'s, 'a>,
        to: &'s DraftBearer<'a>,
    ) -> Result<Option<&'static str>, AllocError> {
        let sending = group.from;
        match records.partner_within(self.alloc, &sending.entry, to)? {
            Partner::Missing => Ok(Some(missing_words(records, to))),
            Partner::Several => Ok(Some(SEVERAL)),
            Partner::One(from) => match paired(&records.both, from, to) {
                Some(pair) => {
                    self.push_item_from(records, &pair)?;
                    Ok(None)
                }
                None => Ok(Some(UNNAMED)),
            },
        }
    }

    /// Adds what there is of a group beneath a group, without what may be moved in its place.
    fn push_group_of(
        &mut self,
        records: &'s Records<'a>,
        to: &'s DraftBearer<'a>,
    ) -> Result<(), AllocError> {
        let Partner::One(from) = records.partner_of(self.alloc, to)? else {
            return Ok(());
        };
        if !is_item(from) {
            return Ok(());
        }
        if let Some(pair) = paired(&records.both, from, to) {
            self.push_pair(records, &pair)?;
        }
        Ok(())
    }

    /// Adds the items of a group that no partner is moved to, and why, but for those that a group beneath it received.
    fn push_left(
        &mut self,
        outputs: &'s [DraftBearer<'a>],
        left: &[Left],
    ) -> Result<(), AllocError> {
        for item in left {
            let Some(to) = outputs.get(item.number) else {
                continue;
            };
            if self.received.of(item.number) == Share::All {
                continue;
            }
            self.push_piece(to, Saying::Listed(item.why))?;
        }
        Ok(())
    }
}

//! The lists of what a draft does not move.

use crate::held::{ItemContent, held_at, held_in};
use crate::loops::greatest_subscripts;
use crate::pairs::{Records, is_own_item, number_of};
use crate::shares::{Share, Shares};
use crate::words::NamedReference;
use crate::writing::DraftText;
use cob_layout::Layout;
use cob_layout_steady::is_steady;
use cob_report_partners::DraftBearer;
use std::alloc::AllocError;

/// What is said of elements that the other record doesn't have, if it is of these that something is told.
fn past_words(share: Share, words: &'static str) -> &'static str {
    match share {
        Share::Part => words,
        Share::Nothing | Share::All => "",
    }
}

/// Whether each element of an item begins at the same byte of each record: where one doesn't, the last one doesn't.
fn stays(layout: &Layout, item: &DraftBearer<'_>) -> bool {
    // Where no table varies, all elements do.
    if !layout.varies() {
        return true;
    }
    let last = greatest_subscripts(item.entry.tables.as_slice());
    match layout.reference(number_of(item), last.as_slice()) {
        Some(reference) => is_steady(layout, &reference),
        None => true,
    }
}

/// What an item holds, of which this would be held where it stands under the greatest counts.
fn held_there<'a>(
    layout: &Layout,
    item: &DraftBearer<'_>,
    own: ItemContent<'a>,
) -> ItemContent<'a> {
    if stays(layout, item) {
        own
    } else {
        ItemContent::Shifted
    }
}

impl DraftText {
    /// Adds an item of the output record to which not all is moved, and what it holds, which would be this where it stands under the greatest counts.
    fn push_unfilled_item(
        &mut self,
        layout: &Layout,
        to: &DraftBearer<'_>,
        share: Share,
        own: ItemContent<'_>,
    ) -> Result<(), AllocError> {
        let name = NamedReference::whole(to);
        let past = past_words(share, ", past the elements of the input");
        let held = held_there(layout, to, own);
        let words = format!(in self.alloc; "{name}{past}: {held}")?;
        self.lines.push_listed(&words)
    }

    /// Adds those of these items of the output record to which not all is moved.
    fn push_each_unfilled(
        &mut self,
        records: &Records<'_>,
        received: &Shares,
        held: &[ItemContent<'_>],
    ) -> Result<(), AllocError> {
        let mut is_first = true;
        for to in records.both.outputs() {
            let share = received.of(number_of(to));
            if !is_own_item(to) || share == Share::All {
                continue;
            }
            if is_first {
                self.lines
                    .push_remark("Nothing fills these items, which hold:")?;
                is_first = false;
            }
            let own = held_at(held, number_of(to));
            self.push_unfilled_item(records.output, to, share, own)?;
        }
        Ok(())
    }

    /// Adds the items of the output record to which not all is moved, and what they hold.
    pub(crate) fn push_unfilled(
        &mut self,
        records: &Records<'_>,
        received: &Shares,
    ) -> Result<(), AllocError> {
        let held = held_in(self.alloc, records.output.root())?;
        self.push_each_unfilled(records, received, held.as_slice())
    }

    /// Adds an item of the input record of which not all is moved.
    fn push_untaken_item(
        &mut self,
        from: &DraftBearer<'_>,
        share: Share,
    ) -> Result<(), AllocError> {
        let name = NamedReference::whole(from);
        let past = past_words(share, ", past the elements of the output");
        let words = format!(in self.alloc; "{name}{past}")?;
        self.lines.push_listed(&words)
    }

    /// Adds the items of the input record of which not all is moved.
    pub(crate) fn push_untaken(
        &mut self,
        inputs: &[DraftBearer<'_>],
        sent: &Shares,
    ) -> Result<(), AllocError> {
        let mut is_first = true;
        for from in inputs {
            let share = sent.of(number_of(from));
            if !is_own_item(from) || share == Share::All {
                continue;
            }
            if is_first {
                self.lines.push_remark("Nothing takes these items:")?;
                is_first = false;
            }
            self.push_untaken_item(from, share)?;
        }
        Ok(())
    }
}

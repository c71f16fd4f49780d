//! Entries as they are compared: behind the prefixes of their names, where some are left out.

use crate::pairs::{Records, number_of};
use cob_report_partners::{
    BothRecords, DraftBearer, DraftEntry, Partner, Prefixes, begins_with, partner_of,
    partner_within,
};
use std::alloc::{AllocError, Global};

/// Whether a name of one of these entries begins with a prefix; so it is where that is empty.
pub(crate) fn fits(prefix: &[u8], entries: &[DraftBearer<'_>]) -> bool {
    if prefix.is_empty() {
        return true;
    }
    for entry in entries {
        if let Some(name) = entry.name {
            if begins_with(prefix, name) {
                return true;
            }
        }
    }
    false
}

impl<'a> Records<'a> {
    /// Has names compared behind these prefixes.
    ///
    /// # Errors
    ///
    /// Where no memory is left.
    pub(crate) fn compare_behind(
        &mut self,
        alloc: Global,
        prefixes: Prefixes<'_>,
    ) -> Result<(), AllocError> {
        if !prefixes.input.is_empty() || !prefixes.output.is_empty() {
            self.behind = Some(self.both.behind(alloc, prefixes)?);
        }
        Ok(())
    }

    /// The entries as they are compared.
    pub(crate) fn compared(&self) -> &BothRecords<'a> {
        match &self.behind {
            Some(behind) => behind,
            None => &self.both,
        }
    }

    /// An entry of the output record as it is compared.
    pub(crate) fn compared_output(&self, to: &DraftBearer<'_>) -> Option<&DraftBearer<'a>> {
        self.compared().outputs().get(number_of(to))
    }

    /// A partner by its own names.
    fn by_own_names(&self, partner: Partner<'_, '_>) -> Partner<'_, 'a> {
        match partner {
            Partner::Missing => Partner::Missing,
            Partner::Several => Partner::Several,
            Partner::One(from) => match self.both.inputs().get(number_of(from)) {
                Some(own) => Partner::One(own),
                None => Partner::Missing,
            },
        }
    }

    /// The partner of an item of the output record.
    ///
    /// # Errors
    ///
    /// Where no memory is left.
    pub(crate) fn partner_of(
        &self,
        alloc: Global,
        to: &DraftBearer<'_>,
    ) -> Result<Partner<'_, 'a>, AllocError> {
        match self.compared_output(to) {
            Some(to) => Ok(self.by_own_names(partner_of(alloc, self.compared(), to)?)),
            None => Ok(Partner::Missing),
        }
    }

    /// The partner of an item of the output record that stands beneath what receives an entry, the sender.
    ///
    /// # Errors
    ///
    /// Where no memory is left.
    pub(crate) fn partner_within(
        &self,
        alloc: Global,
        sender: &DraftEntry<'_>,
        to: &DraftBearer<'_>,
    ) -> Result<Partner<'_, 'a>, AllocError> {
        match self.compared_output(to) {
            Some(to) => Ok(self.by_own_names(partner_within(alloc, self.compared(), sender, to)?)),
            None => Ok(Partner::Missing),
        }
    }
}

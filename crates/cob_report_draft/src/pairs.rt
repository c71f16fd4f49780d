//! Entries of the two records, and pairs of them.

use crate::counts::is_count;
use crate::loops::HoldingTables;
use crate::words::{NamedReference, WrittenSubscripts};
use cob_copybook_tree::Kind;
use cob_layout::Layout;
use cob_report_partners::{BothRecords, DraftBearer, qualifiers_needed};
use std::alloc::{AllocError, Global};

/// Two records, of which a draft is made.
#[derive(Drop)]
pub(crate) struct Records<'a> {
    pub(crate) both: BothRecords<'a>,
    /// The same entries as they are compared, where prefixes of their names are left out.
    pub(crate) behind: Option<BothRecords<'a>>,
    pub(crate) input: &'a Layout,
    pub(crate) output: &'a Layout,
    /// The tables of the output record.
    pub(crate) tables: HoldingTables,
    /// The numbers of the input record's counts that a statement can name.
    pub(crate) named: Vec<usize>,
}

/// With how many qualifiers an entry is named; `None` where it isn't told from another one.
pub(crate) fn qualifiers_of(records: &BothRecords<'_>, bearer: &DraftBearer<'_>) -> Option<usize> {
    match bearer.name {
        Some(name) => qualifiers_needed(records, name, bearer.above.as_slice()),
        None => None,
    }
}

/// The numbers of the counts of the input record that a statement can name.
fn named_counts(alloc: Global, records: &BothRecords<'_>) -> Result<Vec<usize>, AllocError> {
    let mut named = Vec::new(alloc);
    for entry in records.inputs() {
        if is_count(entry) && qualifiers_of(records, entry).is_some() {
            named.push(number_of(entry))?;
        }
    }
    Ok(named)
}

/// The tables of the output record, and the numbers of the counts of the input record that a statement can name.
fn tables_and_counts(
    alloc: Global,
    records: &BothRecords<'_>,
) -> Result<(HoldingTables, Vec<usize>), AllocError> {
    let tables = HoldingTables::of(alloc, records.outputs())?;
    match named_counts(alloc, records) {
        Ok(named) => Ok((tables, named)),
        Err(refused) => Err(refused),
    }
}

impl<'a> Records<'a> {
    /// The records of two layouts.
    pub(crate) fn of(
        alloc: Global,
        input: &'a Layout,
        output: &'a Layout,
    ) -> Result<Records<'a>, AllocError> {
        let both = BothRecords::of(alloc, input, output)?;
        match tables_and_counts(alloc, &both) {
            Ok((tables, named)) => Ok(Records {
                both,
                behind: None,
                input,
                output,
                tables,
                named,
            }),
            Err(refused) => Err(refused),
        }
    }
}

/// An entry, its partner, and with how many qualifiers each is named.
#[derive(Clone, Copy)]
pub(crate) struct PartnerPair<'s, 'a> {
    pub(crate) from: &'s DraftBearer<'a>,
    pub(crate) to: &'s DraftBearer<'a>,
    from_qualifiers: usize,
    to_qualifiers: usize,
}

impl<'s, 'a> PartnerPair<'s, 'a> {
    /// The sender of the statement with these subscripts.
    pub(crate) fn sender<'w>(&self, written: WrittenSubscripts<'w>) -> NamedReference<'s, 'a, 'w> {
        NamedReference {
            bearer: self.from,
            qualifiers: self.from_qualifiers,
            written,
        }
    }

    /// The receiver of that statement.
    pub(crate) fn receiver<'w>(
        &self,
        written: WrittenSubscripts<'w>,
    ) -> NamedReference<'s, 'a, 'w> {
        NamedReference {
            bearer: self.to,
            qualifiers: self.to_qualifiers,
            written,
        }
    }
}

/// An entry and its partner, with the qualifiers that each needs; `None` where one of the two isn't told from another entry.
pub(crate) fn paired<'s, 'a>(
    records: &BothRecords<'_>,
    from: &'s DraftBearer<'a>,
    to: &'s DraftBearer<'a>,
) -> Option<PartnerPair<'s, 'a>> {
    match (qualifiers_of(records, from), qualifiers_of(records, to)) {
        (Some(from_qualifiers), Some(to_qualifiers)) => Some(PartnerPair {
            from,
            to,
            from_qualifiers,
            to_qualifiers,
        }),
        _ => None,
    }
}

/// The number of an entry.
pub(crate) fn number_of(bearer: &DraftBearer<'_>) -> usize {
    let entry = bearer.entry.entry;
    entry.number
}

/// What an entry describes.
pub(crate) fn kind_of<'a>(bearer: &DraftBearer<'a>) -> &'a Kind {
    let entry = bearer.entry.entry;
    &entry.kind
}

/// Whether an entry is an item.
pub(crate) fn is_item(bearer: &DraftBearer<'_>) -> bool {
    matches!(kind_of(bearer), Kind::Item(_))
}

/// Whether an entry is a named item in no redefinition.
pub(crate) fn is_own_item(bearer: &DraftBearer<'_>) -> bool {
    bearer.entry.own && bearer.name.is_some() && is_item(bearer)
}

/// Whether an entry is a named group below a record, in no redefinition.
pub(crate) fn is_own_group(bearer: &DraftBearer<'_>) -> bool {
    bearer.entry.own && bearer.name.is_some() && !bearer.above.is_empty() && !is_item(bearer)
}

/// Whether an entry has this name.
fn has_name(bearer: &DraftBearer<'_>, name: &[u8]) -> bool {
    match bearer.name {
        Some(own) => own == name,
        None => false,
    }
}

/// Whether one of these entries has the name of another entry.
pub(crate) fn has_namesake(entries: &[DraftBearer<'_>], to: &DraftBearer<'_>) -> bool {
    let Some(name) = to.name else {
        return false;
    };
    for entry in entries {
        if has_name(entry, name) {
            return true;
        }
    }
    false
}

//! Which entry of the input record an item of the output record receives.

ghost use Rattle.std.specs.Prelude.{◌≡◌, IfOk};
ghost use Rattle.cob_copybook_names.specs.Listed.{texts};
ghost use Rattle.cob_move_names.specs.Pairs.{same_names};
ghost use Rattle.cob_report_partners.specs.Entries.{draft_entry, listed_bearer};
ghost use Rattle.cob_report_partners.specs.Groups.{below_record};
ghost use Rattle.cob_report_partners.specs.Partners.{IsOnly, Shared, TellsSought, are_alike, candidates_for, candidates_within, fitting, input_bearers, is_beneath, is_input, is_item_beneath, is_namesake, is_this_one, items_beneath, those_sought};

use crate::entries::{DraftBearer, DraftEntry};
use crate::groups::{is_below, names_there};
use crate::names::{below_record, same_names, share_name};
use crate::records::BothRecords;
use cob_copybook_tree::Kind;
use cob_move_data::Side;
use std::alloc::{AllocError, Global};

/// Which entries of the input record are sought for an item of the output record.
#[derive(Clone, Copy)]
enum Sought<'t> {
    /// Those whose qualifiers are the same.
    Whole,
    /// Those whose qualifiers are the same as far as they are there; the item has these of its own.
    Shared(&'t [&'t [u8]]),
    /// Those in redefinitions of this entry.
    Within(&'t DraftEntry<'t>),
    /// Items beneath this entry.
    Beneath(&'t DraftEntry<'t>),
}

/// What there is of the input record for an item of the output record.
#[derive(Clone, Copy)]
pub enum Partner<'s, 'a> {
    /// Nothing.
    Missing,
    /// This entry.
    One(&'s DraftBearer<'a>),
    /// More than one.
    Several,
}

/// Whether an entry is of the input record.
fn is_input(side: Side) -> bool
    ensures { result ≡ is_input side }
{
    matches!(side, Side::In)
}

/// Whether an entry may be the partner of an item, as far as it is seen without its qualifiers.
fn is_namesake(to: &DraftBearer<'_>, from: &DraftBearer<'_>) -> bool
    ensures { result ≡ is_namesake (listed_bearer to.now) (listed_bearer from.now) }
{
    is_input(from.entry.side)
        && from.entry.own
        && is_below(from.above.as_slice())
        && share_name(to.name, from.name)
}

/// Whether an entry stands in a redefinition of another one.
fn is_within(sender: &DraftEntry<'_>, entry: &DraftEntry<'_>) -> bool
    ensures { result ≡ is_this_one (draft_entry sender.now).number entry.now.redefined }
{
    match entry.redefined {
        Some(number) => number == sender.entry.number,
        None => false,
    }
}

/// Whether an entry stands beneath another one.
fn is_beneath(group: &DraftEntry<'_>, entry: &DraftEntry<'_>) -> bool
    ensures { result ≡ is_beneath (draft_entry group.now) (draft_entry entry.now) }
{
    group.entry.number < entry.entry.number && entry.entry.number <= group.last
}

/// Whether both entries are numbers, or both have characters.
fn are_alike(one: &Kind, other: &Kind) -> bool
    ensures { result ≡ are_alike one.now other.now }
{
    match (one, other) {
        (Kind::Item(one), Kind::Item(other)) => {
            one.picture.category().shows_number() == other.picture.category().shows_number()
        }
        _ => false,
    }
}

/// Whether an item with a name stands beneath a group and in no redefinition, and is a number where another one is.
fn is_item_beneath(group: &DraftEntry<'_>, to: &DraftBearer<'_>, from: &DraftBearer<'_>) -> bool
    ensures { result ≡ is_item_beneath (draft_entry group.now) (listed_bearer to.now)
        (listed_bearer from.now) }
{
    from.entry.own
        && from.name.is_some()
        && is_beneath(group, &from.entry)
        && are_alike(&from.entry.entry.kind, &to.entry.entry.kind)
}

/// Whether the qualifiers of an item and of an entry are the same.
fn has_same_groups(to: &DraftBearer<'_>, from: &DraftBearer<'_>) -> bool
    ensures { result ≡ same_names (below_record (listed_bearer to.now).above)
        (below_record (listed_bearer from.now).above) }
{
    same_names(
        below_record(to.above.as_slice()),
        below_record(from.above.as_slice()),
    )
}

/// Whether an entry of the input record is sought, which has these of the names of groups above it that groups of the output record have.
fn is_sought(
    sought: &Sought<'_>,
    to: &DraftBearer<'_>,
    from: &DraftBearer<'_>,
    shared: &[&[u8]],
) -> bool
    ensures { TellsSought sought.now (listed_bearer to.now) (listed_bearer from.now)
        (texts shared.now) result }
{
    match sought {
        Sought::Whole => is_namesake(to, from) && has_same_groups(to, from),
        Sought::Shared(names) => is_namesake(to, from) && same_names(names, shared),
        Sought::Within(sender) => {
            is_within(sender, &from.entry) && share_name(to.name, from.name)
        }
        Sought::Beneath(group) => is_item_beneath(group, to, from),
    }
}

/// The only entry of the input record that is sought.
fn only_sought<'s, 'a>(
    sought: &Sought<'_>,
    records: &'s BothRecords<'a>,
    to: &DraftBearer<'_>,
) -> Partner<'s, 'a>
    ensures { IsOnly result (those_sought sought.now records.now (listed_bearer to.now)
        (input_bearers records.now)) }
{
    let mut found = None;
    for (place, from) in records.inputs().iter().enumerate() {
        if is_sought(sought, to, from, records.shared_above(place)) {
            if found.is_some() {
                return Partner::Several;
            }
            found = Some(from);
        }
    }
    match found {
        Some(from) => Partner::One(from),
        None => Partner::Missing,
    }
}

/// The only entry of the input record that has the qualifiers of an item as far as they are there.
fn only_sharing<'s, 'a>(
    alloc: Global,
    records: &'s BothRecords<'a>,
    to: &DraftBearer<'_>,
) -> Result<Partner<'s, 'a>, AllocError>
    ensures { IfOk result (λ partner. IsOnly partner
        (fitting Shared records.now (listed_bearer to.now) (input_bearers records.now))) }
{
    let names = names_there(alloc, &records.groups, below_record(to.above.as_slice()))?;
    Ok(only_sought(&Sought::Shared(names.as_slice()), records, to))
}

/// The partner of an item of the output record: the only entry of the input record of its name whose groups have the same names; where there is none,
/// the only one whose groups have the same names, those left out that the other record doesn't have.
///
/// # Errors
///
/// Where no memory is left.
pub fn partner_of<'s, 'a>(
    alloc: Global,
    records: &'s BothRecords<'a>,
    to: &DraftBearer<'_>,
) -> Result<Partner<'s, 'a>, AllocError>
    ensures { IfOk result (λ partner. IsOnly partner
        (candidates_for records.now (listed_bearer to.now))) }
{
    match only_sought(&Sought::Whole, records, to) {
        Partner::Missing => only_sharing(alloc, records, to),
        Partner::One(from) => Ok(Partner::One(from)),
        Partner::Several => Ok(Partner::Several),
    }
}

/// The partner of an item of the output record that stands beneath what receives an entry, the sender: the only entry of its name in redefinitions of the
/// sender; where there is none, as [`partner_of`] answers.
///
/// # Errors
///
/// Where no memory is left.
pub fn partner_within<'s, 'a>(
    alloc: Global,
    records: &'s BothRecords<'a>,
    sender: &DraftEntry<'_>,
    to: &DraftBearer<'_>,
) -> Result<Partner<'s, 'a>, AllocError>
    ensures { IfOk result (λ partner. IsOnly partner
        (candidates_within records.now (draft_entry sender.now) (listed_bearer to.now))) }
{
    match only_sought(&Sought::Within(sender), records, to) {
        Partner::Missing => partner_of(alloc, records, to),
        Partner::One(from) => Ok(Partner::One(from)),
        Partner::Several => Ok(Partner::Several),
    }
}

/// The only item with a name beneath a group of the input record, in no redefinition, that is a number where the item of the output record is one, and has
/// characters where that has characters.
pub fn only_item_beneath<'s, 'a>(
    records: &'s BothRecords<'a>,
    group: &DraftEntry<'_>,
    to: &DraftBearer<'_>,
) -> Partner<'s, 'a>
    ensures { IsOnly result (items_beneath records.now (draft_entry group.now)
        (listed_bearer to.now)) }
{
    only_sought(&Sought::Beneath(group), records, to)
}

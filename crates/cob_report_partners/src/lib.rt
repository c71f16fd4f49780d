//! What stands in a paragraph to begin with: which entry of an input record an entry of an output record receives, and whether and how.
//!
//! What is promised:
//!
//! - [`entries_of`] lists the entries of a record with what is known of each (`record_entries` of specs/Entries.antt), and [`BothRecords::of`] those of both
//!   records. Of an entry is known, among the rest, which entry it or the redefinition around it redefines, and whether it is the count of a table or holds one;
//! - [`partner_of`] answers the only candidate, or that there is none, or several (`IsOnly` and `candidates_for` of specs/Partners.antt): candidates
//!   are those of the same name whose groups have the same names, the records and FILLER left out, and where there are none those of which this holds
//!   where names are left out that no group of the other record has;
//! - [`BothRecords::behind`] answers the entries of both records as they are compared where their names have prefixes that differ: without these, and all else as it
//!   is (`AreBehind` of specs/Prefixes.antt). So a partner is sought among these by the same calls. Behind no prefix each name is as it is
//!   ([`no_prefix_changes_nothing`]);
//! - [`partner_within`] answers the same for an item of a group that receives an item. First are those of its name in redefinitions of the item that is
//!   sent (`candidates_within`);
//! - [`only_item_beneath`] answers the only item of a group that an item may receive in the group's place (`items_beneath`): the only one with a name that is
//!   a number where the item is one, or the only one of characters where it has characters;
//! - [`objection_to`] answers what is against a move, and nothing exactly where both stand in as many tables, a loop over each of these may end, the receiver
//!   is no count but that of a table that is filled, and holds none, the table of categories has the move, it can lose nothing, and where it copies bytes each
//!   byte of the receiver is described as what it gets (`MayStand` and `Objects` of specs/Verdicts.antt);
//! - [`bound_of`] answers by what a loop over two tables ends, if it may end: by a number, or by the count of one of them, where the counts are moved before
//!   (`bound_of` of specs/Bounds.antt). The law [`loops_stay_within_counts`] says that such a loop goes past the count of neither table;
//! - [`qualifiers_needed`] answers the least number of qualifiers with which a name names one entry of both records alone (`IsNeeded` of
//!   specs/Naming.antt);
//! - [`counter_name`] answers a name for the counter of a loop that no entry of both records has (`IsCounterName` of specs/Counters.antt), and the law
//!   [`counters_are_apart`] says that counters of two letters differ.
//!
//! The names that the groups of two records share are found once, by a table of names, and the qualifiers of a name by one pass over the entries.
//!
//! # Where it is proved
//!
//! The clauses of `entries_of`, `BothRecords::behind`, `partner_of`, `partner_within`, `only_item_beneath`, `objection_to`, `bound_of`, `qualifiers_needed` and `counter_name`; the
//! laws `counters_are_apart`, `loops_stay_within_counts` and `no_prefix_changes_nothing`.
#![tactic(auto)]

mod bounds;
mod counters;
mod entries;
mod groups;
mod judge;
mod names;
mod naming;
mod partners;
mod prefixes;
mod records;
mod words;

pub use bounds::{
    CountMove, DraftCounts, LoopBound, TableSize, bound_of, loops_stay_within_counts,
};
pub use counters::{counter_name, counters_are_apart};
pub use entries::{DraftBearer, DraftEntry, TableSizes, entries_of};
pub use judge::{Objection, objection_to};
pub use naming::qualifiers_needed;
pub use partners::{Partner, only_item_beneath, partner_of, partner_within};
pub use prefixes::{Prefixes, begins_with, no_prefix_changes_nothing};
pub use records::BothRecords;

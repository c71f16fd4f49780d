//! Layouts of records: where each entry of a record stands, how long it is, and which counts that depends on (ANSI X3.23-1985, the OCCURS
//! and REDEFINES clauses; IBM Enterprise COBOL for z/OS, Language Reference, "Data division--data description entry").
//!
//! A [`Layout`] is made once of a copybook's `Book` and then answers every question about places. It holds a copy of the record's tree, its
//! tables that vary, and their greatest counts, and by the numbers of the entries what each describes, the tables that hold it, and where it
//! stands under the greatest counts and while these tables have no element. Under other counts an entry stands as many bytes further as the tables before
//! it are longer than then, and is as much longer as those beneath it are (specs/Shifts.antt). A
//! [`Counts`] says how often these tables occur in one record and where each entry stands then, and keeps the counts of a storage that were read, each
//! a [`StoredCount`]; a [`Ref`] names one element of one entry: the entry by its number, and a subscript for each table that holds it or that it is.
//!
//! What is promised:
//!
//! - [`Layout::of`]: its tree is the book's, and [`Layout::root`] gives it.
//! - [`Layout::greatest`] is the record's length where each table has its greatest number of elements (`value`), from 1 byte (`least`) to 32,752
//!   bytes (`most`); the tree is that of a well-formed record description (`record`), each item of which takes a byte (`bytes`).
//! - [`Layout::greatest_counts`] and [`Layout::new_counts`] are the counts under which each table has that number (`value`), one for each
//!   entry of the record (`room`), and none that is kept (`none`): under them lengths and places are the greatest ones (`greatest`, `places`).
//! - [`Layout::length`] is the sum of the lengths of the entries that redefine none, each as often as it occurs (`value`), at least 1 (`least`)
//!   and no more than the greatest one (`most`). Each byte of the record is in exactly one occurrence of an item that stands in no redefinition
//!   (`covered`).
//! - [`Layout::reference`] answers a reference exactly where it is a legal one (`found`, `legal`, `none`). A legal one has at most 7 subscripts
//!   ([`fits_ref`]).
//! - [`Layout::place`] answers where the element stands, behind the entries before it and the elements before it, or where it would begin
//!   when a subscript is past its table's count (`value`); a place that it answers ends within the record's length under the same counts
//!   (`current`, and the law [`places_end_in_length`]), and so within the greatest one (`fits`). A redefining entry begins where the entry that
//!   began the area begins ([`redefinitions_begin_with_area`]).
//! - [`Layout::counts_of`] takes the counts of all tables from a record's bytes, one behind another, each a whole number from its table's least
//!   to its greatest (`ok`), and where the entries stand under them (`stands`), or answers the first fault (`err`) and leaves the counts as they were
//!   (`same`).
//! - [`Layout::needed`] takes only the counts that a reference reads: those of the tables that stand before its entry, are it, hold it, stand
//!   beneath it or beneath a table that holds it, but not those that it is spared where it receives; the other tables have their greatest number
//!   (`ok`, `err`, `same`).
//! - [`Layout::place_in`] finds a reference by its number, its subscripts and the spots of the counts alone, with the answer of [`Layout::place`]
//!   (`value`, `current`, `fits`), and [`Layout::length_in`] is that of [`Layout::length`]; [`Counts::spots`] are where the first elements of all entries
//!   stand, and [`Layout::greatest_spots`] those under the greatest counts. [`Layout::fixed_place`] does so for a reference that reads no count
//!   (`fixed`, `value`, `none`). [`Layout::least_offset`] is where an entry begins at least, whatever the counts (`value`, `least`).
//! - [`Layout::current_length`] is [`Layout::length_in`] after [`Layout::counts_of`] (`ok`, `least`, `most`, `err`), but places no entry and leaves the
//!   counts as they were (`same`).
//! - [`Layout::refresh`] answers and sets as [`Layout::needed`] does (`ok`, `err`, `same`, `stands`), but reads only those counts that are not kept, and
//!   says how many these were, the one that is refused among them (`reads`); then the counts that it read are kept (`kept`), and what is kept is so of
//!   the bytes (`keeps`). [`Layout::wrote`] says that a place was written: none is kept any more where it meets the item of a count that is kept
//!   (`drops`), and else what is kept is so of the new bytes too (`keeps`). [`Counts::forget`] forgets what is kept (`forgotten`).
//! - [`Layout::find`] answers as [`Layout::refresh`] and then [`Layout::place_in`] do (`found`, `current`, `fits`), and reads, keeps and counts as
//!   [`Layout::refresh`] does (`reads`, `kept`, `keeps`, `same`). But it places the entries that it is asked for alone, and leaves
//!   where the others stand.
//! - [`Layout::kept_length`] is [`Layout::current_length`] too (`ok`, `least`, `most`, `err`), but reads only the counts that are not kept, and keeps
//!   them all (`kept`, `keeps`).
//! - [`Layout::element_place`] finds once the place of an element that one count alone decides, and that only by whether it is there (`IsElementPlace` of
//!   specs/Elements.antt); [`Counts::place_of`] then asks only for that count, where it is kept, and the law [`kept_place_elements`] says that the
//!   element stands there.
//! - [`Layout::summed_place`] notes once which sums of the tables say where a reference stands (`IsSummedPlace` of specs/Summed.antt), where it has one
//!   subscript at most and is there in every storage; [`Layout::place_by_sums`] then answers as [`Layout::find`] does (`found`, `fits`), where the counts
//!   that it needs are kept and within reach.
//! - [`Layout::kind`] is what the entry with a number describes.
//! - The bytes of a storage say one thing of all counts and of those that are needed ([`one_outcome_of_counts`]). Where all are valid, those
//!   that are needed are, and the place is that under all counts, but for the tables that the reference is spared, which have their greatest
//!   number ([`all_give_needed`]). So a place that a sender finds lies within the record's bytes, be they all of its storage or its current
//!   part ([`places_lie_in_storage`]). Storages that agree on the counts that a reference reads give it one place (`needed` of
//!   [`one_place_by_needs`]), also where all counts of one of them were taken (`all`).
//! - Counts of a storage may be kept, so that they are not read again ([`kept_give_needed`]): those that are kept and those that are read anew are
//!   the ones that a reference needs, or the first fault (`needed`); what is kept behind a reading are counts of the storage (`kept`); each table
//!   is read once at most (`once`); and where the bytes of a place change that meets the item of no count up to a table's, that table's count
//!   stays (`writes`).
//!
//! The definitions: `CountsOf`, `NeededOf` and `AreGreatest` of specs/Counting.antt, `placed` of specs/Placed.antt, `ArePlaces`, `StandsIn`, `KeepsOf`
//! and `written` of specs/Standing.antt, `TakenAnew` and `AreKeptOf` of specs/Kept.antt, `IsFound` of specs/Finding.antt, those of the laws of
//! specs/Laws.antt, and what they name of `cob_copybook` (`TakeBytes`) and of `cob_layout_places`, which has the arithmetic of lengths and places. What
//! holds of every record description is the law [`records_are_sound`] (specs/Sound.antt). The bytes of a [`Place`] are read through [`field`] and
//! written through [`field_mut`], which changes these bytes and no other (specs/Fields.antt). Only [`Layout::of`] and [`Layout::new_counts`] take
//! memory.
//!
//! # Where it is proved
//!
//! The clauses of `Layout`'s calls (`covered` of `length`; `keeps`, `kept` and `reads` of `refresh`, `drops` and `keeps` of `wrote`), of `Counts`,
//! `field` and `field_mut`; its laws.
#![tactic(auto)]

mod by_sums;
mod copy;
mod counts;
mod elements;
mod fields;
mod finding;
mod footings;
mod keeping;
mod kinds;
mod laws;
mod layout;
mod least;
mod legal;
mod lone;
mod measuring;
mod places;
mod reads;
mod refreshing;
mod shifts;
mod sound;
mod spots;
mod summed;
mod summing;
mod taking;
mod ways;

pub use cob_copybook::{
    Book, BookFault, BookRule, Figurative, Item, Kind, Name, Node, ResolvedOccurs, Role, Sign,
    Text, Usage, Value, ValueClause, element_length, is_number, value_of, whole_length,
};
pub use cob_layout_places::{
    CountFault, Ref, Spot, is_number_item, is_table, read_number, tables, times_of,
};
pub use counts::{Counts, StoredCount};
pub use elements::{ElementPlace, kept_place_elements};
pub use fields::{Place, field, field_mut};
pub use finding::FindFault;
pub use laws::{
    all_give_needed, fits_ref, kept_give_needed, one_outcome_of_counts, one_place_by_needs,
    places_end_in_length, places_lie_in_storage, redefinitions_begin_with_area,
};
pub use layout::{Layout, PlaceFault};
pub use sound::records_are_sound;
pub use summed::SummedPlace;
pub use ways::{Tables, with_own};

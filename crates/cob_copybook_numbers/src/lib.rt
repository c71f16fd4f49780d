//! Which entry of a record's tree has which number, and which entry a condition-name belongs to.
//!
//! The entries of a [`cob_copybook::Book`] have numbers from 0, the record, on; `cob_copybook_conditions` tells of each condition-name of a text the number of
//! the data entry that it stands behind, which it counts among the sentences. These laws join the two: the entries of the tree, a parent before its children,
//! are those of the text in order, each with the number of its place ([`numbers_in_order`]); and the number of a condition-name is that of the tree's entry
//! which is the last data entry before it ([`names_of_entries`]).
//!
//! The crate has laws alone, and no code that runs. The definitions stand in `specs/`: `Numbers` has entries in order, `Belonging` whose a condition-name is, `Laws`
//! the laws.
//!
//! # Where it is proved
//!
//! The laws `numbers_in_order` and `names_of_entries`.
#![tactic(auto)]

mod laws;

pub use laws::{names_of_entries, numbers_in_order};

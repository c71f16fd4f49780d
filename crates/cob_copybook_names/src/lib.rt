//! What names of entries mean: which entry a name with its qualifiers names, and which entry is the count of each table with DEPENDING ON.
//!
//! A name names an entry that bears it; where several entries do, qualifiers (OF or IN) tell them apart: the names of groups above the
//! entry, the nearest first, with gaps. [`Directory`] has the entries of a record, or of several, by their names, each listed as a
//! [`Bearer`], with what its user has to know of it. [`Directory::only_named`] answers the only entry that is named (`found`), or says
//! whether none or several are (`fault`): which they are is one definition, `named` of specs/Naming.antt, as a function of the list.
//! The law [`qualifying_is_one`] says that its qualifiers are those of the relation `Qualify`. Qualifiers are taken in the form in which
//! they are written ([`Qualifiers`]).
//!
//! A table that varies names its count so. [`counts`] answers the number of the entry that is meant, at the table's own number. That entry
//! is the only one that the name with its qualifiers names; it is a whole number, is no table and stands in none, isn't edited by BLANK
//! WHEN ZERO, and stands before the table.
//!
//! What it promises of a record's tree: the numbers that are answered are those of the counts (`found`), where each table has its
//! count they are answered, memory aside (`only`), and a refusal says that some table has none, or that memory was refused (`fault`).
//! The rules are stated in `specs/Counts.antt` over the record's entries by their names (`specs/Entries.antt`). The law
//! [`one_list_of_counts`] says that a tree has its counts in one way.
//!
//! A name is found by a table of names and a chain from one bearer of a name to the one before it (`specs/Links.antt`), so that the time is
//! that of the entries that bear the name, and not of all entries.
//!
//! # Where it is proved
//!
//! The clauses of `Directory::only_named` and `counts`; the laws `qualifying_is_one`, `one_list_of_counts`.
#![tactic(auto)]

mod bearer;
mod count;
mod directory;
mod fault;
mod listing;
mod qualifiers;

pub use bearer::{Bearer, name_of, names_beneath};
pub use count::{counts, one_list_of_counts};
pub use directory::Directory;
pub use fault::NameFault;
pub use qualifiers::{Qualifiers, qualifying_is_one};

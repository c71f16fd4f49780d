//! Copybooks whose records are named by their roles, as an option asks: that of the input IN-RECORD, that of the output OUT-RECORD.
//!
//! Two versions of one copybook begin with one level 01, so that no qualifier tells their entries apart. Under the names of their roles they are told apart.
//! [`named_by_role`] answers a text that describes the same record under that name. Where nothing but a name stands in the record's own entry, its words are left out,
//! each other word on its line and in its column (src/blanking.rt): a text without level 01 is read under the name of its role, on the way back too. Else the
//! words are written anew with that name (`with_record_name` of `cob_copybook_record`).
//!
//! What is promised does not rest on how that text is made, since it is read beside the first one before it is answered: both are record descriptions that are one
//! but for the record's name, with the same condition-names, and the second has the name of its role (`IsNamedByRole` of specs/Named.antt). The laws say what that comes to: the tree is that of the
//! first with the name put in its place (`name_alone_changes`), and so are the entries beneath it, all lengths and all places (`naming_keeps_the_rest`). Level 88 entries
//! are no part of a record's tree: their names are compared as well, and are those of the first text (`naming_keeps_condition_names`).
//!
//! # Where it is proved
//!
//! The clause of `named_by_role`; the laws `name_alone_changes`, `naming_keeps_condition_names` and `naming_keeps_the_rest`.
#![tactic(auto)]

mod blanking;
mod conditions;
mod laws;
mod naming;
mod reading;

pub use laws::{name_alone_changes, naming_keeps_condition_names, naming_keeps_the_rest};
pub use naming::{Ways, named_by_role};
pub use reading::role_name;

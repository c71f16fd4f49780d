//! Whether an element begins at the same byte of each record, whatever the counts of its tables.
//!
//! What stands behind a table that varies begins further in front where the table has fewer elements; so does an element of a table beneath which a table
//! varies, but for the first. All others stand where they stand under the greatest counts. What is there before the first move of an element that is
//! steady is its own initial value; of one that is not, what the greatest counts put at that place.
//!
//! What is promised of [`is_steady`]: it says exactly where an element begins at the same byte of each record (`IsSteady` of specs/Steady.antt). The
//! subscripts are those of a legal reference.
//!
//! It takes no memory.
//!
//! # Where it is proved
//!
//! Exactly where an element begins at the same byte of each record, whatever the counts of its tables (`IsSteady`).
#![tactic(auto)]

mod steady;

pub use steady::is_steady;

//! Conditions on what two records hold (ANSI X3.23-1985, Nucleus: relation, class, sign and condition-name conditions, and those that AND, OR and NOT make
//! of them).
//!
//! What is promised:
//!
//! - [`compare`] tells which order two operands have (`IsCompared` of specs/Compared.antt). Two numbers have that of their values, whatever their usages and
//!   scales. All else is compared by its bytes in code page 037, the shorter text with spaces behind it; a figurative constant, or ALL and a literal, is as
//!   long as the other; and a number beside characters gives its digits. Where one of two numbers has no value, it is told which. A law
//!   says that this is one answer ([`one_comparison`]).
//! - [`may_compare`] says which operands may be compared (`may_compare` of specs/Comparable.antt).
//! - [`is_in_class`] tells whether what an entry gives is numeric, or of letters and spaces (`IsInClass` of specs/Classes.antt).
//! - [`says`] tells what a [`Condition`] says of what its operands give (`Says` of specs/Says.antt): it is looked at from left to right, and no further than it
//!   takes to decide. Bytes that represent no value where a number is compared stop it, and are never taken for a condition that doesn't hold.
//! - What operands give is handed in by [`Operands`]: two storages between moves do it, or a record as it came. What they keep from one entry to the
//!   next, as counts that were read, becomes what it may by their own words (`goes`, `halts`). A law says that a condition then says one thing
//!   ([`one_saying`]).
//!
//! Nothing here takes memory.
//!
//! # Where it is proved
//!
//! The clauses of `compare`, `may_compare`, `is_in_class` and `says`; the laws `one_comparison`, `one_saying`.
#![tactic(auto)]

mod characters;
mod class;
mod classes;
mod comparable;
mod comparing;
mod condition;
mod laws;
mod numbers;
mod numerals;
mod operands;
mod saying;
mod texts;

pub use class::Class;
pub use classes::is_in_class;
pub use comparable::may_compare;
pub use comparing::{WithoutValue, compare};
pub use condition::{Comparand, Condition};
pub use laws::{one_comparison, one_saying};
pub use operands::Operands;
pub use saying::says;

//! Decimal numbers as COBOL moves them: a sign, at most 31 digits and a scale.
//!
//! A numeric item of a record holds digits, of which some stand behind an assumed decimal point. This crate has the value that such
//! an item represents, and the three things that a conversion does with it: it puts the value into the digits of a receiver, reads
//! it from a numeric literal, and writes it as text. Nothing here takes memory, and nothing is rounded.
//!
//! What is promised:
//!
//! - A [`Number`] is never minus zero and its scale is always in range (the ghost fields `nonzero`, `low`, `high`, and the clause
//!   `sign` of [`Number::new`]).
//! - [`Number::align`] is the alignment of the MOVE statement, at every scale and for every count of digits: its clauses `magnitude`
//!   and `sign` say it on whole numbers without bound, by `aligned` of specs/Decimal.antt.
//! - [`Number::of_text`] answers a number exactly for the numeric literals (`found`, `only`), with the value that is written there.
//! - [`Number::write_text`] writes the text of the number: `IsNumberText` of specs/Literals.antt, of which [`laws`] says that a
//!   number has just one.
//! - [`are_digits`] says whether each character of a text is a digit, and [`are_zeros`] whether each digit of a list is 0. [`without_zeros`] are the
//!   digits of a list from the first on that is not 0, and [`zeros_of`] counts the zeros that a scale below 0 puts before the point.
//! - The laws of digits that other crates build on are contracts of their own, in [`laws`].
//!
//! It stands on `cob_limits`, for how many digits there are at most, and on `arrayvec`, for lists of bounded length.
//!
//! # Where it is proved
//!
//! The clauses of `Number::new`, `align`, `of_text`, `write_text`.
#![tactic(auto)]

mod digits;
pub mod laws;
mod literal;
mod number;
mod number_text;

pub use cob_limits::{MAX_DIGITS, MAX_SCALE, MIN_SCALE};
pub use digits::{Digits, are_zeros};
pub use literal::are_digits;
pub use number::Number;
pub use number_text::{without_zeros, zeros_of};

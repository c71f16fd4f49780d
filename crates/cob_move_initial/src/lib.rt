//! What a record, its items and its groups hold before the first move: the constant of their VALUE clause, or without one what MOVE ZERO or MOVE
//! SPACE would leave (ANSI X3.23-1985, Nucleus: the VALUE clause; IBM Enterprise COBOL for z/OS, Language Reference, "VALUE clause").
//!
//! What is promised: [`write_item`] writes what `HoldsItem` of specs/Values.antt says of the item and its constant, into all bytes of one
//! occurrence (`holds`), and [`write_group`] what `HoldsGroup` says of a constant in a group. Both are said by the rule of MOVE: a number
//! receives its constant; every other entry holds its constant as a group receives it, characters as they are written, from the left, with
//! spaces behind them, so that JUSTIFIED, editing and BLANK WHEN ZERO don't act; and an item without VALUE receives ZERO or SPACE. The
//! laws: a group with a VALUE holds one thing ([`one_group`]), and so does an item ([`one_item`]).
//!
//! - [`initial`] writes the storage that a record has before the first move (clause `initial`; `IsInitial` of specs/Initial.antt): for each entry
//!   that redefines nothing, as many elements as there are at most, one behind another, in the record's order; an element of an item holds the
//!   item's VALUE, or without one what MOVE ZERO or MOVE SPACE leaves; an element of a group holds the group's VALUE, or the entries beneath it.
//!   Nothing is written for a redefinition.
//! - What it writes stands at the places of the layout under the greatest counts (clause `places`; `HoldAtPlaces` of specs/AtPlaces.antt): each
//!   entry that stands in no redefinition and beneath no group with a VALUE is found, whatever the subscripts, and the bytes there hold what one
//!   element of it does.
//! - [`one_initial`] is the law that a record has one such storage.
//!
//! [`initial`] takes no memory, and writes each byte of a record as often as tables hold it, at most: an element is written once and then copied.
//!
//! # Where it is proved
//!
//! The clauses of `write_item`, `write_group`, `initial`; the laws `one_item`, `one_group`, `one_initial`.
#![tactic(auto)]

mod items;
mod laws;
mod storage;

pub use cob_move_receive::{Refusal, SenderKind, refusal_of};
pub use items::{write_group, write_item};
pub use laws::{one_group, one_initial, one_item};
pub use storage::initial;

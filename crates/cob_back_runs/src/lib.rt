//! Conversions there and back: what a conversion takes of each record, another one may bring back.
//!
//! What is promised:
//!
//! - [`lossless`] answers of two converters whether they lose nothing (`exactly`, by `AreLossless` of specs/Keeps.antt); where it says yes, the second one
//!   keeps what the first one converts (`keeps`, by `Keeps`). [`first_loss`] answers the first point in which they may lose something, none exactly where
//!   they lose nothing; [`carried`] are the moves of a conversion, between the layouts of its records, those of each turn of its loops.
//! - [`untested`] are those of them that no test stands before, stretch by stretch (`moves`, by `untested_moves` of specs/Tested.antt), and
//!   [`tested_statements`] says of each statement whether a test stands before its first move (by `tested_moves` and `statement_marks`).
//! - Conversions that lose nothing keep what the first one converts ([`lossless_keep`]). They lose nothing (`AreLossless` of specs/Keeps.antt) where neither
//!   has a test, their records agree crosswise, but for the names of the records, stand in one way, without redefinitions and tables that vary, and the moves of the one
//!   bring back what those of the other take (`IsLossless` of cob_back_moves). They keep it (`Keeps`) where each input record that the first one
//!   converts becomes a record of the second, which this converts without a stop, and each occurrence of each named elementary item then represents the
//!   same value as in the input record, or has the same bytes where it is of characters; in all record forms.
//! - Where a run of the first one ends clean, a run of the second over what was written, in the form in which it was written, ends clean, with as many
//!   records, and what it writes holds again, record by record, what the first run read ([`lossless_runs`]; `ComeAllBack` of specs/Laws.antt).
//!
//! What holds of every conversion is a premise of the laws (`IsPrepared`): its records are record descriptions, its output has a storage before the first
//! move, and its moves are moves between its records.
//!
//! # Where it is proved
//!
//! The clauses `exactly`, `keeps` of `lossless`, those of `first_loss`, `untested` and `tested_statements`; the laws `lossless_keep`, `lossless_runs`.
#![tactic(auto)]

mod converters;
mod laws;
mod tested;

pub use cob_back_moves::{Direction, Loss, MovesBetween};
pub use converters::{ConversionLoss, carried, first_loss, lossless};
pub use laws::{lossless_keep, lossless_runs};
pub use tested::{tested_statements, untested};

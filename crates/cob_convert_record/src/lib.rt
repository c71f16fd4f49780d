//! What becomes of one record (ANSI X3.23-1985, Nucleus: the MOVE statement, and the OCCURS clause with DEPENDING ON; z/OS DFSMS Using Data
//! Sets, record formats F and V).
//!
//! A [`Conversion`] has the forms in which records come and go, the layouts of both records, what is done between them and the storage that each
//! output record begins from. What is promised:
//!
//! - [`image_of`] makes the storage that each output record begins from (its clause, by `IsImage` of specs/Conversion.antt), so that the book isn't needed
//!   any more. [`Conversion::new`] keeps what it is given (its clause), and the moves of [`Conversion::deeds`] are moves between its records (`between`), of which the
//!   output record has a storage before the first move (`image`).
//! - [`Conversion::next_input`] reads the next record that comes in and judges it by the input layout (`reads`, `judged`, `reason`, `cause`), as
//!   `cob_convert_stream` says it, in the form in which records come.
//! - [`Conversion::next_whole`] reads the next record as it came, and [`Conversion::judge`] judges one that was read so, for who sets aside what
//!   isn't one of the layout (`reads`, `whole`, `sized`, `misfit`).
//! - [`Conversion::convert`] makes the output record: its storage goes from the initial values through all that is done, and then every count of the
//!   output is valid; what is written is the whole storage in form f, and its current part in forms v and b (`converts`, by `Becomes` of
//!   specs/Becoming.antt). Nothing of an earlier record is left in it. It stops at the first move or test that stops, or behind all of them at the first
//!   count of the output that isn't valid, in both forms (`stops`, by `StopsAt`).
//! - [`Conversion::convert_whole`] makes the output record of one that came whole, where it is one of the layout (`converts`, by `BecomesWhole` of
//!   specs/Rejecting.antt), and else tells by a [`Rejection`] why it has none, as [`Conversion::judge`] and [`Conversion::convert`] do (`rejects`, by
//!   `IsRejectedFor`). Counts that judging read are kept for the moves, and those that the moves read of the output for its length.
//! - [`stop_reason`] tells a stop as the [`Reason`] of a run (`reason`), and [`cause_from`] its cause (`cause`), by the words of specs/Reasons.antt.
//! - What becomes of a record is determined ([`conversions_are_decided`]): a record is one of its layout or a misfit, for one reason; and it has
//!   one output or one stop, and never both.
//! - They ask for no memory, which tests show: all that they need is a [`Room`], made once, which each call leaves as large as it was (`room`).
//!
//! # Where it is proved
//!
//! The clauses of `image_of`, `Conversion::new`, `next_input`, `next_whole`, `judge`, `convert`, `convert_whole`, `deeds` and `stop_reason`; the law
//! `conversions_are_decided`.
#![tactic(auto)]

mod conversion;
mod laws;
mod lengths;
mod reasons;
mod rejection;
mod room;

pub use cob_convert_stream::{Cause, MeasureFault, Reason};
pub use cob_move_apply::{Book, Layout, Side, Stop, StopCause};
pub use cob_move_deeds::ReadyDeeds;
pub use conversion::{Conversion, image_of};
pub use laws::conversions_are_decided;
pub use reasons::{cause_from, stop_reason};
pub use rejection::Rejection;
pub use room::Room;

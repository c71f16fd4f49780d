//! A record that comes in from a stream and one that goes out to it, and where and why a record stops a run (z/OS DFSMS Using Data Sets, record
//! formats F, V and VB; ANSI X3.23-1985, Nucleus: the OCCURS clause with DEPENDING ON).
//!
//! Who converts records and who lists them reads them in one way, and tells in one way why it stopped. How far a record goes in a form, the whole
//! of its storage or its current part, is decided here alone. What is promised:
//!
//! - [`measure`] says whether a record that came whole is one of its layout. In form f every record of the greatest length is, and no count is
//!   looked at. In forms v and b the record's own counts have to be valid, and it has the length that they give (`sized`, by `IsSized` of
//!   specs/Sizes.antt). A misfit is told as the first count that isn't valid, where that stands within the record, and else as a length
//!   (`misfit`). [`is_fitting`] says it of a record whose length under its counts is known already (`must`, `only`, by `IsFitting`), and [`measure_by`],
//!   in forms v and b, of one whose counts somebody else took (`sized`, `misfit`, by `GivesLength`).
//! - [`read_record`] reads the next frame and measures the record in it. Where the source tells its bytes, the clause `reads` has the whole answer
//!   (`ReadsRecord` of specs/Input.antt): no byte was left; a record of the layout came, and just its frame was read; its frame can't be read, of
//!   which as much was read as `Reads` of cob_records says; or a whole frame came whose record isn't one of the layout. At any source what is
//!   answered is a record of the layout that stands in the slice (`judged`), or a frame that can't be read or a misfit of the record that stands
//!   there (`reason`), and a read failed exactly where that is the reason (`cause`).
//! - [`next_whole`] reads the next record as it came, before it is measured (`reads`, by `ReadsWhole` of specs/Whole.antt), and [`judge`] measures
//!   one that was read so (`sized`, `misfit`): who sets a record aside that isn't one of its layout has it whole.
//! - [`written_length`] says how many bytes of an output storage are written: all of them in form f, its current part in forms v and b, where in
//!   every form every count is valid (`written`, by `IsOutputOf` of specs/Output.antt); else it names the first that isn't (`faulty`).
//!   [`length_in_form`] says it of a storage whose counts somebody else took, and [`is_always_whole`] where none has to be taken.
//! - [`write_record`] writes a record in its frame, or in form b gathers it, and first writes the open block where the frame does not fit into it;
//!   [`write_pending`] writes the open block. Both count the bytes that the sink took (`puts`, by `PutsCounted`); a write failed or took nothing
//!   exactly where that is the answer (`cause`, `errors`).
//! - A [`RunFault`] is why a run stopped: the number of its record, the [`Reason`] in it, and the bytes that were written. [`Reason::at`] makes it of these
//!   three (`fault_at` of specs/Reasons.antt). A reason is that of a frame that can't be read ([`Reason::of_frame`]), of a write that failed
//!   ([`Reason::of_write`]) or of a misfit ([`Reason::of_misfit`]). Which end failed follows from its [`Cause`] (`is_read_cause`, `is_write_cause`,
//!   `is_error_cause`).
//! - A record is one of its layout or a misfit, for one reason, and of a storage one part is written ([`records_are_judged_once`]); a record that
//!   is one of its layout holds a record of it ([`sized_are_storages`]).
//!
//! No call asks for memory, which tests show.
//!
//! # Where it is proved
//!
//! The clauses of `measure`, `measure_by`, `read_record`, `next_whole`, `judge`, `written_length`, `length_in_form`, `write_record` and `Reason::at`; the
//! laws `records_are_judged_once`, `sized_are_storages`.
#![tactic(auto)]

mod fault;
mod laws;
mod misfit;
mod reading;
mod whole;
mod writing;

pub use cob_layout::{Counts, Layout};
pub use cob_layout_places::CountFault;
pub use cob_move_data::Side;
pub use fault::{Cause, Reason, RunFault};
pub use laws::{records_are_judged_once, sized_are_storages};
pub use misfit::{MeasureFault, is_fitting, measure, measure_by};
pub use reading::read_record;
pub use whole::{judge, next_whole};
pub use writing::{is_always_whole, length_in_form, write_pending, write_record, written_length};

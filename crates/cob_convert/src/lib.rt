//! Conversions of record files: three texts make a converter, and a converter turns a stream of records of one layout into a stream
//! of records of another.
//!
//! [`Converter::prepare`] reads the copybooks of both records and the paragraph of MOVE statements; [`Converter::run`] goes from record
//! to record.
//!
//! What is promised:
//!
//! - What is prepared is what the texts mean (`means`; by [`Converter::prepare_with`] with their binary senders read so), with the record forms that
//!   were handed in (`forms`); a refusal names a text, and the rule that it breaks (`refused`). Want of memory is never told as a fault of a text.
//! - Where the source tells its bytes and no call of an end failed, what a run writes is, record by record, the framed storage that the
//!   moves give from the initial values and the values that the input's bytes represent; and a run that stops names the first record
//!   and offset where its fault stands, having written just the records before it: the clause `headline`, by `Converted` of
//!   specs/Converted.antt. Where the sink does not tell its bytes, it still says the answer.
//! - Where a call failed, the records before are written, and the answer names the end that failed (`ran`, `reads`, `writes`, `errors`).
//!   Nothing past the frame of the record that stopped was read.
//! - Of form b the records are gathered in blocks, each as full as it may be. The open block is written before a stop is answered; where a block
//!   can't be written the answer names its first record. `prepare` refuses blocks that are too short for the longest record (`PrepareFault::Block`).
//! - A run asks for no memory, which tests show, and leaves the converter as `prepare` made it (`same`).
//! - [`Converter::run_aside`] goes on behind a record that came whole and does not convert: it sets it aside as it came and tells [`Notes`] why. Each
//!   record that came was converted or set aside, in order, and the answer counts both: the clause `ran`, by `RanAside` of specs/Aside.antt.
//! - Bytes have one conversion: [`conversion_is_one`]. They decide all of a run that sets records aside ([`aside_is_one`]), which is a run where none
//!   is rejected ([`aside_is_run`]); and what was set aside is rejected again ([`rejected_again`]).
//!
//! # Statuses
//!
//! How a program ends.
//!
//! [`Status`] is what the system is told when a program ends, and [`Status::code`] the number of it. [`Status::of_stop`] says it of a run that stopped,
//! by its cause, and [`Status::of_prepare_fault`] of a conversion that is not prepared (specs/Statuses.antt).
//!
//! # Conversions of pieces
//!
//! Conversions of pieces: a file may be converted piece by piece, by many processes or machines.
//!
//! What is promised, as a law about the definitions of conversions ([`conversions_join`]; `ConversionsJoin` of specs/Pieces.antt): where bytes are
//! whole frames, in form b whole blocks, which are converted to their end, and then others, both conversions together are a conversion of all of
//! them, and there is no other.
//!
//! - In forms f and v of the output, all that is written is what was written for the ones and then what was written for the others, to the byte. In
//!   form b it is the same records, one behind another, in blocks that fill anew (`AreJoined`).
//! - The answer is that of the second, with the records of the first counted on, and all bytes that are written (`counted_on`): so a fault names the
//!   record by its number in all of the bytes.
//! - So it is in forms f and v of any number of pieces, each but the last converted to its end (`AreConverted`).
//!
//! It holds of bytes with fewer records than a run converts at most.
//!
//! # Where it is proved
//!
//! The clauses of `Converter::run`, `Converter::run_aside`, `Converter::prepare` and `Converter::prepare_with`; the laws `conversion_is_one`,
//! `aside_is_one`, `aside_is_run`, `rejected_again`; the law `conversions_join`; the clauses of `Status::code`, `Status::of_stop` and
//! `Status::of_prepare_fault`.
#![tactic(auto)]

mod aside;
mod aside_laws;
mod books;
mod converter;
mod fault;
mod laws;
mod notes;
mod outcome;
mod pieces;
mod run;
mod status;

pub use aside::{AsideFault, Tally};
pub use aside_laws::{aside_is_one, aside_is_run, rejected_again};
pub use cob_codec::Reading;
pub use cob_convert_record::Conversion;
pub use cob_convert_stream::{Cause, RunFault, Side};
pub use cob_copybook::{BookFault, BookRule};
pub use cob_move::{MoveFault, MoveRule};
pub use converter::Converter;
pub use fault::PrepareFault;
pub use laws::conversion_is_one;
pub use notes::Notes;
pub use pieces::conversions_join;
pub use status::Status;

//! What is wrong where moves stop at a record, in words, and which part of its bytes is to blame.
//!
//! A fault line names the record, the side, the offset and the cause. A person who has it wants to know which item that is, what stands in it, which
//! statement asked, and what to do: [`StopText`] prints it in three lines, as
//!
//! ```text
//! BALANCE OF CUST-REC, PIC S9(7)V99 COMP-3, at offset 20: the bytes 40 40 40 40 40 are no packed number: the last half byte is 0, no sign
//! asked by moves line 3: BALANCE OF CUST-REC to BALANCE OF NEW-REC
//! spaces were left there: fill the item before, test it by IF .. NUMERIC, or describe it as X and move it to an item of characters
//! ```
//!
//! [`FrameText`] tells a frame that can't be read, and [`listed_count_words`] the count that stops a list of records, which has no statements. What advice
//! names are the options of who reads the record ([`Reader`]).
//!
//! What to do where a number has no value is told by what its bytes look like: spaces, low-values, high-values, digits of ASCII, another item's characters,
//! or a record that begins with the end of a line.
//!
//! What is promised is what is decided: of the bytes of a number which part of them is to blame, and that they represent none ([`number_flaw`]).
//! [`FlawText`] tells that part, as `the last half byte is 0, no sign`. Which words tell it is shown by `cob_test_jobs`.
//!
//! # Where it is proved
//!
//! Of `number_flaw`: which part of the bytes of a sender is to blame, none exactly where they represent a number. The words are shown by rows.
#![tactic(auto)]

mod advice;
mod counts;
mod flaws;
mod frames;
mod listed;
mod numbers;
mod occurrences;
mod reader;
mod stops;
mod words;

pub use counts::{CountTable, counted_at};
pub use flaws::number_flaw;
pub use frames::FrameText;
pub use listed::listed_count_words;
pub use occurrences::{Occurrence, Qualifying, SentText};
pub use reader::Reader;
pub use stops::{Asker, AskingLoop, AskingMove, StopCase, StopText};
pub use words::FlawText;

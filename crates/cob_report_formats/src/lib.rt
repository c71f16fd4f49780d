//! The values of the records of a file for other programs: as JSON and as CSV.
//!
//! - [`show_json`] writes a line for each record, which is a JSON object.
//! - [`show_csv`] writes a line with the names of all elements, and then a line for each record with their values.
//!
//! The records, their faults and the values are those of [`show`](cob_report_show::show), by the calls of `cob_report_show`: it reads a record and
//! judges it, says which number an item's bytes represent, and which character a byte shows. Where an element stands comes from the record's places,
//! which `cob_layout` found under its counts.
//!
//! No clause says what is printed: rows show it. What is proved is safety, that each call ends, and that a line that is written is taken whole. Buffers are
//! made before the first record, and grow to the longest line; then no record asks for memory.
//!
//! # Where it is proved
//!
//! That it is safe and ends, and inside that a line that is written is taken whole by the sink (`put_text`); what it prints is shown by rows.
#![tactic(auto)]

mod contents;
mod listing;
mod members;
mod objects;
mod outgoing;
mod rows;
mod values;

pub use objects::show_json;
pub use rows::show_csv;

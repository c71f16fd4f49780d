//! The commands `layout`, `show` and `pieces` of `cobconv`: what a copybook makes of a record, the values of a file of records, and where the pieces
//! of one begin.
//!
//! [`do_layout`], [`do_show`] and [`do_pieces`] carry them out, print what comes of them and answer how the program ends: by [`list_entries`],
//! [`list_records`] and [`list_pieces`], which print the lists alone. [`tell_shown`] and [`tell_listed`] print what these came to, and [`read_record_book`] reads
//! the copybook of `show` and `pieces`, for `cob_program_explained`, which lists and says why a record ends a list.
//!
//! What is promised: which faults each command can have (`MayEndLayout`, and `MayEndListing` of the other two, of specs/Ends.antt); that it ends with the
//! status of what it came to, or as where a device failed if its last line was not printed (`EndsAmong` of `cob_program_faults`); and that where it ends
//! otherwise than by a device that fails, nothing of what it prints is still held (`list_to_end`, `show_to_end`). What the lists hold is promised by
//! `cob_report_show`, of `show` as text over the records that come of its file, or over those that are chosen (`ListsOver` of specs/Listed.antt); and where
//! pieces begin by `cob_records_parts`. The copybook of `show` and `pieces` is refused where its records do not fit the record length that their file is said
//! to have (`read_record_book`).
//!
//! # Where it is proved
//!
//! The clauses of `list_entries`, `list_records`, `list_pieces`, `do_layout`, `do_show` and `do_pieces`: which faults they can have, and with which
//! status the command ends; inside `listed`, `shown`, what `show_to_end` listed as text (`ListsOver`), what the sink still holds behind it and behind
//! `list_to_end`, and that the copybook of `show` and `pieces` fits the record length that is said (`read_record_book`).
#![tactic(auto)]

mod copybook;
mod ends;
mod entries;
mod pieces;
mod records;

pub use copybook::{Listed, read_record_book};
pub use ends::tell_listed;
pub use entries::{do_layout, list_entries};
pub use pieces::{cut, do_pieces, list_pieces};
pub use records::{do_show, list_records, tell_shown};

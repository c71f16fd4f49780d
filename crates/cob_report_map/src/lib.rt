//! A mapping as one page of HTML: what its moves come to, both records, and a line from each sender to its receivers.
//!
//! [`Page`] prints as a page that is complete in itself. It shows, of a paragraph's moves between two records:
//!
//! - a bar of four tiles: how many moves keep all, move bytes whose description may be lost, or may lose something, and how many bytes no receiver covers, each
//!   with the first place; and below it each record as a ribbon, whose parts are as wide as their bytes and have the tone of their marks;
//! - each record as rows, one below another in the order of its entries, with picture, value, digits and offset. A record in which each table has its greatest
//!   number of elements is drawn, and below the row of an entry stand its condition-names with their values. Partners stand at one height wherever the
//!   order of both records allows it (src/aligned.rt);
//! - a line for the single moves that join the same two entries, from the sender's box to the receiver's, with what they are where the pointer rests on it;
//! - bytes that no receiver covers, moves that may lose something, and moves of bytes that may lose their description, each marked, and listed below with
//!   its line; and where a record is given, all of its bytes.
//!
//! What is promised is what is decided: which entries moves join ([`ends_of`]; `ends_in` of specs/Joined.antt), whose condition-names are drawn with each
//! record (`HaveNamesOf` of specs/Named.antt; `ConditionRows` of `cob_report_boxes` says what is printed of them), and by `cob_report_html` where boxes stand,
//! and which moves one line stands for. Which words are printed is shown by `cob_test_jobs`.
//!
//! # Lines and lists
//!
//! The lines and the lists of the page of a map.
//!
//! [`write_line`] writes the line of the single moves that join the same two entries, from the box of the sender to that of the receiver, with what they are
//! where the pointer rests on it, and [`write_move`] writes their row of the list below the drawing. [`write_runs`] writes a row for each run of bytes that no
//! receiver covers. Each marks by [`Lost`] what the moves may lose. Which words are printed is shown by `cob_test_jobs`.
//!
//! It takes no memory.
//!
//! # Where it is proved
//!
//! What each single move of a paragraph joins, in order (`ends_in`), and of each how many join the same; that each record is drawn with the condition-names of
//! its own copybook (`HaveNamesOf`). The words of the page are shown by rows.
#![tactic(auto)]

mod aligned;
mod joined;
mod lines;
mod lists;
mod lost;
mod page;
mod style;
mod tiles;
mod tones;

pub use joined::ends_of;
pub use lines::{Sides, write_line};
pub use lists::{write_move, write_runs};
pub use lost::Lost;
pub use page::{ConditionNames, Converted, Mapping, Page, Record, TextNames};

//! The words and the boxes of the page of a map.
//!
//! # Words
//!
//! Words of the page of a map: entries, constants and bytes, as they print there.
//!
//! [`NameText`] prints an entry's name, [`ClausesText`] how often it occurs and what it redefines, [`KindText`] its picture and storage, and [`TitleText`] all
//! that is said of it where the pointer rests on its box. [`EscapedConstant`] prints a literal or a figurative constant, [`Characters`] ASCII characters, and
//! [`ShownBytes`] and [`HexDigits`] bytes of a record. Characters of a file or a copybook have the escapes of `cob_report_html`, so that none leaves its place.
//!
//! What [`Characters`] and [`EscapedConstant`] print is promised whole (`output`, by `shown` of specs/Shown.antt): the characters, or those of the constant as
//! `layout` lists it (`constant_text` of `cob_report_show`), each as it is or as its escape. Which words the others print is shown by `cob_test_jobs`.
//!
//! It takes no memory.
//!
//! # Boxes
//!
//! The boxes of a record on the page of a map.
//!
//! [`rows_of_entries`] says how high the boxes of a record's entries are, and [`write_boxes`] writes them where a [`Drawn`] has them: a group as a row over a
//! rail along what it holds, an item as a row with its name, its picture, its value and the first of its digits, where a record is given, and its offset. Of a
//! table each of the first elements has a row below; elements of one character stand side by side. Below the row of an entry stand its condition-names. No box
//! reaches into the next one, since each begins behind those before it (`tops_of` of `cob_report_html`). [`write_bytes`] writes the list of all digits, and
//! [`write_ribbon`] the ribbon of a record: its items one beside another, each as wide as its bytes. What is printed is shown by `cob_test_jobs`.
//!
//! What single moves do to an entry is its [`Tone`], by which its box and its part of the ribbon are marked, and so are bytes that no receiver covers. An item
//! that is not covered behind a table that varies is told to be shifted (`is_steady` of `cob_layout_steady`).
//!
//! Only [`rows_of_entries`] takes memory.
//!
//! # Condition-names
//!
//! [`ConditionRows`] prints the condition-names that stand behind the entry with a number, each in a row with its level, its name and its values. What it
//! prints is promised whole (`output`): just the rows of those with this number, in their order (`name_rows` of specs/Conditions.antt), with values as `layout`
//! lists them (`span_text` of `cob_report_show`).
//!
//! # Where it is proved
//!
//! What is printed of condition-names, of constants and of characters, to the byte (`output`, by `name_rows` and `shown`). Of the rest it is proved that it is
//! safe and ends; its words are shown by rows.
#![tactic(auto)]

mod boxes;
mod conditions;
mod constants;
mod entries;
mod occurrences;
mod records;
mod ribbons;
mod texts;
mod values;

pub use boxes::write_boxes;
pub use conditions::ConditionRows;
pub use constants::EscapedConstant;
pub use entries::{ClausesText, KindText, NameText, TitleText};
pub use records::{Drawn, EntryRow, GivenRecord, Tone, rows_of_entries, told_length};
pub use ribbons::write_ribbon;
pub use texts::{Characters, HexDigits, ShownBytes};
pub use values::write_bytes;

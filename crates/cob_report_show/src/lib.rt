//! What a copybook makes of a record, and what the records of a file hold, as lines of text: the two questions that are asked
//! before and after records are converted.
//!
//! - [`layout_text`] writes a line for each entry of a copybook: its level, name, offset and length, what it is, what it redefines
//!   and how often it occurs; and behind it one for each of its condition-names. It asks for no memory, and finds the name behind a
//!   table that varies in few steps, however many entries there are. For each entry it looks at each condition-name once.
//! - [`show`] reads records and writes for each named elementary item, and for each of its occurrences, a line with its name,
//!   offset and value. It asks for memory before the first record alone; that it asks for none later is shown by tests.
//!
//! What reads and judges a record, and what prints names, numbers and bytes, is called by other listings of the same values too: [`read_record`],
//! [`items_of`], [`push_subscripts`], [`number_text`], [`shown_byte`] and [`digits_of`], with [`put`] and what names a stop.
//!
//! What is promised of [`show`]:
//!
//! - the records that it lists are the frames that came whole and are legible up to the first that stops it, the sink took just the
//!   lines of these, and where it failed a beginning of the next one's; the answer is how many they were, or names the first that
//!   stops, with its offset and its cause, and how many bytes the sink took (`shows`, by `Shows` of specs/Runs.antt);
//! - the lines of a record are its number and then, for each element of each named elementary item in the order of the entries, the
//!   last subscript the fastest, its name with its subscripts, its offset and its value (`AreRecordLines` of specs/Lines.antt); an
//!   element stands where `place_of` of cob_layout_places says under the record's counts (`StandsAt` of specs/Elements.antt);
//! - a value is the text of the number that the item's bytes represent, or a question mark and their digits where they represent none,
//!   or characters in quotation marks (`IsValueShown` of specs/Values.antt);
//! - a fault is one of reading or of writing exactly where a call of that end failed (`reads`, `writes`, `errors`), a stop is one of a
//!   count, of a frame or of the number of records (`fault`), and where memory is refused nothing was read or written (`memory`).
//!
//! What is promised of [`layout_text`]:
//!
//! - the sink took just the lines of the entries, in their order, a parent before those beneath it, and behind each line those of the
//!   condition-names that have the entry's number; where it failed, a beginning of these lines, and the fault has the number of bytes
//!   of it, up to the greatest count (`lists`, by `ListsEntries` of specs/Entries.antt);
//! - the line of an entry is its level in two digits; its name, or FILLER; the offset and the length of its first element where each
//!   table has its greatest number of elements (`spots_of` of cob_layout_places says where that stands); a word for what it is; behind
//!   `redefines` the name of the entry that it redefines; and behind `occurs` how often it occurs, a table that varies from its least to
//!   its greatest number `on` the name of the item that counts it (`entry_line`). The word is `group`; of a number its kind of storage,
//!   `zoned`, `separate`, `packed` or `binary`; of another item its category, which BLANK WHEN ZERO makes `numeric-edited`
//!   (`kind_word`);
//! - the line of a condition-name is `88` behind two spaces, its name, and behind another two its values: constants as a source text
//!   writes them, or two of them with THRU between (`name_line` of specs/Conditions.antt, `constant_text` of specs/Constants.antt);
//! - a fault is one of writing (`kind`), exactly where a call of the sink failed (`cause`, `errors`).
//!
//! # Where it is proved
//!
//! The clause `shows` of `show`, with `fault`, `memory`, `reads`, `writes`, `errors`; the clause `lists` of `layout_text`, with those on its end.
#![tactic(auto)]

mod conditions;
mod constants;
mod elements;
mod entries;
mod named;
mod records;
mod text;
mod values;

pub use cob_layout::{Book, BookRule, Layout, Role};
pub use elements::push_subscripts;
pub use entries::layout_text;
pub use named::ListedItem;
pub use records::{LIMIT, ShowFault, items_of, limit_reason, read_record, show, stop_at};
pub use text::{ListingLine, push_text, put};
pub use values::{digits_of, number_text, shown_byte};

//! What is refused of a text: each rule that it is found to break, where one refusal does not hide the others.
//!
//! [`book_refusals`] reads a text as a copybook, and answers why it is none: the fault that [`cob_copybook::Book::read`] answers comes first. Behind it come those
//! that stand by themselves: other lines with a byte, a tab or a character in column 7 that no line may have; and the first fault of each other entry. Rules that
//! ask for the tree of all entries are told only where each entry is read, and then the first alone. [`entry_told`] says which entry a refusal is told of,
//! [`entry_behind`] which words it has, and [`spot_at`] where one of them stands.
//!
//! What is promised of [`book_refusals`]: each refusal names a rule that the text breaks, by the definition that `Book::read` has of it, and the entry that it
//! tells, if it tells one, breaks that rule by itself (clause `each`); nothing is
//! answered of a text that is a copybook (`none`), and a text of which nothing is answered is one (`some`). Of [`entry_told`]: the
//! entry is that which the refusal tells, or else one that begins on its line. Of [`spot_at`]: that it is the place of one of the words. The definitions stand in
//! specs/Refused.antt. Which word it is, and on which line a refusal is told, no clause says.
//!
//! A [`MoveRefusal`] is what is refused of a paragraph: `cob_report_refused_moves` answers them.
//!
//! # Where it is proved
//!
//! The clauses `each`, `none`, `some` of `book_refusals` and those of `entry_behind`, `entry_told` and `spot_at`.
#![tactic(auto)]

mod books;
mod entries;
mod lines;
mod refusal;
mod sentences;
mod spots;

pub use books::book_refusals;
pub use entries::{entry_behind, entry_told};
pub use refusal::{MoveRefusal, Refusal};
pub use spots::{Spot, spot_at};

//! Edited items: the text that a picture gives a number or characters, and the number that a text stands for.
//!
//! A MOVE to an edited item suppresses leading zeros, floats a currency sign or a sign, and puts insertions, the point and the sign in
//! their places (ANSI X3.23-1985, Nucleus: PICTURE clause, editing rules; BLANK WHEN ZERO clause). [`edit`] writes the text of a
//! number, [`deedit`] gives the number of a text, and [`edit_text`] writes characters with insertions.
//!
//! What is promised: `edit` writes the text that the definition `IsEdited` describes (`text`): the number is aligned to the picture, the
//! cut is the place where its suppressed zeros end, and each place holds what the definition says of it. `deedit` gives a number only where
//! the bytes are the text of that very number, in the picture's range (`found`), and gives every such number (`only`), so that it answers
//! None exactly where the bytes are no number's text. `edit_text` puts at each place the byte that `HasCharacters` names (`text`).
//! [`row_of`] makes ready the texts of all numbers that have so many zeros in front: what each byte is, whatever the other digits and the
//! sign are (`IsRowOf` of specs/Rows.antt). Over the definitions alone, `one_text`, `some_text` and `one_value` say that each number has
//! one text and each text at most one number, `one_spelling` that characters have one text, and `prints_characters` that the bytes are
//! those of the characters in code page 037. For numeric edited pictures, `regions_are_of_runs` says in the words of the editing rules
//! which places are the region whose zeros are suppressed, and `signs_are_shown` that a sign shows exactly where the picture is signed.
//!
//! The crate stands on cob_picture for the positions of a picture, on cob_decimal for numbers and their alignment, and on cob_cp037
//! for the code page. Nothing here takes memory, and the work grows with the size of the picture.
//!
//! # Where it is proved
//!
//! The clauses of `edit`, `deedit`, `edit_text`; those of `row_of`: a row has the text of each number with so many zeros in front (`IsRowOf` of
//! specs/Rows.antt); the laws of `cob_edit`.
#![tactic(auto)]

mod cell;
mod laws;
mod numbers;
mod place;
mod positions;
mod reading;
mod region;
mod rows;
mod spelling;
mod text;

pub use crate::cell::TextCell;
pub use crate::laws::{
    one_spelling, one_text, one_value, prints_characters, regions_are_of_runs, signs_are_shown,
    some_text,
};
pub use crate::numbers::{deedit, edit};
pub use crate::place::{EditedPlace, Fill, Mark};
pub use crate::positions::{Places, places_of};
pub use crate::rows::{Row, row_of};
pub use crate::spelling::edit_text;

/// No picture of a number has more places than this, or more bytes.
pub(crate) const MAX_PLACES: usize = 256;

//! What a page of HTML is made of: texts and shapes as HTML, and places on the page of a map.
//!
//! # Texts and shapes
//!
//! Texts and shapes as HTML, made up where they are printed: texts with their escapes, and the lines, curves and rectangles of a drawing in SVG.
//!
//! - [`Escaped`] prints a text so that a browser shows just its characters: `<`, `>`, `&` and `"` as escapes ([`escape_of`]), and each other one as it is.
//! - [`StraightLine`], [`LevelCurve`] and [`Rectangle`] print as elements of a drawing.
//!
//! What each prints is promised whole (`output`). That no text can leave its place is a law: what is written of it are plain characters and escapes, one
//! behind another ([`escapes_read_back`]; `ReadsAs` of specs/Escapes.antt), and such a writing is read in one way, as the text ([`reading_is_one`]). So it
//! holds no `<`, `>` or `"`, and no `&` but at the front of an escape.
//!
//! It takes no memory.
//!
//! # Places on a page
//!
//! Places on the page of a map: where boxes stand, which parts of a ruler bytes take, and which single moves one line stands for.
//!
//! - [`tops_of`] says where boxes stand that lie one below another: each begins behind the one before it and what stays white above it, or at the front of
//!   the next sheet of paper, where the rest of a sheet is too short for it (`AreTops` of specs/Tops.antt). A sheet is [`SHEET`] high.
//! - [`part_at`] is the part of a run of bytes that stands in the row of the ruler in which it begins, and [`rows_of`] says how many rows a run meets
//!   (specs/Rulers.antt). A row has [`ROW`] bytes.
//! - [`bare_length`] is how many bytes at the front of a piece of a record are not covered: by it a page goes from one run of such bytes to the next.
//! - [`counts_of`] groups single moves by what they join: a line is drawn for the first one of those that join the same two, and says how many they are
//!   (`AreCountsAtFirsts` of specs/Ends.antt).
//!
//! No sum wraps: a top past the greatest number of 32 bits is that number.
//!
//! # Where it is proved
//!
//! What a text, a line, a curve and a rectangle print, to the byte (`output`); that what is written of a text is read as the text (`escapes_read_back`), and in
//! one way (`reading_is_one`): so it holds none of `<`, `>`, `"`, and `&` only at the front of an escape (`ReadsAs`); where boxes begin that lie one
//! below another, so that none that has room on a sheet of paper stands on two (`AreTops`); the part of a run of bytes in its row of a ruler
//! (`IsRowPart`), and how many rows it meets (`AreRows`); how long a run of bytes is that are not covered (`prefix_len`); of each single move how many
//! join the same two, where it is the first of them (`AreCountsAtFirsts`).
#![tactic(auto)]

mod ends;
mod escapes;
mod laws;
mod rulers;
mod runs;
mod shapes;
mod tops;

pub use ends::{JoinedEnds, Origin, counts_of};
pub use escapes::{Escaped, escape_of};
pub use laws::{escapes_read_back, reading_is_one};
pub use rulers::{ROW, RulerPart, part_at, rows_of};
pub use runs::bare_length;
pub use shapes::{LevelCurve, Rectangle, StraightLine};
pub use tops::{SHEET, SpacedBox, top_behind, tops_of};

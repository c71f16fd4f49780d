//! A paragraph to begin with between two records: its text.
//!
//! For each entry of the output record that has a name and stands in no redefinition a partner is looked for among the entries of the input record;
//! one of the two is an elementary item, as in pairs of MOVE CORRESPONDING. Where nothing is against the move, a statement stands; else it stands as a
//! comment, with what is against it. Behind the comment of a move of bytes stands what may be moved in its place: the items of the group that receives, one
//! by one, or the only item of the group that sends. Behind the statements stand the items of the output record to which not all is moved, with what they
//! hold, and the items of the input record of which not all is moved.
//!
//! Statements stand in loops: one over each table of the output record that holds the receiver, or that it is, and of which both records have several
//! elements, or a number that a count says. A loop holds all that is said of its table's items, as long as it goes as far: so pieces are collected first, and
//! then written (`DraftText`). The move of a count stands in front where a statement fills its table (`CountProgress`).
//!
//! [`draft_of`] writes the paragraph. Names may have prefixes that differ: they are compared without these, and written as they are. Which entry is the partner of one, what is against a move, with how many qualifiers an entry is named and which names
//! counters have is promised by `cob_report_partners`, and by `cob_layout_steady` which items begin at the same byte of each record. What is promised here:
//!
//! - no line reaches behind column 72 (`line_end`);
//! - the loops of a statement are those of its tables of which both records have several elements, and go as far as both (`loops_over` and `lesser` of
//!   specs/Loops.antt), and its subscripts are their counters (`subscripts_from`); of tables that vary they end by a count (`loops_along` and `levels`);
//! - the law [`loops_name_elements`] says that these loops, turn by turn, name each element that both records have once, and in order;
//! - the law [`counted_loops_name_elements`] says so of loops to counts, of the elements that are there under the counts of two records.
//!
//! How a draft reads is shown by `cob_test_jobs`, which also reads drafts back.
//!
//! # Where it is proved
//!
//! That no line of a draft reaches behind column 72 (`line_end`); which loops a statement stands in and by what they end (`loops_of`), and which subscripts
//! it has there (`subscripts_of`); the laws `loops_name_elements` and `counted_loops_name_elements`. The text is shown by rows, which read it back and ask what its moves may lose.
#![tactic(auto)]

mod compared;
mod counts;
mod drafting;
mod held;
mod instead;
mod lines;
mod loops;
mod open;
mod pairs;
mod progress;
mod reasons;
mod shares;
mod words;
mod writing;

pub use cob_report_partners::Prefixes;
pub use drafting::{Draft, Lacking, draft_of};
pub use loops::{counted_loops_name_elements, loops_name_elements};

//! What a command reads and writes: the records of its input, and the ends of a conversion.
//!
//! # Records that are read
//!
//! The records that a command reads of a file: those of a piece, and of these the chosen ones.
//!
//! - [`open_records`] opens the file that `--in` names, moves to the piece that is wanted, and passes over the records before the chosen ones: of records of
//!   one length, where the file's size is known, by a seek as far as there are so many (`JumpsIn`), and else by reading their frames, so that the file may be
//!   standard input. Where all records of the piece are wanted, its source is that of the file itself. A first read that waits for no one is done here, so
//!   that a folder, or what else can't be read, is found out before a command makes a file.
//! - [`not_chosen`] tells the frame of a record that is passed over and can't be read as a conversion of the whole file would tell it, with its number
//!   there; [`with_cause`] does so for one that stops a run over chosen records, whose reads fail there.
//!
//! What is promised: which faults opening can have (`LacksRecords`) and what they tell (`unchosen`, `unread`, `cause_told`); and that the records before the
//! chosen ones are jumped over or passed over, none where all are given (`SkipsWanted`). Which records come is promised by `cob_records_parts`.
//!
//! # Ends of a conversion
//!
//! What the commands have in common that convert a file: its ends, and how its records are counted.
//!
//! [`open_ends`] opens the records that are read, and then makes the output, or the part that stands in for it, and not where either is one of the files
//! that are read, by whatever name: so a record that is passed over and can't be read leaves no output, and nothing that is read is lost.
//! [`open_aside_ends`] makes behind these the file for rejected records too, or its part, and not where either is one of the files that are read, or the
//! output; where the part is not made, that of the output does not stay. [`Inputs`] are the files that are read, and [`is_standard_output`] says whether
//! a file is standard output by another name. [`first_of`] is the number of the first record that is converted, [`counted_on`] counts a record from it and
//! [`counted_from`] those of a fault, and [`telling_piece`] says how a run tells how far it is.
//!
//! What is promised:
//!
//! - which faults the ends can have (`LacksEnds` of specs/Ends.antt, `LacksAsideEnds` of specs/Aside.antt);
//! - which of the files that are read an output would lose (`lost_by`, specs/Inputs.antt);
//! - from which number the records of a fault are counted (`counted_from` of specs/Counted.antt).
//!
//! # Where it is proved
//!
//! The clauses of `open_records`: which faults it has (`LacksRecords`), which records it gives (`GivesWanted`), and that those before them are jumped
//! over or passed over, none where all are given (`SkipsWanted`). Inside the crate: what is told of a record that is passed over and can't be read
//! (`unchosen`), what is told where the first read fails (`unread`), and what a seek passes over (`JumpsIn`); which bytes of a file come behind it, no
//! contract can say. Of `with_cause`: why a run over chosen records stopped. The clauses of `open_ends` and `open_aside_ends` (which faults they can
//! have), of `lost_by` (which of the files that are read an output would lose) and of `counted_from`.
#![tactic(auto)]

mod aside;
mod counted;
mod ends;
mod inputs;
mod records;
mod stops;

pub use aside::{AsideEnds, OutputNames, open_aside_ends};
pub use counted::{counted_from, counted_on, first_of};
pub use ends::{Ends, open_ends, telling_piece};
pub use inputs::{Inputs, is_standard_output};
pub use records::{WantedRecords, open_records};
pub use stops::{not_chosen, with_cause};

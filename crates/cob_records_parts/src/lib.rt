//! Parts of a stream of records: pieces that are converted each for itself, records chosen by their places, and the record with a number.
//!
//! # Pieces
//!
//! Pieces of a file of records: where it may be cut, so that each piece is converted for itself, by a process or a machine of its own.
//!
//! - [`pieces_in`] cuts a stream in any form by its descriptors, [`pieces_of_size`] one of records of one length by its size alone. Both answer a
//!   list of [`Piece`]s: behind how many bytes each begins, how many it has, and the number of its first record in the whole stream.
//! - What is promised (`AreCut` of specs/Cut.antt): one behind another the pieces are the bytes of the stream, none is empty, each but the last is
//!   whole frames, in form b whole blocks, and the number of its first record is one more than the records before it. There are as many as are asked
//!   for at most. What the stream ends in that is less than a frame is in the last piece.
//! - A frame that can't be read is answered with the number of its record, as a conversion would tell it (`StopsCut`); a read failed exactly where
//!   that is the answer.
//!
//! [`open_part`] makes an end over one piece of a file: it reads just as many bytes as the piece has, or all that are left (`all`, `part`), over standard
//! input just where the name is `-` (`which`), and none is opened where the system does not move to the offset.
//!
//! That the pieces are of nearly equal size is shown by tests.
//!
//! # Chosen records
//!
//! Records of a stream chosen by their places: the first so many are passed over, and of the others so many are taken at most.
//!
//! - [`Chosen`] goes round a source and gives just the records of a [`Choice`], each as it stands by itself in a stream of the same form: in the forms
//!   f and v its frame, in form b a block that holds just it, so that choosing may begin and end within a block. A reader finds just these records
//!   there (`alone_is_one_record` of `cob_records`). The source inside is read once, from its front, and only as far as the last record that is chosen:
//!   so it may be standard input.
//! - What is promised (`HasGiven` of specs/Gives.antt): what it has given and still holds are, one behind another, the records behind the first ones that
//!   are passed over, of those that came whole; and where it says that nothing is left, the last one that is chosen has come, or the source inside is
//!   at its end. A frame that can't be read, of a record that is passed over or taken, is a read that fails; [`Chosen::stopped`] tells then the number
//!   of the record among all and why, as a reader of the whole stream would (`HasStopped`). A read of the source inside failed exactly where that is why.
//! - Where the source inside tells its bytes, what it tells to come itself is a function of these (`given_of` of specs/StillGiven.antt): the chosen records,
//!   each by itself, and behind them, where a frame can't be read, a mark of the fault, which is never given ([`given_are_chosen`]).
//!   A reading of these bytes does not take the mark for a record: they are not all records ([`mark_ends_nothing`]).
//! - [`Chosen::into_rest`] gives, where the chosen records are all that is left of the source inside, or its first bytes, just that ([`Rest`]), with nothing
//!   between: in form f always, in form v where no number of records is asked for. These are the bytes behind the records that are passed over
//!   ([`rest_is_behind`]).
//! - [`whole_records`] says how many records of one length may be passed over by a seek: by arithmetic on the size of a file.
//!
//! One buffer is made for all records.
//!
//! # The record with a number
//!
//! [`find_record`] reads the record with a number, behind as many as stand before it, which are passed over by their frames alone. What is promised
//! (`FindsNumbered` of specs/Numbering.antt): it is the one behind so many that came whole, and just up to its end was read; or only fewer come; or a frame up
//! to its own can't be read, and the number of its record is told. A read failed exactly where that is why.
//!
//! # Where it is proved
//!
//! The clauses `cut`, `uncut`, `few`, `cause` of `pieces_in`, and `cut`, `few` of `pieces_of_size`; of `open_part`: how many bytes its end reads (`all`,
//! `part`), that nothing is in its buffer (`empty`), over what it is (`which`, `whole`). Inside the crate: a seek that fails opens nothing (`moved_to`),
//! said of files that tell where they are. That the pieces are of nearly equal size, only rows show. Of `Chosen`, a source that gives the chosen records
//! of another: the clauses of `new`, of its `read` and of `stopped`; of `choose`, of `StreamPart::jumped` and of `Chosen::into_rest`; those of `Rest`, a source
//! that gives what is left of another, or its first bytes, and tells them; the laws `rest_is_behind`, `given_are_chosen` and `mark_ends_nothing`. Of
//! `find_record`: the record with a number comes, or there are fewer, or a frame up to its own can't be read (`FindsNumbered`, specs/Numbering.antt). The
//! words: what a `Chosen` tells to come (`chosen_coming`, specs/Comings.antt; `given_of`, specs/StillGiven.antt; `first_frame_in`, specs/Firsts.antt), which
//! records have come and which of them are chosen (`HasCome`, `HasStopped`, specs/Choices.antt), what was given, a read, its end and its stop (`HasGiven`,
//! `GivesBehind`, `IsDrained`, `StopsGiving`, specs/Gives.antt), a part behind whole records of one length (`IsBehindWhole`, specs/Parts.antt), chosen
//! records that are all that is left or its first bytes (`rest_inside`, `IsGivenBehind`, specs/Rests.antt).
#![tactic(auto)]

mod ahead;
mod choice;
mod chosen;
mod cut;
mod files;
mod fixed;
mod foretold;
mod held;
mod incoming;
mod laws;
mod numbered;
mod part;
mod piece;
mod refill;
mod rest;
mod step;
mod stream;
mod walk;
mod whole;

pub use choice::{Choice, ChoiceFault, Stopped};
pub use chosen::Chosen;
pub use files::{PartSource, open_part};
pub use fixed::pieces_of_size;
pub use incoming::{Incoming, choose};
pub use laws::{given_are_chosen, mark_ends_nothing, rest_is_behind};
pub use numbered::{Numbered, find_record};
pub use part::StreamPart;
pub use piece::{Piece, PiecesFault};
pub use rest::Rest;
pub use stream::{MOST_RECORDS_CUT, pieces_in};

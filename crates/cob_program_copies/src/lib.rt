//! Copybooks as a command line hands them over: with the texts that they copy, with words replaced in them, and with one of several records chosen.
//!
//! [`hand_over`] reads the files of a command's copybooks, carries out what the options say of them, and answers each as one text. A [`HandedRuntime`] is the
//! runtime inside, but that its files at the paths of [`with_handed_books`] are these texts: so a command reads them as it reads the files of other copybooks, and
//! knows nothing of COPY. A copybook to which nothing is done is handed on byte for byte. Of one in free format a text in reference format is made, and of one with
//! tabs one with spaces, as the options say ([`Spacing`]).
//!
//! Where an option asks for it, the records are named by their roles: a copybook is then handed over as a text that describes the same record under that name, as
//! `cob_program_roles` promises.
//!
//! The texts that are copied come from the folders that an option names, the first that has one ([`Folders`]): NAME, NAME.cpy or NAME.cbl, or these in small letters,
//! and of a library a folder of its name beneath. At most as many bytes are read of one as a text may have, and a piece more.
//!
//! A text that was made is read once before it is handed on: what is wrong with it is told here, by the name of the text that has it and its line there, which no
//! command could tell; and in words too, where that is asked for. All other faults of a copybook are those of the command.
//!
//! What is promised: that a command has copybooks wherever something is wrong with one (`HasBooks` of specs/Handing.antt), and with which status it ends then
//! (`LacksHanding`, `status_of_handing`); that a line whose copybooks are handed over names all else as it did, so that it ends in the same ways
//! (`with_handed_books` of `cob_program_commands`). What a text comes to is promised by `cob_copybook_text`. Which files are read, and the words of faults, are shown by
//! `cob_test_jobs`.
//!
//! # Where it is proved
//!
//! The clauses of `hand_over` and `tell_unhanded`.
#![tactic(auto)]

mod books;
mod exchanges;
mod fault;
mod files;
mod folders;
mod handing;
mod judging;
mod naming;
mod outputs;
mod runtime;
mod spacing;
mod told;

pub use books::{HandedBook, IN_BOOK, LISTED_BOOK, OUT_BOOK};
pub use fault::{BookRefusal, HandingFault, tell_unhanded};
pub use files::HandedFile;
pub use folders::Folders;
pub use handing::hand_over;
pub use outputs::{Outputs, WrittenFile};
pub use runtime::HandedRuntime;
pub use spacing::Spacing;

//! The text of one record description, made of a copybook that copies others, holds words to be replaced, or describes several records (ANSI X3.23-1985,
//! Source Text Manipulation; Data Division: record description entries).
//!
//! [`record_text`] carries out the COPY statements of a copybook's words, or replaces words in them, as a [`Copying`] says; chooses one record by its name,
//! or the only one; and writes the words that are left as one text in reference format. All that reads a copybook reads that text: so COPY and a choice among
//! records need no second way through the crates above. A [`RecordText`] says of each of its lines which line it was written for, so that a fault can be told
//! where it was made. Where nothing is copied, replaced or left out the copybook itself is the text, and none is made. Of words that stand in a text of another format
//! [`text_saying`] makes one.
//!
//! What is promised: the words of the text that is answered say, each on the line that is kept for it, what the words that are meant say, and no text is answered
//! only where the words that are meant are those that came (clause `found`). Words that are meant are written, but for want of memory and of room in one text
//! (`only`), and a refusal names a rule that is broken (`fault`). Words come to one list that is meant at most (`meant_words_are_one`). Which words do not fit in one text, no clause says: the text is read
//! again before it is answered, so that it is never another one.
//!
//! The definitions stand in `specs/`: `Meant` says which words are meant, `Written` what a text says of them, `Refusals` why there are none, `Laws` has the law.
//! The crate stands on `cob_source_copies` for COPY, on `cob_copybook_record` for the choice of a record, and on `cob_source` for the words of a text.
//!
//! # Where it is proved
//!
//! The clauses `found`, `only`, `fault` of `record_text`, that of `text_saying`; the law `meant_words_are_one`.
#![tactic(auto)]

mod again;
mod choosing;
mod copying;
mod fault;
mod laws;
mod making;
mod writing;

pub use again::text_saying;
pub use cob_copybook_record::NoRecord;
pub use copying::Copying;
pub use fault::RecordTextFault;
pub use laws::meant_words_are_one;
pub use making::record_text;
pub use writing::RecordText;

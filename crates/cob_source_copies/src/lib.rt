//! COPY statements of a source text, carried out (ANSI X3.23-1985, Source Text Manipulation; IBM Enterprise COBOL for z/OS, Language Reference, "COPY
//! statement").
//!
//! A COPY statement names a text and gives way to its words. REPLACING puts words for others in them. Word for word is compared, where a bracket and a colon
//! are words by themselves, so that `:TAG:` or `(TAG)` stands for a part of a word. What is put is not looked at again. A literal is one word, and nothing in
//! it is replaced.
//!
//! A [`Library`] holds the texts that may be copied. [`Library::add`] puts one in, and carries its own COPY statements out by those before it. So each text is
//! read once, and a text that would copy itself has no place. [`names_wanted`] says which texts words copy. [`Library::expand`] carries the statements of
//! words out. [`fetch`] makes the library of words: it asks a [`Shelf`] for each text once, at most eight one within another and none within itself. [`replaced`]
//! replaces in words that are handed over by themselves. The lines of a text in a library are counted on behind those of the texts
//! before it ([`counted_on`]), and [`line_numbered`] finds text and line again.
//!
//! What is promised of [`Library::expand`]: what is answered is what the words come to (clause `found`); words that come to others are carried out, but for
//! want of memory (`only`); and a refusal names a rule that is broken, on the line that breaks it (`fault`). Words come to one list of words at most
//! (`one_expansion`), and such that do break no rule (`expanded_breaks_no_rule`). Words without COPY come to themselves (`nothing_to_expand`). Words cut into
//! text words and written together again are the same (`cut_and_together`). Texts make one library at most (`one_library`). What [`fetch`] answers is the
//! library of some texts (`made`), and each text that the words copy is there (`known`); which texts a shelf has, no clause says, nor why one is refused.
//!
//! The definitions stand in `specs/`: `TextWords` cuts words into what REPLACING compares, and writes them together again; `Exchanges` is REPLACING;
//! `Statements` says which words are a COPY statement; `Texts` what words come to; `Refusals` which rules they break; `Libraries` how texts are put in, and
//! their lines. `Reading` and `Carrying` name steps on the way; no public clause names them. `Laws` has the laws. The crate stands on `cob_source` for the words of
//! a text, on `cob_limits` for how many words are put, and on `thiserror` for the fault's message.
//!
//! # Where it is proved
//!
//! The clauses `found`, `only`, `fault` of `Library::expand`, those of `Library::add`, `replaced`, `names_wanted` and `fetch`; the laws of `cob_source_copies`.
#![tactic(auto)]

mod adding;
mod copying;
mod exchange;
mod expansion;
mod fault;
mod fetch_fault;
mod fetching;
mod fragment;
mod laws;
mod library;
mod line;
mod name;
mod operand;
mod statement;
mod wanted;
mod writing;

pub use adding::{counted_on, has_copy};
pub use exchange::{Exchange, replaced};
pub use fault::{CopyFault, CopyRule};
pub use fetch_fault::{FetchFault, ShelfFault};
pub use fetching::{Shelf, fetch};
pub use fragment::Fragment;
pub use laws::{
    cut_and_together, expanded_breaks_no_rule, nothing_to_expand, one_expansion, one_library,
    one_line,
};
pub use library::{Library, LibraryText};
pub use line::{TextLine, line_numbered};
pub use name::TextName;
pub use wanted::names_wanted;

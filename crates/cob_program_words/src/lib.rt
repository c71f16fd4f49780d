//! What the words of a command line mean, before they are read: a question for help, and options by other names.
//!
//! [`meant_words`] answers the words that `cob_program_line` then reads: `help` before others asks for the help of the command that they name, or of the
//! program, as `--help` behind them does; and `layout`, `show`, `compare` and `pieces`, which have one copybook, take `--in-book` for their `--book`, and but
//! for `layout` `--in-form` for their `--form`. Other words mean themselves (`meant` of specs/Meant.antt).
//!
//! # Where it is proved
//!
//! The clause of `meant_words`: what words mean, for any words, is what the definition `meant` says of them.
#![tactic(auto)]

mod meant;

pub use meant::meant_words;

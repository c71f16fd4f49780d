//! The options of `cobconv`: how `clap` takes options of each kind, and the commands with theirs, in tables.
//!
//! # Kinds of options
//!
//! The options of commands, as `clap` takes them and finds them.
//!
//! [`required`], [`defaulted`], [`optional`] and [`alone`] define an option of each kind (by specs/Rules.antt), and [`named`], [`named_if_there`] and
//! [`flag`] say what the parser found of one (`look_of` of specs/Looks.antt).
//!
//! Which words are options, each at most once, and what they name, says `AreOptions` of specs/Options.antt over a table of them. That the parser's own
//! definitions come to that for every such table whose names are apart, of a character or more and without `=`, is proved in proofs/ by lemmas on which
//! `cob_program_line` stands: words behind a command's name pass exactly where they are its options and those that have to be there are there
//! (`level_complete`, `level_sound`, `level_there`), and what is found of each is what the words give it (`look_same`).
//!
//! # Commands
//!
//! The commands of `cobconv` with their options, as `clap` takes them.
//!
//! [`program`] makes the definition that parses words: it is that of the table `commands` of specs/Commands.antt (`program_app` of specs/Program.antt).
//! The tables of src/options.rt and src/commands.rt define them, with the texts of their help, and loops add what they define (specs/Definitions.antt).
//! The texts of help are no part of any promise; the stored command lines of `cob_test_jobs` show them.
//!
//! # Where it is proved
//!
//! Options of each kind as `clap` takes them, and what it finds of one; that it passes words exactly where they are options of a table, and finds of each
//! what the words give it (lemmas below proofs/). The clause of `program`: it is the definition of the table `commands`. Inside the crate: that of the
//! functions that add an option, a group, a command (`with_option`, `with_groups`, `with_commands`): what a table of definitions says (`option_of`,
//! `command_of`, specs/Definitions.antt) is added, in its order.
#![tactic(auto)]

mod adding;
mod arguments;
mod commands;
mod definition;
mod found;
mod help;
mod options;

pub use arguments::{alone, defaulted, optional, required};
pub use commands::program;
pub use found::{flag, named, named_if_there};

//! What a command line says: the words read, and what the options of each command name.
//!
//! # Commands
//!
//! What the command lines of `cobconv` ask for: which command, and what each of its options names.
//!
//! A [`CommandLine`] is what words ask for; [`line_of`] reads it. A function for each command that has options reads its line from what the
//! parser found, as [`convert_line`]: each field is the value that its option names, by specs/Lines.antt over the tables of `cob_program_options`
//! (`options`). A form is f, v, or b with the greatest size of its blocks, a reading of binary items is pictured or whole, a listing of values text,
//! json or csv, a measure of a comparison value or bytes. It refuses options exactly where there is no such line (`lacks`), and says which names what is none, of those that are told first: an
//! option names no form, no reading, no size of blocks, no listing, no piece of the input, no number of records, no number of pieces, no record length, or no measure
//! (`fault`, by `IsFaultIn` of specs/Faults.antt).
//!
//! [`Line::files`] are the files that the options of a line name, in the order in which they are opened: each line's stand beside its fields.
//!
//! What words say as a whole (`IsCommandLineOf`), and which fault they have (`IsFaultOf`), is defined here too; that they are read so, promises
//! `line_of`.
//!
//! # Words
//!
//! The command line of `cobconv`, read from words.
//!
//! [`line_of`] reads the words after the program's name. Where it answers a [`CommandLine`](CommandLine), the words are the name of a
//! command and its options, each at most once, and each field of its line is the value that the words give its option, or the default where the option
//! is not there (`options`, by `IsCommandLineOf` of specs/Lines.antt). The flag that all commands with files have stands beside the
//! line. It refuses words exactly where they are none of that, but for want of memory (`refused`), and says which rule they break first: they spell no
//! command with its options, or an option names what is none (`fault`, by `IsFaultOf` of specs/Faults.antt there).
//!
//! What rests on the contract of `clap`'s port is that a parse answers what the port's own definitions say of the words (`subcommand_of` where it succeeds,
//! `fault_of` where it fails), for the commands and options of `cob_program_options`; that those definitions come to the words as options is proved in
//! `cob_program_options` for options and here for commands (`found_in` of proofs/Spelled.antt). Help, the version and the texts of refusals are `clap`'s, which
//! the stored command lines of `cob_test_jobs` show.
//!
//! # Where it is proved
//!
//! The clauses `options`, `lacks`, `fault` and `blocks` of `convert_line`, `show_line` and the functions beside them: the line of each command is what
//! its options name, and a refusal tells the first that names nothing (`IsFaultIn`); the clauses `options`, `refused` and `fault` of `line_of`: also that
//! faults are explained exactly where the flag is given, and that copybooks are handed over as their options say (`SaysCommand`).
#![tactic(auto)]

mod commands;
mod fault;
mod line;
mod number;
mod read;
mod values;

pub use commands::{
    check_line, compare_line, convert_line, draft_line, explain_line, layout_line, lossless_line,
    map_line, pieces_line, show_line,
};
pub use fault::LineFault;
pub use line::{
    CheckLine, CommandLine, CompareLine, ConvertLine, DraftLine, ExplainLine, Forms, Handing,
    LayoutLine, Line, Listing, LosslessLine, MapLine, Measure, PiecesLine, ShowLine, TextFiles,
};
pub use read::line_of;

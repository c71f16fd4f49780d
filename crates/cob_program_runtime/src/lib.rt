//! Runtimes and streams as a program of files needs them: what the system's own ones lack.
//!
//! # The last error of a file
//!
//! A runtime round another one that keeps the error of the last call on a file that failed, so that it can be told why the system does not open, read or
//! write it.
//!
//! [`Noted`] does what the runtime inside does, in the same order, and answers what it answers; beside that [`Noted::last`] has the last error of opening,
//! reading, writing, flushing, moving in, renaming or syncing one of the files that options name, and of writing to standard output where one names it so; and
//! of looking at a file that is read. Looking whether an output is there notes an error, but for the one that it is not there, which is no failure. Standard
//! input notes nothing. So a command that runs over it does what it does over the other, and behind its fault [`FileError::told`] has the option, its path and
//! the system's words.
//!
//! What is promised: that a call answers what the call inside answers ([`noted`]). What a system answers is no part of any proof; rows and the built
//! program show what is told.
//!
//! # Closed standard streams
//!
//! What stands in for the standard streams that are closed when a program begins.
//!
//! The system gives a file that is opened the lowest number that is free. So where standard input, standard output or standard error is closed, the first
//! file that a program makes would get its number, and what is written to that stream would go into the file. [`take_closed`] takes these numbers before
//! any other file is opened: it opens the root folder three times, and keeps what got the number of a standard stream. A folder that is opened for reading
//! can neither be read nor written as a file, under whatever name: so a read of standard input fails then, as on a device that fails, and is no empty file;
//! and so does each write to the other two.
//!
//! What is promised: that what is kept has the number of a standard stream (`KeepsStandard` of specs/Streams.antt). That the system gives the lowest
//! number, and which calls on a folder fail, is no part of any proof; `tools/try_files` tries each command with each set of closed streams.
//!
//! # A limit on the size of files
//!
//! A runtime round another one whose files and standard streams are never written past the limit on the size of a file.
//!
//! Under such a limit (`ulimit -f`) the system ends a program by a signal, SIGXFSZ, where it would write a byte behind the limit, and the program says
//! nothing. [`LimitedRuntime`] asks the system for the limit once, and its files take as many bytes of a write as there is room for. Where there is none,
//! the write fails with the error that the system has for it, `File too large`. So a command that runs over it ends as on a full device.
//!
//! What is promised:
//!
//! - the limit is the number that the text of `/proc/self/limits` tells as the soft limit, and there is none where it tells no number ([`size_limit`],
//!   `TellsLimit` of specs/Limits.antt);
//! - what a file takes of a write ends at the limit at the latest, and a write is refused just where it would begin there ([`LimitedFile`],
//!   [`Extent::front_of`], specs/Extents.antt and specs/Files.antt);
//! - a value that is printed under a limit, and whose text is known, fits (`FitsIn` of specs/Prints.antt): it is printed as a whole or refused.
//!
//! Where the system tells no limit, each call is that of the runtime inside. What the system says of a file is no part of any proof: that it is a regular
//! one, since no limit holds for pipes, terminals and other devices, and how large it is. A file that is opened for writing is written from its front on,
//! and one that is opened for appending from its end on.
//!
//! A standard stream that is a regular file is taken to be written at that file's end, as it is behind `>` and `>>` of a shell. Its size is asked for before
//! each write, so that it does not matter who else writes to it. Where such a stream stands before the end, as behind `1<>`, a write may be refused too
//! early; where it stands behind the end, the signal may come.
//!
//! Calls that a runtime may leave out, as those on links, are those of the runtime inside.
//!
//! # Where it is proved
//!
//! The clause of `noted`: a call answers what the call inside answers. Which error is kept, and its words, are shown by rows. Those of `take_closed`:
//! what is kept has the number of a standard stream (`KeepsStandard`). That the system gives the lowest free number, and that a folder can be neither
//! read nor written, is shown by `tools/try_files`. The clauses of `size_limit`: it is the soft limit that the text of `/proc/self/limits` tells, both
//! ways (`TellsLimit`); of the writes of a `LimitedFile`: what it takes ends at the limit, the place of the next byte is counted behind it, and a write
//! that would begin at the limit is refused with the system's error (`front_within`, `extent_after`, `IsAtItsLimit`, `IsTooLarge`); its bytes are those
//! of the file inside. Inside the crate: which files that are opened have a limit (`extent_of`), and that a value which is printed under one fits
//! (`FitsExtent`). Which calls of the system fail or send a signal is shown by `tools/try_files`.
#![tactic(auto)]

mod extent;
mod file;
mod last;
mod limit;
mod limited;
mod limited_file;
mod printing;
mod runtime;
mod stand_ins;

pub use extent::{Extent, too_large};
pub use file::NotedFile;
pub use last::{FileError, LastError, NamedFile, noted};
pub use limit::size_limit;
pub use limited::LimitedRuntime;
pub use limited_file::LimitedFile;
pub use runtime::Noted;
pub use stand_ins::{StandIns, take_closed};

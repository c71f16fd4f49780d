//! The end that tells why records were rejected.

ghost use Rattle.std.specs.Prelude.{◌≡◌, true, false, None};
ghost use Rattle.cob_convert.specs.Outcomes.{append_notes};
ghost use Rattle.cob_program_run.specs.Marks.{marks_behind};

use crate::marks::Marks;
use cob_convert::{Notes, RunFault};
use cob_program_ends::counted_on;
use std::io::Eprint;

/// What is written over the line that tells how far a run is, on a terminal, so that a fault line stands by itself.
const CLEARED: &str =
    "\r                                                                              \r";

/// What is told of the rejected records of a run, one after another, beside what is printed.
pub trait RejectionWatcher {
    /// A record is rejected for this. Its number is that in the run.
    fn rejected(&mut self, fault: RunFault);
}

/// What is told of no one.
#[derive(Clone, Copy)]
pub struct Unwatched;

impl RejectionWatcher for Unwatched {
    fn rejected(&mut self, _fault: RunFault) {}
}

/// An end that prints the fault line of each rejected record on standard error, its records counted from a number, tells a watcher of it, and keeps the marks
/// of all.
#[derive(Drop)]
pub struct Rejections<'a, T, W> {
    rt: &'a T,
    first: u64,
    is_cleared: bool,
    watcher: &'a mut W,
    /// Those of the rejected records.
    pub marks: Marks,
    /// Whether each fault line was printed.
    pub are_printed: bool,
}

impl<'a, T, W> Rejections<'a, T, W> {
    ghost use Rattle.cob_program_run.specs.Marks.{unmarked};
    ghost use Rattle.cob_program_run.specs.Rejecting.{first_told, is_clearing};

    /// An end for a run whose first record has this number, and which writes over the lines that tell how far it is, or does not. This watcher is told of its
    /// rejected records.
    pub fn new(rt: &'a T, first: u64, is_cleared: bool, watcher: &'a mut W) -> Rejections<'a, T, W>
        ensures first { first_told result ≡ first }
        ensures clears { is_clearing result ≡ is_cleared }
        ensures printed { result.are_printed ≡ true }
        ensures marks { result.marks ≡ unmarked }
    {
        Rejections {
            rt,
            first,
            is_cleared,
            watcher,
            marks: Marks::new(),
            are_printed: true,
        }
    }
}

impl<T: Eprint, W: RejectionWatcher> Notes for Rejections<'_, T, W> {
    ghost told = { λ _. None };

    fn note(&mut self, fault: RunFault)
        ensures marks { self.new.marks ≡ marks_behind self.old.marks fault.number }
        // That one was not printed is never forgotten.
        ensures printed { self.old.are_printed ≡ false → self.new.are_printed ≡ false }
    {
        let line = RunFault {
            number: counted_on(self.first, fault.number),
            ..fault
        };
        let printed = if self.is_cleared {
            eprintln!(self.rt; "{CLEARED}{line}")
        } else {
            eprintln!(self.rt; "{line}")
        };
        self.watcher.rejected(fault);
        self.marks = self.marks.behind(fault.number);
        if printed.is_err() {
            self.are_printed = false;
        }
    }
}

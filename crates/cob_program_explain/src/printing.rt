//! Single moves, printed as they are carried out.

use cob_report_explain::{CarriedMove, Qualifying, SingleText, Teller, TestText};
use std::io;
use std::io::Print;

/// Who prints each single move of a record on standard output as soon as it is done, and before the first a line with the record's number. What can't be
/// printed ends the printing.
#[derive(Drop)]
pub(crate) struct MovePrinter<'a, R> {
    rt: &'a R,
    /// The number of the record.
    number: u64,
    /// Whether the line with that number was printed.
    is_begun: bool,
    /// Whether all was printed so far.
    printed: io::Result<()>,
}

impl<'a, R: Print> MovePrinter<'a, R> {
    /// A printer of the moves of the record with this number, which has printed nothing.
    pub(crate) fn new(rt: &'a R, number: u64) -> MovePrinter<'a, R> {
        MovePrinter {
            rt,
            number,
            is_begun: false,
            printed: Ok(()),
        }
    }

    /// Prints the line with the record's number, unless it was printed.
    fn begin(&mut self) {
        if !self.is_begun {
            self.is_begun = true;
            self.printed = println!(self.rt; "record {}", self.number);
        }
    }

    /// Prints the line with the record's number where no single move was told, and answers whether all was printed.
    ///
    /// # Errors
    ///
    /// The first failure to print.
    pub(crate) fn printed(mut self) -> io::Result<()> {
        self.begin();
        self.printed
    }
}

impl<R: Print> Teller for MovePrinter<'_, R> {
    fn tell(&mut self, line: u32, records: Qualifying<'_>, one: &CarriedMove<'_>) {
        self.begin();
        if self.printed.is_ok() {
            let text = SingleText { line, records, one };
            self.printed = print!(self.rt; "{text}");
        }
    }

    fn tell_test(&mut self, one: &TestText<'_>) {
        self.begin();
        if self.printed.is_ok() {
            self.printed = print!(self.rt; "{one}");
        }
    }
}

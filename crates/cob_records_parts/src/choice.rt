//! Which records are chosen, and where that stops.

ghost use Rattle.std.specs.Prelude.{◌≡◌, ◌≤◌};
ghost use Rattle.cob_records_parts.specs.Choices.{chooses_all, last_chosen};

use cob_records::RecordFault;

/// Which records of a stream are chosen.
#[derive(Clone, Copy, PartialEq, Eq)]
pub struct Choice {
    /// How many are passed over.
    pub skip: u64,
    /// How many are taken behind them at most, where it is not all.
    pub records: Option<u64>,
}

/// Where choosing stops: at which record, counted from 1 among all, and why its frame can't be read.
#[derive(Clone, Copy, PartialEq, Eq)]
pub struct Stopped {
    pub number: u64,
    pub fault: RecordFault,
}

/// Why the first record that is chosen does not come.
#[derive(Clone, Copy, PartialEq, Eq)]
pub enum ChoiceFault {
    /// The frame of a record that is passed over can't be read.
    Stopped(Stopped),
    /// Memory was refused, before a record was read.
    Memory,
}

impl Choice {
    /// Whether all records are chosen.
    pub fn is_all(self) -> bool
        ensures { result ≡ chooses_all self }
    {
        self.skip == 0 && self.records.is_none()
    }

    /// The number of the last record that is chosen, where there are so many.
    pub(crate) fn last(self) -> u64
        ensures last { result ≡ last_chosen self }
        ensures behind { self.skip ≤ result }
    {
        match self.records {
            None => u64::MAX,
            Some(records) => self.skip.saturating_add(records),
        }
    }
}

//! How many records of two files came, and how they compare.

ghost use Rattle.std.specs.Prelude.{◌≡◌, ◌<◌};
ghost use Rattle.cob_report_show.specs.Runs.{most_shown};
ghost use Rattle.cob_report_compare.specs.Merged.{Alone, KeyedRecord, all_counted, are_equal, none_counted, told_counted, with_comparison, with_entry};

use crate::files::FileSide;
use crate::records::Comparison;

/// How many pairs of records there are of each kind, and how many records stand alone.
#[derive(Clone, Copy, PartialEq, Eq)]
pub struct PairCounts {
    /// Pairs of the same bytes.
    pub same: u64,
    /// Pairs that are equal by value, and have not the same bytes.
    pub equal: u64,
    /// Pairs that are not equal by value.
    pub differ: u64,
    /// Records of the left file without one on the right.
    pub left_alone: u64,
    /// Records of the right file without one on the left.
    pub right_alone: u64,
}

impl PairCounts {
    /// None.
    pub(crate) fn none() -> PairCounts
        ensures { result ≡ none_counted }
    {
        PairCounts {
            same: 0,
            equal: 0,
            differ: 0,
            left_alone: 0,
            right_alone: 0,
        }
    }

    /// These, and one pair more.
    pub(crate) fn with(self, comparison: &Comparison) -> PairCounts
        requires { all_counted self < most_shown }
        ensures { result ≡ with_comparison self comparison.now }
    {
        match comparison {
            Comparison::Same => PairCounts {
                same: self.same + 1,
                ..self
            },
            Comparison::Equal => PairCounts {
                equal: self.equal + 1,
                ..self
            },
            Comparison::Differ(_) => PairCounts {
                differ: self.differ + 1,
                ..self
            },
            Comparison::Unlike(_) => PairCounts {
                differ: self.differ + 1,
                ..self
            },
        }
    }

    /// These, and a record more that stands alone on this side.
    pub(crate) fn with_alone(self, side: FileSide) -> PairCounts
        requires { all_counted self < most_shown }
        ensures { (x : KeyedRecord) → result ≡ with_entry self (Alone side x) }
    {
        match side {
            FileSide::Left => PairCounts {
                left_alone: self.left_alone + 1,
                ..self
            },
            FileSide::Right => PairCounts {
                right_alone: self.right_alone + 1,
                ..self
            },
        }
    }

    /// Whether all records are in pairs that are equal.
    pub fn are_equal(self) -> bool
        ensures { result ≡ are_equal self }
    {
        self.differ == 0 && self.left_alone == 0 && self.right_alone == 0
    }

    /// How many of them are told.
    pub(crate) fn told(self) -> u64
        requires { all_counted self < most_shown }
        ensures { result ≡ told_counted self }
    {
        self.differ + self.left_alone + self.right_alone
    }
}

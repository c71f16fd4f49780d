//! The tests of loops and of conditions, as they are handed out and told.

use cob_move_apply::PlacedEntry;
use cob_report_faults::{Occurrence, Qualifying};
use cob_report_lossless::{ConditionLine, DeedLines, choice_word};
use std::fmt;

/// A test of a loop that was taken: whether the number of its counter is past what its bound gives.
#[derive(Clone, Copy)]
pub struct TakenBound<'a> {
    /// The number of the bound.
    pub bound: usize,
    /// The item that gives it.
    pub item: &'a PlacedEntry,
    /// The counter's number.
    pub number: u32,
    /// What the item gave.
    pub gave: u32,
}

/// A condition that was tested.
#[derive(Clone, Copy)]
pub struct TakenCondition {
    /// The number of the condition.
    pub condition: usize,
    /// Whether it holds.
    pub holds: bool,
}

/// A test that was taken.
#[derive(Clone, Copy)]
pub enum TakenTest<'a> {
    /// Of a loop.
    Until(TakenBound<'a>),
    /// Of a condition.
    Holds(TakenCondition),
}

/// A test, which prints in one line.
#[derive(Clone, Copy)]
pub enum TestText<'a> {
    /// Of a loop: its line, its counter and what it is tested by, and both numbers.
    Until {
        /// The line of the loop.
        line: u32,
        /// The name of its counter.
        counter: &'a str,
        records: Qualifying<'a>,
        one: &'a TakenBound<'a>,
    },
    /// Of a condition: where it stands, and whether it holds.
    Holds {
        at: ConditionLine,
        holds: bool,
    },
}

/// The text of a test, where it is known on which line it stands.
pub(crate) fn test_text<'a>(
    lines: &'a DeedLines,
    records: Qualifying<'a>,
    one: &'a TakenTest<'a>,
) -> Option<TestText<'a>> {
    match one {
        TakenTest::Until(one) => {
            let of = lines.loops.get(one.bound)?;
            Some(TestText::Until {
                line: of.line,
                counter: of.counter.as_str(),
                records,
                one,
            })
        }
        TakenTest::Holds(one) => {
            let at = *lines.conditions.get(one.condition)?;
            Some(TestText::Holds {
                at,
                holds: one.holds,
            })
        }
    }
}

/// What a test of a loop says.
fn verdict(one: &TakenBound<'_>) -> &'static str {
    if one.gave < one.number {
        "past"
    } else {
        "not past"
    }
}

/// What is said of a condition.
fn said(holds: bool) -> &'static str {
    if holds { "holds" } else { "does not hold" }
}

impl fmt::Display for TestText<'_> {
    fn fmt<W: fmt::Write>(&self, f: &mut fmt::Formatter<W>) -> fmt::Result {
        match *self {
            TestText::Until {
                line,
                counter,
                records,
                one,
            } => {
                let item = Occurrence::of(records, one.item.side(), one.item.entry());
                write!(f, "line {line}: UNTIL {counter} > {item}: ")?;
                let verdict = verdict(one);
                writeln!(f, "{} > {}, {verdict}", one.number, one.gave)
            }
            TestText::Holds { at, holds } => {
                let word = choice_word(at.kind);
                let said = said(holds);
                writeln!(f, "line {}: {word}: {said}", at.line)
            }
        }
    }
}

//! Runs that set rejected records aside, on ends that fail: each device before, in and behind its records. What stands in the places behind a run was
//! worked by hand: what records became, those set aside, and what was noted.

ghost use Rattle.std.specs.Prelude.{◌≡◌, ◌<◌, None};
ghost use Rattle.cob_convert.specs.Outcomes.{append_notes};

use crate::runs::{OUTPUT, TEXTS};
use crate::trials::{ALL, InTurn, Trials, are_front, expect_done};
use cob_convert::{AsideFault, Cause, Converter, Notes, RunFault, Side, Tally};
use cob_records::{Form, Limited, MemSink, MemSource, RecordFault};

/// Four input records: the first and the third are rejected, for their numbers; the others are `ABC`, 07 and `DEF`, 99.
const INPUT: &[u8] =
    b"\xC1\xC1\xC1\xF0\x40\xC1\xC2\xC3\xF0\xF7\xC2\xC2\xC2\x40\xF1\xC4\xC5\xC6\xF9\xF9";

/// The two that are rejected.
const ASIDE: &[u8] = b"\xC1\xC1\xC1\xF0\x40\xC2\xC2\xC2\x40\xF1";

/// What the two others become, in one block.
const BOTH: &[u8] =
    b"\x00\x1E\x00\x00\x00\x0D\x00\x00\xF0\xF0\xF0\xF7\xC1\xC2\xC3\x40\x40\x00\x0D\x00\x00\xF0\xF0\xF9\xF9\xC4\xC5\xC6\x40\x40";

/// What the first of them becomes, in a block.
const ONE: &[u8] = b"\x00\x11\x00\x00\x00\x0D\x00\x00\xF0\xF0\xF0\xF7\xC1\xC2\xC3\x40\x40";

/// How a run ends.
#[derive(Clone, Copy)]
enum Ending {
    /// All records came: two were converted, and two rejected.
    Done,
    /// The source fails at a record of this number.
    Unread(u64),
    /// The sink fails at this record, or at a block that begins with it, and took so many bytes of it.
    Unwritten(u64, usize),
    /// This record could not be set aside, and so many bytes of it were taken.
    NotSetAside(u64, usize),
}

/// What a run answers.
type Answer = Result<Tally, AsideFault>;

/// The answer of a run that a device stops at a record.
fn stopped(number: u64, side: Side, fault: RecordFault, written: usize) -> Answer {
    Err(AsideFault::Stopped(RunFault {
        number,
        side,
        offset: 0,
        cause: Cause::Record(fault),
        written: written as u64,
    }))
}

/// The answer of a run that ends so, with so many bytes written.
fn answer_of(ending: Ending, written: usize) -> Answer {
    match ending {
        Ending::Done => Ok(Tally {
            converted: 2,
            rejected: 2,
        }),
        Ending::Unread(number) => stopped(number, Side::In, RecordFault::ReadFailed, written),
        Ending::Unwritten(number, taken) => {
            let fault = RecordFault::WriteFailed { taken };
            stopped(number, Side::Out, fault, written)
        }
        Ending::NotSetAside(number, taken) => Err(AsideFault::NotSetAside {
            number,
            cause: RecordFault::WriteFailed { taken },
            written: written as u64,
        }),
    }
}

/// An end that takes notes, and looks whether they are those that it waits for.
#[derive(Drop)]
struct Heard<'a> {
    /// Those that are still to come.
    awaited: &'a [RunFault],
    /// Whether another came.
    is_other: bool,
}

impl Notes for Heard<'_> {
    ghost told = { λ _. None };

    fn note(&mut self, fault: RunFault) {
        match self.awaited.split_first() {
            Some((next, rest)) if *next == fault => self.awaited = rest,
            _ => self.is_other = true,
        }
    }
}

/// A run: how many bytes the source gives, and the sink and the sink of rejected records take, before they fail; how it ends; how many bytes were
/// written and how many set aside; and how many notes came.
type Row = (u64, u64, u64, Ending, usize, usize, usize);

/// Runs over the four records: what is written and noted where no end fails.
#[derive(Clone, Copy)]
struct Runs {
    output: &'static [u8],
    notes: &'static [RunFault],
    rows: &'static [Row],
}

impl Runs {
    /// Runs over the ends of this row, which move so many bytes a call, and says whether the run answers and leaves what is expected.
    fn passes(&self, converter: &mut Converter, row: Row, piece: usize) -> bool
        requires { 0 < piece }
    {
        let (gives, takes, keeps, ending, written, kept, noted) = row;
        if noted > self.notes.len() {
            return false;
        }
        let mut room = [0u8; 30];
        let mut aside_room = [0u8; 10];
        let mut source = Limited::new(MemSource::new(INPUT), piece, gives);
        let mut sink = Limited::new(MemSink::new(&mut room), piece, takes);
        let mut aside = Limited::new(MemSink::new(&mut aside_room), piece, keeps);
        let mut heard = Heard {
            awaited: &self.notes[..noted],
            is_other: false,
        };
        let came = converter.run_aside(&mut source, &mut sink, &mut aside, &mut heard, 4);
        came == answer_of(ending, written)
            && are_front(sink.inner().taken(), self.output, written)
            && are_front(aside.inner().taken(), ASIDE, kept)
            && heard.awaited.is_empty()
            && !heard.is_other
    }
}

impl Trials for Runs {
    fn first_wrong(&self, converter: &mut Converter) -> Option<usize> {
        for place in 0..self.rows.len() {
            let row = self.rows[place];
            if !(self.passes(converter, row, 1) && self.passes(converter, row, 100)) {
                return Some(place);
            }
        }
        None
    }
}

/// The note of the first record, which is rejected.
const FIRST: RunFault = RunFault {
    number: 1,
    side: Side::In,
    offset: 3,
    cause: Cause::NoValue,
    written: 0,
};

/// The note of the third, behind what the second became.
const THIRD: RunFault = RunFault {
    number: 3,
    side: Side::In,
    offset: 3,
    cause: Cause::NoValue,
    written: 9,
};

/// The note of the third where a block is open, of which nothing is written yet.
const THIRD_IN_BLOCK: RunFault = RunFault {
    number: 3,
    side: Side::In,
    offset: 3,
    cause: Cause::NoValue,
    written: 0,
};

const ENDS_FAIL: [Row; 12] = [
    (0, ALL, ALL, Ending::Unread(1), 0, 0, 0),
    (5, ALL, ALL, Ending::Unread(2), 0, 5, 1),
    (10, ALL, ALL, Ending::Unread(3), 9, 5, 1),
    (17, ALL, ALL, Ending::Unread(4), 9, 10, 2),
    (20, ALL, ALL, Ending::Unread(5), 18, 10, 2),
    (ALL, 0, ALL, Ending::Unwritten(2, 0), 0, 5, 1),
    (ALL, 8, ALL, Ending::Unwritten(2, 8), 8, 5, 1),
    (ALL, 9, ALL, Ending::Unwritten(4, 0), 9, 10, 2),
    (ALL, ALL, 0, Ending::NotSetAside(1, 0), 0, 0, 0),
    (ALL, ALL, 3, Ending::NotSetAside(1, 3), 0, 3, 0),
    (ALL, ALL, 5, Ending::NotSetAside(3, 0), 9, 5, 1),
    (ALL, 18, 10, Ending::Done, 18, 10, 2),
];

/// The end that fails, at any call, is named, and each record before it stands in one of the two outputs.
#[test]
fn ends_fail(rt: HostRuntime) {
    let runs = Runs {
        output: OUTPUT,
        notes: &[FIRST, THIRD],
        rows: &ENDS_FAIL,
    };
    expect_done(&rt, rt.alloc(), &TEXTS, Form::Fixed, Form::Fixed, &runs);
}

const ENDS_FAIL_AT_BLOCKS: [Row; 6] = [
    (10, ALL, ALL, Ending::Unread(3), 17, 5, 1),
    (10, 8, ALL, Ending::Unwritten(2, 8), 8, 5, 1),
    (ALL, ALL, 0, Ending::NotSetAside(1, 0), 0, 0, 0),
    (ALL, ALL, 9, Ending::NotSetAside(3, 4), 17, 9, 1),
    (ALL, 0, 9, Ending::Unwritten(2, 0), 0, 9, 1),
    (ALL, 0, ALL, Ending::Unwritten(2, 0), 0, 10, 2),
];

/// The open block is written before a run answers that another end failed; where that write fails, it is the answer, at the first record in the block.
#[test]
fn ends_fail_at_blocks(rt: HostRuntime) {
    let failing = Runs {
        output: ONE,
        notes: &[FIRST, THIRD_IN_BLOCK],
        rows: &ENDS_FAIL_AT_BLOCKS,
    };
    let done = Runs {
        output: BOTH,
        rows: &[(ALL, 30, 10, Ending::Done, 30, 10, 2)],
        ..failing
    };
    let to = Form::Blocked(30);
    let runs = InTurn(failing, done);
    expect_done(&rt, rt.alloc(), &TEXTS, Form::Fixed, to, &runs);
}

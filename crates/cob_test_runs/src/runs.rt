//! Runs on ends that fail, and one after another. What is expected was made by hand.

use crate::trials::{ALL, Ending, InTurn, ROOM, Row, Runs, Texts, expect_done};
use cob_records::Form;

/// Copybooks and a paragraph of records with a text and a number, which change places.
pub(crate) const TEXTS: Texts = Texts {
    in_book: b"       01  IN-REC.\n           05  X1 PIC X(3).\n           05  N1 PIC 9(2).\n",
    out_book: b"       01  OUT-REC.\n           05  N2 PIC 9(4).\n           05  X2 PIC X(5).\n",
    moves: b"           MOVE X1 TO X2.\n           MOVE N1 TO N2.\n",
};

/// Two input records: `ABC`, 07 and `DEF`, 99.
pub(crate) const INPUT: &[u8] = b"\xC1\xC2\xC3\xF0\xF7\xC4\xC5\xC6\xF9\xF9";

/// What they become.
pub(crate) const OUTPUT: &[u8] =
    b"\xF0\xF0\xF0\xF7\xC1\xC2\xC3\x40\x40\xF0\xF0\xF9\xF9\xC4\xC5\xC6\x40\x40";

const ENDS_FAIL: [Row; 5] = [
    (7, ALL, 18, Ending::Unread(2), 9),
    (10, ALL, 18, Ending::Unread(3), 18),
    (ALL, 12, 18, Ending::Unwritten(2, 3), 12),
    (ALL, ALL, 12, Ending::Full(2, 3), 12),
    (ALL, 18, 18, Ending::Done(2), 18),
];

#[test]
fn ends_fail(rt: HostRuntime) {
    let runs = Runs {
        input: INPUT,
        output: OUTPUT,
        rows: &ENDS_FAIL,
    };
    expect_done(&rt, rt.alloc(), &TEXTS, Form::Fixed, Form::Fixed, &runs);
}

/// An input whose second number is none.
const STOPS: &[u8] = b"\xC1\xC2\xC3\xF0\xF7\xC1\xC2\xC3\xF0\x40";

/// A run begins anew where the one before it stopped at a record.
#[test]
fn starts_anew(rt: HostRuntime) {
    let stopped = Runs {
        input: STOPS,
        output: OUTPUT,
        rows: &[(ALL, ALL, ROOM, Ending::NoValue(2), 9)],
    };
    let anew = Runs {
        input: INPUT,
        output: OUTPUT,
        rows: &[(ALL, ALL, ROOM, Ending::Done(2), 18)],
    };
    let runs = InTurn(stopped, anew);
    expect_done(&rt, rt.alloc(), &TEXTS, Form::Fixed, Form::Fixed, &runs);
}

//! Requests for memory that are refused, as `rt try --test --fail-alloc` has it.

use crate::jobs::is_done_again;
use crate::runs::{INPUT, OUTPUT, TEXTS};
use crate::trials::{ALL, Ending, ROOM, Row, Runs, Texts, expect_done};
use cob_records::Form;

/// Copybooks with a table that varies, one whole record to the other.
const VARYING: Texts = Texts {
    in_book: b"       01  I.\n           05  N PIC 9.\n           05  T PIC X(2) OCCURS 0 TO 3 DEPENDING ON N.\n",
    out_book: b"       01  O.\n           05  P PIC 9.\n           05  U PIC X(2) OCCURS 0 TO 3 DEPENDING ON P.\n",
    moves: b"           MOVE I TO O.\n",
};

/// Records of form v with one element and with none.
const RECORDS: &[u8] = b"\x00\x07\x00\x00\xF1\xC1\xC2\x00\x05\x00\x00\xF0";

/// The same run twice.
const TWICE: [Row; 2] = [
    (ALL, ALL, ROOM, Ending::Done(2), 12),
    (ALL, ALL, ROOM, Ending::Done(2), 12),
];

/// A run over records with a table that varies makes no request for memory: none is there to be refused behind `prepare`.
#[test]
fn varying_records_take_no_memory(rt: HostRuntime) {
    let form = Form::Variable;
    let runs = Runs {
        input: RECORDS,
        output: RECORDS,
        rows: &TWICE,
    };
    expect_done(&rt, rt.alloc(), &VARYING, form, form, &runs);
}

/// Where one request for memory is refused, a job prints `memory`, and the same job is done when it is tried again;
/// a run that follows `prepare` makes no request.
#[test]
fn memory_is_refused(rt: HostRuntime) {
    assert!(rt; is_done_again(rt.alloc()), "one request is refused");
    let runs = Runs {
        input: INPUT,
        output: OUTPUT,
        rows: &[(ALL, ALL, ROOM, Ending::Done(2), 18)],
    };
    expect_done(&rt, rt.alloc(), &TEXTS, Form::Fixed, Form::Fixed, &runs);
}

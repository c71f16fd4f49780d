//! Jobs on ends that fail, and the longest one.

ghost use Rattle.std.specs.Prelude.{◌<◌};

use crate::trials::{ALL, are_same, expect_none_wrong, padded};
use cob_program_job::job;
use cob_records::{Limited, MemSink, MemSource};
use std::alloc::{AllocError, Global};
use std::test::Fail;

/// A job of one record.
const JOB: &[u8] =
    b"=IN f\n       01  IN-REC.\n           05  X1 PIC X(3).\n           05  N1 PIC 9(2).\n=OUT f\n       01  OUT-REC.\n           05  N2 PIC 9(4).\n           05  X2 PIC X(5).\n=MOVE\n           MOVE X1 TO X2.\n           MOVE N1 TO N2.\n=DATA\nC1C2C3F0F7\n";

/// What it prints.
const PRINTED: &[u8] = b"F0F0F0F7C1C2C34040\ndone 1\n";

/// How a job is done: how many bytes its source gives and its printing takes before they fail, its status, and what is printed.
type Row = (u64, u64, u8, &'static [u8]);

/// The job on ends that never fail.
const SOUND: Row = (u64::MAX, u64::MAX, 0, PRINTED);

/// Whether a job over these ends, which move so many bytes a call, answers and prints what is expected; None where it says that memory lacks.
fn comes_to(alloc: Global, text: &[u8], row: Row, piece: usize) -> Option<bool>
    requires { 0 < piece }
{
    let (gives, takes, status, printed) = row;
    let mut room = [0u8; 40];
    let mut source = Limited::new(MemSource::new(text), piece, gives);
    let mut sink = Limited::new(MemSink::new(&mut room), piece, takes);
    let came = job(alloc, &mut source, &mut sink);
    if came == 5 && are_same(sink.inner().taken(), b"memory\n") {
        return None;
    }
    Some(came == status && are_same(sink.inner().taken(), printed))
}

/// Whether a job answers and prints what is expected.
fn passes(alloc: Global, text: &[u8], row: Row, piece: usize) -> bool
    requires { 0 < piece }
{
    comes_to(alloc, text, row, piece).unwrap_or(false)
}

const ENDS_FAIL: [Row; 5] = [
    (ALL, ALL, 0, PRINTED),
    (40, ALL, 4, b"cannot read job\n"),
    (ALL, 0, 4, b""),
    (ALL, 10, 4, b"F0F0F0F7C1"),
    (ALL, 20, 4, b"F0F0F0F7C1C2C34040\nd"),
];

/// The first of these rows that the job does not come to.
fn first_wrong(alloc: Global, rows: &[Row]) -> Option<usize> {
    for place in 0..rows.len() {
        let row = rows[place];
        if !(passes(alloc, JOB, row, 1)
            && passes(alloc, JOB, row, 7)
            && passes(alloc, JOB, row, 100))
        {
            return Some(place);
        }
    }
    None
}

#[test]
fn jobs_on_failing_ends(rt: HostRuntime) {
    expect_none_wrong(&rt, first_wrong(rt.alloc(), &ENDS_FAIL));
}

/// Whether the job with spaces behind it, so many bytes in all, answers and prints what is expected.
fn passes_at(alloc: Global, bytes: usize, row: Row) -> Result<bool, AllocError> {
    let text = padded(alloc, JOB, bytes, b' ')?;
    Ok(passes(alloc, text.as_slice(), row, 100))
}

#[test]
fn longest_job(rt: HostRuntime) -> Result<(), Fail> {
    assert!(rt; passes_at(rt.alloc(), 4_000_000, SOUND)?);
    let longer = (u64::MAX, u64::MAX, 2, b"job line 0\n".as_slice());
    assert!(rt; passes_at(rt.alloc(), 4_000_001, longer)?);
    Ok(())
}

/// Whether the job is done each time, but for one where memory is refused.
pub(crate) fn is_done_again(alloc: Global) -> bool {
    let mut refused = false;
    for _ in 0..3 {
        match comes_to(alloc, JOB, SOUND, 100) {
            Some(true) => {}
            None if !refused => refused = true,
            _ => return false,
        }
    }
    true
}

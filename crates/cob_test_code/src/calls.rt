//! Reading and writing one record, and looking whether the answer is the one that is wanted. These ask for nothing that a caller has to show, since
//! they look for it where they run, and tell nothing of the call, since a test is safe whatever came: so a test is proved soonest.

use cob_limits::MAX_RECORD;
use cob_records::{Form, RecordFault, Sink, Source, next_record, put_record};
use std::process::Abort;

/// What reading a record answers.
pub(crate) type ReadAnswer = Result<Option<usize>, RecordFault>;

/// Reads the next record into a slice of the greatest length, and looks whether this is the answer.
pub(crate) fn expect_read<S: Source>(
    rt: &impl Abort,
    source: &mut S,
    form: Form,
    slot: &mut [u8],
    wanted: ReadAnswer,
) {
    assert!(rt; !slot.is_empty() && slot.len() <= MAX_RECORD as usize);
    assert!(rt; !matches!(form, Form::Blocked(_)));
    assert_eq!(rt; next_record(source, form, slot.len() as u16, slot), wanted);
}

/// Writes a record's frame, and looks whether this is the answer.
pub(crate) fn expect_put<S: Sink>(
    rt: &impl Abort,
    sink: &mut S,
    form: Form,
    body: &[u8],
    wanted: Result<(), RecordFault>,
) {
    assert!(rt; !body.is_empty() && body.len() <= MAX_RECORD as usize);
    assert!(rt; !matches!(form, Form::Blocked(_)));
    assert_eq!(rt; put_record(sink, form, body), wanted);
}

/// Looks whether these bytes are those that are wanted.
pub(crate) fn expect_bytes(rt: &impl Abort, bytes: &[u8], wanted: &[u8]) {
    assert_eq!(rt; bytes, wanted);
}

/// Looks whether this number is the one that is wanted.
pub(crate) fn expect_number(rt: &impl Abort, number: usize, wanted: usize) {
    assert_eq!(rt; number, wanted);
}

/// Looks whether a call was done.
pub(crate) fn expect_done(rt: &impl Abort, answer: Result<(), RecordFault>) {
    assert_eq!(rt; answer, Ok(()));
}

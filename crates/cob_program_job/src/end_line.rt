ghost use Rattle.std.specs.Prelude.{◌≡◌, ◌≤◌, ◌++◌, length, decimal, is_err};
ghost use Rattle.cob_records.specs.Device.{counted};
ghost use Rattle.cob_program_job.specs.JobAnswers.{PutsEnd};
ghost use Rattle.cob_program_job.specs.Jobs.{TellsAnswer, TellsFault, begun_end, end_text};
ghost use Rattle.cob_program_job.specs.Printed.{due_text};
ghost use Rattle.arrayvec.specs.ArrayVec.{array_vec_len};

use crate::fault::JobFault;
use arrayvec::{ArrayString, ArrayVec};
use cob_records::{Form, RecordFault, Sink, put_record};
use itoa::Buffer;
use std::fmt::Write;

/// The most bytes of the words of a line.
const WORDS: usize = 120;

/// The most bytes of what ends a job: a digit, two ends of lines, and the words.
const LINE: usize = 128;

/// Words, and a number behind them.
fn numbered(words: &str, number: u64) -> ArrayString<WORDS>
    requires { length words.now ≤ 40 }
    ensures { result.bytes ≡ words.now ++ decimal number }
{
    let mut buffer = Buffer::new();
    let mut text = ArrayString::new();
    text.push_str(words);
    text.push_str(buffer.format(number));
    text
}

/// Words alone.
fn plain(words: &str) -> ArrayString<WORDS>
    requires { length words.now ≤ 40 }
    ensures { result.bytes ≡ words.now }
{
    let mut text = ArrayString::new();
    text.push_str(words);
    text
}

/// What a fault prints, as far as a line has room for it.
fn shown(fault: JobFault) -> ArrayString<WORDS> {
    let mut text = ArrayString::new();
    let _ = write!(text, "{fault}");
    text
}

/// The words that tell why a job is not done.
fn fault_words(fault: JobFault) -> ArrayString<WORDS>
    ensures { TellsFault fault result.bytes }
{
    match fault {
        JobFault::CannotRead => plain("cannot read job"),
        JobFault::Malformed { line } => numbered("job line ", u64::from(line)),
        JobFault::Memory => plain("memory"),
        JobFault::Refused(_) | JobFault::Stopped(_) => shown(fault),
    }
}

/// The words of the line that ends a job.
fn answer_words(answer: &Result<u64, JobFault>) -> ArrayString<WORDS>
    ensures { TellsAnswer answer.now result.bytes }
{
    match answer {
        Ok(done) => numbered("done ", *done),
        Err(fault) => fault_words(*fault),
    }
}

/// What stands before the words: the digit that is due, and the end of the line of digits where it was begun.
fn line_before(due: Option<u8>, begun: bool) -> ArrayVec<u8, LINE>
    ensures text { result.items ≡ due_text due ++ begun_end begun }
    ensures short { array_vec_len result ≤ 2 }
{
    let mut line = ArrayVec::new();
    if let Some(digit) = due {
        line.push(digit);
    }
    if begun {
        line.push(b'\n');
    }
    line
}

/// What ends a job: the digit that is due, the end of the line of digits where it was begun, and the line of these words.
fn end_line(due: Option<u8>, begun: bool, words: &[u8]) -> ArrayVec<u8, LINE>
    requires { length words.now ≤ 120 }
    ensures { result.items ≡ end_text due begun words.now }
{
    let mut line = line_before(due, begun);
    let _ = line.try_extend_from_slice(words);
    line.push(b'\n');
    line
}

/// Writes what ends a job with this answer, and says whether all of it was put.
pub fn put_end<W: Sink>(
    sink: &mut W,
    answer: &Result<u64, JobFault>,
    due: Option<u8>,
    begun: bool,
) -> Result<(), RecordFault>
    ensures taken { PutsEnd answer.now due begun result (W.taken sink.old) (W.taken sink.new) }
    ensures cause { W.failures sink.new ≡ counted (is_err result) (W.failures sink.old) }
{
    let words = answer_words(answer);
    let line = end_line(due, begun, words.as_bytes());
    put_record(sink, Form::Fixed, line.as_slice())
}

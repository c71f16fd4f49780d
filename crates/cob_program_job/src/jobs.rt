ghost use Rattle.std.specs.Prelude.{◌≡◌, IfOk, IfErr, true, false};
ghost use Rattle.cob_limits.specs.Limits.{longest_job};
ghost use Rattle.cob_records.specs.Device.{Took, counted};
ghost use Rattle.cob_records.specs.Forms.{HasBlockSize};
ghost use Rattle.cob_program_faults.specs.WholeTexts.{IsReadOf, IsWhole};
ghost use Rattle.cob_convert.specs.Run.{is_read_stop, is_write_stop};
ghost use Rattle.cob_program_job.specs.Jobs.{is_output_stop, is_unread, run_answer, status_of_answer};
ghost use Rattle.cob_convert.specs.Statuses.{code_of};
ghost use Rattle.cob_program_job.specs.JobAnswers.{ComesTo, EndsWith, HasEnded, IsDone, IsOutcome, IsUnreadFault, PrintsAnswer, PrintsOutput, RunsOver, job_ends, sink_state};
ghost use Rattle.cob_program_job.specs.Parts.{parts_of};
ghost use Rattle.cob_program_job.specs.Printed.{owes_begun, with_due};

use crate::end_line::put_end;
use crate::fault::JobFault;
use crate::hex::{HexSink, Opening};
use crate::job_data::decode;
use crate::job_text::JobText;
use cob_convert::{Converter, Status};
use cob_convert_stream::RunFault;
use cob_limits::MAX_JOB_BYTES;
use cob_program_faults::read_whole;
use cob_records::{MemSource, RecordFault, Sink, Source};
use std::alloc::Global;
use std::marker::Brand;

/// Reads a job whole, or past its greatest length.
fn read_job<R: Source>(alloc: Global, source: &mut R) -> Result<Vec<u8>, JobFault>
    ensures bytes { IfOk result
        (λ text. IsReadOf (R.coming source.old) (R.coming source.new) text.items) }
    ensures whole { IfOk result (λ text. IsWhole longest_job (R.coming source.new) text.items) }
    ensures kind { IfErr result (λ fault. IsUnreadFault fault) }
    ensures cause { R.failures source.new ≡ counted (is_unread result) (R.failures source.old) }
{
    Ok(read_whole(alloc, source, MAX_JOB_BYTES)?)
}

/// Runs a converter over the bytes of the data.
fn run_over_data<W: Sink>(
    converter: &mut Converter,
    bytes: &[u8],
    sink: &mut W,
) -> Result<u64, RunFault>
    ensures ran { RunsOver converter.old bytes.now result (W.taken sink.old) (W.taken sink.new) }
    ensures read { is_read_stop result ≡ false }
    ensures cause { W.failures sink.new ≡ counted (is_write_stop result) (W.failures sink.old) }
{
    converter.run(&mut MemSource::new(bytes), sink)
}

/// What the answer of a run is for the job.
fn answer_of(answer: Result<u64, RunFault>) -> Result<u64, JobFault>
    ensures { result ≡ run_answer answer }
{
    match answer {
        Ok(done) => Ok(done),
        Err(stopped) => Err(JobFault::Stopped(stopped)),
    }
}

/// Converts the data of a job, and answers how many records there were.
fn convert_parts<W: Sink>(alloc: Global, job: &JobText<'_>, sink: &mut W) -> Result<u64, JobFault>
    requires in_block { HasBlockSize job.now.in_form }
    requires out_block { HasBlockSize job.now.out_form }
    ensures outcome { Took (W.taken sink.old) (W.taken sink.new)
        (ComesTo (parts_of job.now) job.now.data_line result) }
    ensures kind { is_unread result ≡ false }
    ensures cause { W.failures sink.new ≡ counted (is_output_stop result) (W.failures sink.old) }
{
    let data = decode(alloc, job.digits, job.data_line)?;
    let mut converter = Converter::prepare(
        alloc,
        job.in_book,
        job.out_book,
        job.moves,
        job.in_form,
        job.out_form,
    )?;
    answer_of(run_over_data(&mut converter, &data, sink))
}

/// Does the job that a text says, and answers how many records there were. Its output goes to the sink as it is.
fn convert<W: Sink>(alloc: Global, text: &[u8], sink: &mut W) -> Result<u64, JobFault>
    ensures outcome { Took (W.taken sink.old) (W.taken sink.new) (IsOutcome text.now result) }
    ensures kind { is_unread result ≡ false }
    ensures cause { W.failures sink.new ≡ counted (is_output_stop result) (W.failures sink.old) }
{
    if text.len() > MAX_JOB_BYTES {
        return Err(JobFault::Malformed { line: 0 });
    }
    match JobText::read(text) {
        Ok(job) => convert_parts(alloc, &job, sink),
        Err(line) => Err(JobFault::Malformed { line }),
    }
}

/// What came of a job, whose output is printed but for a digit that is due.
struct Printing<W> {
    answer: Result<u64, JobFault>,
    sink: W,
    due: Option<u8>,
    begun: bool,
}

/// Does the job that a text says, and prints its output as digits.
fn print_output<W: Sink, K: Opening>(alloc: Global, text: &[u8], sink: W) -> Printing<W>
    requires { W.taken sink ≡ K.before }
    ensures printed { PrintsOutput text.now result.answer result.begun
        (W.taken sink) (with_due (W.taken result.sink) result.due) }
    ensures owed { owes_begun result.due result.begun ≡ true }
    ensures kind { is_unread result.answer ≡ false }
    ensures cause { W.failures result.sink
        ≡ counted (is_output_stop result.answer) (W.failures sink) }
{
    let mut digits: HexSink<W, K> = HexSink::new(sink);
    let answer = convert(alloc, text, &mut digits);
    let (sink, due, begun) = digits.into_parts();
    Printing {
        answer,
        sink,
        due,
        begun,
    }
}

/// The status of a job by its answer, where all that it prints is printed.
fn answer_status(answer: &Result<u64, JobFault>) -> Status
    ensures { result ≡ status_of_answer answer.now }
{
    match answer {
        Ok(_) => Status::Done,
        Err(fault) => fault.status(),
    }
}

/// Whether the answer is that the output failed.
fn is_failed_output(answer: &Result<u64, JobFault>) -> bool
    ensures { result ≡ is_output_stop answer.now }
{
    match answer {
        Ok(_) => false,
        Err(fault) => fault.is_of_output(),
    }
}

/// Prints the line that ends a job, unless its output failed, and answers its status.
fn end_job<W: Sink>(
    answer: &Result<u64, JobFault>,
    sink: &mut W,
    due: Option<u8>,
    begun: bool,
) -> Status
    ensures { HasEnded answer.now due begun (sink_state (W.taken sink.old) (W.failures sink.old))
        (sink_state (W.taken sink.new) (W.failures sink.new)) result }
{
    if is_failed_output(answer) {
        return Status::Device;
    }
    match put_end(sink, answer, due, begun) {
        Ok(()) => answer_status(answer),
        Err(_) => Status::Device,
    }
}

/// Reads a job, does it, and prints its output as digits.
fn print_answer<R: Source, W: Sink>(alloc: Global, source: &mut R, sink: W) -> Printing<W>
    ensures { PrintsAnswer
        (job_ends (R.coming source.old) (R.failures source.old) (W.taken sink) (W.failures sink))
        (job_ends (R.coming source.new) (R.failures source.new)
        (W.taken result.sink) (W.failures result.sink))
        result.answer result.due result.begun }
{
    match read_job(alloc, source) {
        Ok(text) => print_output::<W, Brand>(alloc, &text, sink),
        Err(fault) => Printing {
            answer: Err(fault),
            sink,
            due: None,
            begun: false,
        },
    }
}

/// Does a job: reads its text from the source, and writes to the sink the output's bytes as one line of capital
/// hexadecimal digits, where there are some, and then `done` with the number of records, or what went wrong.
/// The answer is the program's status, and the sink.
pub fn job_into<R: Source, W: Sink>(alloc: Global, source: &mut R, sink: W) -> (u8, W)
    ensures { IsDone
        (job_ends (R.coming source.old) (R.failures source.old) (W.taken sink) (W.failures sink))
        (job_ends (R.coming source.new) (R.failures source.new)
        (W.taken result.1) (W.failures result.1))
        result.0 }
{
    let printing = print_answer(alloc, source, sink);
    let Printing {
        answer,
        mut sink,
        due,
        begun,
    } = printing;
    let status = end_job(&answer, &mut sink, due, begun);
    (status.code(), sink)
}

/// Does a job with a sink that is lent, as [`job_into`] does with one that it hands back. The answer is the program's status.
pub fn job<R: Source, W: Sink>(alloc: Global, source: &mut R, sink: &mut W) -> u8
    ensures { EndsWith
        (job_ends (R.coming source.old) (R.failures source.old)
        (W.taken sink.old) (W.failures sink.old))
        (R.coming source.new) (R.failures source.new) result }
{
    let (code, _) = job_into(alloc, source, sink);
    code
}

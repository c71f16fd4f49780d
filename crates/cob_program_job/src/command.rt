ghost use Rattle.std.specs.Prelude.{◌≡◌, [], OnOk};
ghost use Rattle.std.specs.Io.Buffered.{writer_buffer};
ghost use Rattle.cob_records.specs.Streams.{sink_failures, sink_writer};
ghost use Rattle.cob_convert.specs.Statuses.{code_of, printed_status};
ghost use Rattle.cob_convert.specs.declared.status.Status.{Status};
ghost use Rattle.cob_convert.specs.declared.status.Status.TheVariants.{Memory};
ghost use Rattle.cob_program_faults.specs.Ends.{EndsAs};
ghost use Rattle.cob_program_job.specs.CommandEnds.{EndsUntold, IsEndOfJob};

use crate::jobs::job;
use cob_convert::Status;
use cob_program_faults::{asks_a_person, printed};
use cob_records::{DeviceFault, Source, WriteSink, create_sink, open_source};
use std::alloc::Global;
use std::io::{BufWriter, Eprint, Input, Print, Write};
use std::rt::Files;

/// What a job came to by its number, and whether the last of what it printed was handed to the device.
#[derive(Clone, Copy)]
struct JobEnding {
    code: u8,
    flushed: Result<(), DeviceFault>,
}

impl JobEnding {
    /// The number of the status with which the job ends: a device failed where what it prints was not handed over.
    fn code(self) -> u8
        ensures { (end : Status) → self.code ≡ code_of end
            → result ≡ code_of (printed_status self.flushed end) }
    {
        match self.flushed {
            Ok(()) => self.code,
            Err(DeviceFault) => Status::Device.code(),
        }
    }
}

/// Does the job that a source holds, and hands all that it prints to the device, whatever it came to.
fn job_to_end<S: Source, W: Write + Drop>(
    alloc: Global,
    source: &mut S,
    sink: &mut WriteSink<BufWriter<W>>,
) -> JobEnding
    ensures job { EndsUntold
        (S.coming source.old) (S.failures source.old) (sink_failures sink.old)
        (S.coming source.new) (S.failures source.new) result.code }
    ensures flushed { OnOk result.flushed (writer_buffer (sink_writer sink.new) ≡ []) }
{
    let code = job(alloc, source, sink);
    let flushed = sink.flush();
    JobEnding { code, flushed }
}

/// Prints that no memory is left, where a job's output is, and answers the program's status.
fn without_memory<R: Print>(rt: &R) -> Status
    ensures { EndsAs Memory result }
{
    printed(println!(rt; "memory"), Status::Memory)
}

/// Tells a person at a terminal that a job is waited for. That it can't be told is no failure.
fn ask_for_job<R: Files + Eprint>(rt: &R) {
    if asks_a_person(rt) {
        let _ = eprintln!(rt;
            "cobconv: cobconv help shows the commands; without one a job is read from standard input"
        );
    }
}

/// Does the job that stands on standard input; its faults are printed where its output is.
pub fn do_job<R: AllocGlobal + Files + Input + Print + Eprint>(rt: &R) -> u8
    ensures { IsEndOfJob result }
{
    ask_for_job(rt);
    let Ok(mut source) = open_source(rt, "-") else {
        return without_memory(rt).code();
    };
    let Ok(mut sink) = create_sink(rt, "-") else {
        return without_memory(rt).code();
    };
    job_to_end(rt.alloc(), &mut source, &mut sink).code()
}

//! What a run of a converter does with the records that come: it stops at the first that does not convert, or sets it aside and goes on.

ghost use Rattle.std.specs.Prelude.{◌≡◌, ◌<◌, ◌≤◌, ℕ, List, Option, Result};
ghost use Rattle.cob_limits.specs.Limits.{longest_record};
ghost use Rattle.cob_records.specs.Device.{Told};
ghost use Rattle.cob_records_parts.specs.declared.choice.Stopped.{Stopped as Stop};

use cob_convert::{AsideFault, Converter, Notes, RunFault, Tally};
use cob_program_ends::with_cause;
use cob_records::{Sink, Source};
use cob_records_parts::Stopped;

/// A run of a converter, but for the source of its records: what takes what these become, and what is done with one that does not convert.
pub(crate) trait CommandRun {
    /// What it comes to at the end of the records.
    type Done;
    /// Why it stops.
    type Fault;

    // Before it and behind it the run stands so, and it answers this over these bytes, up to the rest.
    ghost means: { Self → Self → Result Self.Done Self.Fault → List ℕ → List ℕ → Type 0 };

    // What it counts of calls that failed.
    ghost counts: { Self → Self → Result Self.Done Self.Fault → Type 0 };

    // Its fault, where the source of chosen records stopped so, or did not.
    ghost cause: { Option Stop → Self.Fault → Self.Fault };

    /// How many bytes a record that comes has at most.
    fn in_length(&self) -> u16
        ensures some { 0 < result }
        ensures most { result ≤ longest_record };

    /// Runs over the records of a source.
    ///
    /// # Errors
    ///
    /// Why it stops.
    fn run<S: Source>(&mut self, source: &mut S) -> Result<Self::Done, Self::Fault>
        ensures ran { Told (S.coming source.old) (S.coming source.new)
            (λ bytes rest. means self.old self.new result bytes rest) }
        ensures counts { counts self.old self.new result };

    /// The fault of a run over chosen records: where one of these can't be read, that is why it stops.
    fn with_cause(stopped: Option<Stopped>, fault: Self::Fault) -> Self::Fault
        ensures { result ≡ cause stopped fault };
}

/// A run that stops at the first record that does not convert.
#[derive(Drop)]
pub(crate) struct Stopping<'a, K> {
    pub converter: &'a mut Converter,
    pub sink: &'a mut K,
}

impl<K: Sink> CommandRun for Stopping<'_, K> {
    ghost use Rattle.std.specs.Prelude.{◌≡◌};
    ghost use Rattle.cob_records.specs.Device.{counted};
    ghost use Rattle.cob_convert.specs.Run.{Ran, is_write_stop};
    ghost use Rattle.cob_program_ends.specs.Stops.{cause_told};

    type Done = u64;

    type Fault = RunFault;

    ghost means = { λ before now answer bytes rest. Ran before.converter.now answer bytes rest
        (K.taken before.sink.now) (K.taken now.sink.now) };

    ghost counts = { λ before now answer.
        K.failures now.sink.now ≡ counted (is_write_stop answer) (K.failures before.sink.now) };

    ghost cause = { cause_told };

    fn in_length(&self) -> u16 {
        self.converter.in_length()
    }

    fn run<S: Source>(&mut self, source: &mut S) -> Result<u64, RunFault> {
        self.converter.run(source, self.sink)
    }

    fn with_cause(stopped: Option<Stopped>, fault: RunFault) -> RunFault {
        with_cause(stopped, fault)
    }
}

/// A run that sets aside the records that do not convert, at most so many, and has it noted why.
#[derive(Drop)]
pub(crate) struct SettingAside<'a, K, A, N> {
    pub converter: &'a mut Converter,
    pub sink: K,
    pub aside: A,
    pub notes: N,
    pub most: u64,
}

impl<K: Sink, A: Sink, N: Notes> CommandRun for SettingAside<'_, K, A, N> {
    ghost use Rattle.std.specs.Prelude.{◌≡◌};
    ghost use Rattle.cob_records.specs.Device.{counted};
    ghost use Rattle.cob_convert.specs.Aside.{CountsUnlessSink, RanAside, is_aside_fault, is_sink_fault};
    ghost use Rattle.cob_program_run.specs.Ran.{aside_cause, outputs_of};

    type Done = Tally;

    type Fault = AsideFault;

    ghost means = { λ before now answer bytes rest.
        RanAside before.converter.now before.most answer bytes rest
        (outputs_of K.taken A.taken N.told before.sink before.aside before.notes)
        (outputs_of K.taken A.taken N.told now.sink now.aside now.notes) };

    ghost counts = { λ before now answer.
        (K.failures now.sink ≡ counted (is_sink_fault answer) (K.failures before.sink))
        × CountsUnlessSink before.converter.now.out_form answer (is_aside_fault answer)
        (A.failures before.aside) (A.failures now.aside) };

    ghost cause = { aside_cause };

    fn in_length(&self) -> u16 {
        self.converter.in_length()
    }

    fn run<S: Source>(&mut self, source: &mut S) -> Result<Tally, AsideFault> {
        self.converter.run_aside(
            source,
            &mut self.sink,
            &mut self.aside,
            &mut self.notes,
            self.most,
        )
    }

    fn with_cause(stopped: Option<Stopped>, fault: AsideFault) -> AsideFault
        ensures { result ≡ aside_cause stopped fault }
    {
        match fault {
            AsideFault::Stopped(fault) => AsideFault::Stopped(with_cause(stopped, fault)),
            other => other,
        }
    }
}

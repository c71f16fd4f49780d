//! A run over the records that come of a source: over all, or over those that are chosen.

ghost use Rattle.cob_records.specs.Device.{Told};
ghost use Rattle.cob_records.specs.Forms.{HasBlockSize};
ghost use Rattle.cob_records_parts.specs.Rests.{rest_inside};
ghost use Rattle.cob_program_run.specs.Ran.{AnswersOver, AnswersOverApart, AnswersOverChosen};

use crate::run::CommandRun;
use cob_records::{Form, Progress, Source, Telling};
use cob_records_parts::{Chosen, Incoming};
use std::io::Eprint;
use std::rt::Clock;

/// The answer of a run over a source, and the source behind it. It tells on standard error how far it is where that is asked for.
fn run_over_source<T: Eprint + Clock, S: Source + Drop, R: CommandRun>(
    rt: &T,
    form: Form,
    telling: Option<Telling>,
    mut source: S,
    run: &mut R,
) -> (Result<R::Done, R::Fault>, S)
    requires { HasBlockSize form }
    ensures ran { Told (S.coming source) (S.coming result.1) (R.means run.old run.new result.0) }
    ensures counts { R.counts run.old run.new result.0 }
{
    match telling {
        None => {
            let answer = run.run(&mut source);
            (answer, source)
        }
        Some(telling) => {
            let length = run.in_length();
            let mut told = Progress::new(source, rt, form, length, telling);
            let answer = run.run(&mut told);
            told.finish();
            (answer, told.into_inner())
        }
    }
}

/// The answer of a run over chosen records that are given apart. Where one of these can't be read, that is why it stops.
fn run_over_apart<T: Eprint + Clock, S: Source + Drop, R: CommandRun>(
    rt: &T,
    form: Form,
    telling: Option<Telling>,
    chosen: Chosen<S>,
    run: &mut R,
) -> Result<R::Done, R::Fault>
    requires { HasBlockSize form }
    ensures ran { AnswersOverApart S.coming R.cause (R.means run.old run.new) result chosen }
{
    let (answer, chosen) = run_over_source(rt, form, telling, chosen, run);
    match answer {
        Ok(done) => Ok(done),
        Err(fault) => Err(R::with_cause(chosen.stopped(), fault)),
    }
}

/// The answer of a run over chosen records: over what is left of their source, or its first bytes, where they are just that.
fn run_over_chosen<T: Eprint + Clock, S: Source + Drop, R: CommandRun>(
    rt: &T,
    form: Form,
    telling: Option<Telling>,
    chosen: Chosen<S>,
    run: &mut R,
) -> Result<R::Done, R::Fault>
    requires { HasBlockSize form }
    ensures ran { AnswersOverChosen S.coming R.cause (R.means run.old run.new) result
        (rest_inside chosen) }
{
    match chosen.into_rest() {
        Ok(rest) => run_over_source(rt, form, telling, rest, run).0,
        Err(chosen) => run_over_apart(rt, form, telling, chosen, run),
    }
}

/// The answer of a run over all records that come, or over those that are chosen.
pub(crate) fn run_over_incoming<T: Eprint + Clock, S: Source + Drop, R: CommandRun>(
    rt: &T,
    form: Form,
    telling: Option<Telling>,
    incoming: Incoming<S>,
    run: &mut R,
) -> Result<R::Done, R::Fault>
    requires { HasBlockSize form }
    ensures ran { AnswersOver S.coming R.cause (R.means run.old run.new) result incoming }
{
    match incoming {
        Incoming::All(source) => run_over_source(rt, form, telling, source, run).0,
        Incoming::Some(chosen) => run_over_chosen(rt, form, telling, chosen, run),
    }
}

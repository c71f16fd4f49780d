//! The records that come of a source: all, or chosen ones.

ghost use Rattle.std.specs.Prelude.{◌≡◌, ◌<◌, ◌≤◌, Ok, false, true, IfErr, IfOk};
ghost use Rattle.cob_limits.specs.Limits.{longest_record};
ghost use Rattle.cob_records.specs.Forms.{HasBlockSize};
ghost use Rattle.cob_records.specs.Frame.{is_write_fault};
ghost use Rattle.cob_records_parts.specs.Choices.{chooses_all};
ghost use Rattle.cob_records_parts.specs.Gives.{IfStopped, StopsPassing};
ghost use Rattle.cob_records_parts.specs.Incomings.{GivesChosen};
ghost use Rattle.cob_records_parts.specs.declared.incoming.Incoming.TheVariants as incoming;

use crate::choice::{Choice, ChoiceFault};
use crate::chosen::Chosen;
use cob_records::{Form, Source};
use std::alloc::Global;

/// What the records of a command come from.
#[derive(Drop)]
pub enum Incoming<R> {
    /// A source that gives all that it has.
    All(R),
    /// One that gives the records that are chosen.
    Some(Chosen<R>),
}

/// The records of a source that are chosen: of all of them the source itself, so that nothing is between, and else a source round it. They stand in this
/// form and have at most this length: 1 to 32,752.
///
/// # Errors
///
/// Those of [`Chosen::new`].
pub fn choose<R: Source + Drop>(
    alloc: Global,
    source: R,
    form: Form,
    greatest: u16,
    choice: Choice,
) -> Result<Incoming<R>, ChoiceFault>
    requires block { HasBlockSize form }
    requires low { 0 < greatest }
    requires high { greatest ≤ longest_record }
    ensures all { chooses_all choice ≡ true → result ≡ Ok (incoming.All source) }
    ensures some { chooses_all choice ≡ false
        → IfOk result (GivesChosen R.coming form greatest choice (R.coming source)) }
    ensures stops { IfErr result (StopsPassing form greatest choice.skip (R.coming source)) }
    ensures kind { IfErr result (λ fault.
        IfStopped fault (λ stop. is_write_fault stop.fault ≡ false)) }
{
    if choice.is_all() {
        return Ok(Incoming::All(source));
    }
    match Chosen::new(alloc, source, form, greatest, choice) {
        Ok(chosen) => Ok(Incoming::Some(chosen)),
        Err(fault) => Err(fault),
    }
}

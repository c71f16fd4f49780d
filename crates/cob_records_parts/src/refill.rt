//! The next record that is chosen.

ghost use Rattle.std.specs.Prelude.{◌≡◌, ◌⊎◌, ◌+◌, ◌<◌, ◌≤◌, [], false, length, IfErr, IfOk, IsFalse, IsTrue, OnOk};
ghost use Rattle.cob_records.specs.Device.{counted};
ghost use Rattle.cob_records.specs.Frame.{is_write_fault};
ghost use Rattle.cob_records_parts.specs.Choices.{stops_by_read};
ghost use Rattle.cob_records_parts.specs.Numbering.{OnlyPassed};
ghost use Rattle.cob_records_parts.specs.StillGiven.{GivesPart, GivesMark, GivesNone};
ghost use Rattle.cob_records_parts.specs.Helds.{IsGivenAway, held_bytes};
ghost use Rattle.cob_records_parts.specs.Walks.{EndsAt, IsSameChoice, IsThrough, PassesOver, ReachesFirst, StopsWalkAt, TakesChosen};

use crate::choice::Stopped;
use crate::held::Held;
use crate::step::next_body;
use crate::walk::Walk;
use cob_records::Source;

/// Passes over the records that stand before the chosen ones, and says whether there are so many.
///
/// # Errors
///
/// A frame that can't be read.
pub(crate) fn pass_over<R: Source>(
    source: &mut R,
    walk: &mut Walk,
    body: &mut [u8],
) -> Result<bool, Stopped>
    requires room { length body.old ≡ walk.old.greatest }
    ensures room { length body.new ≡ length body.old }
    ensures same { IsSameChoice walk.old walk.new }
    ensures passes { IfOk result (λ _.
        PassesOver walk.old walk.new (R.coming source.old) (R.coming source.new)) }
    ensures reaches { IfOk result (λ _.
        ReachesFirst walk.old walk.new (R.coming source.old) (R.coming source.new)) }
    ensures behind { IfOk result (λ all. IsTrue all → walk.new.skip ≤ walk.new.number) }
    ensures ends { IfOk result (λ all. IsFalse all
        → EndsAt walk.old walk.new (R.coming source.old) (R.coming source.new)) }
    ensures only { IfOk result (λ all. IsFalse all
        → OnlyPassed walk.old walk.new (R.coming source.old) (R.coming source.new)) }
    ensures fewer { IfOk result (λ all. IsFalse all → walk.new.number < walk.new.skip) }
    ensures stops { IfErr result (λ stop. StopsWalkAt stop walk.old
        (R.coming source.old) (R.coming source.new)) }
    ensures before { IfErr result (λ stop. stop.number ≤ walk.old.skip) }
    ensures gives { IfOk result (λ _.
        GivesPart [] walk.old walk.new (R.coming source.old) (R.coming source.new)) }
    ensures none { IfOk result (λ all. IsFalse all
        → GivesNone walk.old (R.coming source.old) (R.coming source.new)) }
    ensures marks { IfErr result (λ stop. GivesMark stop walk.old
        (R.coming source.old) (R.coming source.new)) }
    ensures kind { IfErr result (λ stop. is_write_fault stop.fault ≡ false) }
    ensures cause { R.failures source.new ≡ counted (stops_by_read result) (R.failures source.old) }
{
    while walk.number < walk.skip {
        match next_body(source, walk, body) {
            Ok(Some(_)) => {}
            Ok(None) => return Ok(false),
            Err(stop) => return Err(stop),
        }
    }
    Ok(true)
}

/// Holds the next record, where it is one that is chosen.
///
/// # Errors
///
/// A frame that can't be read.
fn take_next<R: Source>(source: &mut R, walk: &mut Walk, held: &mut Held) -> Result<(), Stopped>
    requires none { IsGivenAway held.old }
    requires room { length held.old.body.items ≡ walk.old.greatest }
    requires behind { walk.old.skip ≤ walk.old.number }
    ensures room { length held.new.body.items ≡ length held.old.body.items }
    ensures same { IsSameChoice walk.old walk.new }
    ensures takes { OnOk result (TakesChosen (held_bytes held.new) walk.old walk.new
        (R.coming source.old) (R.coming source.new)) }
    ensures over { OnOk result (length (held_bytes held.new) ≡ 0
        → IsThrough walk.old walk.new (R.coming source.old) (R.coming source.new)) }
    ensures stops { IfErr result (λ stop. StopsWalkAt stop walk.old
        (R.coming source.old) (R.coming source.new)) }
    ensures gives { OnOk result (GivesPart (held_bytes held.new) walk.old walk.new
        (R.coming source.old) (R.coming source.new)) }
    ensures last { OnOk result (length (held_bytes held.new) ≡ 0
        → GivesNone walk.old (R.coming source.old) (R.coming source.new)) }
    ensures marks { IfErr result (λ stop. GivesMark stop walk.old
        (R.coming source.old) (R.coming source.new)) }
    ensures kind { IfErr result (λ stop. is_write_fault stop.fault ≡ false) }
    ensures cause { R.failures source.new ≡ counted (stops_by_read result) (R.failures source.old) }
{
    if walk.number == walk.last {
        return Ok(());
    }
    match next_body(source, walk, &mut held.body) {
        Ok(Some(count)) => {
            held.hold(walk.form, count);
            Ok(())
        }
        Ok(None) => Ok(()),
        Err(stop) => Err(stop),
    }
}

/// Holds the next record that is chosen, where there is one.
///
/// # Errors
///
/// A frame that can't be read, of a record that is passed over or chosen.
pub(crate) fn refill<R: Source>(
    source: &mut R,
    walk: &mut Walk,
    held: &mut Held,
) -> Result<(), Stopped>
    requires none { IsGivenAway held.old }
    requires room { length held.old.body.items ≡ walk.old.greatest }
    ensures room { length held.new.body.items ≡ length held.old.body.items }
    ensures same { IsSameChoice walk.old walk.new }
    ensures takes { OnOk result (TakesChosen (held_bytes held.new) walk.old walk.new
        (R.coming source.old) (R.coming source.new)) }
    ensures over { OnOk result (length (held_bytes held.new) ≡ 0
        → IsThrough walk.old walk.new (R.coming source.old) (R.coming source.new)) }
    ensures stops { IfErr result (λ stop. StopsWalkAt stop walk.old
        (R.coming source.old) (R.coming source.new)) }
    ensures gives { OnOk result (GivesPart (held_bytes held.new) walk.old walk.new
        (R.coming source.old) (R.coming source.new)) }
    ensures last { OnOk result (length (held_bytes held.new) ≡ 0
        → GivesNone walk.old (R.coming source.old) (R.coming source.new)) }
    ensures marks { IfErr result (λ stop. GivesMark stop walk.old
        (R.coming source.old) (R.coming source.new)) }
    ensures kind { IfErr result (λ stop. is_write_fault stop.fault ≡ false) }
    ensures cause { R.failures source.new ≡ counted (stops_by_read result) (R.failures source.old) }
{
    match pass_over(source, walk, &mut held.body) {
        Ok(true) => take_next(source, walk, held),
        Ok(false) => Ok(()),
        Err(stop) => Err(stop),
    }
}

//! The next records of a stream, of which some are chosen.

ghost use Rattle.std.specs.Prelude.{◌≡◌, ◌+◌, ◌<◌, ◌≤◌, [], false, true, length, take, IfErr, IfNone, IfOk};
ghost use Rattle.cob_records.specs.Device.{counted};
ghost use Rattle.cob_records.specs.Frame.{is_write_fault};
ghost use Rattle.cob_records_parts.specs.Choices.{stops_by_read};
ghost use Rattle.cob_records_parts.specs.Numbering.{OnlyPassed};
ghost use Rattle.cob_records_parts.specs.StillGiven.{GivesPart, GivesMark, GivesNone, GivesRecord};
ghost use Rattle.cob_records_parts.specs.Walks.{EndsAt, IfFound, IsSameChoice, PassesOver, StopsWalkAt, TakesRecord};

use crate::choice::Stopped;
use crate::walk::Walk;
use cob_records::{Source, next_in_form};

/// Reads the next record into the front of the slice and answers its length, or `None` where no byte is left.
///
/// # Errors
///
/// A frame that can't be read.
pub(crate) fn next_body<R: Source>(
    source: &mut R,
    walk: &mut Walk,
    body: &mut [u8],
) -> Result<Option<usize>, Stopped>
    requires room { length body.old ≡ walk.old.greatest }
    requires more { walk.old.number < walk.old.last }
    ensures room { length body.new ≡ length body.old }
    ensures same { IsSameChoice walk.old walk.new }
    ensures passes { IfFound result (λ _. walk.old.number < walk.old.skip
        → PassesOver walk.old walk.new (R.coming source.old) (R.coming source.new)) }
    ensures takes { IfFound result (λ count.
        TakesRecord (take count body.new) walk.old walk.new (R.coming source.old) (R.coming source.new)) }
    ensures some { IfFound result (λ count. 0 < count) }
    ensures most { IfFound result (λ count. count ≤ walk.old.greatest) }
    ensures counts { IfFound result (λ _. walk.new.number ≡ walk.old.number + 1) }
    ensures ends { IfOk result (λ found. IfNone found
        (EndsAt walk.old walk.new (R.coming source.old) (R.coming source.new))) }
    ensures only { IfOk result (λ found. IfNone found
        (OnlyPassed walk.old walk.new (R.coming source.old) (R.coming source.new))) }
    ensures stays { IfOk result (λ found. IfNone found (walk.new.number ≡ walk.old.number)) }
    ensures names { IfErr result (λ stop. stop.number ≡ walk.old.number + 1) }
    ensures stops { IfErr result (λ stop. StopsWalkAt stop walk.old
        (R.coming source.old) (R.coming source.new)) }
    // What is given of all that comes: of a record that is passed over nothing, of one that is taken this one, nothing at the end, the mark of a fault.
    ensures over { IfFound result (λ _. walk.old.number < walk.old.skip
        → GivesPart [] walk.old walk.new (R.coming source.old) (R.coming source.new)) }
    ensures next { IfFound result (λ count.
        GivesRecord (take count body.new) walk.old walk.new (R.coming source.old) (R.coming source.new)) }
    ensures none { IfOk result (λ found. IfNone found
        (GivesNone walk.old (R.coming source.old) (R.coming source.new))) }
    ensures still { IfOk result (λ found. IfNone found
        (GivesPart [] walk.old walk.new (R.coming source.old) (R.coming source.new))) }
    ensures marks { IfErr result (λ stop. GivesMark stop walk.old
        (R.coming source.old) (R.coming source.new)) }
    ensures kind { IfErr result (λ stop. is_write_fault stop.fault ≡ false) }
    ensures cause { R.failures source.new ≡ counted (stops_by_read result) (R.failures source.old) }
{
    let (form, greatest) = (walk.form, walk.greatest);
    match next_in_form(source, form, greatest, body, &mut walk.left) {
        Ok(Some(count)) => {
            walk.number += 1;
            Ok(Some(count))
        }
        Ok(None) => Ok(None),
        Err(fault) => Err(Stopped {
            number: walk.number + 1,
            fault,
        }),
    }
}

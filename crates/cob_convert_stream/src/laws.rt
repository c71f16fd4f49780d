//! Laws of the definitions.

ghost use Rattle.cob_convert_stream.specs.Laws.{RecordsAreJudgedOnce, SizedAreStorages};

use cob_layout::one_outcome_of_counts;

/// A record that is one of its layout holds a record of it.
#[tactic(auto, using(crate::proofs::Judged::sized_are_storages))]
pub fn sized_are_storages()
    ensures { SizedAreStorages }
{}

/// A record is one of its layout or isn't, for one reason; and of a storage one part is written, where no count of it is at fault.
#[tactic(auto, using(crate::proofs::Judged::records_are_judged_once))]
pub fn records_are_judged_once()
    ensures { RecordsAreJudgedOnce }
{
    one_outcome_of_counts();
}

//! Laws of chosen records, each proved as the contract of a function that does nothing.

ghost use Rattle.cob_records_parts.specs.Rests.{RestIsBehind};
ghost use Rattle.cob_records_parts.specs.StillGiven.{GivenAreChosen, MarkEndsNothing};

use crate::chosen::Chosen;
use cob_records::Source;

/// Where the chosen records of a source are all that is left of it, or its first bytes, these are what is behind the records that are passed over.
#[tactic(auto, using(crate::proofs::RestLaw::rest_is_behind))]
pub fn rest_is_behind<R: Source>(_source: &Chosen<R>)
    ensures { RestIsBehind R.coming _source.now }
{}

/// What is given of a stream is what is chosen of the records that come of it, and what is given behind these; and the mark of a frame that can't be read.
#[tactic(auto, using(crate::proofs::GivenLaw::given_are_chosen))]
pub fn given_are_chosen()
    ensures { GivenAreChosen }
{}

/// Where a frame can't be read, what is given is not all records: a reading of it does not take the mark for one.
pub fn mark_ends_nothing()
    ensures { MarkEndsNothing }
{
    cob_records::alone_is_one_record();
}

//! Laws of runs that set rejected records aside, each proved as the contract of a function that only calls the laws below it.

ghost use Rattle.cob_convert.specs.AsideLaws.{AsideIsOne, AsideIsRun, RejectedAgain};

/// The bytes decide all of a run that sets rejected records aside: what is written, set aside and noted, the answer and the rest, unless a call of
/// an end failed.
pub fn aside_is_one()
    ensures { AsideIsOne }
{
    cob_records::next_is_one();
    cob_convert_record::conversions_are_decided();
}

/// A run that may set none aside, rejected none, or noted none, is the conversion of the same bytes, whatever ended it, unless a call of an end
/// failed.
#[tactic(auto, using(crate::proofs::AsideRun::aside_is_run))]
pub fn aside_is_run()
    ensures { AsideIsRun }
{}

/// What was set aside is rejected again, for the same reason.
pub fn rejected_again()
    ensures { RejectedAgain }
{
    cob_records::alone_is_one_record();
}

//! Laws of conversions of pieces.

ghost use Rattle.cob_convert.specs.Pieces.{ConversionsJoin};

/// Where bytes are whole frames, which are converted to their end, and then others, both conversions together are the conversion of all of them: in
/// forms f and v what is written for the ones and then for the others, to the byte, in form b the same records in blocks that fill anew; and the
/// answer is that of the second, with the records counted on, and the bytes.
#[tactic(auto, using(crate::proofs::Join::conversions_join))]
pub fn conversions_join()
    ensures { ConversionsJoin }
{
    cob_records::forms_are_frames();
    crate::laws::conversion_is_one();
}

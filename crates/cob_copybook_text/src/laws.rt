//! The law of words that are meant, as the contract of a function that does nothing.

ghost use Rattle.cob_copybook_text.specs.Laws.{MeantWordsAreOne};

use cob_source_copies::one_expansion;

/// Words come to one list that is meant at most.
pub fn meant_words_are_one()
    ensures { MeantWordsAreOne }
{
    one_expansion();
}

//! Laws of COPY, as contracts of functions that do nothing. A function that calls one may rest its own proof on it.

ghost use Rattle.cob_source_copies.specs.Laws.{CutAndTogether, ExpandedBreaksNoRule, NothingToExpand, OneExpansion, OneLibrary, OneLine};

use cob_source::words_in_are_one;

/// Words come to one list of words at most.
pub fn one_expansion()
    ensures { OneExpansion }
{}

/// Words without the word COPY come to themselves.
pub fn nothing_to_expand()
    ensures { NothingToExpand }
{}

/// Words that come to others break no rule of COPY.
pub fn expanded_breaks_no_rule()
    ensures { ExpandedBreaksNoRule }
{}

/// Words cut into text words and written together again are the same words.
pub fn cut_and_together()
    ensures { CutAndTogether }
{}

/// Texts make one library at most.
pub fn one_library()
    ensures { OneLibrary }
{
    words_in_are_one();
    one_expansion();
}

/// The number of a line says its text and its number there.
pub fn one_line()
    ensures { OneLine }
{}

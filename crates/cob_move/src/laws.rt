//! Laws of paragraphs.

ghost use Rattle.cob_move.specs.Laws.{DoneIsApplied, LiteralParagraph, OneParagraph, ParagraphBreaksNoRule, PlainParagraph};

use crate::deeds_laws::{deeds_break_no_rule, one_deeds};
use cob_move_deeds::straight_is_applied;
use cob_move_loops::{breaks_none, no_turn, one_passage};
use cob_source::paragraph_words_are_one;

/// A text does one thing between two records.
pub fn one_paragraph()
    ensures { OneParagraph }
{
    paragraph_words_are_one();
    one_passage();
    one_deeds();
}

/// A text that is a paragraph between two records breaks no rule there.
pub fn paragraph_breaks_no_rule()
    ensures { ParagraphBreaksNoRule }
{
    paragraph_words_are_one();
    one_passage();
    breaks_none();
    deeds_break_no_rule();
}

/// A text without words of loops does the moves that its statements mean.
pub fn plain_paragraph()
    ensures { PlainParagraph }
{
    paragraph_words_are_one();
    no_turn();
}

/// A text whose loops all end by numbers does the moves that its statements mean once its loops are written out.
pub fn literal_paragraph()
    ensures { LiteralParagraph }
{}

/// What is done without a test is what the moves make of a storage.
pub fn done_is_applied()
    ensures { DoneIsApplied }
{
    straight_is_applied();
}

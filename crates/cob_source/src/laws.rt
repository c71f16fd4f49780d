ghost use Rattle.cob_source.specs.Comments.{LinesWithoutCommentCount};
ghost use Rattle.cob_source.specs.Formats.{WordsInAreOne};
ghost use Rattle.cob_source.specs.Free.{FreeWordsAreOne, FreeWordsBreakNoRule};
ghost use Rattle.cob_source.specs.Tabs.{TabsAloneChange};
ghost use Rattle.cob_source.specs.Words.{WordsAreOne, ParagraphWordsAreOne, WordsBreakNoRule, LinesOfWordsFit, OpenLiteralHasNoWords};

/// A text has its words in one way.
pub fn words_are_one()
    ensures { WordsAreOne }
{}

/// A paragraph has its words in one way.
pub fn paragraph_words_are_one()
    ensures { ParagraphWordsAreOne }
{}

/// A text that has words breaks no rule of words.
pub fn words_break_no_rule()
    ensures { WordsBreakNoRule }
{}

/// In a text that has words each line fits behind those before it, and no literal is open at its end.
pub fn lines_of_words_fit()
    ensures { LinesOfWordsFit }
{}

/// A joined text at whose end a literal is open is cut into no words.
pub fn open_literal_has_no_words()
    ensures { OpenLiteralHasNoWords }
{}

/// A line without the two signs of a comment counts as far as column 72.
pub fn lines_without_comment_count()
    ensures { LinesWithoutCommentCount }
{}

/// A text without tabs is as it was where spaces are put for tabs.
pub fn tabs_alone_change()
    ensures { TabsAloneChange }
{}

/// A text in free format has its words in one way.
pub fn free_words_are_one()
    ensures { FreeWordsAreOne }
{}

/// A text in free format that has words breaks no rule of words.
pub fn free_words_break_no_rule()
    ensures { FreeWordsBreakNoRule }
{}

/// A text has its words in one way, in each format.
pub fn words_in_are_one()
    ensures { WordsInAreOne }
{}

//! Laws of records in one text, as contracts of functions that do nothing.

ghost use Rattle.cob_copybook_record.specs.Laws.{FoundIsNotRefused, GivenNameIsBorne, SoleWordsStay};

/// Words in which no second record, level 66 or level 77 begins stay as they are.
pub fn sole_words_stay()
    ensures { SoleWordsStay }
{}

/// A text that has a record of a name is not refused.
pub fn found_is_not_refused()
    ensures { FoundIsNotRefused }
{}

/// The words of a record bear the name that they are given.
pub fn given_name_is_borne()
    ensures { GivenNameIsBorne }
{}

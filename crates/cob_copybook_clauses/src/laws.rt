ghost use Rattle.cob_copybook_clauses.specs.Laws.{OneEntry, SentencesCut, SentencesEnd};

/// Words are written as one entry at most.
pub fn one_entry()
    ensures { OneEntry }
{}

/// Words without a Stop, a Stop and others are the sentence of the first and the sentences of the others.
pub fn sentences_cut()
    ensures { SentencesCut }
{}

/// Words without a Stop are no sentence.
pub fn sentences_end()
    ensures { SentencesEnd }
{}

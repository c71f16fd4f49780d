//! What is asked of a word, by the definitions of copybooks. The clauses of those who answer say more than is wanted here: so each is asked at one place.

use cob_copybook_clauses::WordClass;
use cob_source::Token;

/// Whether a word is of this kind.
pub(crate) fn is_term(word: &Token, term: WordClass) -> bool {
    cob_copybook_clauses::is_term(word, term)
}

/// Whether a word may be a name.
pub(crate) fn is_name_word(word: &Token) -> bool {
    cob_copybook_clauses::is_name_word(word)
}

/// The words behind one of this kind in front, if one stands there.
pub(crate) fn behind(words: &[Token], term: WordClass) -> Option<&[Token]> {
    cob_copybook_clauses::behind(words, term)
}

/// The number that a text of at most so many digits is, and of nine at most, if it is one.
pub(crate) fn whole(text: &[u8], most: usize) -> Option<u32> {
    cob_copybook_entries::whole(text, most.min(9))
}

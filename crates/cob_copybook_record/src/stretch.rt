//! Stretches of words.

ghost use Rattle.std.specs.Prelude.{◌≡◌, ◌≤◌, length};
ghost use Rattle.cob_source.specs.Tokens.{lexemes};
ghost use Rattle.cob_copybook_record.specs.OneRecord.{from_record, words_behind_part, words_of_part};

use crate::level::{RecordPart, ends_part, is_period, is_record_named};
use cob_copybook_clauses::front;
use cob_source::Token;

/// The words from the first record of this name on, where a sentence begins with the first word, or not.
pub(crate) fn from_record<'a>(words: &'a [Token], name: &[u8], starts: bool) -> &'a [Token]
    ensures { lexemes result.now ≡ from_record name.now starts (lexemes words.now) }
{
    let mut begins = starts;
    let mut rest = words;
    while let Some((first, more)) = rest.split_first() {
        if begins && is_record_named(rest, name) {
            return rest;
        }
        begins = is_period(first);
        rest = more;
    }
    rest
}

/// The words from the first sentence on that ends a part.
fn behind_part(words: &[Token], part: RecordPart, starts: bool) -> &[Token]
    ensures behind { lexemes result.now ≡ words_behind_part part starts (lexemes words.now) }
    ensures shorter { length result.now ≤ length words.now }
{
    let mut begins = starts;
    let mut rest = words;
    while let Some((first, more)) = rest.split_first() {
        if begins && ends_part(part, first) {
            return rest;
        }
        begins = is_period(first);
        rest = more;
    }
    rest
}

/// The words of a part, and those from the first sentence on that ends it.
pub(crate) fn part_at(words: &[Token], part: RecordPart, starts: bool) -> (&[Token], &[Token])
    ensures own { lexemes result.0.now ≡ words_of_part part starts (lexemes words.now) }
    ensures behind { lexemes result.1.now ≡ words_behind_part part starts (lexemes words.now) }
{
    let behind = behind_part(words, part, starts);
    (front(words, behind.len()), behind)
}

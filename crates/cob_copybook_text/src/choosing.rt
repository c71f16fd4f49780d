//! The words of one record.

ghost use Rattle.std.specs.Prelude.{◌≡◌, List, option_map, IfErr, IfOk, IsOkAnd};
ghost use Rattle.cob_source.specs.Tokens.{Lexeme, lexemes};
ghost use Rattle.cob_copybook_text.specs.Meant.{AreOfRecord};
ghost use Rattle.cob_copybook_text.specs.Refusals.{IsUnchosen};

use cob_copybook_record::{NoRecord, record_words, sole_words};
use cob_source::Token;

/// The words of the record of this name, or where none is named of the only one.
///
/// # Errors
///
/// Why the words have none of the name.
pub(crate) fn chosen<'a>(words: &'a [Token], name: Option<&[u8]>) -> Result<&'a [Token], NoRecord>
    ensures found { IfOk result (λ own. AreOfRecord (option_map (λ n. n.now) name.entry)
        (lexemes words.now) (lexemes own.now)) }
    ensures only { (own : List Lexeme) → AreOfRecord (option_map (λ n. n.now) name.entry) (lexemes words.now) own
        → IsOkAnd result (λ r. lexemes r.now ≡ own) }
    ensures fault { IfErr result (λ why. IsUnchosen why (option_map (λ n. n.now) name.entry) (lexemes words.now)) }
{
    match name {
        Some(name) => record_words(words, name),
        None => Ok(sole_words(words)),
    }
}

ghost use Rattle.cob_copybook_clauses.specs.Names.{
  IsName,
  BeginsAsName,
  EndsAsName,
  is_letter,
  is_name_character,
};
ghost use Rattle.cob_copybook_clauses.specs.Terms.{term_of_word};
ghost use Rattle.std.specs.List.{AllByRecursion, list_any};
ghost use Rattle.std.specs.Prelude.{◌≡◌, ◌↔◌, IsTrue, true};

use crate::term::{WordClass, term_of_word};
use cob_limits::MAX_NAME;

/// Whether a character may stand in a name: a capital, a digit, a hyphen or an underscore.
fn is_name_character(character: u8) -> bool
    ensures { result ≡ is_name_character character }
{
    matches!(character, b'A'..=b'Z' | b'0'..=b'9' | b'-' | b'_')
}

/// Whether each character may stand in a name.
fn are_name_characters(text: &[u8]) -> bool
    ensures { IsTrue result ↔ AllByRecursion (λ c. is_name_character c ≡ true) text.now }
{
    text.iter().all(|character| is_name_character(*character))
}

/// Whether a text has a letter.
fn has_letter(text: &[u8]) -> bool
    ensures { result ≡ list_any is_letter text.now }
{
    text.iter().any(|character| character.is_ascii_uppercase())
}

/// Whether a text begins as a name may.
fn begins_as_name(text: &[u8]) -> bool
    ensures { IsTrue result ↔ BeginsAsName text.now }
{
    match text.split_first() {
        Some((first, _)) => *first != b'-' && *first != b'_',
        None => false,
    }
}

/// Whether a text ends as a name may.
fn ends_as_name(text: &[u8]) -> bool
    ensures { IsTrue result ↔ EndsAsName text.now }
{
    match text.split_last() {
        Some((last, _)) => *last != b'-',
        None => false,
    }
}

/// Whether a word isn't reserved.
fn is_plain(text: &[u8]) -> bool
    ensures { IsTrue result ↔ term_of_word text.now ≡ WordClass.Plain }
{
    term_of_word(text) == WordClass::Plain
}

/// Whether a text is a name: 1 to 30 capitals, digits, hyphens and underscores, a letter among them, which begin with
/// neither hyphen nor underscore, don't end with a hyphen, and are no reserved word.
pub fn is_name(text: &[u8]) -> bool
    ensures { IsTrue result ↔ IsName text.now }
{
    if text.len() > MAX_NAME || !is_plain(text) {
        return false;
    }
    if !are_name_characters(text) || !has_letter(text) {
        return false;
    }
    begins_as_name(text) && ends_as_name(text)
}

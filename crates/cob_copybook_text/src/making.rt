//! The text of one record description.

ghost use Rattle.std.specs.Prelude.{◌≡◌, ℕ, List, Option, true, option_map, IfErr, IfOk, IsTrue};
ghost use Rattle.cob_source.specs.Tokens.{Lexeme, lexeme, lexemes};
ghost use Rattle.cob_copybook_text.specs.Meant.{AreMeantWords};
ghost use Rattle.cob_copybook_text.specs.Refusals.{IsCopyingRefusal, IsRecordTextRefusal, IsWant};
ghost use Rattle.cob_copybook_text.specs.Written.{IsTextForBook};
ghost use Rattle.cob_source_copies.specs.declared.fault.CopyRule.TheVariants.{Memory};
ghost use Rattle.cob_copybook_text.specs.declared.copying.Copying.{Copying};

use crate::again::text_saying;
use crate::choosing::chosen;
use crate::copying::Copying;
use crate::fault::RecordTextFault;
use crate::writing::RecordText;
use cob_source::{Token, TokenKind};
use cob_source_copies::{CopyFault, CopyRule};
use std::alloc::Global;

/// Whether two are the same word at the same place.
fn is_same(word: &Token, other: &Token) -> bool
    ensures { IsTrue result → lexeme word.now ≡ lexeme other.now }
{
    let is_one_kind = match word.kind {
        TokenKind::Word => matches!(other.kind, TokenKind::Word),
        TokenKind::Literal => matches!(other.kind, TokenKind::Literal),
        TokenKind::Stop => matches!(other.kind, TokenKind::Stop),
    };
    is_one_kind
        && word.text.as_slice() == other.text.as_slice()
        && word.line == other.line
        && word.column == other.column
}

/// Whether words are the same at the same places.
fn are_same_words(words: &[Token], others: &[Token]) -> bool
    ensures { IsTrue result → lexemes words.now ≡ lexemes others.now }
{
    let mut left = words;
    let mut rest = others;
    while let Some((word, behind)) = left.split_first() {
        let Some((first, more)) = rest.split_first() else {
            return false;
        };
        if !is_same(word, first) {
            return false;
        }
        left = behind;
        rest = more;
    }
    rest.is_empty()
}

/// What a fault of COPY is here: want of memory is told as that alone.
fn copy_refusal(fault: CopyFault) -> RecordTextFault
    ensures want { fault.rule ≡ Memory → IsWant result }
    ensures refused { (how : Copying) (name : Option (List ℕ)) (words : List Lexeme)
        → IsCopyingRefusal how fault.rule fault.line words → IsRecordTextRefusal result how name words }
{
    if fault.rule == CopyRule::Memory {
        RecordTextFault::Memory
    } else {
        RecordTextFault::Copy(fault)
    }
}

/// The text for words that are meant, made of these.
///
/// # Errors
///
/// They have no room in one text, or no memory is left.
fn text_for(
    alloc: Global,
    words: &[Token],
    own: &[Token],
) -> Result<Option<RecordText>, RecordTextFault>
    ensures found { IfOk result (λ r. IsTextForBook r (lexemes words.now) (lexemes own.now)) }
    ensures want { IfErr result IsWant }
{
    if are_same_words(own, words) {
        return Ok(None);
    }
    match text_saying(alloc, own)? {
        Some(text) => Ok(Some(text)),
        None => Err(RecordTextFault::TooLong),
    }
}

/// The text that says the words of a copybook which are meant: what its words come to, and of that the words of the record with this name, or of the only
/// one. None is made where these are the words themselves, so that the copybook is that text.
///
/// # Errors
///
/// A rule of COPY that the words break; why they have no record of the name; that what is meant has no room in one text; want of memory.
pub fn record_text(
    alloc: Global,
    how: &Copying,
    name: Option<&[u8]>,
    words: &[Token],
) -> Result<Option<RecordText>, RecordTextFault>
    // What is answered says the words that are meant.
    ensures found { IfOk result (λ r. (own : List Lexeme)
        × AreMeantWords how.now (option_map (λ n. n.now) name.entry) (lexemes words.now) own
        × IsTextForBook r (lexemes words.now) own) }
    // Where words are meant they are written, but for want of room in one text or of memory.
    ensures only { (own : List Lexeme)
        → AreMeantWords how.now (option_map (λ n. n.now) name.entry) (lexemes words.now) own
        → IfErr result IsWant }
    // A refusal names a rule that is broken.
    ensures fault { IfErr result (λ f. IsRecordTextRefusal f how.now (option_map (λ n. n.now) name.entry) (lexemes words.now)) }
{
    let all = match how.all_words(alloc, words) {
        Ok(all) => all,
        Err(fault) => return Err(copy_refusal(fault)),
    };
    match chosen(all.as_slice(), name) {
        Ok(own) => text_for(alloc, words, own),
        Err(why) => Err(RecordTextFault::Record(why)),
    }
}

//! Words of a record under another name.

ghost use Rattle.std.specs.Prelude.{◌≡◌, ◌++◌, false, IfOk, OnOk};
ghost use Rattle.cob_source.specs.Tokens.{lexeme, lexemes};
ghost use Rattle.cob_copybook_clauses.specs.Entries.{starts_clause};
ghost use Rattle.cob_copybook_clauses.specs.Terms.{word_class};
ghost use Rattle.cob_copybook_record.specs.RecordName.{ends_qualifiers, is_entry_name, is_of, named_behind, requalified, requalified_word, with_record_name, with_text};

use crate::level::{is_record_level, is_text_of};
use cob_copybook_clauses::{WordClass, word_class};
use cob_source::{Token, TokenKind};
use std::alloc::{AllocError, Global};

/// Whether it is OF or IN.
fn is_of(token: &Token) -> bool
    ensures { result ≡ is_of (lexeme token.now) }
{
    is_text_of(token, b"OF") || is_text_of(token, b"IN")
}

/// Whether no further qualifier comes first.
fn ends_qualifiers(words: &[Token]) -> bool
    ensures { result ≡ ends_qualifiers (lexemes words.now) }
{
    match words.split_first() {
        Some((first, _)) => !is_of(first),
        None => true,
    }
}

/// Whether a word may begin a clause.
fn may_begin_clause(token: &Token) -> bool
    ensures { result ≡ starts_clause (word_class (lexeme token.now)) }
{
    matches!(
        word_class(token),
        WordClass::Redefines
            | WordClass::Picture
            | WordClass::Usage
            | WordClass::UsageName
            | WordClass::Sign
            | WordClass::Leading
            | WordClass::Trailing
            | WordClass::Occurs
            | WordClass::Value
            | WordClass::Justified
            | WordClass::Blank
    )
}

/// Whether it is the name of an entry, or FILLER, where it stands behind the level.
fn is_entry_name(token: &Token) -> bool
    ensures { result ≡ is_entry_name (lexeme token.now) }
{
    matches!(token.kind, TokenKind::Word) && !may_begin_clause(token)
}

/// The word with this text, where it stands.
fn with_text(alloc: Global, token: &Token, text: &[u8]) -> Result<Token, AllocError>
    ensures { IfOk result (λ t. lexeme t ≡ with_text text.now (lexeme token.now)) }
{
    let text = Vec::from_slice(alloc, text)?;
    Ok(Token {
        text,
        line: token.line,
        column: token.column,
        kind: token.kind,
    })
}

/// The same word once more.
fn same_word(alloc: Global, token: &Token) -> Result<Token, AllocError>
    ensures { IfOk result (λ t. lexeme t ≡ lexeme token.now) }
{
    with_text(alloc, token, token.text.as_slice())
}

/// A word with these behind it: the new name, where it is the old one as the last of qualifiers.
fn requalified_word(
    alloc: Global,
    token: &Token,
    behind: &[Token],
    old: &[u8],
    new: &[u8],
    qualifies: bool,
) -> Result<Token, AllocError>
    ensures { IfOk result (λ t. lexeme t ≡ requalified_word old.now new.now qualifies
        (lexeme token.now) (lexemes behind.now)) }
{
    if qualifies && is_text_of(token, old) && ends_qualifiers(behind) {
        with_text(alloc, token, new)
    } else {
        same_word(alloc, token)
    }
}

/// Puts the words behind the name of a record behind those so far.
fn push_requalified(
    alloc: Global,
    words: &[Token],
    old: &[u8],
    new: &[u8],
    out: &mut Vec<Token>,
) -> Result<(), AllocError>
    ensures { OnOk result (lexemes out.new.items ≡ lexemes out.old.items
        ++ requalified old.now new.now false (lexemes words.now)) }
{
    let mut qualifies = false;
    let mut rest = words;
    while let Some((first, more)) = rest.split_first() {
        out.push(requalified_word(alloc, first, more, old, new, qualifies)?)?;
        qualifies = is_of(first);
        rest = more;
    }
    Ok(())
}

/// Puts the same words behind those so far.
fn push_words(alloc: Global, words: &[Token], out: &mut Vec<Token>) -> Result<(), AllocError>
    ensures { OnOk result (lexemes out.new.items ≡ lexemes out.old.items ++ lexemes words.now) }
{
    let mut rest = words;
    while let Some((first, more)) = rest.split_first() {
        out.push(same_word(alloc, first)?)?;
        rest = more;
    }
    Ok(())
}

/// Puts the words behind the level of a record, with this as its name, behind those so far.
fn push_named(
    alloc: Global,
    level: &Token,
    words: &[Token],
    name: &[u8],
    out: &mut Vec<Token>,
) -> Result<(), AllocError>
    ensures { OnOk result (lexemes out.new.items ≡ lexemes out.old.items
        ++ named_behind name.now (lexeme level.now) (lexemes words.now)) }
{
    let Some((first, more)) = words.split_first() else {
        return Ok(());
    };
    if is_entry_name(first) {
        out.push(with_text(alloc, first, name)?)?;
        return push_requalified(alloc, more, first.text.as_slice(), name, out);
    }
    out.push(with_text(alloc, level, name)?)?;
    push_words(alloc, words, out)
}

/// The words of a record with this as its name, in the place of the one that it has, or of FILLER or of none. A name that an OCCURS clause counts by has it as its
/// last qualifier, where it has the record's. Words that do not begin with level 01 stay as they are.
///
/// # Errors
///
/// Where no memory is left.
pub fn with_record_name(
    alloc: Global,
    words: &[Token],
    name: &[u8],
) -> Result<Vec<Token>, AllocError>
    ensures { IfOk result (λ v. lexemes v.items ≡ with_record_name name.now (lexemes words.now)) }
{
    let mut out = Vec::new(alloc);
    let Some((level, behind)) = words.split_first() else {
        return Ok(out);
    };
    out.push(same_word(alloc, level)?)?;
    if is_record_level(level) {
        push_named(alloc, level, behind, name, &mut out)?;
    } else {
        push_words(alloc, behind, &mut out)?;
    }
    Ok(out)
}

//! The refusals of a copybook.

ghost use Rattle.std.specs.Prelude.{◌≡◌, ◌∷◌, ℕ, List, [], IfOk, IfSome, IsTrue};
ghost use Rattle.std.specs.List.{AllByRecursion};
ghost use Rattle.cob_source.specs.Tokens.{Lexeme, lexemes};
ghost use Rattle.cob_source.specs.Words.{AreWordsOf};
ghost use Rattle.cob_copybook.specs.Books.{IsBookOf, IsBookRefusal};
ghost use Rattle.cob_copybook.specs.declared.role.Role.{Role};
ghost use Rattle.cob_copybook_tree.specs.Forests.{Forest};
ghost use Rattle.cob_copybook_tree.specs.Nodes.{Resolved};
ghost use Rattle.cob_report_refusals.specs.Refused.{AreRefusals, BeginWith, HasBrokenEntry, IsBrokenEntry, IsRefusedText};

use crate::lines::line_refusals;
use crate::refusal::Refusal;
use crate::sentences::sentence_refusals;
use cob_copybook::{Book, Role};
use cob_copybook_entry::{BookFault, BookRule};
use cob_source::{SourceRule, Token, tokens};
use std::alloc::{AllocError, Global};

/// The words of a text, none where it breaks a rule of the reference format.
///
/// # Errors
///
/// Where no memory is left.
fn words_of(alloc: Global, text: &[u8]) -> Result<Option<Vec<Token>>, AllocError>
    ensures { IfOk result (λ o. IfSome o (λ v. AreWordsOf text.now (lexemes v.items))) }
{
    match tokens(alloc, text) {
        Ok(words) => Ok(Some(words)),
        Err(fault) => match fault.rule {
            SourceRule::Memory => Err(AllocError),
            _ => Ok(None),
        },
    }
}

/// Whether a rule is this one, and one that an entry can break by itself.
fn is_own(rule: &BookRule, other: &BookRule) -> bool
    ensures { IsTrue result → (own : List Lexeme) → IsBrokenEntry other.now own
        → IsBrokenEntry rule.now own }
{
    match rule {
        BookRule::Grammar => matches!(other, BookRule::Grammar),
        BookRule::Name => matches!(other, BookRule::Name),
        BookRule::Table => matches!(other, BookRule::Table),
        BookRule::Value => matches!(other, BookRule::Value),
        BookRule::Picture(fault) => match other {
            BookRule::Picture(found) => fault == found,
            _ => false,
        },
        BookRule::LeftOut(word) => match other {
            BookRule::LeftOut(found) => word.as_str() == found.as_str(),
            _ => false,
        },
        _ => false,
    }
}

/// Whether a refusal is of this fault.
fn is_of(fault: &BookFault, refusal: &Refusal) -> bool
    ensures { IsTrue result → (own : List Lexeme) → IsBrokenEntry refusal.now.fault.rule own
        → IsBrokenEntry fault.now.rule own }
{
    fault.line == refusal.fault.line && is_own(&fault.rule, &refusal.fault.rule)
}

/// The entry of the fault that is told first, and the refusals behind it: that of the first of them and the others, where the first is of this fault, and else
/// none and all.
fn parted<'a>(first: &BookFault, found: &'a [Refusal]) -> (Option<usize>, &'a [Refusal])
    ensures entry { (text : List ℕ) → AllByRecursion (IsRefusedText text) found.now
        → HasBrokenEntry text first.now.rule result.0 }
    ensures others { (text : List ℕ) → AllByRecursion (IsRefusedText text) found.now
        → AllByRecursion (IsRefusedText text) result.1.now }
{
    match found.split_first() {
        Some((head, others)) if is_of(first, head) => (head.from, others),
        _ => (None, found),
    }
}

/// A refusal, and others behind it.
///
/// # Errors
///
/// Where no memory is left.
fn followed(alloc: Global, first: Refusal, others: &[Refusal]) -> Result<Vec<Refusal>, AllocError>
    ensures { IfOk result (λ v. v.items ≡ first ∷ others.now) }
{
    let mut out = Vec::new(alloc);
    out.push(first)?;
    out.extend_from_slice(others)?;
    Ok(out)
}

/// Refusals behind the fault that is told first, which may be the first of them.
///
/// # Errors
///
/// Where no memory is left.
fn behind_first(
    alloc: Global,
    first: BookFault,
    found: &[Refusal],
) -> Result<Vec<Refusal>, AllocError>
    ensures begins { IfOk result (λ v. BeginWith first v.items) }
    ensures each { (role : Role) (text : List ℕ) → IsBookRefusal role first.rule first.line text
        → AllByRecursion (IsRefusedText text) found.now → IfOk result (λ v. AreRefusals role text v.items) }
{
    let (from, others) = parted(&first, found);
    let refusal = Refusal { fault: first, from };
    followed(alloc, refusal, others)
}

/// The refusals of words that make no copybook, this fault of which is told first.
///
/// # Errors
///
/// Where no memory is left.
fn refusals_of_words(
    alloc: Global,
    words: &[Token],
    first: BookFault,
) -> Result<Vec<Refusal>, AllocError>
    ensures begins { IfOk result (λ v. BeginWith first v.items) }
    ensures each { (role : Role) (text : List ℕ) → IsBookRefusal role first.rule first.line text
        → AreWordsOf text (lexemes words.now) → IfOk result (λ v. AreRefusals role text v.items) }
{
    let found = sentence_refusals(alloc, words)?;
    behind_first(alloc, first, found.as_slice())
}

/// The refusals of a text that is no copybook, this fault of which is told first.
///
/// # Errors
///
/// Where no memory is left.
fn refusals_with(alloc: Global, text: &[u8], first: BookFault) -> Result<Vec<Refusal>, AllocError>
    ensures begins { IfOk result (λ v. BeginWith first v.items) }
    ensures each { (role : Role) → IsBookRefusal role first.rule first.line text.now
        → IfOk result (λ v. AreRefusals role text.now v.items) }
{
    match words_of(alloc, text)? {
        Some(words) => refusals_of_words(alloc, words.as_slice(), first),
        None => {
            let found = line_refusals(alloc, text, first.line)?;
            behind_first(alloc, first, found.as_slice())
        }
    }
}

/// Why a text is no copybook: the fault that [`Book::read`] answers, and behind it the refusals that stand by themselves. Of a copybook there are none.
///
/// # Errors
///
/// Where no memory is left.
pub fn book_refusals(alloc: Global, role: Role, text: &[u8]) -> Result<Vec<Refusal>, AllocError>
    // Each names a rule that is broken, and no entry but one that breaks it by itself.
    ensures each { IfOk result (λ v. AreRefusals role text.now v.items) }
    // Of a text that is a copybook nothing is told.
    ensures none { (t : Forest Resolved) → IsBookOf role text.now t
        → IfOk result (λ v. v.items ≡ []) }
    // A text of which nothing is told is a copybook.
    ensures some { IfOk result (λ v. v.items ≡ [] → (t : Forest Resolved) × IsBookOf role text.now t) }
{
    let Err(fault) = Book::read(alloc, role, text) else {
        return Ok(Vec::new(alloc));
    };
    if let BookRule::Memory = fault.rule {
        return Err(AllocError);
    }
    refusals_with(alloc, text, fault)
}

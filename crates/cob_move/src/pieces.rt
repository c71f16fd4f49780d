//! Paragraphs that are read piece by piece, so that the words and the statements of one piece alone are held.

ghost use Rattle.std.specs.Prelude.{◌≡◌, ◌↔◌, ℕ, [], List, length, IfErr, IfOk, IfSome, IsTrue};
ghost use Rattle.std.specs.List.{AllByRecursion};
ghost use Rattle.cob_move_loops.specs.Words.{IsOther};
ghost use Rattle.cob_move.specs.Among.{AreMeaningsAmong};
ghost use Rattle.cob_move.specs.Between.{ArePairsOf};
ghost use Rattle.cob_move_tests.specs.Entries.{AllMayBeNamed, records_of};
ghost use Rattle.cob_move.specs.Pieces.{AddsMoves, IsParagraphAmong, IsRefusedMemory, ReadsPiece, SaysMoves, SaysNext, SaysSoFar};
ghost use Rattle.cob_move_statements.specs.Statements.{FollowsStatements, IsParagraph};
ghost use Rattle.cob_move_statements.specs.Written.{written_statements};
ghost use Rattle.cob_source.specs.Ahead.{HaveLineNumbers, IsNoted, IsReadTo};
ghost use Rattle.cob_source.specs.Tokens.{lexeme, lexemes};

use crate::meaning::meanings_of;
use cob_copybook_clauses::{WordClass, is_term};
use cob_layout::Layout;
use cob_move_data::StatementMoves;
use cob_move_loops::{no_turn, passage_word};
use cob_move_names::{Correspondences, Names};
use cob_move_statements::{MoveFault, MoveRule, Statement, statements};
use cob_move_tests::Entries;
use cob_source::{SourceRule, Token, WordsAhead};
use std::alloc::Global;

/// How many bytes a statement takes at least that stands on a line of its own, from column 12 on.
const STATEMENT_BYTES: usize = 24;

/// The fault of refused memory.
pub(crate) fn refused_memory() -> MoveFault
    ensures { IsRefusedMemory result }
{
    MoveFault {
        rule: MoveRule::Memory,
        line: 0,
    }
}

/// Whether nothing comes first, or MOVE.
fn statements_follow(words: &[Token]) -> bool
    ensures { IsTrue result → FollowsStatements (lexemes words.now) }
{
    match words.split_first() {
        Some((first, _)) => is_term(first, WordClass::Move),
        None => true,
    }
}

/// Whether a word is no word of loops.
pub(crate) fn is_other(word: &Token) -> bool
    ensures { IsTrue result ↔ IsOther (lexeme word.now) }
{
    match passage_word(word) {
        Some(_) => false,
        None => true,
    }
}

/// Whether no word of loops is among words.
fn have_no_passage_word(words: &[Token]) -> bool
    ensures { IsTrue result ↔ AllByRecursion IsOther (lexemes words.now) }
{
    let mut rest = words;
    while let Some((first, more)) = rest.split_first() {
        if !is_other(first) {
            return false;
        }
        rest = more;
    }
    true
}

/// Reads the words of the next piece in the place of those before, and answers whether more are left; None where the text breaks a rule.
///
/// # Errors
///
/// `Memory`.
fn read_piece(
    alloc: Global,
    ahead: &mut WordsAhead<'_>,
    words: &mut Vec<Token>,
) -> Result<Option<bool>, MoveFault>
    requires numbered { HaveLineNumbers ahead.old }
    requires noted { IsNoted ahead.old }
    ensures read { IfOk result (λ o. IfSome o (ReadsPiece ahead.old ahead.new words.new.items)) }
    ensures numbered { IfOk result (λ o. IfSome o (λ more. HaveLineNumbers ahead.new)) }
    ensures noted { IfOk result (λ o. IfSome o (λ more. IsNoted ahead.new)) }
    ensures fault { IfErr result IsRefusedMemory }
{
    words.clear();
    match ahead.read(alloc, words) {
        Ok(more) => Ok(Some(more)),
        Err(fault) => match fault.rule {
            SourceRule::Memory => Err(refused_memory()),
            _ => Ok(None),
        },
    }
}

/// The statements that words are; None where they are none, or have words of loops among them.
///
/// # Errors
///
/// `Memory`.
fn statements_alone<'a>(
    alloc: Global,
    words: &'a [Token],
) -> Result<Option<Vec<Statement<'a>>>, MoveFault>
    ensures found { IfOk result (λ o. IfSome o
        (λ v. IsParagraph (lexemes words.now) (written_statements v.items))) }
    ensures plain { IfOk result (λ o. IfSome o
        (λ v. AllByRecursion IsOther (lexemes words.now))) }
    ensures fault { IfErr result IsRefusedMemory }
{
    if !have_no_passage_word(words) {
        return Ok(None);
    }
    match statements(alloc, words) {
        Ok(read) => Ok(Some(read)),
        Err(fault) => match fault.rule {
            MoveRule::Memory => Err(refused_memory()),
            _ => Ok(None),
        },
    }
}

/// The moves that statements mean; None where one of them breaks a rule.
///
/// # Errors
///
/// `Memory`.
fn meanings_alone(
    alloc: Global,
    entries: &Entries<'_, '_>,
    pairs: &mut Correspondences<'_>,
    read: &[Statement<'_>],
) -> Result<Option<Vec<StatementMoves>>, MoveFault>
    requires named { AllMayBeNamed entries.now }
    requires pairs { ArePairsOf (records_of entries.now) pairs.old }
    ensures found { IfOk result (λ o. IfSome o
        (λ v. AreMeaningsAmong entries.now (written_statements read.now) v.items)) }
    ensures many { IfOk result (λ o. IfSome o (λ v. length v.items ≡ length read.now)) }
    ensures pairs { ArePairsOf (records_of entries.now) pairs.new }
    ensures fault { IfErr result IsRefusedMemory }
{
    match meanings_of(alloc, entries, pairs, read) {
        Ok(own) => Ok(Some(own)),
        Err(fault) => match fault.rule {
            MoveRule::Memory => Err(refused_memory()),
            _ => Ok(None),
        },
    }
}

/// Puts the moves of the statements that words are behind those so far, and answers whether the words are statements that break no rule.
///
/// # Errors
///
/// `Memory`.
fn add_moves(
    alloc: Global,
    entries: &Entries<'_, '_>,
    pairs: &mut Correspondences<'_>,
    words: &[Token],
    list: &mut Vec<StatementMoves>,
) -> Result<bool, MoveFault>
    requires named { AllMayBeNamed entries.now }
    requires pairs { ArePairsOf (records_of entries.now) pairs.old }
    ensures added { IfOk result (λ done. IsTrue done
        → AddsMoves entries.now (lexemes words.now) list.old.items list.new.items) }
    ensures pairs { ArePairsOf (records_of entries.now) pairs.new }
    ensures fault { IfErr result IsRefusedMemory }
{
    let Some(read) = statements_alone(alloc, words)? else {
        return Ok(false);
    };
    let Some(own) = meanings_alone(alloc, entries, pairs, read.as_slice())? else {
        return Ok(false);
    };
    let mut added = own;
    list.append(&mut added)?;
    Ok(true)
}

/// Puts the moves of a text's first piece into an empty list, and answers whether more pieces are left; None where it isn't read alone.
///
/// # Errors
///
/// `Memory`.
fn add_first(
    alloc: Global,
    entries: &Entries<'_, '_>,
    pairs: &mut Correspondences<'_>,
    ahead: &mut WordsAhead<'_>,
    words: &mut Vec<Token>,
    list: &mut Vec<StatementMoves>,
) -> Result<Option<bool>, MoveFault>
    requires named { AllMayBeNamed entries.now }
    requires pairs { ArePairsOf (records_of entries.now) pairs.old }
    requires numbered { HaveLineNumbers ahead.old }
    requires noted { IsNoted ahead.old }
    requires none { list.old.items ≡ [] }
    ensures says { IfOk result (λ o. IfSome o (λ more. (text : List ℕ)
        → IsReadTo text [] ahead.old → SaysSoFar text entries.now list.new.items ahead.new more)) }
    ensures pairs { ArePairsOf (records_of entries.now) pairs.new }
    ensures numbered { IfOk result (λ o. IfSome o (λ more. HaveLineNumbers ahead.new)) }
    ensures noted { IfOk result (λ o. IfSome o (λ more. IsNoted ahead.new)) }
    ensures fault { IfErr result IsRefusedMemory }
{
    let Some(more) = read_piece(alloc, ahead, words)? else {
        return Ok(None);
    };
    let piece = words.as_slice();
    let done = add_moves(alloc, entries, pairs, piece, list)?;
    if !done {
        return Ok(None);
    }
    Ok(Some(more))
}

/// Puts the moves of a text's next piece behind those so far, and answers whether more pieces are left; None where it isn't read alone.
///
/// # Errors
///
/// `Memory`.
fn add_next(
    alloc: Global,
    entries: &Entries<'_, '_>,
    pairs: &mut Correspondences<'_>,
    ahead: &mut WordsAhead<'_>,
    words: &mut Vec<Token>,
    list: &mut Vec<StatementMoves>,
) -> Result<Option<bool>, MoveFault>
    requires named { AllMayBeNamed entries.now }
    requires pairs { ArePairsOf (records_of entries.now) pairs.old }
    requires numbered { HaveLineNumbers ahead.old }
    requires noted { IsNoted ahead.old }
    ensures says { IfOk result (λ o. IfSome o (SaysNext entries.now list.old.items list.new.items
        ahead.old ahead.new)) }
    ensures pairs { ArePairsOf (records_of entries.now) pairs.new }
    ensures numbered { IfOk result (λ o. IfSome o (λ more. HaveLineNumbers ahead.new)) }
    ensures noted { IfOk result (λ o. IfSome o (λ more. IsNoted ahead.new)) }
    ensures fault { IfErr result IsRefusedMemory }
{
    let Some(more) = read_piece(alloc, ahead, words)? else {
        return Ok(None);
    };
    let piece = words.as_slice();
    if !statements_follow(piece) {
        return Ok(None);
    }
    let done = add_moves(alloc, entries, pairs, piece, list)?;
    if !done {
        return Ok(None);
    }
    Ok(Some(more))
}

/// The moves that a text says, where its pieces are all read alone.
///
/// # Errors
///
/// `Memory`.
fn all_pieces(
    alloc: Global,
    entries: &Entries<'_, '_>,
    pairs: &mut Correspondences<'_>,
    text: &[u8],
) -> Result<Option<Vec<StatementMoves>>, MoveFault>
    requires named { AllMayBeNamed entries.now }
    requires pairs { ArePairsOf (records_of entries.now) pairs.old }
    ensures found { IfOk result (λ o. IfSome o (λ v. IsParagraphAmong text.now entries.now
        v.items)) }
    ensures fault { IfErr result IsRefusedMemory }
{
    // For `found`: words without loops are as they are written.
    no_turn();
    let Some(start) = WordsAhead::new(alloc, text) else {
        return Ok(None);
    };
    let mut ahead = start;
    let mut words = Vec::new(alloc);
    let mut list = Vec::with_capacity(alloc, text.len() / STATEMENT_BYTES)?;
    let Some(first) = add_first(alloc, entries, pairs, &mut ahead, &mut words, &mut list)? else {
        return Ok(None);
    };
    let mut more = first;
    // A piece takes bytes, so that there are no more of them than these.
    for _piece in 0..text.len() {
        if !more {
            return Ok(Some(list));
        }
        let Some(next) = add_next(alloc, entries, pairs, &mut ahead, &mut words, &mut list)? else {
            return Ok(None);
        };
        more = next;
    }
    Ok(None)
}

/// The moves that a text says among the entries that may be named, where its pieces are all read alone.
///
/// # Errors
///
/// `Memory`.
fn pieces_among(
    alloc: Global,
    entries: &Entries<'_, '_>,
    text: &[u8],
) -> Result<Option<Vec<StatementMoves>>, MoveFault>
    requires named { AllMayBeNamed entries.now }
    ensures found { IfOk result (λ o. IfSome o (λ v. IsParagraphAmong text.now entries.now
        v.items)) }
    ensures fault { IfErr result IsRefusedMemory }
{
    let mut pairs = Correspondences::new(alloc, entries.input.root(), entries.output.root());
    all_pieces(alloc, entries, &mut pairs, text)
}

/// The moves that a text says between two records, read piece by piece; None where it says none, or where a piece of it isn't read alone.
///
/// # Errors
///
/// `Memory`.
pub(crate) fn meant_in_pieces(
    alloc: Global,
    input: &Layout,
    output: &Layout,
    text: &[u8],
) -> Result<Option<Vec<StatementMoves>>, MoveFault>
    ensures found { IfOk result (λ o. IfSome o (λ v. SaysMoves text.now input.now output.now
        v.items)) }
    ensures fault { IfErr result IsRefusedMemory }
{
    let names = Names::of(alloc, input, output)?;
    let entries = Entries {
        names: &names,
        input,
        output,
    };
    pieces_among(alloc, &entries, text)
}

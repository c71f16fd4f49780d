//! The heads of choices, and their branches.

ghost use Rattle.std.specs.Prelude.{◌≡◌, ◌↔◌, ◌<◌, ◌++◌, ◌∷◌, [], ℕ, List, length, IfNone, IfSome, IsTrue};
ghost use Rattle.std.specs.List.{AllByRecursion};
ghost use Rattle.cob_copybook_clauses.specs.Reading.{Answers};
ghost use Rattle.cob_source.specs.Tokens.{Lexeme, lexeme, lexemes};
ghost use Rattle.cob_move_loops.specs.Passages.{AnEvaluate, AnIf, BranchEnds, Branched, FrontAt, IsBranchHead, IsChoiceHead, IsWhenTest, NextWhen, PartFirst, Tested, WrittenChoice, WrittenTest, kind_of, line_of};
ghost use Rattle.cob_move_loops.specs.Reading.{AnswersFront, AnswersWords, BranchInFront, ChoiceInFront, NoTestAfter, WhenTestInFront, item_front, written_choice, written_test};
ghost use Rattle.cob_move_loops.specs.Words.{AreTestWords, IsTestWord, IsThen, NoHeadWord, NoTestWord};

use crate::edges::part_at;
use crate::front::PassageItem;
use crate::head::is_item_word;
use crate::parts::{BranchTest, Choice, ChoiceKind, Place};
use crate::words::{
    BranchWord, PassageWord, behind_branch_word, behind_passage_word, behind_text, branch_word,
    first_line, is_branch_word, is_that_word,
};
use cob_copybook_clauses::front;
use cob_source::Token;

/// The kind of a choice.
pub fn kind_of(choice: &Choice<'_>) -> ChoiceKind
    ensures { result ≡ kind_of (written_choice choice.now) }
{
    match choice {
        Choice::If { .. } => ChoiceKind::If,
        Choice::Evaluate { .. } => ChoiceKind::Evaluate,
    }
}

/// The line of a choice.
pub fn line_of(choice: &Choice<'_>) -> u32
    ensures { result ≡ line_of (written_choice choice.now) }
{
    match choice {
        Choice::If { line } => *line,
        Choice::Evaluate { line, .. } => *line,
    }
}

/// Whether a word may be one of a test.
pub(crate) fn is_test_word(token: &Token) -> bool
    ensures { IsTrue result ↔ IsTestWord (lexeme token.now) }
{
    is_item_word(token) && branch_word(token).is_none() && !is_that_word(token, b"THEN")
}

/// The words behind the one in front, if that may be one of a test.
fn behind_test_word(words: &[Token]) -> Option<&[Token]>
    ensures found { IfSome result (λ r. (w : Lexeme) × IsTestWord w
        × (lexemes words.now ≡ w ∷ lexemes r.now)) }
    ensures none { IfNone result (NoTestWord (lexemes words.now)) }
{
    let (first, more) = words.split_first()?;
    if !is_test_word(first) {
        return None;
    }
    Some(more)
}

/// The words in front that may be those of a test, as many as there are, and what is behind them.
fn all_test_words_at(words: &[Token]) -> (&[Token], &[Token])
    ensures are { AllByRecursion IsTestWord (lexemes result.0.now) }
    ensures found { lexemes words.now ≡ lexemes result.0.now ++ lexemes result.1.now }
    ensures ends { NoTestWord (lexemes result.1.now) }
{
    let mut rest = words;
    while let Some(more) = behind_test_word(rest) {
        rest = more;
    }
    (front(words, rest.len()), rest)
}

/// Whether words that may be those of a test are one: there is a word.
fn are_test_words(words: &[Token]) -> bool
    requires { AllByRecursion IsTestWord (lexemes words.now) }
    ensures { IsTrue result ↔ AreTestWords (lexemes words.now) }
{
    match words.split_first() {
        Some(_) => true,
        None => false,
    }
}

/// The words of a test in front, one at least, and what is behind them.
fn test_words_at(words: &[Token]) -> Option<(&[Token], &[Token])>
    ensures found { IfSome result (λ r. AreTestWords (lexemes r.0.now)
        × NoTestWord (lexemes r.1.now) × (lexemes words.now ≡ lexemes r.0.now ++ lexemes r.1.now)) }
    ensures only { (own more : List Lexeme) → AreTestWords own → NoTestWord more
        → lexemes words.now ≡ own ++ more → AnswersWords result own more }
{
    let (own, rest) = all_test_words_at(words);
    if !are_test_words(own) {
        return None;
    }
    Some((own, rest))
}

/// IF in front, and what is behind it.
fn if_at(words: &[Token]) -> Option<(Choice<'_>, &[Token])>
    ensures found { IfSome result (λ r. ChoiceInFront r.0 (lexemes words.now) (lexemes r.1.now)) }
    ensures only { (line : ℕ) (head more : List Lexeme) → IsChoiceHead (AnIf line) head
        → lexemes words.now ≡ head ++ more → Answers written_choice result (AnIf line) more }
{
    let more = behind_passage_word(words, PassageWord::If)?;
    Some((
        Choice::If {
            line: first_line(words),
        },
        more,
    ))
}

/// EVALUATE with what it tests in front, and what is behind that.
fn evaluate_at(words: &[Token]) -> Option<(Choice<'_>, &[Token])>
    ensures found { IfSome result (λ r. ChoiceInFront r.0 (lexemes words.now) (lexemes r.1.now)) }
    ensures only { (line : ℕ) (subject head more : List Lexeme)
        → IsChoiceHead (AnEvaluate line subject) head → NoTestWord more
        → lexemes words.now ≡ head ++ more
        → Answers written_choice result (AnEvaluate line subject) more }
{
    let tested = behind_passage_word(words, PassageWord::Evaluate)?;
    let (subject, more) = test_words_at(tested)?;
    Some((
        Choice::Evaluate {
            line: first_line(words),
            subject,
        },
        more,
    ))
}

/// What stands before the branches of a choice in front, and what is behind it.
pub(crate) fn choice_head_at(words: &[Token]) -> Option<(Choice<'_>, &[Token])>
    ensures found { IfSome result (λ r. ChoiceInFront r.0 (lexemes words.now) (lexemes r.1.now)) }
    ensures only { (c : WrittenChoice) (head more : List Lexeme) → IsChoiceHead c head
        → NoTestAfter c more → lexemes words.now ≡ head ++ more
        → Answers written_choice result c more }
{
    if let Some((choice, more)) = if_at(words) {
        return Some((choice, more));
    }
    evaluate_at(words)
}

/// The words behind THEN in front, or all where it isn't there.
fn behind_then(words: &[Token]) -> &[Token]
    ensures found { (end : List Lexeme) × IsThen end
        × (lexemes words.now ≡ end ++ lexemes result.now) }
    ensures only { (end more : List Lexeme) → IsThen end → NoHeadWord more
        → lexemes words.now ≡ end ++ more → lexemes result.now ≡ more }
{
    match behind_text(words, b"THEN") {
        Some(more) => more,
        None => words,
    }
}

/// What stands before the statements of a branch of an IF in front, and what is behind it.
fn if_head_at(words: &[Token]) -> Option<(BranchTest<'_>, &[Token])>
    ensures found { IfSome result
        (λ r. BranchInFront ChoiceKind.If r.0 (lexemes words.now) (lexemes r.1.now)) }
    ensures only { (t : WrittenTest) (head more : List Lexeme)
        → IsBranchHead ChoiceKind.If t head → NoHeadWord more
        → lexemes words.now ≡ head ++ more → Answers written_test result t more }
{
    if let Some(more) = behind_branch_word(words, BranchWord::Else) {
        return Some((BranchTest::Otherwise, more));
    }
    let (test, behind) = test_words_at(words)?;
    Some((BranchTest::Tested(test), behind_then(behind)))
}

/// The words of a WHEN's test in front, and what is behind them.
fn when_test_at(words: &[Token]) -> Option<(BranchTest<'_>, &[Token])>
    ensures found { IfSome result (λ r. WhenTestInFront r.0 (lexemes words.now) (lexemes r.1.now)) }
    ensures only { (t : WrittenTest) (own more : List Lexeme) → IsWhenTest t own
        → NoHeadWord more → lexemes words.now ≡ own ++ more
        → Answers written_test result t more }
{
    if let Some(more) = behind_text(words, b"OTHER") {
        return Some((BranchTest::Otherwise, more));
    }
    let (test, behind) = test_words_at(words)?;
    Some((BranchTest::Tested(test), behind))
}

/// What stands before the statements of a branch of an EVALUATE in front, and what is behind it.
fn when_head_at(words: &[Token]) -> Option<(BranchTest<'_>, &[Token])>
    ensures found { IfSome result
        (λ r. BranchInFront ChoiceKind.Evaluate r.0 (lexemes words.now) (lexemes r.1.now)) }
    ensures only { (t : WrittenTest) (head more : List Lexeme)
        → IsBranchHead ChoiceKind.Evaluate t head → NoHeadWord more
        → lexemes words.now ≡ head ++ more → Answers written_test result t more }
{
    let tested = behind_branch_word(words, BranchWord::When)?;
    when_test_at(tested)
}

/// What stands before the statements of a branch in front, and what is behind it.
fn branch_head_at(kind: ChoiceKind, words: &[Token]) -> Option<(BranchTest<'_>, &[Token])>
    ensures found { IfSome result
        (λ r. BranchInFront kind r.0 (lexemes words.now) (lexemes r.1.now)) }
    ensures only { (t : WrittenTest) (head more : List Lexeme) → IsBranchHead kind t head
        → NoHeadWord more → lexemes words.now ≡ head ++ more
        → Answers written_test result t more }
{
    match kind {
        ChoiceKind::If => if_head_at(words),
        ChoiceKind::Evaluate => when_head_at(words),
    }
}

/// Whether neither a word of a test nor THEN comes first.
fn has_no_head_word(words: &[Token]) -> bool
    ensures { IsTrue result ↔ NoHeadWord (lexemes words.now) }
{
    match words.split_first() {
        Some((first, _)) => !is_test_word(first) && !is_that_word(first, b"THEN"),
        None => true,
    }
}

/// Whether the first of two words is WHEN and the second not OTHER.
fn begins_when(first: &Token, second: &Token) -> bool
    ensures { IsTrue result ↔ NextWhen (lexeme first.now ∷ lexeme second.now ∷ []) }
{
    is_branch_word(first, BranchWord::When) && !is_that_word(second, b"OTHER")
}

/// Whether WHEN with a test comes first.
pub(crate) fn next_when(words: &[Token]) -> bool
    ensures { IsTrue result ↔ NextWhen (lexemes words.now) }
{
    let Some((first, behind)) = words.split_first() else {
        return false;
    };
    match behind.split_first() {
        Some((second, _)) => begins_when(first, second),
        None => false,
    }
}

/// Whether these are the statements of the last branch of a choice.
fn are_last(own: &[Token], more: &[Token]) -> bool
    ensures { IsTrue result
        ↔ ((0 < length (lexemes own.now)) × (lexemes more.now ≡ [])) }
{
    !own.is_empty() && more.is_empty()
}

/// Whether a branch may share the statements of the next.
fn shares_next(kind: ChoiceKind, more: &[Token]) -> bool
    ensures { (test : List Lexeme) → (IsTrue result ↔ BranchEnds kind (Tested test) [] (lexemes more.now)) }
{
    match kind {
        ChoiceKind::If => false,
        ChoiceKind::Evaluate => next_when(more),
    }
}

/// Whether a branch with a test and these statements may end before these words.
fn tested_ends(kind: ChoiceKind, own: &[Token], more: &[Token]) -> bool
    requires { PartFirst kind (lexemes more.now) }
    ensures { (test : List Lexeme) → (IsTrue result
        ↔ BranchEnds kind (Tested test) (lexemes own.now) (lexemes more.now)) }
{
    match own.split_first() {
        Some(_) => true,
        None => shares_next(kind, more),
    }
}

/// Whether a branch with these statements may end before these words.
fn branch_ends(kind: ChoiceKind, test: &BranchTest<'_>, own: &[Token], more: &[Token]) -> bool
    requires { PartFirst kind (lexemes more.now) }
    ensures { IsTrue result
        ↔ BranchEnds kind (written_test test.now) (lexemes own.now) (lexemes more.now) }
{
    match test {
        BranchTest::Otherwise => are_last(own, more),
        BranchTest::Tested(_) => tested_ends(kind, own, more),
    }
}

/// The branch of a choice in front, and what is behind it.
pub(crate) fn branch_at(kind: ChoiceKind, words: &[Token]) -> Option<(PassageItem<'_>, &[Token])>
    ensures found { IfSome result (λ r. FrontAt (Place.Branches kind) (item_front r.0)
        (lexemes words.now) (lexemes r.1.now)) }
    ensures only { (t : WrittenTest) (own more : List Lexeme)
        → FrontAt (Place.Branches kind) (Branched t own) (lexemes words.now) more
        → AnswersFront result (Branched t own) more }
{
    let (test, inner) = branch_head_at(kind, words)?;
    if !has_no_head_word(inner) {
        return None;
    }
    let (body, more) = part_at(kind, inner)?;
    if !branch_ends(kind, &test, body, more) {
        return None;
    }
    Some((PassageItem::Branch { test, body }, more))
}

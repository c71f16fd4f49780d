//! The tests of branches.

ghost use Rattle.std.specs.Prelude.{◌≡◌, ◌⊎◌, IfErr, IfOk};
ghost use Rattle.cob_move_condition.specs.Conditions.{condition_of as meant};
ghost use Rattle.cob_move_loops.specs.Reading.{counters};
ghost use Rattle.cob_move_statements.specs.declared.fault.MoveRule.TheVariants.{Memory};
ghost use Rattle.cob_source.specs.Tokens.{lexemes};
ghost use Rattle.cob_move_tests.specs.Entries.{AllMayBeNamed, records_of, valued_in};
ghost use Rattle.std.specs.List.{AllByRecursion};
ghost use Rattle.cob_move_tests.specs.Asked.{AsksMore, IsSubscriptedEntry, IsTestable, sender_named};
ghost use Rattle.cob_move_choices.specs.Asked.{IsSubjectAsked, against};
ghost use Rattle.cob_move_choices.specs.Choices.{BreaksBranchTest, IsBranchTestOf};

use crate::subjects::Subject;
use crate::values::value_test;
use cob_move_condition::Condition;
use cob_move_loops::{Counter, in_turn};
use cob_move_statements::MoveRule;
use cob_move_tests::{Entries, NamedEntry, condition_of, has_no_counter};
use cob_source::Token;
use std::alloc::Global;

/// What the words of a test mean in a turn, in a choice that is held against this.
///
/// # Errors
///
/// The rule that its words break: `Grammar`, `Unknown`, `Ambiguous`, `Subscripts`, `Literal`, `NotComparable`; `Memory`.
pub fn branch_test(
    alloc: Global,
    entries: &Entries<'_, '_>,
    subject: Subject,
    words: &[Token],
    turn: &[Counter<'_>],
    asked: &mut Vec<NamedEntry>,
) -> Result<Condition, MoveRule>
    requires named { AllMayBeNamed entries.now }
    requires there { IsSubjectAsked asked.old.items subject }
    requires operands { AllByRecursion (IsSubscriptedEntry (records_of entries.now)) asked.old.items }
    ensures found { IfOk result (λ c. IsBranchTestOf (records_of entries.now) (valued_in entries.now) (counters turn.now)
        (against (sender_named (records_of entries.now) asked.old.items) subject)
        (lexemes words.now)
        (meant (sender_named (records_of entries.now) asked.new.items) c)) }
    ensures tested { IfOk result (IsTestable (records_of entries.now) asked.new.items) }
    // What was asked for before keeps its number, also where the words are refused.
    ensures asks { AsksMore (records_of entries.now) asked.old.items asked.new.items }
    ensures fault { IfErr result (λ r. (r ≡ Memory) ⊎ BreaksBranchTest r
        (records_of entries.now) (valued_in entries.now) (counters turn.now)
        (against (sender_named (records_of entries.now) asked.old.items) subject)
        (lexemes words.now)) }
{
    if !has_no_counter(turn, words) {
        return Err(MoveRule::Grammar);
    }
    let own = in_turn(alloc, words, turn)?;
    let turned = own.as_slice();
    match subject {
        Subject::Truth => {
            let test = condition_of(alloc, entries, turned, asked)?;
            Ok(test)
        }
        Subject::Entry(number) => {
            let test = value_test(alloc, entries, number, turned, asked.as_slice())?;
            Ok(test)
        }
    }
}

//! What statements mean.

ghost use Rattle.std.specs.Prelude.{◌≡◌, List, length, IfErr, IfOk};
ghost use Rattle.cob_move.specs.Between.{ArePairsOf};
ghost use Rattle.cob_move_tests.specs.Entries.{AllMayBeNamed, records_of};
ghost use Rattle.cob_move.specs.Among.{
  AreMeaningsAmong,
  BreaksAmong,
  BreaksOnAmong,
  HasOnlyMeant,
  IsMeaningAmong,
  SomeBrokenAmong,
  both,
};
ghost use Rattle.cob_move.specs.Meaning.{AreMeant};
ghost use Rattle.cob_move.specs.Refusals.{AreBroken, fault_on};
ghost use Rattle.cob_move_data.specs.Moves.{moves};
ghost use Rattle.cob_move_statements.specs.Written.{
  written_action,
  written_statement,
  written_statements,
};

use crate::corresponding::moves_of;
use crate::meaning_laws::{meant_break_no_rule, one_meant};
use crate::single::move_of;
use cob_layout::Layout;
use cob_move_data::StatementMoves;
use cob_move_names::{Correspondences, Names};
use cob_move_statements::{Action, MoveFault, MoveRule, Statement};
use cob_move_tests::Entries;
use std::alloc::Global;

/// The moves of what stands behind MOVE.
///
/// # Errors
///
/// A rule that it breaks, or `Memory`.
fn meaning_of(
    alloc: Global,
    entries: &Entries<'_, '_>,
    pairs: &mut Correspondences<'_>,
    action: &Action<'_>,
) -> Result<StatementMoves, MoveRule>
    requires named { AllMayBeNamed entries.now }
    requires pairs { ArePairsOf (records_of entries.now) pairs.old }
    ensures found { IfOk result (λ v. IsMeaningAmong entries.now (written_action action.now) v) }
    ensures fault { IfErr result (λ r. BreaksAmong r entries.now (written_action action.now)) }
    ensures pairs { ArePairsOf (records_of entries.now) pairs.new }
{
    match action {
        Action::Move { sender, receivers } => {
            let single = move_of(alloc, entries, sender, receivers.as_slice())?;
            Ok(StatementMoves::Single(single))
        }
        Action::Corresponding { from, to } => {
            let group = moves_of(alloc, entries, pairs, from, to)?;
            Ok(StatementMoves::Pairs(group))
        }
    }
}

/// The fault of a rule that a statement on this line breaks.
fn fault_on(rule: MoveRule, line: u32) -> MoveFault
    ensures { result ≡ fault_on rule line }
{
    match rule {
        MoveRule::Memory => MoveFault { rule, line: 0 },
        _ => MoveFault { rule, line },
    }
}

/// The moves of a statement, or its fault on its line.
fn statement_meaning(
    alloc: Global,
    entries: &Entries<'_, '_>,
    pairs: &mut Correspondences<'_>,
    statement: &Statement<'_>,
) -> Result<StatementMoves, MoveFault>
    requires named { AllMayBeNamed entries.now }
    requires pairs { ArePairsOf (records_of entries.now) pairs.old }
    ensures found { IfOk result (λ v. IsMeaningAmong entries.now
        (written_action statement.now.action) v) }
    ensures fault { IfErr result (λ f. BreaksOnAmong f entries.now
        (written_statement statement.now)) }
    ensures pairs { ArePairsOf (records_of entries.now) pairs.new }
{
    match meaning_of(alloc, entries, pairs, &statement.action) {
        Ok(own) => Ok(own),
        Err(rule) => Err(fault_on(rule, statement.line)),
    }
}

/// The moves of statements, one statement's behind another's.
pub(crate) fn meanings_of(
    alloc: Global,
    entries: &Entries<'_, '_>,
    pairs: &mut Correspondences<'_>,
    statements: &[Statement<'_>],
) -> Result<Vec<StatementMoves>, MoveFault>
    requires named { AllMayBeNamed entries.now }
    requires pairs { ArePairsOf (records_of entries.now) pairs.old }
    ensures found { IfOk result (λ v. AreMeaningsAmong entries.now
        (written_statements statements.now) v.items) }
    ensures many { IfOk result (λ v. length v.items ≡ length statements.now) }
    ensures fault { IfErr result (λ f. SomeBrokenAmong f entries.now
        (written_statements statements.now)) }
    ensures pairs { ArePairsOf (records_of entries.now) pairs.new }
{
    let mut list = Vec::with_capacity(alloc, statements.len())?;
    for statement in statements {
        let own = statement_meaning(alloc, entries, pairs, statement)?;
        list.push(own)?;
    }
    Ok(list)
}

/// The moves of statements among the entries that may be named, and what refuses them.
fn meant_among(
    alloc: Global,
    entries: &Entries<'_, '_>,
    statements: &[Statement<'_>],
) -> Result<Vec<StatementMoves>, MoveFault>
    requires named { AllMayBeNamed entries.now }
    ensures found { IfOk result (λ v. AreMeaningsAmong entries.now
        (written_statements statements.now) v.items) }
    ensures fault { IfErr result (λ f. SomeBrokenAmong f entries.now
        (written_statements statements.now)) }
{
    let mut pairs = Correspondences::new(alloc, entries.input.root(), entries.output.root());
    meanings_of(alloc, entries, &mut pairs, statements)
}

/// The moves of statements between two records, and what refuses them.
fn meant_between<'a>(
    alloc: Global,
    input: &'a Layout,
    output: &'a Layout,
    statements: &[Statement<'_>],
) -> Result<Vec<StatementMoves>, MoveFault>
    ensures found { IfOk result (λ v. AreMeant input.now output.now
        (written_statements statements.now) (moves (both input.now output.now) v.items)) }
    ensures fault { IfErr result (λ f. AreBroken f input.now output.now
        (written_statements statements.now)) }
{
    let names = Names::of(alloc, input, output)?;
    let entries = Entries {
        names: &names,
        input,
        output,
    };
    meant_among(alloc, &entries, statements)
}

/// The moves that statements mean between two records, one statement's behind another's.
///
/// # Errors
///
/// A rule that a statement breaks, with its line; `Memory`, with line 0.
pub fn all_meant(
    alloc: Global,
    input: &Layout,
    output: &Layout,
    statements: &[Statement<'_>],
) -> Result<Vec<StatementMoves>, MoveFault>
    // What is answered is what the statements mean.
    ensures found { IfOk result (λ v. AreMeant input.now output.now
        (written_statements statements.now) (moves (both input.now output.now) v.items)) }
    // What statements mean is answered, memory aside.
    ensures only { HasOnlyMeant (both input.now output.now)
        (written_statements statements.now) (λ v. v.items) result }
    // A refusal names a rule that a statement breaks, with the statement's line.
    ensures fault { IfErr result (λ f. AreBroken f input.now output.now
        (written_statements statements.now)) }
{
    // For `only`: statements have one meaning, and where they have one, break no rule.
    one_meant();
    meant_break_no_rule();
    let list = meant_between(alloc, input, output, statements)?;
    Ok(list)
}

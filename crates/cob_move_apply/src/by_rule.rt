//! Moves carried out statement by statement, by the rule of MOVE alone. So go those whose senders are read by any zones, which no step serves.

ghost use Rattle.std.specs.Prelude.{◌≡◌, ◌<◌, ◌≤◌, length, IfOk};
ghost use Rattle.std.specs.List.{AllByRecursion};
ghost use Rattle.cob_layout.specs.Sound.{IsSound};
ghost use Rattle.cob_layout.specs.Standing.{KeepsOf};
ghost use Rattle.cob_layout.specs.Storage.{greatest_length, IsStorage};
ghost use Rattle.cob_move_data.specs.Moves.{AreMoves, IsMove, move_by, moves_by, statement_moves_by};
ghost use Rattle.cob_move_data.specs.declared.operands.StatementMoves.TheVariants.{Pairs};
ghost use Rattle.cob_move_apply.specs.Applied.{Applied, IsMoved, ending};
ghost use Rattle.cob_move_apply.specs.ByRule.{AreUnnoted, NothingIsNoted, most_receivers};
ghost use Rattle.cob_move_apply.specs.Going.{IsBounded};
ghost use Rattle.cob_move_apply.specs.Promised.{IsPlanOf, MoveSpends, all_moves};
ghost use Rattle.cob_move_apply.specs.Steps.{StandFor, support_of};
ghost use Rattle.cob_move_apply.specs.Spent.{MovesSpend};
ghost use Rattle.cob_move_apply.specs.Surveyed.{HasSpace, IsWorkspace, records};

use crate::application::apply_some;
use crate::basis::{Basis, PlacedReceivers};
use crate::layouts::Layouts;
use crate::pairs::make_pair_move;
use crate::senders::make_move;
use crate::step::{Plan, Step};
use crate::stop::Stop;
use crate::workspace::Workspace;
use cob_move_data::{Move, PairMoves, StatementMoves};
use std::alloc::{AllocError, Global};

/// How many receivers a move of a statement has at most.
fn most_receivers(statement: &StatementMoves) -> usize
    ensures { result ≡ most_receivers statement.now }
{
    match statement {
        StatementMoves::Single(single) => single.receivers.len(),
        StatementMoves::Pairs(_) => 1,
    }
}

/// The greater of two numbers.
fn greater(one: usize, other: usize) -> usize
    ensures one { one ≤ result }
    ensures other { other ≤ result }
{
    if one < other { other } else { one }
}

/// How many receivers a move of these statements has at most.
fn most_of_all(statements: &[StatementMoves]) -> usize
    ensures { AllByRecursion (λ s. most_receivers s ≤ result) statements.now }
{
    let mut most = 0;
    let mut left = statements;
    while let Some((statement, behind)) = left.split_first() {
        most = greater(most, most_receivers(statement));
        left = behind;
    }
    most
}

/// Bases of which nothing is noted, for the moves of these statements.
///
/// # Errors
///
/// Where no memory is left.
pub(crate) fn unnoted_bases(
    alloc: Global,
    statements: &[StatementMoves],
) -> Result<Vec<Basis>, AllocError>
    ensures { IfOk result (λ bases. AreUnnoted statements.now bases.items) }
{
    let most = most_of_all(statements);
    let mut bases = Vec::new(alloc);
    while bases.len() <= most {
        bases.push(Basis::Counted(None))?;
    }
    Ok(bases)
}

/// Carries out the move of a statement that has one.
///
/// # Errors
///
/// The first thing missing. The storage is as the receivers before left it then.
fn apply_single(
    single: &Move,
    unnoted: &[Basis],
    layouts: &Layouts<'_>,
    input: &[u8],
    output: &mut [u8],
    space: &mut Workspace,
) -> Result<(), Stop>
    requires in_sound { IsSound layouts.now.input.now }
    requires out_sound { IsSound layouts.now.output.now }
    requires moved { IsMove (records layouts.now)
        (move_by layouts.now.reading (records layouts.now) single.now) }
    requires none { NothingIsNoted unnoted.now }
    requires room { length single.now.receivers.items < length unnoted.now }
    requires input { IsStorage layouts.now.input.now input.now }
    requires output { length output.old ≡ greatest_length layouts.now.output.now }
    requires space { IsWorkspace (records layouts.now) input.now output.old space.old }
    ensures moved { IsMoved (records layouts.now)
        (move_by layouts.now.reading (records layouts.now) single.now) input.now output.old
        (ending result output.new) }
    ensures space { IsWorkspace (records layouts.now) input.now output.new space.new }
    ensures spends { MoveSpends layouts.now
        (move_by layouts.now.reading (records layouts.now) single.now) input.now output.old result
        output.new space.old space.new }
{
    let entries = single.receivers.as_slice();
    let receivers = PlacedReceivers {
        entries,
        bases: &unnoted[1..entries.len() + 1],
    };
    make_move(
        &single.sender,
        unnoted[0],
        &receivers,
        layouts,
        input,
        output,
        space,
    )
}

/// Carries out the moves of the pairs of two groups.
///
/// # Errors
///
/// The first thing missing. The storage is as the moves before left it then.
fn apply_pairs(
    group: &PairMoves,
    unnoted: &[Basis],
    layouts: &Layouts<'_>,
    input: &[u8],
    output: &mut [u8],
    space: &mut Workspace,
) -> Result<(), Stop>
    requires in_sound { IsSound layouts.now.input.now }
    requires out_sound { IsSound layouts.now.output.now }
    requires moves { AreMoves (records layouts.now) (statement_moves_by layouts.now.reading
        (records layouts.now) (Pairs group.now)) }
    requires none { NothingIsNoted unnoted.now }
    requires room { 1 < length unnoted.now }
    requires input { IsStorage layouts.now.input.now input.now }
    requires output { length output.old ≡ greatest_length layouts.now.output.now }
    requires space { IsWorkspace (records layouts.now) input.now output.old space.old }
    ensures applied { Applied (records layouts.now) (statement_moves_by layouts.now.reading
        (records layouts.now) (Pairs group.now)) input.now output.old
        (ending result output.new) }
    ensures space { IsWorkspace (records layouts.now) input.now output.new space.new }
    ensures spends { MovesSpend (records layouts.now) (statement_moves_by layouts.now.reading
        (records layouts.now) (Pairs group.now)) input.now output.old result output.new
        space.old.output space.new.output }
{
    let both = &unnoted[..2];
    let mut left = group.pairs.as_slice();
    while let Some((pair, behind)) = left.split_first() {
        make_pair_move(group, pair, both, layouts, input, output, space)?;
        left = behind;
    }
    Ok(())
}

/// Carries out the moves of one statement.
///
/// # Errors
///
/// The first thing missing. The storage is as the receivers before left it then.
fn apply_statement(
    statement: &StatementMoves,
    unnoted: &[Basis],
    layouts: &Layouts<'_>,
    input: &[u8],
    output: &mut [u8],
    space: &mut Workspace,
) -> Result<(), Stop>
    requires in_sound { IsSound layouts.now.input.now }
    requires out_sound { IsSound layouts.now.output.now }
    requires moves { AreMoves (records layouts.now) (statement_moves_by layouts.now.reading
        (records layouts.now) statement.now) }
    requires none { NothingIsNoted unnoted.now }
    requires room { most_receivers statement.now < length unnoted.now }
    requires input { IsStorage layouts.now.input.now input.now }
    requires output { length output.old ≡ greatest_length layouts.now.output.now }
    requires space { IsWorkspace (records layouts.now) input.now output.old space.old }
    ensures applied { Applied (records layouts.now) (statement_moves_by layouts.now.reading
        (records layouts.now) statement.now) input.now output.old (ending result output.new) }
    ensures space { IsWorkspace (records layouts.now) input.now output.new space.new }
    ensures spends { MovesSpend (records layouts.now) (statement_moves_by layouts.now.reading
        (records layouts.now) statement.now) input.now output.old result output.new
        space.old.output space.new.output }
{
    match statement {
        StatementMoves::Single(single) => {
            apply_single(single, unnoted, layouts, input, output, space)
        }
        StatementMoves::Pairs(group) => {
            apply_pairs(group, unnoted, layouts, input, output, space)
        }
    }
}

/// Carries out the moves of statements, in order. What is kept of the counts of either record is that of its storage.
///
/// # Errors
///
/// The first thing missing. The storage is as the moves and receivers before left it then.
#[inline(never)]
pub(crate) fn apply_by_rule(
    statements: &[StatementMoves],
    unnoted: &[Basis],
    layouts: &Layouts<'_>,
    input: &[u8],
    output: &mut [u8],
    space: &mut Workspace,
) -> Result<(), Stop>
    requires in_sound { IsSound layouts.now.input.now }
    requires out_sound { IsSound layouts.now.output.now }
    requires moves { AreMoves (records layouts.now)
        (moves_by layouts.now.reading (records layouts.now) statements.now) }
    requires unnoted { AreUnnoted statements.now unnoted.now }
    requires input { IsStorage layouts.now.input.now input.now }
    requires output { length output.old ≡ greatest_length layouts.now.output.now }
    requires space { IsWorkspace (records layouts.now) input.now output.old space.old }
    ensures applied { Applied (records layouts.now)
        (moves_by layouts.now.reading (records layouts.now) statements.now) input.now output.old
        (ending result output.new) }
    ensures space { IsWorkspace (records layouts.now) input.now output.new space.new }
    ensures spends { MovesSpend (records layouts.now)
        (moves_by layouts.now.reading (records layouts.now) statements.now) input.now output.old
        result output.new space.old.output space.new.output }
{
    let mut left = statements;
    while let Some((statement, behind)) = left.split_first() {
        apply_statement(statement, unnoted, layouts, input, output, space)?;
        left = behind;
    }
    Ok(())
}

/// Some of the statements that a plan was made for: with the steps that stand for their moves, and with bases of which nothing is noted.
#[derive(Clone, Copy)]
pub(crate) struct Chosen<'a> {
    pub(crate) statements: &'a [StatementMoves],
    pub(crate) steps: &'a [Step],
    pub(crate) unnoted: &'a [Basis],
}

/// Carries out the moves of some statements, in order: by the steps of the plan, or by the rule of MOVE alone where senders are read by any zones. What is kept of
/// the counts of either record is that of its storage.
///
/// # Errors
///
/// The first thing missing. The storage is as the moves and receivers before left it then.
#[inline(always)]
pub(crate) fn apply_chosen(
    given: &[StatementMoves],
    plan: &Plan,
    some: &Chosen<'_>,
    layouts: &Layouts<'_>,
    input: &[u8],
    output: &mut [u8],
    space: &mut Workspace,
) -> Result<(), Stop>
    requires in_sound { IsSound layouts.now.input.now }
    requires out_sound { IsSound layouts.now.output.now }
    requires steps { StandFor layouts.now.reading (records layouts.now) given.now
        some.now.steps.now (support_of plan.now)
        (moves_by layouts.now.reading (records layouts.now) some.now.statements.now) }
    requires moves { AreMoves (records layouts.now)
        (moves_by layouts.now.reading (records layouts.now) some.now.statements.now) }
    requires unnoted { AreUnnoted some.now.statements.now some.now.unnoted.now }
    requires input { IsStorage layouts.now.input.now input.now }
    requires output { length output.old ≡ greatest_length layouts.now.output.now }
    requires space { IsWorkspace (records layouts.now) input.now output.old space.old }
    ensures applied { Applied (records layouts.now)
        (moves_by layouts.now.reading (records layouts.now) some.now.statements.now) input.now
        output.old (ending result output.new) }
    ensures space { IsWorkspace (records layouts.now) input.now output.new space.new }
    ensures spends { MovesSpend (records layouts.now)
        (moves_by layouts.now.reading (records layouts.now) some.now.statements.now) input.now
        output.old result output.new space.old.output space.new.output }
{
    if layouts.reading.takes_any_zones() {
        apply_by_rule(some.statements, some.unnoted, layouts, input, output, space)
    } else {
        apply_some(given, plan, some.steps, layouts, input, output, space)
    }
}

/// Carries out all moves of a plan, in order, as [`apply_chosen`] does. What is kept of the input's counts is that of this input.
///
/// # Errors
///
/// The first thing missing. The storage is as the moves and receivers before left it then.
#[inline(always)]
pub(crate) fn apply_in(
    given: &[StatementMoves],
    plan: &Plan,
    unnoted: &[Basis],
    layouts: &Layouts<'_>,
    input: &[u8],
    output: &mut [u8],
    space: &mut Workspace,
) -> Result<(), Stop>
    requires in_sound { IsSound layouts.now.input.now }
    requires out_sound { IsSound layouts.now.output.now }
    requires steps { IsPlanOf given.now plan.now layouts.now }
    requires moves { AreMoves (records layouts.now) (all_moves layouts.now given.now) }
    requires unnoted { AreUnnoted given.now unnoted.now }
    requires input { IsStorage layouts.now.input.now input.now }
    requires output { length output.old ≡ greatest_length layouts.now.output.now }
    requires space { HasSpace (records layouts.now) space.old }
    requires kept { KeepsOf layouts.now.input.now input.now space.old.input.counts }
    ensures applied { Applied (records layouts.now) (all_moves layouts.now given.now) input.now
        output.old (ending result output.new) }
    ensures space { IsWorkspace (records layouts.now) input.now output.new space.new }
    ensures reads { IsBounded (records layouts.now) (all_moves layouts.now given.now) input.now
        output.old space.new.output }
{
    space.forget_output();
    let steps = plan.steps.as_slice();
    let all = Chosen {
        statements: given,
        steps,
        unnoted,
    };
    apply_chosen(given, plan, &all, layouts, input, output, space)
}

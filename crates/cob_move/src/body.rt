//! Words behind a heading, read turn by turn.

ghost use Rattle.std.specs.Prelude.{◌≡◌, [], map, IfErr, IfOk, OnOk};
ghost use Rattle.std.specs.List.{AllByRecursion};
ghost use Rattle.cob_move_apply.specs.Entries.{IsPlacedEntry};
ghost use Rattle.cob_move_tests.specs.Asked.{IsSubscriptedEntry};
ghost use Rattle.cob_move_data.specs.Moves.{AreMoves, moves};
ghost use Rattle.cob_move_deeds.specs.Prepared.{deeds_of};
ghost use Rattle.cob_move_loops.specs.Bounded.{AreBounded, LacksBound};
ghost use Rattle.cob_move_loops.specs.Passages.{IsPassage, Passage};
ghost use Rattle.cob_move_statements.specs.declared.fault.MoveRule.TheVariants.{Counter};
ghost use Rattle.cob_source.specs.Tokens.{lexemes};
ghost use Rattle.cob_move.specs.Among.{both};
ghost use Rattle.cob_move_tests.specs.Entries.{AllMayBeNamed, nameable, records_of};
ghost use Rattle.cob_move.specs.Between.{ArePairsOf};
ghost use Rattle.cob_move.specs.DeedsRead.{AddsDeeds, DeedsRefused, HasBounds, HasTests, IsMade, IsReadied, SaysDeeds, TellsFault, made_lists, named_of, nothing_made, open_deeds};
ghost use Rattle.cob_move.specs.Loops.{AreLiteralWords, HasJudged};
ghost use Rattle.cob_move.specs.Paragraphs.{AreReady};

use crate::deeds::add_passage;
use crate::loops::{fault_of, judge, moves_of_body};
use crate::made::{Made, NotRead};
use crate::meaning_laws::meant_are_moves;
use crate::pieces::refused_memory;
use cob_layout::Layout;
use cob_move_apply::{MarkedMoves, PlacedEntry};
use cob_move_data::StatementMoves;
use cob_move_deeds::{Asked, ReadyDeeds};
use cob_move_loops::{check_bounds, opening_line};
use cob_move_names::Correspondences;
use cob_move_statements::{MoveFault, MoveRule};
use cob_move_tests::{Entries, NamedEntry};
use cob_source::Token;
use std::alloc::{AllocError, Global};

impl Made {
    /// Nothing is made yet.
    pub(crate) fn new(alloc: Global) -> Made
        ensures { made_lists result ≡ nothing_made }
    {
        Made {
            list: Vec::new(alloc),
            ends: Vec::new(alloc),
            bounds: Vec::new(alloc),
            asked: Vec::new(alloc),
            conditions: Vec::new(alloc),
            flows: Vec::new(alloc),
            read: 0,
        }
    }
}

/// The fault of words behind a heading that are not read: where they come to too much, on the line of the first loop or choice.
fn fault_told(why: NotRead, body: &[Token]) -> MoveFault
    ensures { TellsFault why result (lexemes body.now) }
{
    match why {
        NotRead::Memory => refused_memory(),
        NotRead::TooMany => fault_of(MoveRule::TooMany, opening_line(body)),
        NotRead::Broken(fault) => fault,
    }
}

/// Checks that the loops to items of a passage are bounded.
///
/// # Errors
///
/// `Counter`, with the line of one that isn't.
fn check_bounded(body: &[Token]) -> Result<(), MoveFault>
    ensures bounded { OnOk result ((p : Passage) → IsPassage p (lexemes body.now) → AreBounded p) }
    ensures fault { IfErr result (λ f. (f.rule ≡ Counter)
        × ((p : Passage) → IsPassage p (lexemes body.now) → LacksBound p f.line)) }
{
    match check_bounds(body) {
        Ok(()) => Ok(()),
        Err(line) => Err(fault_of(MoveRule::Counter, line)),
    }
}

/// The entries that conditions ask for, ready to be read.
///
/// # Errors
///
/// Where no memory is left.
fn placed_entries(
    alloc: Global,
    asked: Vec<NamedEntry>,
    input: &Layout,
    output: &Layout,
) -> Result<Vec<PlacedEntry>, AllocError>
    requires operands { AllByRecursion (IsSubscriptedEntry (both input.now output.now)) asked.items }
    ensures named { IfOk result (λ v. map named_of v.items ≡ asked.items) }
    ensures placed { IfOk result
        (λ v. AllByRecursion (IsPlacedEntry (both input.now output.now)) v.items) }
{
    let mut placed = Vec::new(alloc);
    for named in asked {
        let entry = PlacedEntry::new(named.side, named.entry, input, output);
        placed.push(entry)?;
    }
    Ok(placed)
}

/// What is made so far, ready to be carried out.
///
/// # Errors
///
/// Where no memory is left.
fn ready_deeds(
    alloc: Global,
    made: Made,
    input: &Layout,
    output: &Layout,
) -> Result<ReadyDeeds, AllocError>
    requires made { IsMade (both input.now output.now) (made_lists made) }
    ensures { IfOk result (IsReadied (both input.now output.now) (made_lists made)) }
{
    let mut made = made;
    made.close()?;
    let Made {
        list,
        ends,
        bounds,
        asked,
        conditions,
        flows,
        ..
    } = made;
    let entries = placed_entries(alloc, asked, input, output)?;
    let moves = MarkedMoves::new(alloc, list, ends.as_slice(), input, output)?;
    let loops = Vec::new(alloc);
    let tests = Asked {
        entries,
        conditions,
    };
    let deeds = ReadyDeeds::new(moves, bounds, loops, tests, flows);
    let steady = deeds.with_steady_bounds(alloc, output)?;
    let ready = steady.with_ready_tests(alloc, input, output)?;
    Ok(ready)
}

/// Moves in order, and no test among them, ready to be carried out.
///
/// # Errors
///
/// Where no memory is left.
pub(crate) fn straight_deeds(
    alloc: Global,
    list: Vec<StatementMoves>,
    input: &Layout,
    output: &Layout,
) -> Result<ReadyDeeds, AllocError>
    requires given { AreMoves (both input.now output.now)
        (moves (both input.now output.now) list.items) }
    ensures deeds { IfOk result (λ d. deeds_of (both input.now output.now) d
        ≡ open_deeds (both input.now output.now) list.items) }
    ensures ready { IfOk result (AreReady (both input.now output.now)) }
{
    let mut made = Made::new(alloc);
    made.list = list;
    let deeds = ready_deeds(alloc, made, input, output)?;
    Ok(deeds)
}

/// What words behind a heading come to that have no choice and whose loops all end by numbers, ready to be carried out.
///
/// # Errors
///
/// A rule that their statements break, with its line; `Memory`.
fn literal_deeds(
    alloc: Global,
    entries: &Entries<'_, '_>,
    pairs: &mut Correspondences<'_>,
    body: &[Token],
) -> Result<ReadyDeeds, MoveFault>
    requires named { AllMayBeNamed entries.now }
    requires pairs { ArePairsOf (records_of entries.now) pairs.old }
    requires judged { HasJudged (nameable entries.now) (lexemes body.now) }
    requires literal { AreLiteralWords (lexemes body.now) }
    ensures found { IfOk result (λ d. SaysDeeds entries.now (lexemes body.now)
        (deeds_of (records_of entries.now) d)) }
    ensures ready { IfOk result (AreReady (records_of entries.now)) }
    ensures fault { IfErr result (λ f. DeedsRefused f entries.now (lexemes body.now)) }
{
    // For what is made ready: what statements mean are moves between the records, and both layouts are those of record descriptions.
    meant_are_moves();
    let _ = entries.input.root();
    let _ = entries.output.root();
    let list = moves_of_body(alloc, entries, pairs, body)?;
    let deeds = straight_deeds(alloc, list, entries.input, entries.output)?;
    Ok(deeds)
}

/// What is made of words behind a heading, read turn by turn.
///
/// # Errors
///
/// A rule that they break, with its line; `Memory`.
fn made_of_body(
    alloc: Global,
    entries: &Entries<'_, '_>,
    pairs: &mut Correspondences<'_>,
    body: &[Token],
) -> Result<Made, MoveFault>
    requires named { AllMayBeNamed entries.now }
    requires pairs { ArePairsOf (records_of entries.now) pairs.old }
    requires bounds { HasBounds (lexemes body.now) }
    requires item { HasTests (lexemes body.now) }
    ensures made { IfOk result (λ m. IsMade (records_of entries.now) (made_lists m)) }
    ensures added { IfOk result (λ m. AddsDeeds entries.now [] (lexemes body.now) nothing_made
        (made_lists m)) }
    ensures fault { IfErr result (λ f. DeedsRefused f entries.now (lexemes body.now)) }
{
    let mut made = Made::new(alloc);
    match add_passage(alloc, entries, pairs, body, &[], &mut made) {
        Ok(()) => Ok(made),
        Err(why) => Err(fault_told(why, body)),
    }
}

/// What words behind a heading come to that have a loop to an item or a choice, ready to be carried out.
///
/// # Errors
///
/// A rule that they break, with its line; `Memory`.
fn tested_deeds(
    alloc: Global,
    entries: &Entries<'_, '_>,
    pairs: &mut Correspondences<'_>,
    body: &[Token],
) -> Result<ReadyDeeds, MoveFault>
    requires named { AllMayBeNamed entries.now }
    requires pairs { ArePairsOf (records_of entries.now) pairs.old }
    requires judged { HasJudged (nameable entries.now) (lexemes body.now) }
    requires item { HasTests (lexemes body.now) }
    ensures found { IfOk result (λ d. SaysDeeds entries.now (lexemes body.now)
        (deeds_of (records_of entries.now) d)) }
    ensures ready { IfOk result (AreReady (records_of entries.now)) }
    ensures fault { IfErr result (λ f. DeedsRefused f entries.now (lexemes body.now)) }
{
    check_bounded(body)?;
    let made = made_of_body(alloc, entries, pairs, body)?;
    let deeds = ready_deeds(alloc, made, entries.input, entries.output)?;
    Ok(deeds)
}

/// What words behind a heading come to, ready to be carried out. Where no test is among them, it is read run by run.
///
/// # Errors
///
/// A rule that they break, with its line; `Memory`.
pub(crate) fn deeds_of_body(
    alloc: Global,
    entries: &Entries<'_, '_>,
    pairs: &mut Correspondences<'_>,
    body: &[Token],
) -> Result<ReadyDeeds, MoveFault>
    requires named { AllMayBeNamed entries.now }
    requires pairs { ArePairsOf (records_of entries.now) pairs.old }
    ensures found { IfOk result (λ d. SaysDeeds entries.now (lexemes body.now)
        (deeds_of (records_of entries.now) d)) }
    ensures ready { IfOk result (AreReady (records_of entries.now)) }
    ensures fault { IfErr result (λ f. DeedsRefused f entries.now (lexemes body.now)) }
{
    let literal = judge(alloc, entries.names, body)?;
    if literal {
        return literal_deeds(alloc, entries, pairs, body);
    }
    tested_deeds(alloc, entries, pairs, body)
}

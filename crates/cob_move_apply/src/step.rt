//! Steps: what is carried out in the place of moves.

ghost use Rattle.std.specs.Prelude.{◌≡◌, ◌+◌, ◌≤◌, false, length, min, IfNone, IfSome, IsTrue, None, IfOk};
ghost use Rattle.cob_limits.specs.Limits.{longest_record};
ghost use Rattle.cob_layout.specs.Fields.{field_of, with_field};
ghost use Rattle.cob_move_apply.specs.Joined.{copy_ends, goes_on_from};
ghost use Rattle.cob_move_apply.specs.Planned.{AreWithinLongest, counted_steps, step_count, step_ends};
ghost use Rattle.cob_move_apply.specs.Steps.{StandsBefore, StandsForPrepared, StandsForWithin};
ghost use Rattle.cob_move_apply.specs.Told.{most_moves_told};
ghost use Rattle.cob_move_apply.specs.Written.{IsBoth};

use crate::basis::Basis;
use cob_layout::{Place, Ref, field};
use cob_move_steps::{
    CharactersStep, ConstantStep, MoveStep, MoveSteps, PicturedStep, PicturedSteps, copy_all,
};
use std::alloc::AllocError;

/// A part of the moves of a statement: its one move with so many of the receivers, or the move of one pair.
#[derive(Clone, Copy)]
pub(crate) struct Part {
    /// The number of the statement.
    pub(crate) statement: u32,
    /// The number of the first of these receivers, or of the pair.
    pub(crate) first: u32,
    /// How many receivers these are.
    pub(crate) count: u32,
    /// Where the bases of the sender and of these receivers begin.
    pub(crate) base: u32,
}

/// Where a move takes bytes from in the record of its sender, and where it puts bytes in the output record.
#[derive(Clone, Copy)]
pub(crate) struct MovePlaces {
    pub(crate) from: Place,
    pub(crate) to: Place,
}

/// A single move between two places that are the same in every storage, made ready.
#[derive(Clone, Copy)]
pub(crate) struct PreparedMove {
    /// Where the sender and the receiver stand.
    pub(crate) places: MovePlaces,
    /// What carries the move out.
    pub(crate) step: MoveStep,
}

/// A single move of a number between two such places, made ready.
#[derive(Clone, Copy)]
pub(crate) struct NumberedMove {
    /// Where the sender and the receiver stand.
    pub(crate) places: MovePlaces,
    /// The number of what carries the move out.
    pub(crate) number: usize,
}

/// A single move of characters between two such places, made ready.
#[derive(Clone, Copy)]
pub(crate) struct CharactersMove {
    /// Where the sender and the receiver stand.
    pub(crate) places: MovePlaces,
    /// What carries the move out.
    pub(crate) step: CharactersStep,
}

/// A single move between two such places, made ready where its sender is read as its picture says.
#[derive(Clone, Copy)]
pub(crate) struct PicturedMove {
    /// Where the sender and the receiver stand.
    pub(crate) places: MovePlaces,
    /// What carries the move out.
    pub(crate) step: PicturedStep,
}

/// A single move of a constant to a place that is the same in every storage, made ready.
#[derive(Clone, Copy)]
pub(crate) struct ConstantMove {
    /// Where the receiver stands in the output record.
    pub(crate) to: Place,
    /// The number of what writes its bytes.
    pub(crate) number: usize,
}

/// What carries out the moves of one item to another, wherever they stand.
#[derive(Clone, Copy)]
pub(crate) enum LocatedStep {
    /// Characters, of as many bytes as the sender has where it stands; whether they stand from the right.
    Characters(bool),
    /// Whatever the reading of binary senders.
    Always(MoveStep),
    /// Where senders are read as their pictures say.
    Pictured(PicturedStep),
    /// The rule of MOVE itself: what sender and receiver describe is looked at as the move is carried out.
    Rule,
}

/// A single move of an entry of one of the records to one of the output record, made ready wherever these stand. An item has as many bytes everywhere; a
/// group, which has those of its tables that vary, gives and takes characters.
#[derive(Drop)]
pub(crate) struct LocatedMove {
    pub(crate) sent: Ref,
    /// What the place of the sender rests on.
    pub(crate) from: Basis,
    pub(crate) receiver: Ref,
    /// What the place of the receiver rests on.
    pub(crate) to: Basis,
    /// What carries the move out.
    pub(crate) step: LocatedStep,
}

/// A single move of a constant to an item of the output record, made ready wherever this stands: it has as many bytes everywhere.
#[derive(Drop)]
pub(crate) struct LocatedConstant {
    pub(crate) receiver: Ref,
    /// What the place of the receiver rests on.
    pub(crate) to: Basis,
    /// The number of what writes its bytes.
    pub(crate) number: usize,
}

/// What is carried out at once. Single moves that were made ready stand here by their kinds, so that one jump finds what carries them out; those of rarer
/// kinds stand together.
#[derive(Clone, Copy)]
pub(crate) enum Step {
    /// Places and categories are looked at as the step is carried out.
    Part(Part),
    /// A single move of a number from one item to another was made ready.
    Number(NumberedMove),
    /// The same to an item of more than sixteen digits.
    Wide(NumberedMove),
    /// The same of a number that an item of any kind gives to one of any kind.
    AnyNumber(NumberedMove),
    /// The same to an edited item.
    Edited(NumberedMove),
    /// A single move of characters was made ready.
    Characters(CharactersMove),
    /// A single move of another kind was made ready.
    Prepared(PreparedMove),
    /// A single move was made ready where senders are read as their pictures say; else it is this part.
    Pictured(PicturedMove, Part),
    /// A single move of a constant was made ready.
    Constant(ConstantMove),
    /// A single move between items was made ready, and where they stand is found as the step is carried out: the one that has this number.
    Located(usize),
    /// The same of a constant: the one that has this number.
    LocatedConstant(usize),
    /// A single move from one place of the output record to another was made ready, whatever bytes these share.
    Within(PreparedMove),
    /// The same of a number from one item to another behind it.
    WithinNumber(NumberedMove),
    /// The same of a number to an edited item behind it.
    WithinEdited(NumberedMove),
    /// A single move between entries of the output record was made ready, and where they stand is found as the step is carried out: the one that has this
    /// number.
    LocatedWithin(usize),
    /// Bytes of the input record are copied: one single move, or several, each of which begins on both sides where the one before ends.
    Copy(MovePlaces),
}

/// Steps that stand for moves, and what these rest on.
#[derive(Drop)]
pub(crate) struct Plan {
    pub(crate) steps: Vec<Step>,
    /// What the places of the operands of parts rest on, one part's behind another's.
    pub(crate) bases: Vec<Basis>,
    /// What carries out the single moves that were made ready.
    pub(crate) prepared: MoveSteps,
    /// What carries out those that were made ready where senders are read as their pictures say.
    pub(crate) pictured: PicturedSteps,
    /// What writes the constants of moves that were made ready.
    pub(crate) constants: Vec<ConstantStep>,
    /// The single moves that were made ready wherever their items stand.
    pub(crate) located: Vec<LocatedMove>,
    /// Those of constants that were.
    pub(crate) located_constants: Vec<LocatedConstant>,
    /// Those between entries of the output record that were.
    pub(crate) within: Vec<LocatedMove>,
}

/// A number of 32 bits.
///
/// # Errors
///
/// Where it doesn't fit: no memory has room for as many statements, receivers or bases.
fn in_32_bits(number: usize) -> Result<u32, AllocError>
    ensures { IfOk result (λ same. same ≡ number) }
{
    match u32::try_from(number) {
        Ok(same) => Ok(same),
        Err(_) => Err(AllocError),
    }
}

/// The part of these numbers.
///
/// # Errors
///
/// Where one of them doesn't fit 32 bits: no memory has room for as many.
pub(crate) fn part_of(
    statement: usize,
    first: usize,
    count: usize,
    base: usize,
) -> Result<Part, AllocError>
    ensures { IfOk result (λ part. part
        ≡ record { statement = statement; first = first; count = count; base = base }) }
{
    Ok(Part {
        statement: in_32_bits(statement)?,
        first: in_32_bits(first)?,
        count: in_32_bits(count)?,
        base: in_32_bits(base)?,
    })
}

/// The place of both, where the second begins where the first ends.
fn both_places(front: Place, next: Place) -> Option<Place>
    requires short { next.offset + next.length ≤ longest_record }
    ensures both { IfSome result (IsBoth front next) }
    ensures none { IfNone result (front.offset + front.length ≡ next.offset → ⊥) }
{
    let end = u64::from(front.offset) + u64::from(front.length);
    if end != u64::from(next.offset) {
        return None;
    }
    Some(Place {
        offset: front.offset,
        length: front.length + next.length,
    })
}

/// Two copies as one, where the second begins on both sides where the first ends.
pub(crate) fn both_copies(front: MovePlaces, next: MovePlaces) -> Option<MovePlaces>
    requires short { AreWithinLongest next }
    ensures from { IfSome result (λ both. IsBoth front.from next.from both.from) }
    ensures to { IfSome result (λ both. IsBoth front.to next.to both.to) }
    ensures none { IfNone result (goes_on_from (copy_ends front) next ≡ false) }
{
    let from = both_places(front.from, next.from)?;
    let to = both_places(front.to, next.to)?;
    Some(MovePlaces { from, to })
}

/// Copies the bytes of a place of the input to a place of the output.
#[inline(always)]
pub(crate) fn copy_across(places: MovePlaces, input: &[u8], output: &mut [u8])
    requires reads { places.from.offset + places.from.length ≤ length input.now }
    requires writes { places.to.offset + places.to.length ≤ length output.old }
    requires same { places.from.length ≡ places.to.length }
    ensures { output.new ≡ with_field output.old places.to (field_of places.from input.now) }
{
    let start = places.to.offset as usize;
    let end = start + places.to.length as usize;
    copy_all(field(input, places.from), &mut output[start..end]);
}

/// The step that carries a single move out.
pub(crate) fn prepared_step(one: PreparedMove) -> Step
    ensures stands { StandsForPrepared one result }
    ensures counts { step_count result ≡ 1 }
    ensures ends { step_ends result ≡ None }
{
    let places = one.places;
    match one.step {
        MoveStep::Number(number) => Step::Number(NumberedMove { places, number }),
        MoveStep::Wide(number) => Step::Wide(NumberedMove { places, number }),
        MoveStep::AnyNumber(number) => Step::AnyNumber(NumberedMove { places, number }),
        MoveStep::Edited(number) => Step::Edited(NumberedMove { places, number }),
        MoveStep::WideEdited(_) => Step::Prepared(one),
        MoveStep::Numerals(_) => Step::Prepared(one),
        MoveStep::Text(_) => Step::Prepared(one),
        MoveStep::Long(_) => Step::Prepared(one),
        MoveStep::Characters(step) => Step::Characters(CharactersMove { places, step }),
    }
}

/// Whether the bytes of the sender end before those of the receiver begin.
fn stands_before(places: MovePlaces) -> bool
    ensures { IsTrue result → StandsBefore places }
{
    let end = u64::from(places.from.offset) + u64::from(places.from.length);
    end <= u64::from(places.to.offset)
}

/// The step that carries a single move from one place of the output record to another out.
pub(crate) fn within_step(one: PreparedMove) -> Step
    ensures stands { StandsForWithin one result }
    ensures counts { step_count result ≡ 1 }
    ensures ends { step_ends result ≡ None }
{
    let places = one.places;
    if !stands_before(places) {
        return Step::Within(one);
    }
    match one.step {
        MoveStep::Number(number) => Step::WithinNumber(NumberedMove { places, number }),
        MoveStep::Edited(number) => Step::WithinEdited(NumberedMove { places, number }),
        MoveStep::Wide(_) => Step::Within(one),
        MoveStep::AnyNumber(_) => Step::Within(one),
        MoveStep::WideEdited(_) => Step::Within(one),
        MoveStep::Numerals(_) => Step::Within(one),
        MoveStep::Text(_) => Step::Within(one),
        MoveStep::Long(_) => Step::Within(one),
        MoveStep::Characters(_) => Step::Within(one),
    }
}

/// For how many steps a step is counted: a part for each of its receivers.
fn step_count(step: Step) -> usize
    ensures { result ≡ step_count step }
{
    match step {
        Step::Part(part) => part.count as usize,
        Step::Number(_) | Step::Wide(_) | Step::AnyNumber(_) | Step::Edited(_) => 1,
        Step::Characters(_) | Step::Prepared(_) => 1,
        Step::Pictured(_, _) | Step::Constant(_) => 1,
        Step::Located(_) | Step::LocatedConstant(_) | Step::Copy(_) => 1,
        Step::Within(_) | Step::WithinNumber(_) | Step::WithinEdited(_) => 1,
        Step::LocatedWithin(_) => 1,
    }
}

/// A number, or the greatest u32 where it is more.
pub(crate) fn at_most_u32(count: usize) -> u32
    ensures { result ≡ min count most_moves_told }
{
    if count < u32::MAX as usize {
        count as u32
    } else {
        u32::MAX
    }
}

/// For how many steps these are counted. More than a u32 holds come as the greatest u32.
pub(crate) fn counted(steps: &[Step]) -> u32
    ensures { result ≡ min (counted_steps steps.now) most_moves_told }
{
    let mut count: usize = 0;
    for step in steps {
        count = count.saturating_add(step_count(*step));
    }
    at_most_u32(count)
}

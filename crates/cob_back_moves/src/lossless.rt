//! Whether moves there and back lose nothing, and the first point in which they may lose something.

ghost use Rattle.std.specs.Prelude.{◌≡◌, IfNone, IfSome};
ghost use Rattle.std.specs.Bool.{Decides};
ghost use Rattle.cob_back_moves.specs.Apart.{StandsOneWay};
ghost use Rattle.cob_back_moves.specs.Returns.{AreTurned};
ghost use Rattle.cob_back_moves.specs.Brought.{AreLegal, singles_in};
ghost use Rattle.cob_back_moves.specs.Losses.{AreAllNamed, AreSimple, BringAllBack, BringBack, IsLoss, IsLossOf, LoseItem, LoseNothing, ReturnAll, StandOneWay};
ghost use Rattle.cob_back_moves.specs.Tested.{layout_records};

use crate::books::is_same_layout;
use crate::each::{are_elementary, are_named, are_read_pictured};
use crate::noted::MOST_BYTES;
use crate::once::receive_once_in;
use crate::returned::Starts;
use crate::single::BothLayouts;
use crate::some::MovesBetween;
use crate::standing::stands_one_way;
use crate::walk::first_lost;
use cob_layout::Layout;

/// The moves there, or the moves back.
#[derive(Clone, Copy, PartialEq, Eq)]
pub enum Direction {
    There,
    Back,
}

/// A point in which moves there and back may lose something.
#[derive(Clone, Copy, PartialEq, Eq)]
pub enum Loss {
    /// The records of the moves back aren't those of the moves there with their sides exchanged.
    Records,
    /// In a record of these moves an entry redefines another, or a table varies.
    Storage(Direction),
    /// One of these moves doesn't send an item of the input record, or doesn't send it to an item.
    Operand(Direction),
    /// One of these moves sends a binary item that is read whole.
    Reading(Direction),
    /// An occurrence receives twice in these moves.
    Receiver(Direction),
    /// A receiver back has no name in the record from which the moves there go.
    Name,
    /// An occurrence of the entry with this number, a named item of that record, isn't moved to an item that loses nothing of it and moved back.
    Item(usize),
}

/// Whether the records of moves back are those of the moves there with their sides exchanged, the names of the records apart.
fn are_turned(there: &BothLayouts<'_>, back: &BothLayouts<'_>) -> bool
    ensures { Decides result (AreTurned (layout_records there.now) (layout_records back.now)) }
{
    is_same_layout(there.output, back.input) && is_same_layout(there.input, back.output)
}

/// Whether a record stands in one way.
fn layout_stands_one_way(layout: &Layout) -> bool
    ensures { Decides result (StandsOneWay layout.now) }
{
    stands_one_way(layout.root())
}

/// Whether both records stand in one way.
fn stand_one_way(layouts: &BothLayouts<'_>) -> bool
    ensures { Decides result (StandOneWay layouts.now) }
{
    layout_stands_one_way(layouts.input) && layout_stands_one_way(layouts.output)
}

/// Whether the receivers of moves back have names in the record from which the moves there go.
fn are_all_named(there: &MovesBetween<'_>, back: &MovesBetween<'_>) -> bool
    requires { AreLegal back.now }
    ensures { Decides result (AreAllNamed there.now.layouts.input.now (singles_in back.now)) }
{
    are_named(there.layouts.input.root(), &back.layouts, back.statements)
}

/// The number of the first named item of the record from which the moves there go of which an occurrence isn't returned.
fn lost_item(
    there: &MovesBetween<'_>,
    back: &MovesBetween<'_>,
    starts: &Starts<'_>,
) -> Option<usize>
    requires there { AreLegal there.now }
    requires back { AreLegal back.now }
    ensures fine { IfNone result (ReturnAll there.now back.now) }
    ensures lost { IfSome result (λ r. LoseItem there.now back.now r) }
{
    first_lost(there, back, there.layouts.input.root(), starts)
}

/// The first point in which the moves of one way fail by themselves. Their receivers are noted.
fn loss_of(moves: &MovesBetween<'_>, way: Direction, noted: &mut [Option<u32>]) -> Option<Loss>
    requires { AreLegal moves.now }
    ensures loss { IfSome result (λ l. IsLossOf moves.now way l) }
    ensures none { IfNone result (AreSimple (singles_in moves.now)) }
{
    if !are_elementary(&moves.layouts, moves.statements) {
        return Some(Loss::Operand(way));
    }
    if !are_read_pictured(&moves.layouts, moves.statements) {
        return Some(Loss::Reading(way));
    }
    if !receive_once_in(moves, noted) {
        return Some(Loss::Receiver(way));
    }
    None
}

/// The first point in which moves back may not bring back what moves there take.
fn loss_in_return(there: &MovesBetween<'_>, back: &MovesBetween<'_>) -> Option<Loss>
    requires there { AreLegal there.now }
    requires back { AreLegal back.now }
    ensures loss { IfSome result (λ l. IsLoss there.now back.now l) }
    ensures none { IfNone result (BringBack there.now back.now) }
{
    let mut noted_there = [None; MOST_BYTES];
    let mut noted_back = [None; MOST_BYTES];
    if let Some(loss) = loss_of(there, Direction::There, &mut noted_there) {
        return Some(loss);
    }
    if let Some(loss) = loss_of(back, Direction::Back, &mut noted_back) {
        return Some(loss);
    }
    if !are_all_named(there, back) {
        return Some(Loss::Name);
    }
    let starts = Starts {
        there: &noted_there,
        back: &noted_back,
    };
    if let Some(entry) = lost_item(there, back, &starts) {
        return Some(Loss::Item(entry));
    }
    None
}

/// The first point in which moves there and back may lose something. None exactly where they lose nothing: their records agree crosswise and stand in
/// one way, and the moves back bring back what those there take. It takes no memory.
pub fn first_loss(there: &MovesBetween<'_>, back: &MovesBetween<'_>) -> Option<Loss>
    requires there { AreLegal there.now }
    requires back { AreLegal back.now }
    ensures loss { IfSome result (λ l. IsLoss there.now back.now l) }
    ensures none { IfNone result (LoseNothing there.now back.now) }
{
    if !are_turned(&there.layouts, &back.layouts) {
        return Some(Loss::Records);
    }
    if !stand_one_way(&there.layouts) {
        return Some(Loss::Storage(Direction::There));
    }
    if !stand_one_way(&back.layouts) {
        return Some(Loss::Storage(Direction::Back));
    }
    loss_in_return(there, back)
}

/// Whether moves there and back lose nothing: their records agree crosswise and stand in one way, and the moves back bring back what those there
/// take. It takes no memory.
pub fn is_lossless(there: &MovesBetween<'_>, back: &MovesBetween<'_>) -> bool
    requires there { AreLegal there.now }
    requires back { AreLegal back.now }
    ensures { Decides result (LoseNothing there.now back.now) }
{
    first_loss(there, back).is_none()
}

/// Whether all single moves are elementary and read their senders as their pictures say, and no occurrence receives twice. Their receivers are noted.
fn are_simple(moves: &MovesBetween<'_>, noted: &mut [Option<u32>]) -> bool
    requires { AreLegal moves.now }
    ensures { Decides result (AreSimple (singles_in moves.now)) }
{
    if !are_elementary(&moves.layouts, moves.statements) {
        return false;
    }
    if !are_read_pictured(&moves.layouts, moves.statements) {
        return false;
    }
    receive_once_in(moves, noted)
}

/// Whether each occurrence of each named item of the record from which the moves there go is returned.
fn return_all(there: &MovesBetween<'_>, back: &MovesBetween<'_>, starts: &Starts<'_>) -> bool
    requires there { AreLegal there.now }
    requires back { AreLegal back.now }
    ensures { Decides result (ReturnAll there.now back.now) }
{
    lost_item(there, back, starts).is_none()
}

/// Whether moves back bring back all that moves there take, and the records stand in one way: all that is asked of moves that lose nothing, but that
/// their records agree crosswise. It takes no memory.
/// It is there for callers of this library: nothing in this repository but its tests calls it.
pub fn returns(there: &MovesBetween<'_>, back: &MovesBetween<'_>) -> bool
    requires there { AreLegal there.now }
    requires back { AreLegal back.now }
    ensures { Decides result (BringAllBack there.now back.now) }
{
    if !stand_one_way(&there.layouts) {
        return false;
    }
    if !stand_one_way(&back.layouts) {
        return false;
    }
    let mut noted_there = [None; MOST_BYTES];
    let mut noted_back = [None; MOST_BYTES];
    if !are_simple(there, &mut noted_there) {
        return false;
    }
    if !are_simple(back, &mut noted_back) {
        return false;
    }
    if !are_all_named(there, back) {
        return false;
    }
    let starts = Starts {
        there: &noted_there,
        back: &noted_back,
    };
    return_all(there, back, &starts)
}

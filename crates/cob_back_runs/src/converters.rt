//! Whether two conversions lose nothing.

ghost use Rattle.std.specs.Prelude.{◌≡◌, IfNone, IfSome, IsTrue};
ghost use Rattle.std.specs.Bool.{Decides};
ghost use Rattle.cob_back_moves.specs.Brought.{AreLegal, moves_between};
ghost use Rattle.cob_back_moves.specs.Lossless.{IsLossless};
ghost use Rattle.cob_back_moves.specs.Tested.{layout_records};
ghost use Rattle.cob_back_runs.specs.Keeps.{AreLossless, Keeps};
ghost use Rattle.cob_back_runs.specs.Laws.{IsPrepared};
ghost use Rattle.cob_move_deeds.specs.Deeds.{IsStraight, moves_of_deeds};

use crate::laws::lossless_keep;
use cob_back_moves::{BothLayouts, Direction, Loss, MovesBetween, is_lossless};
use cob_convert::Converter;
use cob_convert_record::Conversion;
use cob_layout::records_are_sound;

/// The moves of a conversion, between the layouts of its records: those of each turn of its loops.
pub fn carried(conversion: &Conversion) -> MovesBetween<'_>
    ensures records { conversion.now.records ≡ layout_records result.layouts }
    ensures moves { moves_of_deeds conversion.now.deeds
        ≡ moves_between result.layouts result.statements.now }
    ensures legal { AreLegal result }
    ensures prepared { IsPrepared conversion.now }
{
    // Both records are record descriptions, and so they are sound.
    records_are_sound();
    let (input, output) = conversion.layouts();
    let _ = input.root();
    let _ = output.root();
    let deeds = conversion.deeds();
    MovesBetween {
        layouts: BothLayouts {
            input,
            output,
            reading: deeds.reading(),
        },
        statements: deeds.statements(),
    }
}

/// Whether a conversion has no test.
fn is_straight(conversion: &Conversion) -> bool
    ensures { Decides result (IsStraight conversion.now.deeds) }
{
    conversion.deeds().is_straight()
}

/// Whether the moves of a conversion bring back what those of another one take.
fn are_returned(there: &Conversion, back: &Conversion) -> bool
    ensures { Decides result (IsLossless there.now.records back.now.records
        (moves_of_deeds there.now.deeds) (moves_of_deeds back.now.deeds)) }
{
    is_lossless(&carried(there), &carried(back))
}

/// Whether two conversions lose nothing.
fn lose_nothing(there: &Conversion, back: &Conversion) -> bool
    ensures { Decides result (AreLossless there.now back.now) }
{
    is_straight(there) && is_straight(back) && are_returned(there, back)
}

/// Whether two conversions lose nothing, of which the second one is to bring back what the first one takes of each record: neither has a test, their
/// records agree crosswise, but for the names of the records, and stand in one way, and the moves of the second one bring back what those of the first one
/// take. It takes no memory.
pub fn lossless(there: &Converter, back: &Converter) -> bool
    // It answers so exactly where they lose nothing.
    ensures exactly { Decides result (AreLossless there.now back.now) }
    // Then each record that the first one converts comes back by the second one.
    ensures keeps { IsTrue result → Keeps there.now back.now }
{
    lossless_keep();
    let (first, second) = (there.conversion(), back.conversion());
    // Both are prepared.
    let _ = carried(first);
    let _ = carried(second);
    lose_nothing(first, second)
}

/// A point in which two conversions may lose something.
#[derive(Clone, Copy, PartialEq, Eq)]
pub enum ConversionLoss {
    /// One of them has a test.
    Test(Direction),
    /// Their moves may.
    Moves(Loss),
}

/// The first point in which the moves of two conversions may lose something.
fn first_of_moves(there: &Conversion, back: &Conversion) -> Option<ConversionLoss>
    ensures none { IfNone result (IsLossless there.now.records back.now.records
        (moves_of_deeds there.now.deeds) (moves_of_deeds back.now.deeds)) }
    ensures lost { IfSome result (λ loss. IsLossless there.now.records back.now.records
        (moves_of_deeds there.now.deeds) (moves_of_deeds back.now.deeds) → ⊥) }
{
    match cob_back_moves::first_loss(&carried(there), &carried(back)) {
        Some(loss) => Some(ConversionLoss::Moves(loss)),
        None => None,
    }
}

/// The first point in which two conversions may lose something.
fn first_point(there: &Conversion, back: &Conversion) -> Option<ConversionLoss>
    ensures none { IfNone result (AreLossless there.now back.now) }
    ensures lost { IfSome result (λ loss. AreLossless there.now back.now → ⊥) }
{
    if !is_straight(there) {
        return Some(ConversionLoss::Test(Direction::There));
    }
    if !is_straight(back) {
        return Some(ConversionLoss::Test(Direction::Back));
    }
    first_of_moves(there, back)
}

/// The first point in which two conversions may lose something, of which the second one is to bring back what the first one takes of each record: none
/// exactly where they lose nothing. It takes no memory.
pub fn first_loss(there: &Converter, back: &Converter) -> Option<ConversionLoss>
    ensures none { IfNone result (AreLossless there.now back.now) }
    // Then each record that the first one converts comes back by the second one.
    ensures keeps { IfNone result (Keeps there.now back.now) }
    ensures lost { IfSome result (λ loss. AreLossless there.now back.now → ⊥) }
{
    lossless_keep();
    let (first, second) = (there.conversion(), back.conversion());
    // Both are prepared.
    let _ = carried(first);
    let _ = carried(second);
    first_point(first, second)
}

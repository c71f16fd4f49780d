//! Single moves that were made ready where senders are read as their pictures say, carried out.

ghost use Rattle.std.specs.Prelude.{◌≡◌, ◌+◌, ◌≤◌, length, OnErr};
ghost use Rattle.cob_layout.specs.Storage.{greatest_length};
ghost use Rattle.cob_move_apply.specs.Applied.{ending};
ghost use Rattle.cob_move_apply.specs.Spent.{WriteSpends};
ghost use Rattle.cob_move_apply.specs.Surveyed.{IsWorkspace, records};
ghost use Rattle.cob_move_apply.specs.Made.{IsMadePictured};
ghost use Rattle.cob_move_apply.specs.Written.{HasPlaces};
ghost use Rattle.cob_move_steps.specs.Pictured.{IsPicturedStep};
ghost use Rattle.cob_move_steps.specs.Pool.{MoveKinds};

use crate::layouts::Layouts;
use crate::step::PicturedMove;
use crate::stop::{Stop, StopCause};
use crate::workspace::Workspace;
use cob_move_data::Side;
use cob_move_steps::PicturedSteps;

/// Carries out a single move that was made ready, its sender read as its picture says. It is inlined, so that it costs no call.
///
/// # Errors
///
/// A value of the sender is missing. The storage is as it was then.
#[inline(always)]
pub(crate) fn run_pictured(
    pictured: &PicturedSteps,
    one: PicturedMove,
    layouts: &Layouts<'_>,
    input: &[u8],
    output: &mut [u8],
    space: &mut Workspace,
) -> Result<(), Stop>
    requires step { (k : MoveKinds) × IsPicturedStep pictured.now k one.step
        × HasPlaces one.places k }
    requires reads { one.places.from.offset + one.places.from.length ≤ length input.now }
    requires writes { one.places.to.offset + one.places.to.length
        ≤ greatest_length layouts.now.output.now }
    requires output { length output.old ≡ greatest_length layouts.now.output.now }
    requires space { IsWorkspace (records layouts.now) input.now output.old space.old }
    ensures made { IsMadePictured one pictured.now input.now output.old
        (ending result output.new) }
    ensures space { IsWorkspace (records layouts.now) input.now output.new space.new }
    ensures spends { WriteSpends layouts.now.output.now output.old one.places.to result
        space.old.output space.new.output }
    ensures same { OnErr result ((output.new ≡ output.old) × (space.new ≡ space.old)) }
{
    let from = one.places.from;
    let to = one.places.to;
    let sent = from.offset as usize + from.length as usize;
    let start = to.offset as usize;
    let end = start + to.length as usize;
    if pictured.run(one.step, &input[..sent], &mut output[start..end]) {
        space.output.change_output(layouts, to);
        Ok(())
    } else {
        Err(Stop {
            side: Side::In,
            offset: from.offset,
            cause: StopCause::NoValue,
        })
    }
}

ghost use Rattle.std.specs.Prelude.{◌≡◌};
ghost use Rattle.cob_convert.specs.declared.fault.PrepareFault.TheVariants.{Memory};
ghost use Rattle.cob_convert.specs.Means.{moves_refusal};

use cob_copybook::BookFault;
use cob_move::{MoveFault, MoveRule};
use std::alloc::AllocError;
use thiserror::Error;

/// Why a converter is not prepared.
#[derive(Clone, Copy, Debug, PartialEq, Eq, Error)]
pub enum PrepareFault {
    /// The copybook of the input record breaks a rule.
    #[error("in-book {0}")]
    InBook(BookFault),
    /// The copybook of the output record breaks a rule.
    #[error("out-book {0}")]
    OutBook(BookFault),
    /// The paragraph of MOVE statements breaks a rule.
    #[error("moves {0}")]
    Moves(MoveFault),
    /// The blocks of the output have no room for the frame of its longest record: that takes a block of this size at least.
    #[error("out block least {least}")]
    Block { least: u16 },
    /// Memory was refused.
    #[error("memory")]
    Memory,
}

impl From<MoveFault> for PrepareFault {
    ghost from_gives = { λ refused fault. fault ≡ moves_refusal refused };

    fn from(fault: MoveFault) -> PrepareFault {
        match fault.rule {
            MoveRule::Memory => PrepareFault::Memory,
            _ => PrepareFault::Moves(fault),
        }
    }
}

impl From<AllocError> for PrepareFault {
    ghost from_gives = { λ _ fault. fault ≡ Memory };

    fn from(_: AllocError) -> PrepareFault {
        PrepareFault::Memory
    }
}

//! The room that conversions take, made once.

ghost use Rattle.std.specs.Prelude.{◌≡◌, IfOk};
ghost use Rattle.cob_convert_record.specs.Rooms.{capacity_for};

use crate::conversion::Conversion;
use cob_move_apply::{Counts, Scratch};
use std::alloc::{AllocError, Global};
use std::marker::Model;

/// All the memory that conversions need beside the bytes of the two records.
#[derive(Drop)]
pub struct Room {
    pub(crate) scratch: Scratch,
    pub(crate) in_counts: Counts,
}

impl Model for Room {
    ghost use Rattle.cob_layout.specs.Standing.{room_in};
    ghost use Rattle.cob_convert_record.specs.Rooms.{Capacity};

    ghost Value = { Capacity };

    ghost view = { λ r. record { moves = r.scratch.room; inputs = room_in r.in_counts } };
}

impl Room {
    /// Room for the conversions of one record after another.
    ///
    /// # Errors
    ///
    /// Where no memory is left.
    pub fn new(alloc: Global, conversion: &Conversion) -> Result<Room, AllocError>
        ensures { IfOk result (λ room. room ≡ capacity_for conversion.now.records) }
    {
        let (input, output) = conversion.layouts();
        let scratch = Scratch::new(alloc, input, output)?;
        let in_counts = input.new_counts(alloc)?;
        Ok(Room { scratch, in_counts })
    }
}

//! What is kept of the counts of a storage while moves go on.

ghost use Rattle.std.specs.Prelude.{◌≡◌, ℕ, List, IfOk};
ghost use Rattle.cob_copybook_tree.specs.Forests.{Forest};
ghost use Rattle.cob_copybook_tree.specs.Nodes.{Resolved};
ghost use Rattle.cob_layout.specs.Standing.{KeepsOf, room_in};
ghost use Rattle.cob_move_apply.specs.Spent.{kept_of, PlaceSpends};
ghost use Rattle.cob_move_apply.specs.Surveyed.{HasRoom, IsSurvey, SurveysField};

use crate::layouts::Layouts;
use cob_layout::{Counts, Layout, Place};
use std::alloc::{AllocError, Global};

/// The counts of a storage, which are kept as they are read, and how many count items were read of it.
#[derive(Drop)]
pub(crate) struct Survey {
    pub(crate) counts: Counts,
    pub(crate) reads: u64,
}

impl Survey {
    /// A survey of records of this layout.
    ///
    /// # Errors
    ///
    /// Where no memory is left.
    pub(crate) fn new(alloc: Global, layout: &Layout) -> Result<Survey, AllocError>
        ensures room { IfOk result (λ s. HasRoom layout.now s) }
        ensures none { IfOk result (λ s. s.reads ≡ 0) }
    {
        let counts = layout.new_counts(alloc)?;
        Ok(Survey { counts, reads: 0 })
    }

    /// Forgets what is kept of a storage, since another one comes.
    pub(crate) fn forget(&mut self)
        ensures keeps { (tree : Forest Resolved) (bytes : List ℕ)
            → KeepsOf tree bytes self.new.counts }
        ensures room { room_in self.new.counts ≡ room_in self.old.counts }
        ensures none { self.new.reads ≡ 0 }
        ensures unkept { (tree : Forest Resolved) → kept_of tree self.new ≡ 0 }
    {
        self.counts.forget();
        self.reads = 0;
    }

    /// Keeps of the storage what is kept of it whatever the bytes of this place are. These have changed. It is inlined, so that it costs no call
    /// where no table varies.
    #[inline(always)]
    pub(crate) fn change(&mut self, layout: &Layout, place: Place)
        ensures survey { SurveysField layout.now place self.old self.new }
        // Counts are forgotten only where the place meets the item of one.
        ensures spends { (before : List ℕ) → IsSurvey layout.now before self.old
            → PlaceSpends layout.now before place self.old self.new }
    {
        layout.wrote(place, &mut self.counts);
    }

    /// Says of the output record what [`Survey::change`] says. Where no table of it varies, none of its counts is kept: then this is a test alone.
    #[inline(always)]
    pub(crate) fn change_output(&mut self, layouts: &Layouts<'_>, place: Place)
        ensures survey { SurveysField layouts.now.output.now place self.old self.new }
        ensures spends { (before : List ℕ) → IsSurvey layouts.now.output.now before self.old
            → PlaceSpends layouts.now.output.now before place self.old self.new }
    {
        if layouts.varies {
            self.change(layouts.output, place);
        }
    }
}

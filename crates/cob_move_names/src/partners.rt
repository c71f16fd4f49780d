//! The entries below a group, found by their names.

ghost use Rattle.std.specs.Prelude.{◌≡◌, ◌≢◌, ◌<◌, ℕ, List, length, IfErr, IfOk, OnOk};
ghost use Rattle.cob_copybook_names.specs.Links.{AreLinked, IsLast, noted_for};
ghost use Rattle.cob_move_names.specs.PlainPairs.{subordinate, subordinates_listed};
ghost use Rattle.cob_move_names.specs.Pairs.{partners};
ghost use Rattle.cob_move_names.specs.Partners.{MoreThanOne, names_listed, partner_list};

use crate::subordinate::{Subordinate, correspond};
use cob_move_statements::MoveRule;
use indexmap::IndexMap;
use std::alloc::{AllocError, Global};

/// The entries below a group, to be found by their names.
#[derive(Drop)]
pub(crate) struct Partners<'a> {
    pub entries: Vec<Subordinate<'a>>,
    /// For each entry, the place of the last one before it of the same name.
    earlier: Vec<Option<usize>>,
    /// The place of the last entry of each name.
    last: IndexMap<&'a [u8], usize>,

    ghost sized: { length earlier.items ≡ length entries.items },
    ghost linked: { AreLinked (names_listed (subordinates_listed entries.items)) earlier.items (length entries.items) },
    ghost latest: { (name : List ℕ) → IsLast (names_listed (subordinates_listed entries.items)) name (length entries.items) (noted_for last name) },
}

/// Notes an entry as the last one of its name, and answers the place of the one that was noted before.
fn note<'a>(
    last: &mut IndexMap<&'a [u8], usize>,
    name: &'a [u8],
    place: usize,
) -> Result<Option<usize>, AllocError>
    ensures before { IfOk result (λ before. before ≡ noted_for last.old name.now) }
    ensures noted { OnOk result (noted_for last.new name.now ≡ Some place) }
    ensures others { OnOk result ((other : List ℕ) → name.now ≢ other
        → noted_for last.new other ≡ noted_for last.old other) }
{
    Ok(last.insert(name, place)?)
}

impl<'a> Partners<'a> {
    /// The entries to be found by their names.
    ///
    /// # Errors
    ///
    /// Memory was refused.
    pub(crate) fn of(
        alloc: Global,
        entries: Vec<Subordinate<'a>>,
    ) -> Result<Partners<'a>, AllocError>
        ensures { IfOk result (λ p. p.entries.items ≡ entries.entry.items) }
    {
        let mut last = IndexMap::new(alloc);
        let mut earlier = Vec::new(alloc);
        for (place, entry) in entries.iter().enumerate() {
            let before = note(&mut last, entry.name, place)?;
            earlier.push(before)?;
        }
        Ok(Partners {
            entries,
            earlier,
            last,
        })
    }

    /// The only entry that corresponds to a sending one, if there is one.
    ///
    /// # Errors
    ///
    /// `Twice` where there are several.
    pub(crate) fn partner_of(
        &self,
        from: &Subordinate<'_>,
    ) -> Result<Option<&Subordinate<'a>>, MoveRule>
        ensures found { IfOk result (λ o. partners (subordinates_listed self.now.entries.items)
            (subordinate from.now) ≡ partner_list o) }
        ensures fault { IfErr result (λ r. MoreThanOne r
            (partners (subordinates_listed self.now.entries.items) (subordinate from.now))) }
    {
        let mut found = None;
        let mut place = self.last.get(from.name).copied();
        while let Some(here) = place {
            let entry = &self.entries[here];
            if correspond(from, entry) {
                if found.is_some() {
                    return Err(MoveRule::Twice);
                }
                found = Some(entry);
            }
            place = self.earlier[here];
        }
        Ok(found)
    }
}

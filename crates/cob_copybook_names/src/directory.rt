ghost use Rattle.std.specs.Prelude.{◌≡◌, ◌≢◌, ℕ, List, [], ◌∷◌, length, map, Some, IfErr, IfOk, OnOk};
ghost use Rattle.cob_copybook_names.specs.Naming.{IsNameFault, named, own_names};
ghost use Rattle.cob_copybook_names.specs.Listed.{name_text, seen};
ghost use Rattle.cob_copybook_names.specs.Links.{IsLast, AreLinked, noted_for};

use crate::bearer::Bearer;
use crate::fault::NameFault;
use crate::qualifiers::{Qualifiers, qualify};
use indexmap::IndexMap;
use std::alloc::{AllocError, Global};

/// The entries of a record, or of several, to be found by their names.
#[derive(Drop)]
pub struct Directory<'a, E> {
    /// All entries, in order.
    pub(crate) bearers: Vec<Bearer<'a, E>>,
    /// For each entry that has a name, the place of the last one before it of the same name.
    earlier: Vec<Option<usize>>,
    /// The place of the last entry of each name.
    last: IndexMap<&'a [u8], usize>,

    ghost sized: { length earlier.items ≡ length bearers.items },
    ghost linked: { AreLinked (own_names (map seen bearers.items)) earlier.items (length bearers.items) },
    ghost latest: { (name : List ℕ) → IsLast (own_names (map seen bearers.items)) name (length bearers.items) (noted_for last name) },
}

/// Notes an entry as the last one of its name, and answers the place of the one that was noted before. One without a name isn't noted.
fn note<'a>(
    last: &mut IndexMap<&'a [u8], usize>,
    own: Option<&'a [u8]>,
    place: usize,
) -> Result<Option<usize>, AllocError>
    ensures before { IfOk result (λ before. (name : List ℕ)
        → name_text own.entry ≡ Some name → before ≡ noted_for last.old name) }
    ensures noted { OnOk result ((name : List ℕ)
        → name_text own.entry ≡ Some name → noted_for last.new name ≡ Some place) }
    ensures others { OnOk result ((name : List ℕ) → name_text own.entry ≢ Some name
        → noted_for last.new name ≡ noted_for last.old name) }
{
    match own {
        Some(name) => Ok(last.insert(name, place)?),
        None => Ok(None),
    }
}

impl<'a, E: Drop> Directory<'a, E> {
    /// A directory of these entries.
    ///
    /// # Errors
    ///
    /// Memory for a list was refused.
    pub fn new(alloc: Global, bearers: Vec<Bearer<'a, E>>) -> Result<Directory<'a, E>, AllocError>
        ensures { IfOk result (λ d. d.bearers.items ≡ bearers.entry.items) }
    {
        let mut last = IndexMap::new(alloc);
        let mut earlier = Vec::new(alloc);
        for (place, bearer) in bearers.iter().enumerate() {
            let before = note(&mut last, bearer.name, place)?;
            earlier.push(before)?;
        }
        Ok(Directory {
            bearers,
            earlier,
            last,
        })
    }

    /// The only entry that a name with its qualifiers names.
    ///
    /// # Errors
    ///
    /// `Unknown` where it names none, and `Ambiguous` where it names several.
    pub fn only_named<Q: Qualifiers>(
        &self,
        name: &[u8],
        qualifiers: Q,
    ) -> Result<&Bearer<'a, E>, NameFault>
        ensures found { IfOk result (λ b. named name.now
            (Q.names qualifiers) (map seen self.now.bearers.items) ≡ seen b.now ∷ []) }
        ensures fault { IfErr result (λ fault. IsNameFault fault
            (named name.now (Q.names qualifiers) (map seen self.now.bearers.items))) }
    {
        let mut found = None;
        let mut place = self.last.get(name).copied();
        while let Some(here) = place {
            let bearer = &self.bearers[here];
            if qualify(qualifiers, bearer.above.as_slice()) {
                if found.is_some() {
                    return Err(NameFault::Ambiguous);
                }
                found = Some(bearer);
            }
            place = self.earlier[here];
        }
        found.ok_or(NameFault::Unknown)
    }
}

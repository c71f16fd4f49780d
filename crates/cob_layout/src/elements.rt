//! Elements that one count decides, and that only by whether they are there.
//!
//! In most records an element of a table that varies stands at one place wherever it is there: no other table that varies begins before it, and none holds
//! it. So it is found once, and a record is asked only whether the table has so many elements.

ghost use Rattle.std.specs.Prelude.{◌≡◌, IfSome, IsTrue};
ghost use Rattle.cob_layout_places.specs.References.{Refers};
ghost use Rattle.cob_layout.specs.Elements.{AllStay, IsElementPlace, IsOnlyNeeded, HaveSoMany, IsThereBy, KeptPlaceElements, RestsOn, Stays};

use crate::counts::Counts;
use crate::fields::Place;
use crate::footings::shift_at;
use crate::keeping::Needed;
use crate::laws::kept_give_needed;
use crate::layout::Layout;
use crate::reads::none_needed;
use crate::shifts::Shift;
use crate::ways::tables_at;
use cob_layout_places::{Ref, Table, is_needed, needs_are_read};

/// Where an element of the first table that varies stands, which that table's count alone decides.
#[derive(Clone, Copy)]
pub struct ElementPlace {
    /// Where it stands, wherever it is there.
    pub place: Place,
    /// So many elements the table has at least where this one is there.
    pub least: u32,
}

/// The first of these tables, where it is the only one that is needed.
fn only_needed(tables: &[Table], needed: Needed) -> Option<Table>
    ensures { IfSome result (IsOnlyNeeded needed tables.now) }
{
    let (first, others) = tables.split_first()?;
    if is_needed(needed.behind, needed.last, needed.number, *first)
        && none_needed(others, needed.behind, needed.last, needed.number)
    {
        Some(*first)
    } else {
        None
    }
}

/// Whether no table that grows ends before the first element of this entry does.
fn stays(shifts: &[Shift], number: usize) -> bool
    ensures { IsTrue result → Stays shifts.now number }
{
    shift_at(shifts, number).through == 0
}

/// Whether that is so of all these tables, none of which is this one.
fn all_stay(shifts: &[Shift], numbers: &[usize], table: usize) -> bool
    ensures { IsTrue result → AllStay shifts.now numbers.now table }
{
    for number in numbers {
        if !stays(shifts, *number) || *number == table {
            return false;
        }
    }
    true
}

/// Whether the outermost of these tables, which hold an entry or which it is, is this one, and no table that grows ends before the first element of any does,
/// nor before that of the entry.
fn rests_on(shifts: &[Shift], tables: &[usize], table: usize, number: usize) -> bool
    ensures { IsTrue result → RestsOn shifts.now tables.now table number }
{
    let Some((outermost, inner)) = tables.split_first() else {
        return false;
    };
    *outermost == table
        && stays(shifts, table)
        && stays(shifts, number)
        && all_stay(shifts, inner, table)
}

impl Layout {
    /// Where the element of a reference stands that reads the count of one table alone, where that decides only whether the element is there. None where
    /// it reads another count too, or none, and where the place moves with a count: such a reference is found in each storage ([`Layout::find`]).
    pub fn element_place(&self, reference: &Ref, receiving: bool) -> Option<ElementPlace>
        requires refers { Refers reference.now.node reference.now.subscripts.items self.now }
        ensures { IfSome result (IsElementPlace self.now reference.now receiving) }
    {
        let needed = self.needed_by(reference.node, receiving);
        let table = only_needed(&self.tables, needed)?;
        let least = reference.subscripts.as_slice().first()?;
        let tables = tables_at(&self.ways, reference.node);
        if !rests_on(&self.shifts, tables, table.number, reference.node) {
            return None;
        }
        match self.place_in(reference, &self.counts) {
            Ok(place) => Some(ElementPlace {
                place,
                least: *least,
            }),
            Err(_) => None,
        }
    }
}

impl Counts {
    /// Where an element stands, where the count of the first table that varies is kept and the element is there by that.
    #[inline(always)]
    pub fn place_of(&self, element: ElementPlace) -> Option<Place>
        ensures there { IfSome result (λ p. (p ≡ element.place)
            × IsThereBy self.now.kept element) }
    {
        match self.kept.first() {
            Some(Some(stored)) if stored.number >= element.least => Some(element.place),
            _ => None,
        }
    }
}

impl Counts {
    /// Whether the first table that varies has so many elements by its count that is kept; 0 asks for none.
    #[inline(always)]
    pub fn have(&self, least: u16) -> bool
        ensures { IsTrue result → HaveSoMany self.now.kept least }
    {
        if least == 0 {
            return true;
        }
        let wanted = u32::from(least);
        match self.kept.first() {
            Some(Some(stored)) if stored.number >= wanted => true,
            _ => false,
        }
    }
}

/// Where the count of its table is kept and an element is there by that, it stands there.
pub fn kept_place_elements()
    ensures { KeptPlaceElements }
{
    kept_give_needed();
    needs_are_read();
}

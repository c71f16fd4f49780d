//! The counts of the tables of a record, where its entries stand under them, and which counts of a storage are kept.

ghost use Rattle.std.specs.Prelude.{◌≡◌, ◌++◌, [], ◌∷◌, ℕ, List, length, slice_index, IfOk};
ghost use Rattle.cob_copybook_tree.specs.Forests.{Forest};
ghost use Rattle.cob_copybook_tree.specs.Nodes.{Resolved, tree_of};
ghost use Rattle.cob_layout.specs.Counting.{in_order, varying};
ghost use Rattle.cob_layout.specs.Standing.{KeepsOf, forgotten, none_kept};

use crate::fields::Place;
use crate::shifts::Growth;
use cob_copybook::{Node, ResolvedOccurs};
use cob_layout_places::{Spot, Table};
use std::alloc::{AllocError, Global};
use std::marker::Model;

/// A count of a storage: the number that its item gives, and where the item stands.
#[derive(Clone, Copy)]
pub struct StoredCount {
    pub number: u32,
    pub place: Place,
}

/// The bytes of a record, from one up to another, among which the items of all counts that are kept stand.
#[derive(Clone, Copy)]
pub(crate) struct KeptRange {
    pub(crate) from: u64,
    pub(crate) end: u64,
}

/// The range where no count is kept: it has no byte.
pub(crate) const NO_RANGE: KeptRange = KeptRange {
    from: u64::MAX,
    end: 0,
};

/// How often the tables of a record that vary occur, and where its entries stand then; and the counts of a storage that are kept, so that they
/// are not read again.
///
/// Contracts see the counts and the spots by the numbers of the entries, what is kept in the order of the tables, and the record's tables.
#[derive(Drop)]
pub struct Counts {
    pub(crate) taken: Vec<u32>,
    /// Where the first element of each entry stands, and how often the entry occurs.
    pub(crate) spots: Vec<Spot>,
    /// The count of each table, where it is kept.
    pub(crate) kept: Vec<Option<StoredCount>>,
    /// Among which bytes the items of those that are kept stand.
    pub(crate) range: KeptRange,
    /// Where counts are taken, so that those that hold stay until all are.
    pub(crate) next: Vec<u32>,
    /// Room for the sums of the tables that grow, from which the spots are found.
    pub(crate) sums: Vec<u32>,
    /// Up to which number the next counts and the sums are those that are kept: they serve every reference that needs just the tables below it. 0 where
    /// nothing is known of them.
    pub(crate) reach: usize,
    /// The record's tables that vary, and how those grow that grow: what the reach is told by.
    tables: Vec<Table>,
    growths: Vec<Growth>,
}

impl Model for Counts {
    ghost use Rattle.std.specs.Prelude.{◌≡◌, ◌+◌, length};
    ghost use Rattle.cob_layout.specs.Finding.{ReachTo};
    ghost use Rattle.cob_layout.specs.Standing.{LieWithin, Standing};

    ghost Value = { Standing };

    ghost view = { λ c. record { counts = c.taken.items; spots = c.spots.items; kept = c.kept.items; tables = c.tables.items; growths = c.growths.items } };

    ghost invariant = { λ c. (length c.spots.items ≡ length c.taken.items) × (length c.next.items ≡ length c.taken.items) × (length c.sums.items ≡ length c.taken.items + 1) × ReachTo c.reach c.next.items c.sums.items c.tables.items c.growths.items c.kept.items × LieWithin c.range c.kept.items };
}

impl Counts {
    /// These counts and spots, with room to take others, and for the counts that are kept of these tables, of which those grow so that grow.
    ///
    /// # Errors
    ///
    /// Where no memory is left.
    pub(crate) fn new(
        alloc: Global,
        taken: Vec<u32>,
        spots: Vec<Spot>,
        tables: &[Table],
        growths: &[Growth],
    ) -> Result<Counts, AllocError>
        requires spots { length spots.items ≡ length taken.items }
        ensures { IfOk result (λ c. c ≡ none_kept taken.items spots.items tables.now growths.now) }
    {
        let next = copied_counts(alloc, &taken)?;
        let kept = vec![in alloc; None; tables.len()]?;
        let mut sums = copied_counts(alloc, &taken)?;
        sums.push(0)?;
        let tables = copied_tables(alloc, tables)?;
        let growths = copied_growths(alloc, growths)?;
        Ok(Counts {
            taken,
            spots,
            kept,
            range: NO_RANGE,
            next,
            sums,
            reach: 0,
            tables,
            growths,
        })
    }

    /// The counts by the numbers of the tables' entries.
    pub(crate) fn as_slice(&self) -> &[u32]
        ensures { result.now ≡ self.now.counts }
    {
        &self.taken
    }

    /// Where the first element of each entry stands and how often the entry occurs, by the numbers of the entries.
    pub fn spots(&self) -> &[Spot]
        ensures { result.now ≡ self.now.spots }
    {
        &self.spots
    }

    /// Writes these counts and spots in place of others.
    pub(crate) fn copy_to(&self, taken: &mut [u32], spots: &mut [Spot])
        requires counts { length taken.old ≡ length self.now.counts }
        requires spots { length spots.old ≡ length self.now.counts }
        ensures counts { taken.new ≡ self.now.counts }
        ensures spots { spots.new ≡ self.now.spots }
    {
        taken.copy_from_slice(&self.taken);
        spots.copy_from_slice(&self.spots);
    }

    /// Forgets the counts that are kept, since another storage comes.
    pub fn forget(&mut self)
        ensures forgotten { self.new ≡ forgotten self.old }
        ensures keeps { (tree : Forest Resolved) (bytes : List ℕ) → KeepsOf tree bytes self.new }
    {
        self.reach = 0;
        self.range = NO_RANGE;
        self.kept.fill(None);
    }
}

/// These counts once more.
///
/// # Errors
///
/// Where no memory is left.
pub(crate) fn copied_counts(alloc: Global, counts: &[u32]) -> Result<Vec<u32>, AllocError>
    ensures { IfOk result (λ same. same.items ≡ counts.now) }
{
    let mut same = Vec::new(alloc);
    same.extend_from_slice(counts)?;
    Ok(same)
}

/// These tables once more.
///
/// # Errors
///
/// Where no memory is left.
fn copied_tables(alloc: Global, tables: &[Table]) -> Result<Vec<Table>, AllocError>
    ensures { IfOk result (λ same. same.items ≡ tables.now) }
{
    let mut same = Vec::new(alloc);
    same.extend_from_slice(tables)?;
    Ok(same)
}

/// These growths once more.
///
/// # Errors
///
/// Where no memory is left.
fn copied_growths(alloc: Global, growths: &[Growth]) -> Result<Vec<Growth>, AllocError>
    ensures { IfOk result (λ same. same.items ≡ growths.now) }
{
    let mut same = Vec::new(alloc);
    same.extend_from_slice(growths)?;
    Ok(same)
}

/// The count of an entry: 0 where there is none.
pub(crate) fn count_at(counts: &[u32], number: usize) -> u32
    ensures { result ≡ slice_index counts.now number }
{
    match counts.get(number) {
        Some(count) => *count,
        None => 0,
    }
}

/// The greatest count of an entry: 0 for one that doesn't vary.
pub(crate) fn greatest_count(occurs: ResolvedOccurs) -> u32
    ensures { result ≡ varying occurs }
{
    match occurs {
        ResolvedOccurs::Varying { most, .. } => most,
        ResolvedOccurs::Once | ResolvedOccurs::Fixed(_) => 0,
    }
}

/// Adds the greatest counts of an entry and of those beneath it, in the order of the entries.
fn push_greatest(entry: &Node, counts: &mut Vec<u32>) -> Result<(), AllocError>
    ensures { IfOk result
        (λ _. counts.new.items ≡ counts.old.items ++ in_order (tree_of entry.now)) }
{
    counts.push(greatest_count(entry.occurs))?;
    for child in entry.children.iter() {
        push_greatest(child, counts)?;
    }
    Ok(())
}

/// The greatest counts of a record, in the order of its entries.
///
/// # Errors
///
/// Where no memory is left.
pub(crate) fn greatest_in_order(alloc: Global, root: &Node) -> Result<Vec<u32>, AllocError>
    ensures { IfOk result (λ counts. counts.items ≡ in_order (tree_of root.now)) }
{
    let mut counts = Vec::new(alloc);
    push_greatest(root, &mut counts)?;
    Ok(counts)
}

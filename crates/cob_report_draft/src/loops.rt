//! Which loops a statement of a draft stands in: one for each table whose elements are moved, where it has several that both records have, or where a count
//! says how many it has.

ghost use Rattle.std.specs.Prelude.{◌≡◌, ◌+◌, ◌<◌, ◌≤◌, ◌++◌, ℕ, List, length, map};
ghost use Rattle.std.specs.List.{AllByRecursion};
ghost use Rattle.cob_limits.specs.Limits.{most_dimensions};
ghost use Rattle.cob_report_draft.specs.Loops.{AreFixed, HaveElements, all_turns, elements, greatest, has_loop, lesser, level_of, levels, loops_along, loops_over, mosts, numbers_at, subscript_from, subscript_in, subscripts_from, turning, turns_at};
ghost use Rattle.cob_report_draft.specs.declared.loops.LoopLevel.{LoopLevel};

use crate::pairs::{PartnerPair, Records, number_of};
use crate::words::Subscript;
use arrayvec::ArrayVec;
use cob_layout::is_table;
use cob_limits::MAX_SUBSCRIPTS;
use cob_report_partners::{DraftBearer, DraftCounts, LoopBound, TableSize, bound_of};
use std::alloc::{AllocError, Global};

/// The loop over the elements of a table of the output record that the input record has too.
#[derive(Clone, Copy, PartialEq, Eq, Default)]
pub(crate) struct TableLoop {
    /// The number of the table's entry.
    table: Option<usize>,
    /// The number of the last entry beneath it, or its own where there is none.
    last: usize,
    /// How many tables hold it.
    depth: usize,
    /// How many elements both records have at most.
    turns: u32,
    /// By what it ends.
    pub(crate) bound: LoopBound,
}

/// A table of the input record and one of the output record, over whose elements a statement goes.
#[derive(Clone, Copy, Default)]
pub(crate) struct LoopLevel {
    /// How many elements both have at most.
    most: u32,
    /// By what a loop over these ends.
    bound: LoopBound,
}

/// Tables in one another, the outermost first.
pub(crate) type LoopLevels = ArrayVec<LoopLevel, MAX_SUBSCRIPTS>;

/// Numbers of elements, that of the outermost table first.
pub(crate) type ElementCounts = ArrayVec<u32, MAX_SUBSCRIPTS>;

/// Loops in one another, the outermost first.
pub(crate) type TableLoops = ArrayVec<TableLoop, MAX_SUBSCRIPTS>;

/// Subscripts, that of the outermost table first.
pub(crate) type LoopSubscripts = ArrayVec<Subscript, MAX_SUBSCRIPTS>;

/// The tables of the output record.
#[derive(Drop)]
pub(crate) struct HoldingTables {
    /// For each entry the number of the nearest table that holds it.
    of_entries: Vec<Option<usize>>,
}

/// The nearest of these tables, and of those that hold it, that holds the entry with this number, where each holds or ends before it.
fn holding(
    entries: &[DraftBearer<'_>],
    of_entries: &[Option<usize>],
    nearest: Option<usize>,
    number: usize,
) -> Option<usize> {
    let mut table = nearest;
    for _ in 0..MAX_SUBSCRIPTS {
        match table {
            Some(place) if last_of(entries, place) < number => table = table_at(of_entries, place),
            _ => break,
        }
    }
    table
}

/// The number of the last entry beneath the one with this number, or its own where there is none.
fn last_of(entries: &[DraftBearer<'_>], number: usize) -> usize {
    match entries.get(number) {
        Some(bearer) => bearer.entry.last,
        None => number,
    }
}

/// The number of the nearest table that holds the entry with this number.
fn table_at(of_entries: &[Option<usize>], number: usize) -> Option<usize> {
    match of_entries.get(number) {
        Some(table) => *table,
        None => None,
    }
}

/// Whether an entry is a table.
fn is_own_table(bearer: &DraftBearer<'_>) -> bool {
    let entry = bearer.entry.entry;
    is_table(entry.occurs)
}

impl HoldingTables {
    /// The tables of a record that has these entries.
    pub(crate) fn of(
        alloc: Global,
        entries: &[DraftBearer<'_>],
    ) -> Result<HoldingTables, AllocError> {
        let mut of_entries = Vec::new(alloc);
        let mut nearest = None;
        for (number, bearer) in entries.iter().enumerate() {
            nearest = holding(entries, of_entries.as_slice(), nearest, number);
            of_entries.push(nearest)?;
            if is_own_table(bearer) {
                nearest = Some(number);
            }
        }
        Ok(HoldingTables { of_entries })
    }

    /// The number of the innermost table that an entry stands in or that it is.
    fn innermost(&self, bearer: &DraftBearer<'_>) -> Option<usize> {
        if is_own_table(bearer) {
            return Some(number_of(bearer));
        }
        table_at(self.of_entries.as_slice(), number_of(bearer))
    }
}

/// The number of the last entry beneath a table.
fn last_beneath(entries: &[DraftBearer<'_>], table: Option<usize>) -> usize {
    match table {
        Some(number) => last_of(entries, number),
        None => 0,
    }
}

/// The nearest table that holds a table.
fn outer_table(of_entries: &[Option<usize>], table: Option<usize>) -> Option<usize> {
    match table {
        Some(number) => table_at(of_entries, number),
        None => None,
    }
}

/// Whether a table has a loop that ends so.
fn has_loop(bound: LoopBound) -> bool
    ensures { result ≡ has_loop bound }
{
    match bound {
        LoopBound::Number(count) => 1 < count,
        LoopBound::Input(_) => true,
        LoopBound::Output(_) => true,
    }
}

/// The loops over the elements of a table of the output record and of those that hold it, which are these with tables of the input record.
fn loops_over(records: &Records<'_>, innermost: Option<usize>, levels: &[LoopLevel]) -> TableLoops
    requires few { length levels.now ≤ most_dimensions }
    ensures loops { map turning result.items ≡ loops_along levels.now }
    ensures few { length result.items ≤ length levels.now }
{
    let Some((own, outer)) = levels.split_last() else {
        return ArrayVec::new();
    };
    let holding = outer_table(records.tables.of_entries.as_slice(), innermost);
    let mut loops = loops_over(records, holding, outer);
    if has_loop(own.bound) {
        let last = last_beneath(records.both.outputs(), innermost);
        loops.push(TableLoop {
            table: innermost,
            last,
            depth: outer.len(),
            turns: own.most,
            bound: own.bound,
        });
        return loops;
    }
    loops
}

/// A table of the input record and one of the output record: how many elements both have at most, and by what a loop over these ends.
fn level_of(counts: DraftCounts<'_>, from: TableSize, to: TableSize) -> LoopLevel
    ensures { result ≡ level_of counts.entry from to }
{
    let most = from.most.min(to.most);
    match bound_of(counts, from, to) {
        Some(bound) => LoopLevel { most, bound },
        None => LoopLevel {
            most,
            bound: LoopBound::Number(most),
        },
    }
}

/// Adds each two tables of two entries.
fn push_levels(
    counts: DraftCounts<'_>,
    from: &[TableSize],
    to: &[TableSize],
    tables: &mut LoopLevels,
)
    requires room { length tables.old.items + length from.now ≤ most_dimensions }
    ensures { tables.new.items ≡ tables.old.items ++ levels counts.entry from.now to.now }
{
    let Some((one, more)) = from.split_first() else {
        return;
    };
    let Some((other, others)) = to.split_first() else {
        return;
    };
    tables.push(level_of(counts, *one, *other));
    push_levels(counts, more, others, tables);
}

/// Each two tables of two entries, the outermost first.
fn levels(counts: DraftCounts<'_>, from: &[TableSize], to: &[TableSize]) -> LoopLevels
    requires few { length from.now ≤ most_dimensions }
    ensures { result.items ≡ levels counts.entry from.now to.now }
{
    let mut tables = ArrayVec::new();
    push_levels(counts, from, to, &mut tables);
    tables
}

/// Each two of the tables that the entries of a pair stand in.
pub(crate) fn levels_of(counts: DraftCounts<'_>, pair: &PartnerPair<'_, '_>) -> LoopLevels
    ensures { result.items ≡ levels counts.entry pair.now.from.now.entry.tables.items
        pair.now.to.now.entry.tables.items }
{
    let (sending, receiving) = (pair.from, pair.to);
    levels(
        counts,
        sending.entry.tables.as_slice(),
        receiving.entry.tables.as_slice(),
    )
}

/// How many statements a statement comes to at most that goes over these tables.
pub(crate) fn times(levels: &[LoopLevel]) -> u64 {
    let mut product: u64 = 1;
    for own in levels {
        product = product.saturating_mul(u64::from(own.most));
    }
    product
}

/// The loops that the statement of a pair stands in.
pub(crate) fn loops_of(
    records: &Records<'_>,
    counts: DraftCounts<'_>,
    pair: &PartnerPair<'_, '_>,
) -> TableLoops
    ensures loops { map turning result.items ≡ loops_along (levels counts.entry
        pair.now.from.now.entry.tables.items pair.now.to.now.entry.tables.items) }
    ensures fixed { AreFixed pair.now.from.now.entry.tables.items
        → AreFixed pair.now.to.now.entry.tables.items → map turning result.items
        ≡ loops_over (lesser (mosts pair.now.from.now.entry.tables.items)
        (mosts pair.now.to.now.entry.tables.items)) }
{
    let levels = levels_of(counts, pair);
    loops_over(
        records,
        records.tables.innermost(pair.to),
        levels.as_slice(),
    )
}

/// Whether a loop goes over a table that holds the entry with this number, or that it is.
fn holds(own: &TableLoop, number: usize) -> bool {
    match own.table {
        Some(table) => table <= number && number <= own.last,
        None => false,
    }
}

/// How many of these loops, the outermost first, go over tables that hold an entry of the output record.
pub(crate) fn count_holding(loops: &[TableLoop], to: &DraftBearer<'_>) -> usize {
    let number = number_of(to);
    for (count, own) in loops.iter().enumerate() {
        if !holds(own, number) {
            return count;
        }
    }
    loops.len()
}

/// How many loops, the outermost first, are the same.
pub(crate) fn count_same(one: &[TableLoop], other: &[TableLoop]) -> usize {
    for (count, own) in one.iter().enumerate() {
        match other.get(count) {
            Some(another) if own == another => {}
            _ => return count,
        }
    }
    one.len()
}

/// The subscript, in loops that are numbered from here, for the table that so many tables hold, of which there are so many elements: the counter of its loop,
/// if that goes no further.
fn subscript_from(number: usize, loops: &[TableLoop], depth: usize, count: u32) -> Subscript
    requires room { number + length loops.now ≤ most_dimensions }
    ensures { result ≡ subscript_from number (map turning loops.now) depth count }
{
    let Some((first, more)) = loops.split_first() else {
        return Subscript::First;
    };
    if first.depth == depth && first.turns <= count {
        return Subscript::Counter(number);
    }
    subscript_from(number + 1, more, depth, count)
}

/// Adds the subscripts, in these loops, of an entry in tables with so many elements, of which so many tables hold the first.
fn push_subscripts(
    loops: &[TableLoop],
    depth: usize,
    counts: &[u32],
    subscripts: &mut LoopSubscripts,
)
    requires loops { length loops.now ≤ most_dimensions }
    requires room { length subscripts.old.items + length counts.now ≤ most_dimensions }
    requires depth { depth ≤ length subscripts.old.items }
    ensures { subscripts.new.items ≡ subscripts.old.items
        ++ subscripts_from (map turning loops.now) depth counts.now }
{
    let Some((first, more)) = counts.split_first() else {
        return;
    };
    subscripts.push(subscript_from(0, loops, depth, *first));
    push_subscripts(loops, depth + 1, more, subscripts);
}

/// The subscripts, in these loops, of an entry in tables with so many elements.
pub(crate) fn subscripts_of(loops: &[TableLoop], counts: &[u32]) -> LoopSubscripts
    requires loops { length loops.now ≤ most_dimensions }
    requires few { length counts.now ≤ most_dimensions }
    ensures { result.items ≡ subscripts_from (map turning loops.now) 0 counts.now }
{
    let mut subscripts = ArrayVec::new();
    push_subscripts(loops, 0, counts, &mut subscripts);
    subscripts
}

/// Of the elements of an entry's tables at most as many as another entry has, and all of tables that the other has not.
pub(crate) fn counts_beside(own: &[TableSize], others: &[TableSize]) -> ElementCounts {
    let mut counts = ArrayVec::new();
    for (depth, size) in own.iter().enumerate() {
        let other = others.get(depth).unwrap_or(size);
        let _ = counts.try_push(size.most.min(other.most));
    }
    counts
}

/// The subscripts of the last element that tables may have.
pub(crate) fn greatest_subscripts(tables: &[TableSize]) -> ElementCounts {
    let mut subscripts = ArrayVec::new();
    for size in tables {
        let _ = subscripts.try_push(size.most);
    }
    subscripts
}

/// A law: the loops of tables, turn by turn, name each of their elements once, in order.
pub fn loops_name_elements()
    ensures { (ns : List ℕ) → AllByRecursion (λ n. 0 < n) ns
        → map (λ turn. map (subscript_in turn) (subscripts_from (loops_over ns) 0 ns)) (all_turns (loops_over ns)) ≡ elements ns }
{}

/// A law: the loops over tables of which some vary, turn by turn, name each element that is there under the counts of the two records once, in order.
pub fn counted_loops_name_elements()
    ensures { (input output : ℕ → ℕ) (ls : List LoopLevel) → HaveElements ls
        → map (λ turn. map (subscript_in turn) (subscripts_from (loops_along ls) 0 (greatest ls)))
        (turns_at input output (loops_along ls)) ≡ elements (numbers_at input output ls) }
{}

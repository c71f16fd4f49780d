//! The counts of tables that vary, and by what a loop over the elements of a table ends.

ghost use Rattle.std.specs.Prelude.{◌≡◌, ℕ, IfSome};
ghost use Rattle.cob_report_partners.specs.Bounds.{AreMoved, StaysWithin, bound_of, bound_where, is_among, is_moved, is_moved_from};
ghost use Rattle.cob_report_partners.specs.declared.bounds.DraftCounts.{DraftCounts};
ghost use Rattle.cob_report_partners.specs.declared.bounds.TableSize.{TableSize};

/// How many elements a table has.
#[derive(Clone, Copy, PartialEq, Eq, Default)]
pub struct TableSize {
    /// The greatest number of them.
    pub most: u32,
    /// The number of the entry of its count, if it varies.
    pub count: Option<usize>,
}

/// The move to a count of the output record.
#[derive(Clone, Copy, PartialEq, Eq)]
pub struct CountMove {
    /// The number of the entry that is moved.
    pub from: usize,
    /// The number of the count's entry.
    pub to: usize,
}

/// What a draft does with the counts of tables.
#[derive(Clone, Copy)]
pub struct DraftCounts<'t> {
    /// The numbers of the input record's counts that a statement can name.
    pub named: &'t [usize],
    /// The moves to the output record's counts that stand before, where their tables are filled.
    pub moved: &'t [CountMove],
    /// The numbers of those of these counts whose tables are filled.
    pub filled: &'t [usize],
}

/// By what a loop over the elements of a table ends.
#[derive(Clone, Copy, PartialEq, Eq)]
pub enum LoopBound {
    /// This number.
    Number(u32),
    /// The count of the input record with this number.
    Input(usize),
    /// The count of the output record with this number.
    Output(usize),
}

impl Default for LoopBound {
    fn default() -> Self {
        LoopBound::Number(1)
    }
}

/// Whether a number is one of these.
pub(crate) fn is_among(numbers: &[usize], number: usize) -> bool
    ensures { result ≡ is_among numbers.now number }
{
    numbers.iter().any(|own| *own == number)
}

/// Whether one of these moves is to a count.
pub(crate) fn is_moved(moves: &[CountMove], count: usize) -> bool
    ensures { result ≡ is_moved moves.now count }
{
    moves.iter().any(|own| own.to == count)
}

/// Whether one of these moves is to a count, from this entry.
pub(crate) fn is_moved_from(moves: &[CountMove], sent: usize, count: usize) -> bool
    ensures { result ≡ is_moved_from moves.now sent count }
{
    moves.iter().any(|own| own.to == count && own.from == sent)
}

/// A bound, if it may be one.
fn bound_where(may: bool, bound: LoopBound) -> Option<LoopBound>
    ensures { result ≡ bound_where may bound }
{
    if may { Some(bound) } else { None }
}

/// By what a loop over the elements of a table of the input record and of one of the output record ends, if it may end.
pub fn bound_of(counts: DraftCounts<'_>, from: TableSize, to: TableSize) -> Option<LoopBound>
    ensures { result ≡ bound_of counts.entry from to }
{
    match (from.count, to.count) {
        (None, None) => Some(LoopBound::Number(from.most.min(to.most))),
        (Some(sent), None) => { bound_where(is_among(counts.named, sent), LoopBound::Input(sent)) }
        (None, Some(count)) => {
            bound_where(is_moved(counts.moved, count), LoopBound::Output(count))
        }
        (Some(sent), Some(count)) => bound_where(
            is_moved_from(counts.moved, sent, count),
            LoopBound::Input(sent),
        ),
    }
}

/// A law: where counts have the numbers that were moved to them, a loop goes past the count of neither table.
pub fn loops_stay_within_counts()
    ensures { (counts : DraftCounts) (from to : TableSize) (input output : ℕ → ℕ)
        → AreMoved input output counts.moved.now
        → IfSome (bound_of counts from to) (StaysWithin input output from to) }
{}

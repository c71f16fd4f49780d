//! Elements that differ, of which the first are told.

ghost use Rattle.std.specs.Prelude.{◌≡◌, List, ◌∷◌, [], IsTrue, IsFalse};
ghost use Rattle.cob_report_compare.specs.Differences.{AddsDifference, AreFirstOf, PlainDifference, plain_difference};

use arrayvec::ArrayVec;
use cob_layout::Place;
use cob_limits::MAX_SUBSCRIPTS;
use cob_report_show::ListedItem;

/// How many differences of a record are told at most.
pub const MOST_TOLD: usize = 20;

/// An element of an item that does not hold one value in two records.
#[derive(Drop)]
pub struct Difference<'a> {
    /// The item.
    pub item: Option<&'a ListedItem>,
    /// For each table that holds it or that it is, the outermost first, the number of the element, from 1.
    pub subscripts: ArrayVec<u32, MAX_SUBSCRIPTS>,
    /// Where it stands in the record on the left.
    pub left: Place,
    /// Where it stands in the record on the right.
    pub right: Place,
}

impl Default for Difference<'_> {
    fn default() -> Self {
        let nowhere = Place {
            offset: 0,
            length: 0,
        };
        Difference {
            item: None,
            subscripts: ArrayVec::new(),
            left: nowhere,
            right: nowhere,
        }
    }
}

/// The first differences of two records, and how many there are.
#[derive(Drop)]
pub struct FirstDifferences<'a> {
    /// The first of them.
    pub first: ArrayVec<Difference<'a>, MOST_TOLD>,
    /// How many there are, also of those that are not told.
    pub count: u64,
}

impl<'a> FirstDifferences<'a> {
    /// None.
    pub(crate) fn new() -> FirstDifferences<'a>
        ensures { AreFirstOf [] result }
    {
        FirstDifferences {
            first: ArrayVec::new(),
            count: 0,
        }
    }

    /// Adds a difference behind those so far.
    pub(crate) fn add(&mut self, difference: Difference<'a>)
        ensures { AddsDifference (λ added. added ≡ plain_difference difference.entry ∷ []) self.old self.new }
    {
        self.count = self.count.saturating_add(1);
        if !self.first.is_full() {
            self.first.push(difference);
        }
    }

    /// Whether there is none.
    pub(crate) fn is_empty(&self) -> bool
        ensures yes { (all : List PlainDifference) → AreFirstOf all self.now → IsTrue result
            → all ≡ [] }
        ensures no { (all : List PlainDifference) → AreFirstOf all self.now → IsFalse result
            → all ≡ [] → ⊥ }
    {
        self.count == 0
    }
}

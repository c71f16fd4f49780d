//! The two records that moves go between.

ghost use Rattle.std.specs.Prelude.{◌≡◌, ◌==◌, not, length};
ghost use Rattle.cob_layout_places.specs.Counts.{tables_of};

use cob_codec::Reading;
use cob_layout::Layout;

/// The layouts of both records, and how their binary items are read that are sent.
#[derive(Clone, Copy)]
pub(crate) struct Layouts<'a> {
    pub(crate) input: &'a Layout,
    pub(crate) output: &'a Layout,
    pub(crate) reading: Reading,
    /// Whether a table of the output record varies: only then counts of it are kept.
    pub(crate) varies: bool,
    pub(crate) ghost told: { varies ≡ not (length (tables_of output.now) == 0) },
}

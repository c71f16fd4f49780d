//! What single moves join, and which of them join the same.

ghost use Rattle.std.specs.Prelude.{◌≡◌, IfOk};
ghost use Rattle.std.specs.List.{count_by};
ghost use Rattle.std.specs.Option.{unwrap_or};
ghost use Rattle.indexmap.specs.IndexMap.{get_by};
ghost use Rattle.cob_report_html.specs.Ends.{AreCountsAtFirsts, same};

use indexmap::IndexMap;
use std::alloc::{AllocError, Global};

/// What a single move sends: an entry of the input record or of the output record by its number, or the constant of the statement with this place.
#[derive(Clone, Copy, PartialEq, Eq, Hash)]
pub enum Origin {
    Input(usize),
    Output(usize),
    Constant(usize),
}

/// What a single move joins: what it sends, and the entry of the output record that receives it.
#[derive(Clone, Copy, PartialEq, Eq, Hash)]
pub struct JoinedEnds {
    pub from: Origin,
    pub to: usize,
}

/// How many of these single moves join the same, by what they join.
fn tally(alloc: Global, singles: &[JoinedEnds]) -> Result<IndexMap<JoinedEnds, usize>, AllocError>
    ensures { IfOk result (λ counts. (ends : JoinedEnds)
        → unwrap_or (get_by (same ends) counts) 0 ≡ count_by (same ends) singles.now) }
{
    let mut counts = IndexMap::new(alloc);
    for single in singles {
        let earlier = counts.get(single).copied().unwrap_or(0);
        counts.insert(*single, earlier + 1)?;
    }
    Ok(counts)
}

/// Of each of these single moves, how many join the same as it does, where it is the first of them; of a later one none.
///
/// # Errors
///
/// Where no memory is left.
pub fn counts_of(alloc: Global, singles: &[JoinedEnds]) -> Result<Vec<Option<usize>>, AllocError>
    ensures { IfOk result (λ counts. AreCountsAtFirsts singles.now counts.items) }
{
    let mut left = tally(alloc, singles)?;
    let mut counts = Vec::new(alloc);
    for single in singles {
        counts.push(left.swap_remove(single))?;
    }
    Ok(counts)
}

//! Whether two pictures are one.

ghost use Rattle.std.specs.Prelude.{◌≡◌, ◌≤◌, length};
ghost use Rattle.std.specs.Bool.{Decides};
ghost use Rattle.std.specs.List.{slice_get};
ghost use Rattle.cob_picture.specs.Positions.{written_out};

use cob_picture::{Picture, Run, Symbol};

/// How many symbols these runs are.
fn symbols_in(runs: &[Run]) -> usize
    requires few { length runs.now ≤ 50 }
    ensures { result ≡ length (written_out runs.now) }
{
    let mut count: usize = 0;
    for run in runs {
        count += usize::from(run.count);
    }
    count
}

/// The symbol at a place of these runs, from 0.
fn symbol_at(runs: &[Run], place: usize) -> Option<Symbol>
    ensures { result ≡ slice_get (written_out runs.now) place }
{
    let mut left = place;
    for run in runs {
        let count = usize::from(run.count);
        if left < count {
            return Some(run.symbol);
        }
        left -= count;
    }
    None
}

/// Whether two runs' symbols are the same at a place.
fn is_same_at(runs: &[Run], others: &[Run], place: usize) -> bool
    ensures { Decides result (slice_get (written_out runs.now) place
        ≡ slice_get (written_out others.now) place) }
{
    match (symbol_at(runs, place), symbol_at(others, place)) {
        (Some(symbol), Some(other)) => symbol == other,
        (None, None) => true,
        _ => false,
    }
}

/// Whether runs are the same symbols, whichever way these are cut into runs.
fn are_same_symbols(runs: &[Run], others: &[Run]) -> bool
    requires few { length runs.now ≤ 50 }
    requires also { length others.now ≤ 50 }
    ensures { Decides result (written_out runs.now ≡ written_out others.now) }
{
    let count = symbols_in(runs);
    if count != symbols_in(others) {
        return false;
    }
    for place in 0..count {
        if !is_same_at(runs, others, place) {
            return false;
        }
    }
    true
}

/// Whether two pictures are one: of one category, with the same symbols at their positions.
pub(crate) fn is_same_picture(picture: &Picture, other: &Picture) -> bool
    ensures { Decides result (picture.now ≡ other.now) }
{
    picture.category() == other.category() && are_same_symbols(picture.runs(), other.runs())
}

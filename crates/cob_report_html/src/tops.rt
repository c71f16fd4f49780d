//! Boxes that lie one below another.

ghost use Rattle.std.specs.Prelude.{IfOk};
ghost use Rattle.cob_report_html.specs.Tops.{AreTops, BeginsBehind};

use std::alloc::{AllocError, Global};

/// How high a sheet of paper is, on which boxes are printed.
pub const SHEET: u32 = 718;

/// A box, and how much stays white above it.
#[derive(Clone, Copy, PartialEq, Eq)]
pub struct SpacedBox {
    pub gap: u32,
    pub height: u32,
}

/// Where a box of this height begins behind one that ends here: there, or at the front of the next sheet, where it has room on a sheet and not on the rest of
/// this one.
pub fn top_behind(end: u32, height: u32) -> u32
    ensures { BeginsBehind end height result }
{
    let rest = SHEET - end % SHEET;
    if rest < height && height <= SHEET {
        return end.saturating_add(rest);
    }
    end
}

/// Where these boxes begin that lie one below another, the first one at `first` or behind it, and where the last one ends. No box that has room on a sheet
/// stands on two.
///
/// # Errors
///
/// Where no memory is left.
pub fn tops_of(alloc: Global, first: u32, boxes: &[SpacedBox]) -> Result<Vec<u32>, AllocError>
    ensures { IfOk result (λ tops. AreTops first boxes.now tops.items) }
{
    let mut tops = Vec::new(alloc);
    let mut end = first;
    for next in boxes {
        let start = end.saturating_add(next.gap);
        let top = top_behind(start, next.height);
        tops.push(top)?;
        end = top.saturating_add(next.height);
    }
    tops.push(end)?;
    Ok(tops)
}

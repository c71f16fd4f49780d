//! Texts with tabs.

ghost use Rattle.std.specs.Prelude.{◌≡◌, ℕ, ◌+◌, ◌<◌, ◌≤◌, List, ◌∷◌, ◌++◌, replicate, IfOk, OnOk};
ghost use Rattle.cob_source.specs.Tabs.{untabbed, untabbed_from};

use std::alloc::{AllocError, Global};

/// How many columns of a line count.
const COLUMNS: usize = 72;

/// Puts so many spaces behind a text.
fn push_spaces(count: usize, out: &mut Vec<u8>) -> Result<(), AllocError>
    ensures { OnOk result (out.new.items ≡ out.old.items ++ replicate count 32) }
{
    for i in 0..count {
        out.push(b' ')?;
    }
    Ok(())
}

/// Puts a character behind a text, spaces in place of a tab before column 73, where so many columns of its line stand before it, and answers how many stand
/// before the next one. From column 73 on they are not counted.
#[tactic(auto, using(crate::proofs::TabLemmas::feed_put, crate::proofs::TabLemmas::far_put, crate::proofs::TabLemmas::tab_put, crate::proofs::TabLemmas::other_put))]
fn push_untabbed(
    byte: u8,
    width: usize,
    column: usize,
    out: &mut Vec<u8>,
) -> Result<usize, AllocError>
    requires some { 0 < width }
    requires few { width ≤ 255 }
    requires within { column ≤ 327 }
    ensures put { IfOk result (λ next. (rest : List ℕ)
        → out.old.items ++ untabbed_from width column (byte ∷ rest) ≡ out.new.items ++ untabbed_from width next rest) }
    ensures within { IfOk result (λ next. next ≤ 327) }
{
    if byte == b'\n' {
        out.push(byte)?;
        return Ok(0);
    }
    if column >= COLUMNS {
        out.push(byte)?;
        return Ok(column);
    }
    if byte == b'\t' {
        let count = width - column % width;
        push_spaces(count, out)?;
        return Ok(column + count);
    }
    out.push(byte)?;
    Ok(column + 1)
}

/// A text with spaces in place of each tab before column 73, up to the next column that has a tab stop in front of it: one stands behind each `width` columns.
/// Its lines stay as many.
///
/// # Errors
///
/// Where no memory is left.
pub fn without_tabs(alloc: Global, text: &[u8], width: u8) -> Result<Vec<u8>, AllocError>
    requires { 0 < width }
    ensures { IfOk result (λ v. v.items ≡ untabbed width text.now) }
{
    let mut out = Vec::with_capacity(alloc, text.len())?;
    let mut column: usize = 0;
    let mut rest = text;
    while let Some((first, more)) = rest.split_first() {
        column = push_untabbed(*first, width as usize, column, &mut out)?;
        rest = more;
    }
    Ok(out)
}

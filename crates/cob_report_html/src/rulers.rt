//! Rulers of bytes, in rows.

ghost use Rattle.std.specs.Prelude.{◌≡◌, ◌+◌};
ghost use Rattle.cob_report_html.specs.Rulers.{IsRowPart, AreRows};

/// How many bytes a row of a ruler has.
pub const ROW: u32 = 64;

/// A part of a run of bytes that stands in one row of a ruler.
#[derive(Clone, Copy, PartialEq, Eq)]
pub struct RulerPart {
    /// The row, from 0.
    pub row: u32,
    /// The bytes of the row in front of it.
    pub before: u32,
    pub length: u32,
}

/// The part of a run of so many bytes from this offset on that stands in the row in which it begins.
pub fn part_at(offset: u32, length: u32) -> RulerPart
    ensures { IsRowPart offset length result }
{
    let before = offset % ROW;
    RulerPart {
        row: offset / ROW,
        before,
        length: length.min(ROW - before),
    }
}

/// How many rows a run of so many bytes from this offset on meets.
pub fn rows_of(offset: u32, length: u32) -> u32
    ensures { AreRows offset length result }
{
    if length == 0 {
        return 0;
    }
    let last = offset as u64 % ROW as u64 + length as u64 - 1;
    (last / ROW as u64 + 1) as u32
}

//! The lines, curves and rectangles of a drawing.

use std::fmt;

/// A straight line, which prints as an element of a drawing. Its ends stand so many hundredths of the drawing's width from the left, and so many units
/// from above.
#[derive(Clone, Copy, PartialEq, Eq)]
pub struct StraightLine {
    pub x1: u32,
    pub y1: u32,
    pub x2: u32,
    pub y2: u32,
}

impl fmt::Display for StraightLine {
    ghost use Rattle.std.specs.Prelude.{Some};
    ghost use Rattle.cob_report_html.specs.Shapes.{line_text};

    ghost output = { λ line. Some (line_text line) };

    fn fmt<W: fmt::Write>(&self, f: &mut fmt::Formatter<W>) -> fmt::Result {
        write!(
            f,
            "<line x1=\"{}%\" y1=\"{}\" x2=\"{}%\" y2=\"{}\"/>",
            self.x1, self.y1, self.x2, self.y2
        )
    }
}

/// A curve from the left edge of a drawing to the right one, in a drawing that is a hundred units wide. It begins and ends level, so many units from above.
#[derive(Clone, Copy, PartialEq, Eq)]
pub struct LevelCurve {
    pub from: u32,
    pub to: u32,
}

impl fmt::Display for LevelCurve {
    ghost use Rattle.std.specs.Prelude.{Some};
    ghost use Rattle.cob_report_html.specs.Shapes.{curve_text};

    ghost output = { λ curve. Some (curve_text curve) };

    fn fmt<W: fmt::Write>(&self, f: &mut fmt::Formatter<W>) -> fmt::Result {
        write!(
            f,
            "<path d=\"M0 {}C45 {} 55 {} 100 {}\"/>",
            self.from, self.from, self.to, self.to
        )
    }
}

/// A rectangle, which prints as an element of a drawing, in the drawing's units.
#[derive(Clone, Copy, PartialEq, Eq)]
pub struct Rectangle {
    pub x: u32,
    pub y: u32,
    pub width: u32,
    pub height: u32,
}

impl fmt::Display for Rectangle {
    ghost use Rattle.std.specs.Prelude.{Some};
    ghost use Rattle.cob_report_html.specs.Shapes.{rectangle_text};

    ghost output = { λ rectangle. Some (rectangle_text rectangle) };

    fn fmt<W: fmt::Write>(&self, f: &mut fmt::Formatter<W>) -> fmt::Result {
        write!(
            f,
            "<rect x=\"{}\" y=\"{}\" width=\"{}\" height=\"{}\"/>",
            self.x, self.y, self.width, self.height
        )
    }
}

//! Lines of texts by their numbers.

ghost use Rattle.std.specs.Prelude.{◌<◌};
ghost use Rattle.cob_source_copies.specs.Libraries.{IsNumberOfLine};

use cob_limits::MAX_TEXT_BYTES;

/// A line of a text.
#[derive(Clone, Copy, Debug, PartialEq, Eq)]
pub struct TextLine {
    /// 0 for the text that copies others, 1 and so on for those of its library.
    pub text: u32,
    /// Its number in that text, from 1.
    pub line: u32,
}

/// The line that a number means, where the lines of each text are counted on behind those of the texts before it.
pub fn line_numbered(number: u32) -> TextLine
    requires { 0 < number }
    ensures { IsNumberOfLine number result.text result.line }
{
    let before = number - 1;
    let most = MAX_TEXT_BYTES as u32;
    TextLine {
        text: before / most,
        line: before % most + 1,
    }
}

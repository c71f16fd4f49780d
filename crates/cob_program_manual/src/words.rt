//! Words of manual pages.

use std::alloc::AllocError;

// What stands between the lines of a text that is to be filled, and of one whose lines stand by themselves.
pub(crate) const FILLED: &str = " ";

pub(crate) const BROKEN: &str = "\n.br\n\\&";

/// Adds words to a manual page, what stands before them and what behind; between their lines stands this.
pub(crate) fn push_words(
    text: &mut String,
    before: &str,
    words: &str,
    between: &str,
    behind: &str,
) -> Result<(), AllocError> {
    text.push_str(before)?;
    for letter in words.chars() {
        let pushed = match letter {
            '-' => text.push_str("\\-"),
            '\\' => text.push_str("\\e"),
            '\n' => text.push_str(between),
            _ => text.push(letter),
        };
        pushed?;
    }
    text.push_str(behind)
}

//! Lines of a paragraph in reference format: statements from column 12 on, comments behind an asterisk in column 7, nothing behind column 72. In a loop all
//! stands four columns further on.

ghost use Rattle.std.specs.Prelude.{◌≤◌, ◌<◌, length};

use cob_limits::MAX_TEXT_BYTES;
use std::alloc::AllocError;

/// The columns of a line.
const COLUMNS: usize = 72;

/// The bytes before what a statement says.
const AREA_B: usize = 11;

/// The bytes before what a statement says on its further lines.
const FURTHER: usize = 15;

/// The bytes before what a comment says.
const REMARK: usize = 8;

/// How many columns further on all stands in a loop.
const DEEPER: usize = 4;

/// The most loops that bring lines further on: behind more of them a name of 30 characters would have no room on a line.
const DEEPEST: usize = 6;

/// The fewest bytes of words on a line, on an average: one line and the next have more together than one has room for in the deepest loop.
const FEWEST: usize = 15;

/// Whether a line is a comment.
#[derive(Clone, Copy)]
pub(crate) enum DraftLineKind {
    Statement,
    Comment,
}

/// The words of a statement.
#[derive(Drop)]
pub(crate) struct StatementWords {
    pub(crate) text: String,
    /// How many of its bytes say what it sends. Behind them stand a space and what receives.
    pub(crate) sends: usize,
}

/// The text of a paragraph, which grows line by line, and never longer than a text may be.
#[derive(Drop)]
pub(crate) struct DraftLines {
    pub(crate) text: String,
    /// Whether a line was left out for which the text has no room.
    pub(crate) is_cut: bool,
    /// How many loops hold the lines to come.
    open: usize,
}

/// How many columns further on lines stand in so many loops.
fn further_on(open: usize) -> usize
    ensures { result ≤ 24 }
{
    if open < DEEPEST {
        return open * DEEPER;
    }
    DEEPEST * DEEPER
}

/// How many bytes of words stand on a line of so many: all of them, or up to the last space where the next word begins behind it.
fn line_end(words: &[u8], width: usize) -> usize
    requires { 0 < width }
    ensures most { result ≤ width }
    ensures inside { result ≤ length words.now }
    ensures some { 0 < length words.now → 0 < result }
{
    if words.len() <= width {
        return words.len();
    }
    let mut end = width;
    for at in 1..width + 1 {
        if words[at] == b' ' {
            end = at;
        }
    }
    end
}

/// What stands behind the space with which words begin.
fn behind_space(words: &[u8]) -> &[u8]
    ensures { length result.now ≤ length words.now }
{
    match words.split_first() {
        Some((b' ', others)) => others,
        _ => words,
    }
}

/// Adds characters.
fn push_characters(text: &mut String, characters: &[u8]) -> Result<(), AllocError> {
    for character in characters {
        text.push(char::from(*character))?;
    }
    Ok(())
}

/// Adds so many spaces.
fn push_spaces(text: &mut String, count: usize) -> Result<(), AllocError> {
    for _ in 0..count {
        text.push(' ')?;
    }
    Ok(())
}

/// Adds what stands before the words of a line.
fn push_margin(text: &mut String, mark: DraftLineKind, indent: usize) -> Result<(), AllocError> {
    match mark {
        DraftLineKind::Statement => push_spaces(text, indent),
        DraftLineKind::Comment => {
            text.push_str("      *")?;
            push_spaces(text, indent.saturating_sub(7))
        }
    }
}

impl DraftLines {
    /// No line.
    pub(crate) fn new(text: String) -> DraftLines {
        DraftLines {
            text,
            is_cut: false,
            open: 0,
        }
    }

    /// Whether the text has room for words of so many bytes, for what stands beside them on their lines, and for the ends of the open loops; else the
    /// words are left out, and so are all behind them.
    fn has_room(&mut self, count: usize) -> bool {
        let lines = (count / FEWEST).saturating_add(self.open).saturating_add(4);
        let needed = lines.saturating_mul(COLUMNS + 1);
        if self.text.len().saturating_add(needed) > MAX_TEXT_BYTES {
            self.is_cut = true;
        }
        !self.is_cut
    }

    /// Adds words on as many lines as they need.
    fn push_words(
        &mut self,
        mark: DraftLineKind,
        first: usize,
        further: usize,
        words: &[u8],
    ) -> Result<(), AllocError>
        requires first { first < 72 }
        requires further { further < 72 }
    {
        let mut rest = words;
        let mut indent = first;
        for _ in 0..words.len() {
            if rest.is_empty() {
                break;
            }
            let (line, more) = rest.split_at(line_end(rest, COLUMNS - indent));
            push_margin(&mut self.text, mark, indent)?;
            push_characters(&mut self.text, line)?;
            self.text.push('\n')?;
            rest = behind_space(more);
            indent = further;
        }
        Ok(())
    }

    /// Adds a statement, or one that stands as a comment: what it sends, and what receives.
    pub(crate) fn push_statement(
        &mut self,
        mark: DraftLineKind,
        words: &StatementWords,
    ) -> Result<(), AllocError> {
        let whole = words.text.as_bytes();
        if !self.has_room(whole.len()) {
            return Ok(());
        }
        let deeper = further_on(self.open);
        let (first, further) = (AREA_B + deeper, FURTHER + deeper);
        if first + whole.len() <= COLUMNS {
            return self.push_words(mark, first, further, whole);
        }
        let (sends, receives) = whole.split_at(words.sends.min(whole.len()));
        self.push_words(mark, first, further, sends)?;
        self.push_words(mark, further, further, behind_space(receives))
    }

    /// Adds the head of a loop, if the text has room for it and for its end, and answers whether it has.
    pub(crate) fn open_loop(&mut self, head: &str) -> Result<bool, AllocError> {
        if !self.has_room(head.len()) {
            return Ok(false);
        }
        let deeper = further_on(self.open);
        let (first, further) = (AREA_B + deeper, FURTHER + deeper);
        self.push_words(DraftLineKind::Statement, first, further, head.as_bytes())?;
        self.open = self.open.saturating_add(1);
        Ok(true)
    }

    /// Adds the end of the innermost loop.
    pub(crate) fn close_loop(&mut self) -> Result<(), AllocError> {
        self.open = self.open.saturating_sub(1);
        let end = if self.open == 0 {
            "END-PERFORM."
        } else {
            "END-PERFORM"
        };
        let first = AREA_B + further_on(self.open);
        self.push_words(DraftLineKind::Statement, first, first, end.as_bytes())
    }

    /// Adds a remark, as a comment.
    pub(crate) fn push_remark(&mut self, words: &str) -> Result<(), AllocError> {
        if !self.has_room(words.len()) {
            return Ok(());
        }
        let first = REMARK + further_on(self.open);
        self.push_words(DraftLineKind::Comment, first, first + 4, words.as_bytes())
    }

    /// Adds an entry of a list, as a comment.
    pub(crate) fn push_listed(&mut self, words: &str) -> Result<(), AllocError> {
        if !self.has_room(words.len()) {
            return Ok(());
        }
        let deeper = further_on(self.open);
        let (first, further) = (AREA_B + deeper, FURTHER + deeper);
        self.push_words(DraftLineKind::Comment, first, further, words.as_bytes())
    }
}

//! Words written as a text in reference format.

use cob_source::{Token, TokenKind};
use std::alloc::{AllocError, Global};

/// The text of one record description.
#[derive(Drop)]
pub struct RecordText {
    /// It, in reference format.
    pub text: Vec<u8>,
    /// Of each of its lines, which line it was written for.
    pub lines: Vec<u32>,
}

/// The quote round literals.
const QUOTE: u8 = b'\'';

/// Column 7 of a line that goes on with the line before it.
const CONTINUED: u8 = b'-';

/// How many columns there are from 8 to 72.
const AREA: usize = 65;

/// How many of them a line has that goes on with the line before it: none of area A.
const CONTINUED_AREA: usize = 61;

/// How many of them a piece of a literal has at most that has room for one more character, perhaps a quote that is doubled.
const PIECE: usize = 58;

impl RecordText {
    /// Puts so many spaces behind the text.
    fn push_spaces(&mut self, count: usize) -> Result<(), AllocError> {
        for _ in 0..count {
            self.text.push(b' ')?;
        }
        Ok(())
    }

    /// Puts a line behind the text, with this character in column 7 and these spaces from column 8 on.
    fn push_line(
        &mut self,
        indicator: u8,
        spaces: usize,
        content: &[u8],
        line: u32,
    ) -> Result<(), AllocError> {
        self.push_spaces(6)?;
        self.text.push(indicator)?;
        self.push_spaces(spaces)?;
        self.text.extend_from_slice(content)?;
        self.text.push(b'\n')?;
        self.lines.push(line)?;
        Ok(())
    }

    /// Puts characters without a space among them behind the text, on as many lines as they need.
    fn push_characters(&mut self, characters: &[u8], line: u32) -> Result<(), AllocError> {
        let Some((first, behind)) = characters.split_at_checked(AREA) else {
            return self.push_line(b' ', 0, characters, line);
        };
        self.push_line(b' ', 0, first, line)?;
        for piece in behind.chunks(CONTINUED_AREA) {
            self.push_line(CONTINUED, 4, piece, line)?;
        }
        Ok(())
    }

    /// Puts a word behind the text. The comma separates it from the next one, so that a sign at its own end is part of it.
    fn push_word(&mut self, alloc: Global, text: &[u8], line: u32) -> Result<(), AllocError> {
        let mut characters = Vec::from_slice(alloc, text)?;
        characters.push(b',')?;
        self.push_characters(characters.as_slice(), line)
    }

    /// Puts a literal behind the text. A line on which it goes on ends in column 72 with a whole character of it: a quote that is doubled is not parted.
    fn push_literal(&mut self, alloc: Global, text: &[u8], line: u32) -> Result<(), AllocError> {
        let mut piece = Vec::from_slice(alloc, &[QUOTE])?;
        let mut indicator = b' ';
        for character in text {
            if piece.len() > PIECE {
                let spaces = AREA.saturating_sub(piece.len());
                self.push_line(indicator, spaces, piece.as_slice(), line)?;
                piece = Vec::from_slice(alloc, &[QUOTE])?;
                indicator = CONTINUED;
            }
            piece.push(*character)?;
            if *character == QUOTE {
                piece.push(QUOTE)?;
            }
        }
        piece.push(QUOTE)?;
        self.push_line(indicator, 4, piece.as_slice(), line)
    }

    /// Puts a word, a literal or a period behind the text, on lines of its own.
    fn push_token(&mut self, alloc: Global, token: &Token) -> Result<(), AllocError> {
        let text = token.text.as_slice();
        match token.kind {
            TokenKind::Word => self.push_word(alloc, text, token.line),
            TokenKind::Literal => self.push_literal(alloc, text, token.line),
            TokenKind::Stop => self.push_characters(text, token.line),
        }
    }
}

/// A text for words, each on a line of its own.
///
/// # Errors
///
/// Where no memory is left.
pub(crate) fn written(alloc: Global, words: &[Token]) -> Result<RecordText, AllocError> {
    let mut out = RecordText {
        text: Vec::new(alloc),
        lines: Vec::new(alloc),
    };
    for word in words {
        out.push_token(alloc, word)?;
    }
    Ok(out)
}

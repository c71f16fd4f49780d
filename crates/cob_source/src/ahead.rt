//! Paragraphs read piece by piece.

ghost use Rattle.std.specs.Prelude.{ℕ, ◌<◌, ◌≤◌, List, [], ◌++◌, length, IfOk, IfErr, IfSome, IfNone, OnOk, IsTrue};
ghost use Rattle.cob_limits.specs.Limits.{longest_text};
ghost use Rattle.cob_source.specs.Ahead.{HaveLineNumbers, AreReadOf, IsNoted, IsReadTo, ReadsOn, RefusesTextOf};
ghost use Rattle.cob_source.specs.Tokens.{Lexeme, lexemes};

use crate::fault::SourceFault;
use crate::joined::{Joined, cut_joined};
use crate::lines::{begins_statement, next_line};
use crate::reader::take_line;
use crate::token::{Cutting, Token};
use cob_limits::MAX_TEXT_BYTES;
use std::alloc::Global;

/// How many words of a paragraph are read at once at least, where so many are left.
const LEAST_WORDS: usize = 1_000;

/// The words of a paragraph that are still to be read.
#[derive(Drop)]
pub struct WordsAhead<'a> {
    /// The lines that are still to be read.
    rest: &'a [u8],
    /// The number of the first of them.
    number: u32,
    /// The last joined line before them, which may go on.
    joined: Joined,
}

impl<'a> WordsAhead<'a> {
    /// All words of a paragraph; None where its text is too long.
    pub fn new(alloc: Global, text: &'a [u8]) -> Option<WordsAhead<'a>>
        ensures begins { IfSome result (IsReadTo text.now []) }
        ensures numbered { IfSome result HaveLineNumbers }
        ensures noted { IfSome result IsNoted }
        // None is the answer only to a text that is too long.
        ensures none { IfNone result (longest_text < length text.now) }
    {
        if text.len() > MAX_TEXT_BYTES {
            return None;
        }
        let joined = Joined {
            cells: Vec::new(alloc),
            quote: None,
            last: 0,
        };
        Some(WordsAhead {
            rest: text,
            number: 1,
            joined,
        })
    }

    /// Reads the next line, and answers whether enough words are read and a statement begins with it. What the lines before are joined to goes behind the
    /// words so far where it is done.
    ///
    /// # Errors
    ///
    /// The rule that the text breaks, on the line that breaks it. T9, with line 0, only where memory is refused.
    fn read_line(&mut self, alloc: Global, out: &mut Vec<Token>) -> Result<bool, SourceFault>
        requires some { 0 < length self.old.rest.now }
        requires numbered { HaveLineNumbers self.old }
        requires noted { IsNoted self.old }
        ensures read { OnOk result (ReadsOn out.old.items out.new.items self.old self.new) }
        ensures shorter { OnOk result (length self.new.rest.now < length self.old.rest.now) }
        ensures numbered { OnOk result (HaveLineNumbers self.new) }
        ensures noted { OnOk result (IsNoted self.new) }
        ensures refused { IfErr result (λ f. RefusesTextOf out.old.items self.old f.rule f.line) }
        ensures enough { IfOk result (λ b. IsTrue b → 1000 ≤ length out.new.items) }
    {
        let (line, more) = next_line(self.rest);
        let number = self.number;
        take_line(alloc, Cutting::Apart, number, line, &mut self.joined, out)?;
        self.number = number + 1;
        self.rest = more;
        Ok(out.len() >= LEAST_WORDS && begins_statement(line))
    }

    /// Puts the next words behind those so far: so many that a thousand stand there at least, up to a line with which a statement begins, and else all
    /// that are left. Answers whether more are left.
    ///
    /// # Errors
    ///
    /// The rule that the text breaks, on the line that breaks it. T9, with line 0, only where memory is refused.
    pub fn read(&mut self, alloc: Global, out: &mut Vec<Token>) -> Result<bool, SourceFault>
        requires numbered { HaveLineNumbers self.old }
        requires noted { IsNoted self.old }
        ensures read { IfOk result (λ more. (text : List ℕ) (front : List Lexeme)
            → IsReadTo text (front ++ lexemes out.old.items) self.old
            → AreReadOf text (front ++ lexemes out.new.items) self.new more) }
        ensures numbered { OnOk result (HaveLineNumbers self.new) }
        ensures noted { OnOk result (IsNoted self.new) }
        // Where more are left, a thousand words stand there, and lines were read.
        ensures enough { IfOk result (λ more. IsTrue more → 1000 ≤ length out.new.items) }
        ensures shorter { IfOk result (λ more. IsTrue more
            → length self.new.rest.now < length self.old.rest.now) }
        // A refused text breaks the rule that is named, on the line that is named.
        ensures refused { IfErr result (λ f. RefusesTextOf out.old.items self.old f.rule f.line) }
    {
        while !self.rest.is_empty() {
            let is_enough = self.read_line(alloc, out)?;
            if is_enough {
                return Ok(true);
            }
        }
        cut_joined(alloc, Cutting::Apart, &self.joined, out)?;
        Ok(false)
    }
}

//! Words with their COPY statements carried out.

ghost use Rattle.std.specs.Prelude.{◌≡◌, ◌≤◌, List, map, length, IfOk, IfErr};
ghost use Rattle.cob_source.specs.Tokens.{Lexeme, lexemes};
ghost use Rattle.cob_source_copies.specs.declared.fault.CopyRule.TheVariants.{Memory};
ghost use Rattle.cob_source_copies.specs.Statements.{written_copy};
ghost use Rattle.cob_source_copies.specs.Texts.{AreExpanded, copied_text};
ghost use Rattle.cob_source_copies.specs.Refusals.{IsCopyRefusal};
ghost use Rattle.cob_source_copies.specs.Carrying.{IsCopyCarriedOut, IsCarryRefusal, IsPut, IsPutRefusal, IsTextCopiedBy, CopiesNoText};

use crate::copying::copy_of;
use crate::exchange::push_replaced;
use crate::fault::{CopyFault, CopyRule};
use crate::laws::{expanded_breaks_no_rule, one_expansion};
use crate::library::{Library, LibraryText};
use crate::statement::{Statement, copy_front, is_copy};
use cob_limits::MAX_COPIED_WORDS;
use cob_source::Token;
use std::alloc::Global;

impl Library {
    /// The text that a statement copies.
    ///
    /// # Errors
    ///
    /// `Unknown` where none has its name, and `Nested` where it holds a COPY statement and something is to be replaced in it.
    fn text_of(&self, statement: &Statement) -> Result<&LibraryText, CopyRule>
        ensures ok { IfOk result (λ t. IsTextCopiedBy (map copied_text self.now.texts.items)
            (written_copy statement.now) (copied_text t.now)) }
        ensures fault { IfErr result (λ r. CopiesNoText r (map copied_text self.now.texts.items)
            (written_copy statement.now)) }
    {
        let Some(text) = self.text_named(&statement.named) else {
            return Err(CopyRule::Unknown);
        };
        if text.holds_copy && !statement.exchanges.is_empty() {
            return Err(CopyRule::Nested);
        }
        Ok(text)
    }

    /// Puts what a statement copies behind the words so far, and answers how many more words may be copied.
    ///
    /// # Errors
    ///
    /// As [`Library::text_of`], `TooMany` where that are more words than `room`, and `Memory`.
    fn put(
        &self,
        alloc: Global,
        statement: &Statement,
        room: usize,
        out: &mut Vec<Token>,
    ) -> Result<usize, CopyRule>
        ensures ok { IfOk result (λ left. IsPut (map copied_text self.now.texts.items)
            (written_copy statement.now) room left (lexemes out.old.items) (lexemes out.new.items)) }
        ensures fault { IfErr result (λ r. IsPutRefusal r (map copied_text self.now.texts.items)
            (written_copy statement.now) room) }
    {
        let text = self.text_of(statement)?;
        let before = out.len();
        push_replaced(
            alloc,
            statement.exchanges.as_slice(),
            text.words.as_slice(),
            out,
        )?;
        let put = out.len() - before;
        if put > room {
            return Err(CopyRule::TooMany);
        }
        Ok(room - put)
    }

    /// Carries out the COPY statement that goes on with these words behind its word COPY, and answers how many more words may be copied and what is behind its
    /// period.
    ///
    /// # Errors
    ///
    /// The rule that it breaks, and `Memory`.
    fn carry_out<'a>(
        &self,
        alloc: Global,
        behind: &'a [Token],
        room: usize,
        out: &mut Vec<Token>,
    ) -> Result<(usize, &'a [Token]), CopyRule>
        ensures ok { IfOk result (λ r. IsCopyCarriedOut (map copied_text self.now.texts.items)
            (lexemes behind.now) (lexemes r.1.now) room r.0 (lexemes out.old.items) (lexemes out.new.items)) }
        ensures shorter { IfOk result (λ r. length r.1.now ≤ length behind.now) }
        ensures fault { IfErr result (λ r. IsCarryRefusal r (map copied_text self.now.texts.items) (lexemes behind.now) room) }
    {
        let Some((statement, more)) = copy_front(alloc, behind)? else {
            return Err(CopyRule::Statement);
        };
        let left = self.put(alloc, &statement, room, out)?;
        Ok((left, more))
    }

    /// Words with each COPY statement among them carried out: it gives way to the words of the text that it names, in which each x of its REPLACING is replaced.
    /// Other words stay as they are.
    ///
    /// # Errors
    ///
    /// A rule of COPY that the words break, with the line of the word COPY. `Memory`, with line 0, only where memory is refused.
    pub fn expand(&self, alloc: Global, words: &[Token]) -> Result<Vec<Token>, CopyFault>
        // What is answered is what the words come to.
        ensures found { IfOk result (λ v. AreExpanded (map copied_text self.now.texts.items)
            (lexemes words.now) (lexemes v.items)) }
        // Words that come to others are carried out, memory aside.
        ensures only { (done : List Lexeme)
            → AreExpanded (map copied_text self.now.texts.items) (lexemes words.now) done
            → IfOk result (λ v. lexemes v.items ≡ done) × IfErr result (λ f. f.rule ≡ Memory) }
        // A refusal names a rule that is broken, on the line that breaks it.
        ensures fault { IfErr result (λ f. IsCopyRefusal f.rule f.line
            (map copied_text self.now.texts.items) (lexemes words.now)) }
    {
        // For `only`: words come to one list at most, and those that do break no rule.
        one_expansion();
        expanded_breaks_no_rule();
        let mut out = Vec::new(alloc);
        let mut room = MAX_COPIED_WORDS;
        let mut rest = words;
        while let Some((first, more)) = rest.split_first() {
            if is_copy(first) {
                match self.carry_out(alloc, more, room, &mut out) {
                    Ok((left, behind)) => {
                        room = left;
                        rest = behind;
                    }
                    Err(rule) => return Err(rule.on(first.line)),
                }
            } else {
                out.push(copy_of(alloc, first)?)?;
                rest = more;
            }
        }
        Ok(out)
    }
}

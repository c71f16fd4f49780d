//! Texts put into a library.

ghost use Rattle.std.specs.Prelude.{◌≡◌, ℕ, ◌+◌, ◌*◌, ◌≤◌, List, [], map, IfErr, IfOk, OnErr, OnOk};
ghost use Rattle.cob_limits.specs.Limits.{longest_text};
ghost use Rattle.cob_source.specs.Tokens.{Lexeme, lexemes};
ghost use Rattle.cob_source_copies.specs.declared.fault.CopyRule.TheVariants.{Memory};
ghost use Rattle.cob_source_copies.specs.Statements.{written_text_name};
ghost use Rattle.cob_source_copies.specs.Texts.{AreExpanded, copied_text, has_copy};
ghost use Rattle.cob_source_copies.specs.Refusals.{IsCopyRefusal};
ghost use Rattle.cob_source_copies.specs.Libraries.{IsTextAdded, on_line};

use crate::fault::CopyFault;
use crate::library::{Library, LibraryText};
use crate::name::TextName;
use crate::statement::is_copy;
use cob_limits::MAX_TEXT_BYTES;
use cob_source::Token;
use std::alloc::{AllocError, Global};

/// Whether the word COPY stands among words.
pub fn has_copy(words: &[Token]) -> bool
    ensures { result ≡ has_copy (lexemes words.now) }
{
    let mut rest = words;
    while let Some((first, more)) = rest.split_first() {
        if is_copy(first) {
            return true;
        }
        rest = more;
    }
    false
}

/// Words with their lines counted on behind so many others.
///
/// # Errors
///
/// Where no memory is left; and where a line's number would have over 32 bits, which those of a text and of a thousand others before it have not.
pub fn counted_on(alloc: Global, lines: u32, words: &[Token]) -> Result<Vec<Token>, AllocError>
    ensures { IfOk result (λ v. lexemes v.items ≡ map (on_line lines) (lexemes words.now)) }
{
    let mut out = Vec::new(alloc);
    let mut rest = words;
    while let Some((first, more)) = rest.split_first() {
        let Some(line) = lines.checked_add(first.line) else {
            return Err(AllocError);
        };
        out.push(Token {
            text: Vec::from_slice(alloc, first.text.as_slice())?,
            line,
            column: first.column,
            kind: first.kind,
        })?;
        rest = more;
    }
    Ok(out)
}

impl Library {
    /// No texts.
    pub fn new(alloc: Global) -> Library
        ensures { map copied_text result.texts.items ≡ [] }
    {
        Library {
            texts: Vec::new(alloc),
        }
    }

    /// Puts a text with these words behind the others. Its COPY statements are carried out by these, so that it may copy what stands before it.
    ///
    /// # Errors
    ///
    /// A rule of COPY that the words break, with the line of the word COPY. `Memory`, with line 0, only where memory is refused. The library is then as before.
    pub fn add(&mut self, alloc: Global, named: TextName, words: &[Token]) -> Result<(), CopyFault>
        ensures added { OnOk result (IsTextAdded (written_text_name named) (lexemes words.now)
            (map copied_text self.old.texts.items) (map copied_text self.new.texts.items)) }
        // A text whose words come to others is put in, memory aside.
        ensures only { (done : List Lexeme)
            → AreExpanded (map copied_text self.old.texts.items) (lexemes words.now) done
            → IfErr result (λ f. f.rule ≡ Memory) }
        ensures fault { IfErr result (λ f. IsCopyRefusal f.rule f.line
            (map copied_text self.old.texts.items) (lexemes words.now)) }
        ensures unchanged { OnErr result
            (map copied_text self.new.texts.items ≡ map copied_text self.old.texts.items) }
    {
        let done = self.expand(alloc, words)?;
        let holds_copy = has_copy(words);
        self.texts.push(LibraryText {
            named,
            words: done,
            holds_copy,
        })?;
        Ok(())
    }
}

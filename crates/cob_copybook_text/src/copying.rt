//! What words come to.

ghost use Rattle.std.specs.Prelude.{◌≡◌, List, false, true, IfErr, IfNone, IfOk, IfSome};
ghost use Rattle.cob_source.specs.Tokens.{Lexeme, lexeme, lexemes};
ghost use Rattle.cob_source_copies.specs.Statements.{is_copy};
ghost use Rattle.cob_source_copies.specs.Texts.{has_copy};
ghost use Rattle.cob_source_copies.specs.declared.fault.CopyRule.TheVariants.{Memory};
ghost use Rattle.cob_copybook_text.specs.Meant.{ComeTo};
ghost use Rattle.cob_copybook_text.specs.Refusals.{HasCopyOn, IsCopyingRefusal};

use cob_source::{Token, TokenKind};
use cob_source_copies::{CopyFault, CopyRule, Exchange, Library, replaced};
use std::alloc::Global;

/// What is copied into a copybook, or replaced in it.
#[derive(Drop)]
pub enum Copying {
    /// Nothing: its words stay as they are.
    Left,
    /// Its COPY statements are carried out by these texts.
    CarriedOut(Library),
    /// Each x is replaced in it, as COPY of it would do; it holds no COPY statement itself.
    Replaced(Vec<Exchange>),
}

/// Whether it is the word COPY.
fn is_copy(token: &Token) -> bool
    ensures { result ≡ is_copy (lexeme token.now) }
{
    let is_word = match token.kind {
        TokenKind::Word => true,
        TokenKind::Literal | TokenKind::Stop => false,
    };
    is_word && token.text.as_slice() == b"COPY".as_slice()
}

/// The line of the first word COPY, if there is one.
fn line_of_copy(words: &[Token]) -> Option<u32>
    ensures found { IfSome result (λ line. HasCopyOn (lexemes words.now) line) }
    ensures none { IfNone result (has_copy (lexemes words.now) ≡ false) }
    ensures some { IfSome result (λ line. has_copy (lexemes words.now) ≡ true) }
{
    let mut rest = words;
    while let Some((first, more)) = rest.split_first() {
        if is_copy(first) {
            return Some(first.line);
        }
        rest = more;
    }
    None
}

impl Copying {
    /// What words come to.
    ///
    /// # Errors
    ///
    /// A rule of COPY that they break, with the line of the word COPY; `Memory`, with line 0, only where memory is refused.
    pub(crate) fn all_words(&self, alloc: Global, words: &[Token]) -> Result<Vec<Token>, CopyFault>
        ensures found { IfOk result (λ v. ComeTo self.now (lexemes words.now) (lexemes v.items)) }
        ensures only { (all : List Lexeme) → ComeTo self.now (lexemes words.now) all
            → IfOk result (λ v. lexemes v.items ≡ all) × IfErr result (λ f. f.rule ≡ Memory) }
        ensures fault { IfErr result (λ f. IsCopyingRefusal self.now f.rule f.line (lexemes words.now)) }
    {
        match self {
            Copying::Left => Ok(replaced(alloc, &[], words)?),
            Copying::CarriedOut(library) => library.expand(alloc, words),
            Copying::Replaced(exchanges) => match line_of_copy(words) {
                Some(line) => Err(CopyRule::Nested.on(line)),
                None => Ok(replaced(alloc, exchanges.as_slice(), words)?),
            },
        }
    }
}

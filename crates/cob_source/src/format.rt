//! Texts in either format.

ghost use Rattle.std.specs.Prelude.{◌≡◌, List, IfErr, IfOk};
ghost use Rattle.cob_source.specs.declared.fault.SourceRule.TheVariants.{Memory};
ghost use Rattle.cob_source.specs.Tokens.{Lexeme, lexemes};
ghost use Rattle.cob_source.specs.Formats.{AreWordsIn, IsRefusalIn};

use crate::fault::SourceFault;
use crate::free::free_tokens;
use crate::reader::tokens;
use crate::token::Token;
use std::alloc::Global;

/// How a text stands on its lines.
#[derive(Clone, Copy, PartialEq, Eq)]
pub enum TextFormat {
    /// In fixed columns.
    Reference,
    /// From the first character on, without columns.
    Free,
}

/// The words, literals and stops of a text in this format, as [`tokens`] and [`free_tokens`] give them.
///
/// # Errors
///
/// As theirs.
pub fn tokens_in(alloc: Global, format: TextFormat, text: &[u8]) -> Result<Vec<Token>, SourceFault>
    // What is read are the words of the text, which then breaks no rule.
    ensures words { IfOk result (λ v. AreWordsIn format text.now (lexemes v.items)) }
    // A text that has words is read, memory aside.
    ensures reads { (ts : List Lexeme)
        → AreWordsIn format text.now ts → IfErr result (λ f. f.rule ≡ Memory) }
    // A refused text breaks the rule that is named, on the line that is named.
    ensures refused { IfErr result (λ f. IsRefusalIn format f.rule f.line text.now) }
{
    match format {
        TextFormat::Reference => tokens(alloc, text),
        TextFormat::Free => free_tokens(alloc, text),
    }
}

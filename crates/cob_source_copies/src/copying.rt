//! Words once more.

ghost use Rattle.std.specs.Prelude.{◌≡◌, ◌++◌, IfOk, OnOk};
ghost use Rattle.cob_source.specs.Tokens.{lexeme, lexemes};

use cob_source::Token;
use std::alloc::{AllocError, Global};

/// The same word once more.
///
/// # Errors
///
/// Where no memory is left.
pub(crate) fn copy_of(alloc: Global, token: &Token) -> Result<Token, AllocError>
    ensures { IfOk result (λ t. lexeme t ≡ lexeme token.now) }
{
    let text = Vec::from_slice(alloc, token.text.as_slice())?;
    Ok(Token {
        text,
        line: token.line,
        column: token.column,
        kind: token.kind,
    })
}

/// Puts the same words behind those so far.
///
/// # Errors
///
/// Where no memory is left.
pub(crate) fn push_copies(
    alloc: Global,
    words: &[Token],
    out: &mut Vec<Token>,
) -> Result<(), AllocError>
    ensures { OnOk result (lexemes out.new.items ≡ lexemes out.old.items ++ lexemes words.now) }
{
    let mut rest = words;
    while let Some((first, more)) = rest.split_first() {
        out.push(copy_of(alloc, first)?)?;
        rest = more;
    }
    Ok(())
}

//! The texts that words copy.

ghost use Rattle.std.specs.Prelude.{◌≡◌, [], List, map, IfOk};
ghost use Rattle.std.specs.List.{flat_map};
ghost use Rattle.cob_source.specs.Tokens.{lexemes};
ghost use Rattle.cob_source_copies.specs.Statements.{written_text_name};
ghost use Rattle.cob_source_copies.specs.Texts.{BeginWithParts, TextPart};
ghost use Rattle.cob_source_copies.specs.Libraries.{names_in_part};

use crate::name::TextName;
use crate::statement::{Statement, copy_front, is_copy};
use cob_source::Token;
use std::alloc::{AllocError, Global};

/// The name that a statement says.
fn name_in(statement: Statement) -> TextName
    ensures { result ≡ statement.named }
{
    let Statement { named, .. } = statement;
    named
}

/// The names of the texts that words copy, in order and as often as they stand, up to the first word COPY that begins no statement.
///
/// # Errors
///
/// Where no memory is left.
pub fn names_wanted(alloc: Global, words: &[Token]) -> Result<Vec<TextName>, AllocError>
    ensures { IfOk result (λ v. (parts : List TextPart)
        → BeginWithParts parts (lexemes words.now) []
        → map written_text_name v.items ≡ flat_map names_in_part parts) }
{
    let mut out = Vec::new(alloc);
    let mut rest = words;
    while let Some((first, more)) = rest.split_first() {
        if !is_copy(first) {
            rest = more;
            continue;
        }
        let Some((statement, behind)) = copy_front(alloc, more)? else {
            return Ok(out);
        };
        out.push(name_in(statement))?;
        rest = behind;
    }
    Ok(out)
}

//! The condition-name that a level 88 entry is.

ghost use Rattle.std.specs.Prelude.{◌≡◌, ℕ, List, IfOk, IfSome, option_map};
ghost use Rattle.cob_source.specs.Tokens.{Lexeme, lexemes};
ghost use Rattle.cob_copybook_conditions.specs.Names.{SaysName, plain_condition_name};
ghost use Rattle.cob_copybook_conditions.specs.Reading.{AnswersName, IsNamedCondition};

use crate::spans::{Span, spans_of};
use crate::words::without_is_or_are;
use cob_copybook_clauses::read_condition_name;
use cob_copybook_entries::name_of_text;
use cob_copybook_entry::Name;
use cob_source::Token;
use std::alloc::{AllocError, Global};

/// A condition-name: the number of the data entry that it stands behind, as the record's tree counts them from 0 for the record, its name, and its values, of
/// which there is one at least.
#[derive(Drop)]
pub struct ConditionName {
    pub entry: usize,
    pub name: Name,
    pub values: Vec<Span>,
}

/// The name of a level 88 entry, and the words behind VALUE.
fn named_at(sentence: &[Token]) -> Option<(Name, &[Token])>
    ensures found { IfSome result
        (λ r. IsNamedCondition (lexemes sentence.now) r.0 (lexemes r.1.now)) }
    ensures only { (name : List ℕ) (more : List Lexeme)
        → IsNamedCondition (lexemes sentence.now) name more → AnswersName result name more }
{
    let name = name_of_text(read_condition_name(sentence)?)?;
    match sentence {
        [_, _, _, more @ ..] => Some((name, more)),
        _ => None,
    }
}

/// The condition-name that a level 88 entry behind the data entry `last` is; `None` where it lists no values, or one that isn't a constant.
///
/// # Errors
/// Want of memory.
pub(crate) fn condition_name_of(
    alloc: Global,
    last: usize,
    sentence: &[Token],
) -> Result<Option<ConditionName>, AllocError>
    ensures { IfOk result
        (λ said. SaysName last (lexemes sentence.now) (option_map plain_condition_name said)) }
{
    let Some((name, more)) = named_at(sentence) else {
        return Ok(None);
    };
    let Some(values) = spans_of(alloc, without_is_or_are(more))? else {
        return Ok(None);
    };
    if values.is_empty() {
        return Ok(None);
    }
    Ok(Some(ConditionName {
        entry: last,
        name,
        values,
    }))
}

//! Names of entries.

ghost use Rattle.std.specs.Prelude.{◌≡◌, IfSome, IsSomeAnd};
ghost use Rattle.cob_copybook_clauses.specs.Names.{IsName};

use cob_copybook_clauses::is_name;
use cob_copybook_entry::Name;

/// The name that a text in capitals is, and `None` where it is none or is a reserved word.
pub fn name_of_text(text: &[u8]) -> Option<Name>
    ensures found { IfSome result (λ n. IsName text.now × (n ≡ text.now)) }
    ensures only { IsName text.now → IsSomeAnd result (λ n. n ≡ text.now) }
{
    if is_name(text) {
        Some(Name::from_characters(text))
    } else {
        None
    }
}

//! Level 66 entries.

ghost use Rattle.std.specs.Prelude.{◌↔◌, IsTrue, true};
ghost use Rattle.cob_source.specs.Tokens.{lexemes};
ghost use Rattle.cob_copybook_record.specs.OneRecord.{AreRenamings, IsRenamingFirst};

use crate::level::{is_period, is_text_of};
use cob_copybook_clauses::is_name_word;
use cob_source::Token;

/// Whether a level 66 entry comes first.
fn is_renaming_first(words: &[Token]) -> bool
    ensures { IsTrue result ↔ IsRenamingFirst (lexemes words.now) }
{
    let Some((level, behind_level)) = words.split_first() else {
        return false;
    };
    let Some((named, behind_name)) = behind_level.split_first() else {
        return false;
    };
    let Some((renames, behind_renames)) = behind_name.split_first() else {
        return false;
    };
    let Some((entry, _)) = behind_renames.split_first() else {
        return false;
    };
    is_text_of(level, b"66")
        && is_name_word(named)
        && is_text_of(renames, b"RENAMES")
        && is_name_word(entry)
}

/// Whether each sentence is a level 66 entry.
pub(crate) fn are_renamings(words: &[Token]) -> bool
    ensures { IsTrue result ↔ AreRenamings true (lexemes words.now) }
{
    let mut starts = true;
    let mut rest = words;
    while let Some((first, more)) = rest.split_first() {
        if starts && !is_renaming_first(rest) {
            return false;
        }
        starts = is_period(first);
        rest = more;
    }
    starts
}

//! Qualifiers as a paragraph has them.

ghost use Rattle.cob_copybook_clauses.specs.Written.{names_behind};
ghost use Rattle.cob_source.specs.Tokens.{lexemes};

use cob_copybook_names::Qualifiers;
use cob_source::Token;

/// The words of qualifiers: OF or IN and a name, again and again.
#[derive(Clone, Copy)]
pub(crate) struct QualifierWords<'a> {
    pub words: &'a [Token],
}

impl Qualifiers for QualifierWords<'_> {
    ghost names = { λ qualifiers. names_behind (lexemes qualifiers.words.now) };

    fn nearest(&self) -> Option<(&[u8], Self)> {
        let (_, named) = self.words.split_first()?;
        let (name, words) = named.split_first()?;
        Some((name.text.as_slice(), QualifierWords { words }))
    }
}

//! Texts that may be copied.

ghost use Rattle.std.specs.Prelude.{◌≡◌, IsTrue, map, option_map};
ghost use Rattle.cob_source_copies.specs.Statements.{written_text_name};
ghost use Rattle.cob_source_copies.specs.Texts.{copied_text, is_one_library, is_one_name, text_named};
ghost use Rattle.cob_source_copies.specs.Libraries.{IsKnown};

use crate::name::TextName;
use cob_source::Token;

/// A text that may be copied. Its own COPY statements are carried out.
#[derive(Drop)]
pub struct LibraryText {
    pub named: TextName,
    pub words: Vec<Token>,
    /// Whether a COPY statement stood in it.
    pub holds_copy: bool,
}

/// Texts that may be copied.
#[derive(Drop)]
pub struct Library {
    pub texts: Vec<LibraryText>,
}

/// Whether two names of libraries are the same, or both are absent.
fn is_one_library(a: &Option<Vec<u8>>, b: &Option<Vec<u8>>) -> bool
    ensures { result ≡ is_one_library (option_map (λ t. t.items) a.now) (option_map (λ t. t.items) b.now) }
{
    match (a, b) {
        (Some(own), Some(other)) => own.as_slice() == other.as_slice(),
        (None, None) => true,
        _ => false,
    }
}

/// Whether two names name one text.
pub(crate) fn is_one_name(a: &TextName, b: &TextName) -> bool
    ensures { result ≡ is_one_name (written_text_name a.now) (written_text_name b.now) }
{
    a.name.as_slice() == b.name.as_slice() && is_one_library(&a.library, &b.library)
}

impl Library {
    /// The first text of this name.
    pub fn text_named(&self, named: &TextName) -> Option<&LibraryText>
        ensures { option_map (λ t. copied_text t.now) result
            ≡ text_named (map copied_text self.now.texts.items) (written_text_name named.now) }
    {
        let mut rest = self.texts.as_slice();
        while let Some((first, more)) = rest.split_first() {
            if is_one_name(&first.named, named) {
                return Some(first);
            }
            rest = more;
        }
        None
    }

    /// Whether a text of this name is there.
    pub fn has_text(&self, named: &TextName) -> bool
        ensures { IsTrue result → IsKnown (map copied_text self.now.texts.items) (written_text_name named.now) }
    {
        match self.text_named(named) {
            Some(_) => true,
            None => false,
        }
    }
}

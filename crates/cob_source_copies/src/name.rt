//! Names of texts.

ghost use Rattle.std.specs.Prelude.{◌≡◌, IfOk};
ghost use Rattle.cob_source_copies.specs.Statements.{written_text_name};

use std::alloc::{AllocError, Global};

/// The name of a text that may be copied.
#[derive(Drop)]
pub struct TextName {
    /// A word in capitals, or a literal as it stands.
    pub name: Vec<u8>,
    /// The library that is named behind OF or IN.
    pub library: Option<Vec<u8>>,
}

/// The same name once more.
///
/// # Errors
///
/// Where no memory is left.
pub(crate) fn copy_of_name(alloc: Global, named: &TextName) -> Result<TextName, AllocError>
    ensures { IfOk result (λ n. written_text_name n ≡ written_text_name named.now) }
{
    let name = Vec::from_slice(alloc, named.name.as_slice())?;
    let library = match &named.library {
        Some(library) => Some(Vec::from_slice(alloc, library.as_slice())?),
        None => None,
    };
    Ok(TextName { name, library })
}

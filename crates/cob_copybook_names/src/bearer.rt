ghost use Rattle.std.specs.Prelude.{◌≡◌, IfOk};
ghost use Rattle.cob_copybook_names.specs.Naming.{with_name};
ghost use Rattle.cob_copybook_names.specs.Listed.{name_text, texts};

use cob_copybook_tree::Name;
use std::alloc::{AllocError, Global};

/// An entry that may be named.
#[derive(Drop)]
pub struct Bearer<'a, E> {
    /// None for FILLER.
    pub name: Option<&'a [u8]>,
    /// The names of the groups above it, the nearest first.
    pub above: Vec<&'a [u8]>,
    /// What its user has to know of it.
    pub entry: E,
}

/// The text of an entry's name.
pub fn name_of(name: &Option<Name>) -> Option<&[u8]>
    ensures { name_text result ≡ name.now }
{
    match name {
        Some(name) => Some(name.as_bytes()),
        None => None,
    }
}

/// The names above the entries beneath one of this name, the nearest first, where these are the names above itself.
///
/// # Errors
///
/// Memory for the list was refused.
pub fn names_beneath<'a>(
    alloc: Global,
    name: &'a Option<Name>,
    above: &[&'a [u8]],
) -> Result<Vec<&'a [u8]>, AllocError>
    ensures { IfOk result (λ v. texts v.items ≡ with_name name.now (texts above.now)) }
{
    let mut names = Vec::new(alloc);
    if let Some(name) = name {
        names.push(name.as_bytes())?;
    }
    names.extend_from_slice(above)?;
    Ok(names)
}

//! Copybooks whose records are named by their roles.

ghost use Rattle.std.specs.Prelude.{◌≡◌, IfOk, IfSome, IsTrue};
ghost use Rattle.cob_program_roles.specs.Named.{DescribesBack, IsNamedByRole, other_role};

use crate::blanking::{blanked, words_of};
use crate::reading::{describes_nameable, describes_named, role_name};
use cob_copybook::Role;
use cob_copybook_record::with_record_name;
use cob_copybook_text::{RecordText, text_saying};
use std::alloc::{AllocError, Global};

/// Which ways are gone between the records of two copybooks.
#[derive(Clone, Copy, PartialEq, Eq)]
pub enum Ways {
    /// From the first to the second.
    There,
    /// That way and back, where each is in the other role.
    ThereAndBack,
}

/// The other role.
fn other_role(role: Role) -> Role
    ensures { result ≡ other_role role }
{
    match role {
        Role::In => Role::Out,
        Role::Out => Role::In,
    }
}

/// Whether a text describes the record of another one with the name of its role on the way back too, where that is gone.
fn describes_back(
    alloc: Global,
    ways: Ways,
    role: Role,
    text: &[u8],
    named: &[u8],
) -> Result<bool, AllocError>
    ensures { IfOk result (λ yes. IsTrue yes → DescribesBack ways role text.now named.now) }
{
    match ways {
        Ways::There => Ok(true),
        Ways::ThereAndBack => describes_named(alloc, other_role(role), text, named),
    }
}

/// Whether a text stands for another one whose record is to be named by its role: it describes that record under that name in each way.
fn stands_for(
    alloc: Global,
    ways: Ways,
    role: Role,
    text: &[u8],
    named: &[u8],
) -> Result<bool, AllocError>
    ensures { IfOk result (λ yes. IsTrue yes → IsNamedByRole ways role text.now named.now) }
{
    if !describes_named(alloc, role, text, named)? {
        return Ok(false);
    }
    let back = describes_back(alloc, ways, role, text, named)?;
    Ok(back)
}

/// A text that says the words of a copybook with the name of its role, if they have room in one.
///
/// # Errors
///
/// Where no memory is left.
fn written_named(alloc: Global, role: Role, text: &[u8]) -> Result<Option<Vec<u8>>, AllocError> {
    let Some(words) = words_of(alloc, text)? else {
        return Ok(None);
    };
    let named = with_record_name(alloc, words.as_slice(), role_name(role))?;
    match text_saying(alloc, named.as_slice())? {
        Some(made) => {
            let RecordText {
                text,
                lines: _lines,
            } = made;
            Ok(Some(text))
        }
        None => Ok(None),
    }
}

/// This text, where it stands for another one.
///
/// # Errors
///
/// Where no memory is left.
fn if_named(
    alloc: Global,
    ways: Ways,
    role: Role,
    text: &[u8],
    made: Option<Vec<u8>>,
) -> Result<Option<Vec<u8>>, AllocError>
    ensures { IfOk result (λ o. IfSome o (λ named.
        IsNamedByRole ways role text.now named.items)) }
{
    let Some(named) = made else {
        return Ok(None);
    };
    if stands_for(alloc, ways, role, text, named.as_slice())? {
        return Ok(Some(named));
    }
    Ok(None)
}

/// A text that stands for another one, if one is made: first of all that text itself.
///
/// # Errors
///
/// Where no memory is left.
fn made_named(
    alloc: Global,
    ways: Ways,
    role: Role,
    text: &[u8],
) -> Result<Option<Vec<u8>>, AllocError>
    ensures { IfOk result (λ o. IfSome o (λ named.
        IsNamedByRole ways role text.now named.items)) }
{
    let itself = Some(Vec::from_slice(alloc, text)?);
    if let Some(named) = if_named(alloc, ways, role, text, itself)? {
        return Ok(Some(named));
    }
    if let Some(named) = if_named(alloc, ways, role, text, blanked(alloc, text)?)? {
        return Ok(Some(named));
    }
    if_named(alloc, ways, role, text, written_named(alloc, role, text)?)
}

/// A text that describes the same record under the name of its role, in each way; the text itself where it describes none that may have another name. `None`
/// where none is made: an entry beneath the record has that name, and a count is named by it; the record's own entry has clauses, and the way back is gone; or the words
/// have no room in one text.
///
/// # Errors
///
/// Where no memory is left.
pub fn named_by_role(
    alloc: Global,
    role: Role,
    ways: Ways,
    text: Vec<u8>,
) -> Result<Option<Vec<u8>>, AllocError>
    ensures { IfOk result (λ o. IfSome o (λ named.
        IsNamedByRole ways role text.items named.items)) }
{
    if !describes_nameable(alloc, role, text.as_slice())? {
        return Ok(Some(text));
    }
    made_named(alloc, ways, role, text.as_slice())
}

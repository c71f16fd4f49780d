//! Texts read as copybooks, and compared.

ghost use Rattle.std.specs.Prelude.{◌≡◌, ◌||◌, is_some, Some, IfNone, IfOk, IfSome};
ghost use Rattle.std.specs.Bool.{Decides};
ghost use Rattle.cob_back_moves.specs.Same.{IsSameRecord};
ghost use Rattle.cob_copybook.specs.Books.{IsBookOf, IsMemory, record_name};
ghost use Rattle.cob_copybook_tree.specs.Forests.{Forest};
ghost use Rattle.cob_copybook_tree.specs.Nodes.{Resolved, is_group_kind};
ghost use Rattle.cob_copybook_tree.specs.declared.node.Node.TheViews.{out-Node};
ghost use Rattle.cob_program_roles.specs.Named.{
  DescribesNameable,
  DescribesNamed,
  DescribesRecordNamed,
  IsNamedIn,
  may_be_named,
  name_of_record,
};

use crate::conditions::have_same_condition_names;
use cob_back_moves::is_same_book;
use cob_copybook::{Book, BookRule, Node, Role};
use std::alloc::{AllocError, Global};

/// The name of a record by its role: IN-RECORD or OUT-RECORD.
pub fn role_name(role: Role) -> &'static [u8]
    ensures { result.now ≡ record_name role }
{
    match role {
        Role::In => b"IN-RECORD",
        Role::Out => b"OUT-RECORD",
    }
}

/// Whether a text is refused for want of memory.
pub(crate) fn is_memory(rule: BookRule) -> bool
    ensures { Decides result (IsMemory rule) }
{
    matches!(rule, BookRule::Memory)
}

/// The record that a text describes, if it is a record description.
///
/// # Errors
///
/// Where no memory is left.
fn book_of(alloc: Global, role: Role, text: &[u8]) -> Result<Option<Book>, AllocError>
    ensures found { IfOk result (λ o. IfSome o (λ b. IsBookOf role text.now b)) }
    ensures one { IfOk result (λ o. IfSome o (λ b. (t : Forest Resolved)
        → IsBookOf role text.now t → b ≡ t)) }
    ensures none { IfOk result (λ o. IfNone o ((t : Forest Resolved)
        → IsBookOf role text.now t → ⊥)) }
{
    match Book::read(alloc, role, text) {
        Ok(book) => Ok(Some(book)),
        Err(fault) => {
            if is_memory(fault.rule) {
                return Err(AllocError);
            }
            Ok(None)
        }
    }
}

/// Whether an entry has this name.
fn has_name(entry: &Node, name: &[u8]) -> bool
    ensures { Decides result ((out-Node entry.now).name ≡ Some name.now) }
{
    match &entry.name {
        Some(own) => own.as_bytes() == name,
        None => false,
    }
}

/// Whether an entry has a name, or is a group.
fn is_nameable(entry: &Node) -> bool
    ensures { result ≡ (is_some (out-Node entry.now).name || is_group_kind (out-Node entry.now).kind) }
{
    entry.name.is_some() || entry.kind.is_group()
}

/// Whether the record that a copybook describes has this name.
fn bears(book: &Book, name: &[u8]) -> bool
    ensures { Decides result (name_of_record book.now ≡ Some name.now) }
{
    has_name(book.root(), name)
}

/// Whether the record that a copybook describes may have another name.
fn may_be_named(book: &Book) -> bool
    ensures { result ≡ may_be_named book.now }
{
    is_nameable(book.root())
}

/// Whether a text describes a record that may have another name: it has one, or is a group.
///
/// # Errors
///
/// Where no memory is left.
pub(crate) fn describes_nameable(alloc: Global, role: Role, text: &[u8]) -> Result<bool, AllocError>
    ensures { IfOk result (λ yes. Decides yes (DescribesNameable role text.now)) }
{
    match book_of(alloc, role, text)? {
        Some(book) => Ok(may_be_named(&book)),
        None => Ok(false),
    }
}

/// Whether a copybook describes the record of another one, with this as its name.
fn is_named(book: &Book, named: &Book, name: &[u8]) -> bool
    ensures { Decides result (IsSameRecord book.now named.now
        × (name_of_record named.now ≡ Some name.now)) }
{
    is_same_book(book, named) && bears(named, name)
}

/// Whether a text describes the record of a copybook, with the name of its role.
///
/// # Errors
///
/// Where no memory is left.
fn is_named_in(alloc: Global, role: Role, book: &Book, named: &[u8]) -> Result<bool, AllocError>
    ensures { IfOk result (λ yes. Decides yes (IsNamedIn role book.now named.now)) }
{
    match book_of(alloc, role, named)? {
        Some(after) => Ok(is_named(book, &after, role_name(role))),
        None => Ok(false),
    }
}

/// Whether a text describes the record of another one, with the name of its role: all else of the record is the same.
///
/// # Errors
///
/// Where no memory is left.
fn describes_record_named(
    alloc: Global,
    role: Role,
    text: &[u8],
    named: &[u8],
) -> Result<bool, AllocError>
    ensures { IfOk result (λ yes. Decides yes
        (DescribesRecordNamed role (record_name role) text.now named.now)) }
{
    match book_of(alloc, role, text)? {
        Some(before) => is_named_in(alloc, role, &before, named),
        None => Ok(false),
    }
}

/// Whether a text describes the record of another one, with the name of its role, and has the same condition-names: all else is the same.
///
/// # Errors
///
/// Where no memory is left.
pub(crate) fn describes_named(
    alloc: Global,
    role: Role,
    text: &[u8],
    named: &[u8],
) -> Result<bool, AllocError>
    ensures { IfOk result (λ yes. Decides yes
        (DescribesNamed role (record_name role) text.now named.now)) }
{
    let is_record = describes_record_named(alloc, role, text, named)?;
    let has_conditions = have_same_condition_names(alloc, text, named)?;
    Ok(is_record && has_conditions)
}

//! The members that the entries of a record are in its JSON object.

use cob_layout::{Item, Kind, Name, Node, is_table};
use std::alloc::{AllocError, Global};

/// A member of an object: an entry that has a name.
#[cycle(members)]
#[derive(Drop)]
pub(crate) struct Member {
    pub(crate) name: String,
    pub(crate) content: Content,
}

/// What a member holds, or an element of an array.
#[cycle(members)]
#[derive(Drop)]
pub(crate) enum Content {
    /// The value of the item with this number.
    Value { number: usize, item: Item },
    /// An object with these members.
    Object(Vec<Member>),
    /// An array of the elements of the table with this number.
    Array { table: usize, element: Box<Content> },
}

/// A name as text.
fn text_of(alloc: Global, name: &Name) -> Result<String, AllocError> {
    let mut text = String::new(alloc);
    for character in name.as_bytes() {
        text.push(char::from(*character))?;
    }
    Ok(text)
}

/// These tables, and the entry itself where it is one.
fn tables_with(alloc: Global, over: &[usize], entry: &Node) -> Result<Vec<usize>, AllocError> {
    let mut tables = Vec::from_slice(alloc, over)?;
    if is_table(entry.occurs) {
        tables.push(entry.number)?;
    }
    Ok(tables)
}

/// The arrays that tables make of what an element of the last of them holds, the outermost first.
fn in_arrays(content: Content, alloc: Global, tables: &[usize]) -> Result<Content, AllocError> {
    let mut content = content;
    for table in tables.iter().rev() {
        content = Content::Array {
            table: *table,
            element: Box::new(alloc, content)?,
        };
    }
    Ok(content)
}

/// What an element of an entry holds.
#[cycle(members)]
fn content_of(alloc: Global, entry: &Node) -> Result<Content, AllocError> {
    match &entry.kind {
        Kind::Item(item) => Ok(Content::Value {
            number: entry.number,
            item: item.clone(),
        }),
        Kind::Group => {
            let mut members = Vec::new(alloc);
            for child in entry.children.iter() {
                push_members(alloc, child, &[], &mut members)?;
            }
            Ok(Content::Object(members))
        }
    }
}

/// Adds what an entry is in the object around it: a member where it has a name, and else those that the entries beneath it are. It stands in these
/// tables without a name, each of which makes arrays of the members.
#[cycle(members)]
fn push_members(
    alloc: Global,
    entry: &Node,
    over: &[usize],
    members: &mut Vec<Member>,
) -> Result<(), AllocError> {
    let tables = tables_with(alloc, over, entry)?;
    match &entry.name {
        Some(name) => members.push(Member {
            name: text_of(alloc, name)?,
            content: in_arrays(content_of(alloc, entry)?, alloc, tables.as_slice())?,
        })?,
        None => {
            for child in entry.children.iter() {
                push_members(alloc, child, tables.as_slice(), members)?;
            }
        }
    }
    Ok(())
}

/// The members of the object of a record: the entries beneath the record, or the record itself where it is an item.
///
/// # Errors
///
/// Where no memory is left.
pub(crate) fn members_of(alloc: Global, root: &Node) -> Result<Vec<Member>, AllocError> {
    let mut members = Vec::new(alloc);
    match &root.kind {
        Kind::Item(_) => push_members(alloc, root, &[], &mut members)?,
        Kind::Group => {
            for child in root.children.iter() {
                push_members(alloc, child, &[], &mut members)?;
            }
        }
    }
    Ok(members)
}

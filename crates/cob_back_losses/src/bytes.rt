//! The bytes of entries, each by its item.

ghost use Rattle.std.specs.Prelude.{◌≡◌, ◌≤◌, ◌++◌, OnOk, IfOk, length, map, take};
ghost use Rattle.cob_copybook_tree.specs.Lengths.{item_size};
ghost use Rattle.cob_copybook_tree.specs.Nodes.{node};
ghost use Rattle.cob_back_losses.specs.Bytes.{element_bytes, item_byte, item_bytes};

use cob_copybook_tree::{Item, Kind, Node};
use std::alloc::{AllocError, Global};

/// A byte of an item.
#[derive(Clone, Copy)]
pub(crate) struct ItemByte<'a> {
    /// The number of the item's entry.
    pub(crate) number: usize,
    pub(crate) item: &'a Item,
    /// Its place in the item, from 0.
    pub(crate) at: u16,
}

/// Adds the bytes of an item, up to a limit.
fn push_item<'a>(
    number: usize,
    item: &'a Item,
    limit: usize,
    bytes: &mut Vec<ItemByte<'a>>,
) -> Result<(), AllocError>
    requires room { length bytes.old.items ≤ limit }
    ensures { OnOk result (map item_byte bytes.new.items ≡ take limit
        (map item_byte bytes.old.items ++ item_bytes number item.now (item_size item.now))) }
{
    for at in 0..item.size() {
        if bytes.len() == limit {
            return Ok(());
        }
        bytes.push(ItemByte { number, item, at })?;
    }
    Ok(())
}

/// Adds the bytes of one element of an entry with those beneath it, up to a limit. An entry beneath it that redefines another has none of its own.
fn push_element<'a>(
    entry: &'a Node,
    limit: usize,
    bytes: &mut Vec<ItemByte<'a>>,
) -> Result<(), AllocError>
    requires room { length bytes.old.items ≤ limit }
    ensures { OnOk result (map item_byte bytes.new.items ≡ take limit
        (map item_byte bytes.old.items ++ element_bytes (node entry.now))) }
{
    match &entry.kind {
        Kind::Item(item) => push_item(entry.number, item, limit, bytes),
        Kind::Group => {
            for child in entry.children.iter() {
                if child.redefines.is_none() {
                    for _ in 0..child.occurs.most() {
                        if bytes.len() == limit {
                            return Ok(());
                        }
                        push_element(child, limit, bytes)?;
                    }
                }
            }
            Ok(())
        }
    }
}

/// The bytes of one element of an entry where each table has its greatest number of elements, up to a limit.
pub(crate) fn bytes_of<'a>(
    alloc: Global,
    entry: &'a Node,
    limit: usize,
) -> Result<Vec<ItemByte<'a>>, AllocError>
    ensures { IfOk result (λ bytes. map item_byte bytes.items
        ≡ take limit (element_bytes (node entry.now))) }
{
    let mut bytes = Vec::new(alloc);
    push_element(entry, limit, &mut bytes)?;
    Ok(bytes)
}

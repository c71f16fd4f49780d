//! The storage of a record before the first move.

ghost use Rattle.std.specs.Prelude.{◌≡◌, ℕ, ◌*◌, ◌<◌, length, take, None};
ghost use Rattle.cob_copybook_tree.specs.Nodes.{node, forest};
ghost use Rattle.cob_copybook_tree.specs.Lengths.{greatest_number, sum_of, element_length, whole_length};
ghost use Rattle.cob_move_receive.specs.Characters.{repeated};
ghost use Rattle.cob_move_initial.specs.Initial.{IsInitial};
ghost use Rattle.cob_move_initial.specs.Begun.{AreBegun, AreElements, HoldsTree};
ghost use Rattle.cob_move_initial.specs.AtPlaces.{HoldAtPlaces};
ghost use Rattle.cob_move_initial.specs.Ready.{HaveInitialStorage, HasInitialStorage};

use crate::items::{write_group, write_item};
use cob_layout::{Book, Kind, Layout, Node, element_length, records_are_sound, whole_length};

/// Copies the first bytes, `size` of them, behind themselves, until they stand there so many times.
fn repeat(bytes: &mut [u8], size: usize, times: usize)
    requires room { length bytes.old ≡ times * size }
    requires some { 0 < times }
    ensures repeated { bytes.new ≡ repeated times (take size bytes.old) }
    ensures room { length bytes.new ≡ length bytes.old }
{
    for element in 1..times {
        bytes.copy_within(..size, element * size);
    }
}

/// Writes one element of an entry.
#[cycle(entries)]
fn write_element(entry: &Node, bytes: &mut [u8])
    requires ready { HasInitialStorage (node entry.now).top (node entry.now).beneath }
    requires room { length bytes.old ≡ element_length greatest_number (node entry.now).top
        (node entry.now).beneath }
    ensures holds { HoldsTree (node entry.now) bytes.new }
    ensures room { length bytes.new ≡ length bytes.old }
{
    match &entry.kind {
        Kind::Item(item) => write_item(item, &entry.value, bytes),
        Kind::Group => match &entry.value {
            Some(value) => write_group(value, bytes),
            None => write_entries(entry.children.as_slice(), bytes),
        },
    }
}

/// Writes all elements of an entry, as many as there are at most.
#[cycle(entries)]
fn write_elements(entry: &Node, bytes: &mut [u8])
    requires ready { HasInitialStorage (node entry.now).top (node entry.now).beneath }
    requires room { length bytes.old ≡ whole_length greatest_number (node entry.now).top
        (node entry.now).beneath }
    ensures holds { AreElements (node entry.now).top (node entry.now).beneath bytes.new }
    ensures room { length bytes.new ≡ length bytes.old }
{
    let size = element_length(entry) as usize;
    write_element(entry, &mut bytes[..size]);
    repeat(bytes, size, entry.occurs.most() as usize);
}

/// Writes entries side by side, but for those that redefine others.
#[cycle(entries)]
fn write_entries(entries: &[Node], bytes: &mut [u8])
    requires ready { HaveInitialStorage (forest entries.now) }
    requires room { length bytes.old ≡ sum_of greatest_number (forest entries.now) }
    ensures begun { AreBegun (forest entries.now) bytes.new }
    ensures room { length bytes.new ≡ length bytes.old }
{
    let mut at = 0;
    for entry in entries {
        if entry.redefines.is_none() {
            let end = at + whole_length(entry) as usize;
            write_elements(entry, &mut bytes[at..end]);
            at = end;
        }
    }
}

/// Writes the storage that a record has before the first move: each occurrence of each item that stands in no redefinition holds its VALUE, its
/// part of the VALUE of a group that it stands in, or else what MOVE ZERO (a number or an edited number) or MOVE SPACE (another item) would
/// leave, in its own kind of storage. Tables have their greatest number of elements.
///
/// The layout is that of the book, and the bytes are as many as its greatest length.
pub fn initial(layout: &Layout, book: &Book, bytes: &mut [u8])
    requires same { book.now ≡ layout.now }
    requires room { length bytes.old ≡ sum_of greatest_number book.now }
    ensures initial { IsInitial book.now bytes.new }
    // Each entry that stands in no redefinition and beneath no group with a VALUE has places, and the bytes there hold what the entry does.
    ensures places { HoldAtPlaces book.now bytes.new }
{
    // For both clauses: a record description is sound.
    records_are_sound();
    let record = &mut bytes[..usize::from(layout.greatest())];
    write_elements(book.root(), record);
}

//! Requests for memory that are refused, as `rt try --test --fail-alloc` refuses one in turn: the answer says so, and where none of a
//! call's own requests is refused, the answer is whole.

ghost use Rattle.std.specs.Prelude.{◌≤◌, length, map, IsTrue};
ghost use Rattle.cob_copybook_entry.specs.Described.{plain_entry};
ghost use Rattle.cob_copybook_tree.specs.Branches.{AreLevels};

use cob_copybook::{Book, Role};
use cob_copybook_entries::entries;
use cob_copybook_entry::{BookFault, BookRule, Entry};
use cob_copybook_names::counts;
use cob_copybook_tree::{Node, as_many_entries, build_tree, resolve, whole_length};
use cob_source::{SourceFault, Token, tokens};
use std::alloc::{AllocError, Global};
use std::test::Fail;

/// What says that memory was refused.
const REFUSED: BookFault = BookFault {
    rule: BookRule::Memory,
    line: 0,
};

/// The words of a text, read once more where memory was refused.
fn words_at_last(alloc: Global, text: &[u8]) -> Result<Vec<Token>, SourceFault> {
    match tokens(alloc, text) {
        Ok(words) => Ok(words),
        Err(_) => tokens(alloc, text),
    }
}

/// The entries of a text, read once more where memory was refused.
fn entries_at_last(alloc: Global, text: &[u8]) -> Result<Vec<Entry>, BookFault> {
    let words = words_at_last(alloc, text)?;
    match entries(alloc, words.as_slice()) {
        Ok(list) => Ok(list),
        Err(_) => entries(alloc, words.as_slice()),
    }
}

/// Whether a tree may be planted from the entries.
fn are_levels(entries: &[Entry]) -> bool
    ensures { IsTrue result → AreLevels (map plain_entry entries.now) }
{
    let Some((first, others)) = entries.split_first() else {
        return false;
    };
    if first.level != 1 {
        return false;
    }
    for entry in others {
        if entry.level < 2 || entry.level > 49 {
            return false;
        }
    }
    true
}

/// The record that the entries are.
fn resolved(alloc: Global, entries: Vec<Entry>) -> Result<Node, AllocError>
    requires levels { AreLevels (map plain_entry entries.items) }
    requires few { length entries.items ≤ 65535 }
{
    let root = build_tree(alloc, entries)?;
    as_many_entries();
    resolve(alloc, &root, &[])
}

/// The counts of the record that the entries are.
fn counted(alloc: Global, entries: Vec<Entry>) -> Result<Vec<Option<usize>>, BookFault>
    requires levels { AreLevels (map plain_entry entries.items) }
    requires few { length entries.items ≤ 65535 }
{
    let root = build_tree(alloc, entries)?;
    as_many_entries();
    counts(alloc, &root)
}

#[test]
fn entries_of_words(rt: HostRuntime) -> Result<(), Fail> {
    let text = b"       01 R.\n       05 A OCCURS 5 DEPENDING ON N OF G OF H.\n       05 B.\n";
    let words = words_at_last(rt.alloc(), text)?;
    match entries(rt.alloc(), words.as_slice()) {
        Ok(list) => assert_eq!(rt; list.len(), 3),
        Err(fault) => assert_eq!(rt; fault, REFUSED),
    }
    Ok(())
}

#[test]
fn trees_of_entries(rt: HostRuntime) -> Result<(), Fail> {
    let text =
        b"       01.\n       05 OCCURS 3.\n       10 PIC X.\n       05 PIC X OCCURS 1 TO 20 DEPENDING ON N.\n";
    let list = entries_at_last(rt.alloc(), text)?;
    assert!(rt; are_levels(list.as_slice()));
    assert!(rt; list.len() <= 65_535);
    if let Ok(root) = resolved(rt.alloc(), list) {
        assert_eq!(rt; root.children.len(), 2);
        assert_eq!(rt; whole_length(&root), 23);
    }
    Ok(())
}

#[test]
fn counts_of_trees(rt: HostRuntime) -> Result<(), Fail> {
    let text =
        b"       01 R.\n       05 A.\n       10 N PIC 9.\n       05 T OCCURS 1 TO 5 DEPENDING ON N OF A.\n       10 X PIC X.\n";
    let list = entries_at_last(rt.alloc(), text)?;
    assert!(rt; are_levels(list.as_slice()));
    assert!(rt; list.len() <= 65_535);
    match counted(rt.alloc(), list) {
        Ok(counts) => {
            let want: [Option<usize>; 5] = [None, None, None, Some(2), None];
            assert_eq!(rt; counts.as_slice(), want.as_slice());
        }
        Err(fault) => assert_eq!(rt; fault, REFUSED),
    }
    Ok(())
}

/// The call behind one that was refused memory reads the book.
#[test]
fn books(rt: HostRuntime) {
    let text =
        b"       05 G.\n       10 N PIC 9.\n       05 T PIC X OCCURS 2 TO 7 DEPENDING ON N OF G.\n";
    let book = match Book::read(rt.alloc(), Role::In, text) {
        Ok(book) => Ok(book),
        Err(fault) => {
            assert_eq!(rt; fault, REFUSED);
            Book::read(rt.alloc(), Role::In, text)
        }
    };
    match book {
        Ok(book) => assert_eq!(rt; book.greatest(), 8),
        Err(fault) => panic!(rt; "the book is read, and not {fault}"),
    }
}

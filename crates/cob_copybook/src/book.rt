//! Books.

ghost use Rattle.std.specs.Prelude.{◌≡◌, ℕ, ◌≤◌, IfOk, IfErr};
ghost use Rattle.cob_copybook_tree.specs.Forests.{Forest};
ghost use Rattle.cob_copybook_tree.specs.Nodes.{Resolved, tree_of};
ghost use Rattle.cob_copybook_tree.specs.Lengths.{greatest_number, sum_of};
ghost use Rattle.cob_limits.specs.Limits.{longest_record};
ghost use Rattle.cob_copybook.specs.Books.{IsBookOf, IsRecordDescription, IsBookRefusal, IsMemory};

use crate::laws::records_take_bytes;
use crate::role::Role;
use crate::storage::storage_of;
use crate::tree::tree_of;
use crate::words::entries_of;
use cob_copybook_tree::{BookFault, Node, whole_length};
use std::alloc::Global;
use std::marker::Model;

/// A copybook: the well-formed description of a record.
///
/// Contracts see its tree, the record with the entries beneath it.
#[derive(Drop)]
pub struct Book {
    root: Node,
    greatest: u16,
}

impl Model for Book {
    ghost use Rattle.std.specs.Prelude.{◌≡◌};
    ghost use Rattle.cob_copybook_tree.specs.Forests.{Forest};
    ghost use Rattle.cob_copybook_tree.specs.Nodes.{Resolved, tree_of};
    ghost use Rattle.cob_copybook_tree.specs.Lengths.{greatest_number, sum_of};
    ghost use Rattle.cob_copybook.specs.Books.{IsRecordDescription};
    ghost use Rattle.std.specs.Coded.{codes};
    ghost use Rattle.cob_copybook.specs.Codes.{coded_forest};

    ghost Value = { Forest Resolved };

    ghost coded = { Prim.hlevel (codes, coded_forest) };

    ghost view = { λ b. tree_of b.root };

    ghost invariant = { λ b. IsRecordDescription (tree_of b.root) × (b.greatest ≡ sum_of greatest_number (tree_of b.root)) };
}

impl Book {
    /// The record description that a text is, in reference format. A text that doesn't begin with level 01 is read as if it stood under a
    /// record named IN-RECORD or OUT-RECORD, by its role. (ANSI X3.23-1985, Data Division: record description entries.)
    ///
    /// # Errors
    /// A rule that the text breaks, with the line of the entry that breaks it, or for a rule of the reference format that line itself.
    /// Want of memory, with line 0, is told as that alone.
    pub fn read(alloc: Global, role: Role, text: &[u8]) -> Result<Book, BookFault>
        // What is read is the tree of the text.
        ensures found { IfOk result (λ b. IsBookOf role text.now b) }
        // A text that is a well-formed record description is read, memory aside.
        ensures only { (t : Forest Resolved) → IsBookOf role text.now t
            → IfOk result (λ b. b ≡ t) × IfErr result (λ f. IsMemory f.rule) }
        // A refusal names a rule that is broken.
        ensures fault { IfErr result (λ f. IsBookRefusal role f.rule f.line text.now) }
    {
        let entries = entries_of(alloc, role, text)?;
        let tree = tree_of(alloc, entries)?;
        let root = storage_of(alloc, &tree)?;
        let greatest = whole_length(&root) as u16;
        Ok(Book { root, greatest })
    }

    /// The record, with the entries beneath it.
    pub fn root(&self) -> &Node
        ensures tree { tree_of result.now ≡ self.now }
        ensures record { IsRecordDescription self.now }
    {
        &self.root
    }

    /// The record's length in bytes where each table that varies has its greatest count: 1 to 32,752.
    pub fn greatest(&self) -> u16
        ensures value { result ≡ sum_of greatest_number self.now }
        ensures some { 1 ≤ result }
        ensures most { result ≤ longest_record }
    {
        // For `some` and `most`: a record takes 1 to 32,752 bytes.
        records_take_bytes();
        self.greatest
    }
}

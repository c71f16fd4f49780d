//! The longest paragraph, of MOVE CORRESPONDING alone.

use crate::calls::{Refused, layout_of, read_book, read_paragraph};
use cob_copybook::Role;
use cob_layout::Layout;
use cob_move_statements::{MoveFault, MoveRule};
use std::alloc::{AllocError, Global};

const SENDING: &[u8] = b"       01  A.\n           05  X PIC X.\n";

const RECEIVING: &[u8] = b"       01  B.\n           05  X PIC X.\n";
/// A statement of one pair.
const STATEMENT: &[u8] = b"       MOVE CORRESPONDING A TO B.\n";
/// How many bytes it has.
const STATEMENT_BYTES: usize = 34;

/// What is told where memory was refused.
const MEMORY: MoveFault = MoveFault {
    rule: MoveRule::Memory,
    line: 0,
};

/// Writes a paragraph of so many bytes: as many statements as there is room for, and line feeds.
fn push_paragraph(text: &mut Vec<u8>, bytes: usize) -> Result<(), AllocError> {
    for _ in 0..bytes / STATEMENT_BYTES {
        text.extend_from_slice(STATEMENT)?;
    }
    text.resize(bytes, b'\n')
}

/// The layout of the copybook that a text is.
fn layout_of_text(alloc: Global, role: Role, text: &[u8]) -> Result<Layout, Refused> {
    let book = read_book(alloc, role, text)?;
    layout_of(alloc, &book)
}

/// How many single moves a paragraph has between this input record and the output record, or the rule that it breaks.
fn moves_from(alloc: Global, input: &Layout, text: &[u8]) -> Result<u32, MoveFault> {
    match layout_of_text(alloc, Role::Out, RECEIVING) {
        Ok(output) => read_paragraph(alloc, input, &output, text),
        Err(_) => Err(MEMORY),
    }
}

/// How many single moves a paragraph has between the two records, or the rule that it breaks.
fn moves_between(alloc: Global, text: &[u8]) -> Result<u32, MoveFault> {
    match layout_of_text(alloc, Role::In, SENDING) {
        Ok(input) => moves_from(alloc, &input, text),
        Err(_) => Err(MEMORY),
    }
}

/// How many single moves the paragraph of so many bytes has, or the rule that it breaks.
pub(crate) fn moves_of(alloc: Global, bytes: usize) -> Result<u32, MoveFault> {
    let mut text = Vec::new(alloc);
    if push_paragraph(&mut text, bytes).is_err() {
        return Err(MEMORY);
    }
    moves_between(alloc, text.as_slice())
}

//! What is read of paragraphs: the longest text, and memory that is refused.

use crate::trials::padded;
use cob_copybook::{Book, Role};
use cob_layout::Layout;
use cob_move::{ConditionNames, MoveFault, MoveRule, Paragraph};
use cob_source::SourceRule;
use cob_test_rows::lines_of;
use std::alloc::{AllocError, Global};
use std::test::Fail;

/// The layout of entries that are parted by bars.
fn layout_of(alloc: Global, role: Role, entries: &str) -> Result<Layout, Fail> {
    let text = lines_of(alloc, entries)?;
    Ok(Layout::of(alloc, &Book::read(alloc, role, text.as_slice())?)?)
}

/// Why a paragraph is refused between two records, if it is.
fn fault_between(
    alloc: Global,
    input: &Layout,
    output: &Layout,
    moves: &[u8],
) -> Option<MoveFault> {
    let names = ConditionNames {
        input: &[],
        output: &[],
    };
    match Paragraph::read(alloc, input, output, names, moves) {
        Ok(_) => None,
        Err(fault) => Some(fault),
    }
}

/// Why a paragraph is refused that is read twice: the first time and the second.
#[derive(Clone, Copy)]
struct Faults {
    first: Option<MoveFault>,
    second: Option<MoveFault>,
}

/// The faults of a paragraph that is read twice between this input and an output of one character, B.
fn faults_from(alloc: Global, input: &Layout, moves: &[u8]) -> Result<Faults, Fail> {
    let output = layout_of(alloc, Role::Out, "05 B PIC X.")?;
    let first = fault_between(alloc, input, &output, moves);
    let second = fault_between(alloc, input, &output, moves);
    Ok(Faults { first, second })
}

/// The faults of a paragraph that moves A to B, both of one character, and is read twice.
fn faults_of(alloc: Global, moves: &[u8]) -> Result<Faults, Fail> {
    let input = layout_of(alloc, Role::In, "05 A PIC X.")?;
    faults_from(alloc, &input, moves)
}

/// A move of one line, 20 bytes.
const MOVE: &[u8] = b"       MOVE A TO B.\n";

/// Why a paragraph of one line and then line feeds, so many bytes in all, is refused, if it is.
fn fault_at(alloc: Global, bytes: usize) -> Result<Option<MoveFault>, Fail> {
    let text = padded(alloc, MOVE, bytes, b'\n')?;
    Ok(faults_of(alloc, text.as_slice())?.first)
}

/// The longest text is read, and one of a byte more is refused as a whole.
#[test]
fn reads_a_million_bytes(rt: HostRuntime) -> Result<(), Fail> {
    assert!(rt; fault_at(rt.alloc(), 1_000_000)?.is_none());
    let too_long = MoveFault {
        rule: MoveRule::Source(SourceRule::TooLong),
        line: 1,
    };
    assert!(rt; fault_at(rt.alloc(), 1_000_001)? == Some(too_long));
    Ok(())
}

/// The fault of a paragraph for which memory was refused.
const REFUSED: MoveFault = MoveFault {
    rule: MoveRule::Memory,
    line: 0,
};

/// Whether a paragraph was read, or memory for it was refused.
fn is_read_or_refused(fault: Option<MoveFault>) -> bool {
    match fault {
        None => true,
        Some(fault) => fault == REFUSED,
    }
}

/// Whether a fault prints this.
fn prints(alloc: Global, fault: MoveFault, text: &str) -> Result<bool, AllocError> {
    let printed = format!(in alloc; "{fault}")?;
    Ok(printed.as_str() == text)
}

/// Where memory is refused once, the call says so on line 0, and the next one reads the paragraph.
#[test]
fn reads_again_after_memory(rt: HostRuntime) -> Result<(), Fail> {
    let Faults { first, second } = faults_of(rt.alloc(), MOVE)?;
    assert!(rt; is_read_or_refused(first) && is_read_or_refused(second));
    assert!(rt; first.is_none() || second.is_none());
    assert!(rt; prints(rt.alloc(), REFUSED, "M19 line 0")?);
    Ok(())
}

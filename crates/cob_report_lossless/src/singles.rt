//! The single moves of a paragraph, one behind another, each with the line of its statement.

use crate::lines::line_at;
use cob_move_data::{Element, Sent, Side, Singles, StatementMoves};
use std::alloc::{AllocError, Global};

/// What is sent, the occurrence of an entry of the output record that receives it, and the line of the statement.
#[derive(Clone, Copy)]
pub struct LinedSingle<'a> {
    pub line: u32,
    pub sent: Sent<'a>,
    pub receiver: Element<'a>,
}

/// The single moves of statements, which stand on these lines.
///
/// # Errors
///
/// Where no memory is left.
pub fn singles_of<'a>(
    alloc: Global,
    statements: &'a [StatementMoves],
    lines: &[u32],
) -> Result<Vec<LinedSingle<'a>>, AllocError> {
    let mut singles = Vec::new(alloc);
    for single in Singles::new(statements) {
        singles.push(LinedSingle {
            line: line_at(lines, single.statement),
            sent: single.sent,
            receiver: single.receiver,
        })?;
    }
    Ok(singles)
}

/// Whether two elements are one occurrence.
pub(crate) fn is_one(element: Element<'_>, other: Element<'_>) -> bool {
    element.number == other.number && element.subscripts == other.subscripts
}

/// Whether what is sent is this occurrence of an entry of the input record.
pub(crate) fn is_sent(sent: Sent<'_>, element: Element<'_>) -> bool {
    match sent {
        Sent::Entry { side, entry } => matches!(side, Side::In) && is_one(entry, element),
        Sent::Constant(_) => false,
    }
}

/// Whether some of these single moves sends the occurrence.
pub(crate) fn is_moved(singles: &[LinedSingle<'_>], element: Element<'_>) -> bool {
    for single in singles {
        if is_sent(single.sent, element) {
            return true;
        }
    }
    false
}

/// The first of these single moves that the occurrence receives.
pub(crate) fn receiving<'a>(
    singles: &[LinedSingle<'a>],
    element: Element<'_>,
) -> Option<LinedSingle<'a>> {
    for single in singles {
        if is_one(single.receiver, element) {
            return Some(*single);
        }
    }
    None
}

/// The first of these single moves whose receiver receives again, and the next one that it receives.
pub(crate) fn twice<'a>(singles: &[LinedSingle<'a>]) -> Option<(LinedSingle<'a>, LinedSingle<'a>)> {
    for at in 0..singles.len() {
        if let Some((first, others)) = singles.split_at(at).1.split_first() {
            if let Some(again) = receiving(others, first.receiver) {
                return Some((*first, again));
            }
        }
    }
    None
}

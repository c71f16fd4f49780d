//! The lists of single moves that leave something open.

use crate::descriptions::Undescribed;
use crate::losses::losses_in;
use crate::moves::Losing;
use crate::numbers::told_numberless;
use cob_back_losses::descriptions_lost;
use cob_report_lossless::{LinedMoves, LinedSingle, singles_of};
use std::alloc::{AllocError, Global};

/// Adds a line for each single move that may lose digits, characters or a sign.
fn push_losing(
    alloc: Global,
    moves: &LinedMoves<'_>,
    singles: &[LinedSingle<'_>],
    text: &mut String,
) -> Result<(), AllocError> {
    let losses = losses_in(alloc, &moves.moves)?;
    for (single, losses) in singles.iter().zip(losses.iter()) {
        if !losses.are_none() {
            let told = Losing {
                layouts: moves.moves.layouts,
                single: *single,
                losses: *losses,
            };
            let line = format!(in alloc; "{told}\n")?;
            text.push_str(&line)?;
        }
    }
    Ok(())
}

/// Adds a line for each single move of bytes that may lose their description.
fn push_undescribed(
    alloc: Global,
    moves: &LinedMoves<'_>,
    singles: &[LinedSingle<'_>],
    text: &mut String,
) -> Result<(), AllocError> {
    let lost = descriptions_lost(alloc, &moves.moves)?;
    for (single, unkept) in singles.iter().zip(lost.iter()) {
        if let Some(unkept) = unkept {
            let told = Undescribed {
                layouts: moves.moves.layouts,
                single: *single,
                unkept: *unkept,
            };
            let line = format!(in alloc; "{told}\n")?;
            text.push_str(&line)?;
        }
    }
    Ok(())
}

/// Adds a line for each single move of characters to a number.
fn push_numberless(
    alloc: Global,
    moves: &LinedMoves<'_>,
    singles: &[LinedSingle<'_>],
    text: &mut String,
) -> Result<(), AllocError> {
    for single in singles {
        if let Some(told) = told_numberless(&moves.moves.layouts, single) {
            let line = format!(in alloc; "{told}\n")?;
            text.push_str(&line)?;
        }
    }
    Ok(())
}

/// Adds a line for each single move that may lose something, and for each that may have no number, and answers whether there is one.
///
/// # Errors
///
/// Where no memory is left.
pub(crate) fn push_open_moves(
    alloc: Global,
    moves: &LinedMoves<'_>,
    text: &mut String,
) -> Result<bool, AllocError> {
    let singles = singles_of(alloc, moves.moves.statements, moves.lines)?;
    let before = text.len();
    push_losing(alloc, moves, &singles, text)?;
    push_undescribed(alloc, moves, &singles, text)?;
    push_numberless(alloc, moves, &singles, text)?;
    Ok(text.len() > before)
}

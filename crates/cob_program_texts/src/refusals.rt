ghost use Rattle.std.specs.Prelude.{◌≡◌};
ghost use Rattle.cob_program_texts.specs.Answers.{refusal_back, refusal_there};

use cob_convert::PrepareFault;
use cob_copybook::{Book, BookRule, Role};
use cob_copybook_conditions::{ConditionName, condition_names};
use cob_layout::Layout;
use cob_move_names::ConditionNames;
use cob_program_faults::{CommandFault, FileName};
use cob_report_refusals::MoveRefusal;
use cob_report_refused_moves::move_refusals;
use std::alloc::{AllocError, Global};

/// What is told where the conversion there is refused: its paragraph by the option that names it.
pub fn refused_there(fault: PrepareFault) -> CommandFault
    ensures { result ≡ refusal_there fault }
{
    match fault {
        PrepareFault::Moves(refused) => CommandFault::Paragraph(FileName::There, refused),
        PrepareFault::Memory => CommandFault::Memory,
        PrepareFault::InBook(refused) => CommandFault::Refused(PrepareFault::InBook(refused)),
        PrepareFault::OutBook(refused) => CommandFault::Refused(PrepareFault::OutBook(refused)),
        PrepareFault::Block { least } => CommandFault::Refused(PrepareFault::Block { least }),
    }
}

/// What is told where the conversion back is refused, whose input is the record of `--out-book`: each text by the option that names it.
pub fn refused_back(fault: PrepareFault) -> CommandFault
    ensures { result ≡ refusal_back fault }
{
    match fault {
        PrepareFault::Moves(refused) => CommandFault::Paragraph(FileName::Back, refused),
        PrepareFault::Memory => CommandFault::Memory,
        PrepareFault::InBook(refused) => CommandFault::Refused(PrepareFault::OutBook(refused)),
        PrepareFault::OutBook(refused) => CommandFault::Refused(PrepareFault::InBook(refused)),
        PrepareFault::Block { least } => CommandFault::Refused(PrepareFault::Block { least }),
    }
}

/// The layout of the record of a copybook, if it is one.
fn layout_of(alloc: Global, role: Role, text: &[u8]) -> Result<Option<Layout>, AllocError> {
    match Book::read(alloc, role, text) {
        Ok(book) => Ok(Some(Layout::of(alloc, &book)?)),
        Err(fault) => match fault.rule {
            BookRule::Memory => Err(AllocError),
            _ => Ok(None),
        },
    }
}

/// The condition-names of a copybook, none where it is none.
fn names_of(alloc: Global, text: &[u8]) -> Result<Vec<ConditionName>, AllocError> {
    match condition_names(alloc, text) {
        Ok(names) => Ok(names),
        Err(fault) => match fault.rule {
            BookRule::Memory => Err(AllocError),
            _ => Ok(Vec::new(alloc)),
        },
    }
}

/// What is refused of a paragraph from the record of a layout, whose copybook has these condition-names, nothing where the other copybook is none.
fn refusals_from(
    alloc: Global,
    input: &Layout,
    in_names: &[ConditionName],
    out_book: &[u8],
    moves: &[u8],
) -> Result<Vec<MoveRefusal>, AllocError> {
    let Some(output) = layout_of(alloc, Role::Out, out_book)? else {
        return Ok(Vec::new(alloc));
    };
    let out_names = names_of(alloc, out_book)?;
    let names = ConditionNames {
        input: in_names,
        output: out_names.as_slice(),
    };
    move_refusals(alloc, input, &output, names, moves)
}

/// What is refused of a paragraph between the records of two copybooks, nothing where one of these is none.
///
/// # Errors
///
/// Where no memory is left.
pub fn paragraph_refusals(
    alloc: Global,
    in_book: &[u8],
    out_book: &[u8],
    moves: &[u8],
) -> Result<Vec<MoveRefusal>, AllocError> {
    let Some(input) = layout_of(alloc, Role::In, in_book)? else {
        return Ok(Vec::new(alloc));
    };
    let names = names_of(alloc, in_book)?;
    refusals_from(alloc, &input, names.as_slice(), out_book, moves)
}

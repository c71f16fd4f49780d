ghost use Rattle.std.specs.Prelude.{◌≡◌, IfErr};
ghost use Rattle.cob_program_faults.specs.Ends.{EndsAmong, EndsAs, status_of_outcome};
ghost use Rattle.cob_program_faults.specs.declared.fault.CommandFault.TheVariants.{Memory};
ghost use Rattle.cob_convert.specs.declared.status.Status.TheVariants.{Done};
ghost use Rattle.cob_program_texts.specs.DraftEnds.{MayEndDraft};

use cob_convert::{PrepareFault, Status};
use cob_layout::{Book, BookFault, BookRule, Layout, Role};
use cob_program_faults::{CommandFault, FileName, printed, tell_fault, text_of};
use cob_program_line::DraftLine;
use cob_report_draft::{Draft, Lacking, Prefixes, draft_of};
use std::alloc::Global;
use std::io::{Eprint, Print};
use std::rt::Files;

/// What is told of the copybook of the input record that is refused.
fn refused_input(fault: BookFault) -> CommandFault
    ensures { MayEndDraft result }
{
    match fault.rule {
        BookRule::Memory => CommandFault::Memory,
        _ => CommandFault::Refused(PrepareFault::InBook(fault)),
    }
}

/// What is told of the copybook of the output record that is refused.
fn refused_output(fault: BookFault) -> CommandFault
    ensures { MayEndDraft result }
{
    match fault.rule {
        BookRule::Memory => CommandFault::Memory,
        _ => CommandFault::Refused(PrepareFault::OutBook(fault)),
    }
}

/// What is told of a copybook that is refused, that of this role.
fn refused(role: Role, fault: BookFault) -> CommandFault
    ensures { MayEndDraft result }
{
    match role {
        Role::In => refused_input(fault),
        Role::Out => refused_output(fault),
    }
}

/// The layout of the record that a copybook describes.
fn layout_of(alloc: Global, role: Role, text: &[u8]) -> Result<Layout, CommandFault>
    ensures { IfErr result MayEndDraft }
{
    match Book::read(alloc, role, text) {
        Ok(book) => match Layout::of(alloc, &book) {
            Ok(layout) => Ok(layout),
            Err(_) => Err(CommandFault::Memory),
        },
        Err(fault) => Err(refused(role, fault)),
    }
}

/// The prefixes of the names of the input record and of the output record, which a comma parts; one alone is that of both.
fn prefixes_in(said: &str) -> Prefixes<'_> {
    let (input, output) = said.split_once(',').unwrap_or((said, said));
    Prefixes {
        input: input.as_bytes(),
        output: output.as_bytes(),
    }
}

/// A paragraph to begin with, between the records of a layout and a copybook.
fn draft_to(
    alloc: Global,
    input: &Layout,
    out_book: &[u8],
    prefixes: Prefixes<'_>,
) -> Result<Draft, CommandFault>
    ensures { IfErr result MayEndDraft }
{
    match layout_of(alloc, Role::Out, out_book) {
        Ok(output) => match draft_of(alloc, input, &output, prefixes) {
            Ok(draft) => Ok(draft),
            Err(_) => Err(CommandFault::Memory),
        },
        Err(fault) => Err(fault),
    }
}

/// A paragraph to begin with, between the records of two copybooks.
fn draft_between(
    alloc: Global,
    in_book: &[u8],
    out_book: &[u8],
    prefixes: Prefixes<'_>,
) -> Result<Draft, CommandFault>
    ensures { IfErr result MayEndDraft }
{
    match layout_of(alloc, Role::In, in_book) {
        Ok(input) => draft_to(alloc, &input, out_book, prefixes),
        Err(fault) => Err(fault),
    }
}

/// Reads two copybooks, and answers a paragraph to begin with.
///
/// # Errors
///
/// A file that is not opened or not read, a copybook that is refused, want of memory.
pub fn drafted<R: AllocGlobal + Files>(rt: &R, line: &DraftLine<'_>) -> Result<Draft, CommandFault>
    ensures { IfErr result MayEndDraft }
{
    let in_book = text_of(rt, line.in_book, FileName::InBook)?;
    let out_book = text_of(rt, line.out_book, FileName::OutBook)?;
    let said = line
        .strip_prefix
        .unwrap_or("")
        .to_ascii_uppercase(rt.alloc())?;
    draft_between(rt.alloc(), &in_book, &out_book, prefixes_in(&said))
}

/// Prints on standard error what a draft lacks, if it lacks something, and answers how the command ends.
fn tell_lacking<R: Eprint>(rt: &R, lacking: Option<Lacking>) -> Status
    ensures { EndsAs Done result }
{
    match lacking {
        Some(lacking) => printed(eprintln!(rt; "{lacking}"), Status::Done),
        None => Status::Done,
    }
}

/// Prints a paragraph, and what it lacks.
fn tell_paragraph<R: Print + Eprint>(rt: &R, text: &str, lacking: Option<Lacking>) -> Status
    ensures { EndsAs Done result }
{
    match print!(rt; "{text}") {
        Ok(()) => tell_lacking(rt, lacking),
        Err(_) => Status::Device,
    }
}

/// Prints a paragraph, or what is at fault, and answers how the command ends.
fn tell_draft<R: Print + Eprint>(rt: &R, outcome: Result<Draft, CommandFault>) -> Status
    ensures { EndsAs (status_of_outcome outcome) result }
{
    match outcome {
        Ok(draft) => tell_paragraph(rt, &draft.text, draft.lacking),
        Err(fault) => tell_fault(rt, fault),
    }
}

/// Prints a paragraph to begin with, or what is at fault, and answers how the program ends.
pub fn do_draft<R: AllocGlobal + Files + Print + Eprint>(rt: &R, line: &DraftLine<'_>) -> Status
    ensures { EndsAmong MayEndDraft result }
{
    tell_draft(rt, drafted(rt, line))
}

ghost use Rattle.std.specs.Prelude.{◌≡◌, IfErr, IfOk};
ghost use Rattle.cob_layout.specs.Storage.{greatest_length};
ghost use Rattle.cob_program_faults.specs.Lengths.{FitsLrecl};
ghost use Rattle.cob_program_faults.specs.Texts.{LacksLayout, LacksRecordLayout};

use cob_copybook_conditions::{ConditionName, condition_names};
use cob_program_faults::{CommandFault, FileName, judge_lrecl, text_of};
use cob_records::Form;
use cob_report_show::{Book, Layout, Role};
use std::alloc::Global;
use std::rt::Files;

/// A copybook, and the layout of its records.
#[derive(Drop)]
pub struct Listed {
    pub book: Book,
    pub layout: Layout,
}

/// A copybook with its layout, and its condition-names.
#[derive(Drop)]
pub(crate) struct NamedBook {
    pub(crate) listed: Listed,
    pub(crate) names: Vec<ConditionName>,
}

/// The copybook that a text is, and its layout.
fn listed_of(alloc: Global, text: &[u8]) -> Result<Listed, CommandFault>
    ensures same { IfOk result (λ listed. listed.book ≡ listed.layout) }
    ensures lacks { IfErr result LacksLayout }
{
    let book = Book::read(alloc, Role::In, text)?;
    let layout = Layout::of(alloc, &book)?;
    Ok(Listed { book, layout })
}

/// Reads the copybook that `--book` names.
///
/// # Errors
///
/// A file that is not opened or not read, a copybook that is refused, want of memory.
fn read_book<R: AllocGlobal + Files>(rt: &R, path: &str) -> Result<Listed, CommandFault>
    ensures same { IfOk result (λ listed. listed.book ≡ listed.layout) }
    ensures lacks { IfErr result LacksLayout }
{
    let text = text_of(rt, path, FileName::Book)?;
    listed_of(rt.alloc(), &text)
}

/// Reads the copybook that `--book` names, with its condition-names.
///
/// # Errors
///
/// A file that is not opened or not read, a copybook that is refused, want of memory.
pub(crate) fn read_named_book<R: AllocGlobal + Files>(
    rt: &R,
    path: &str,
) -> Result<NamedBook, CommandFault>
    ensures { IfErr result LacksLayout }
{
    let text = text_of(rt, path, FileName::Book)?;
    let listed = listed_of(rt.alloc(), &text)?;
    let names = condition_names(rt.alloc(), &text)?;
    Ok(NamedBook { listed, names })
}

/// Reads the copybook that `--book` names of records that stand in this form, and fit the record length that their file is said to have, where one is said.
///
/// # Errors
///
/// A file that is not opened or not read, a copybook that is refused, records that do not fit that length, want of memory.
pub fn read_record_book<R: AllocGlobal + Files>(
    rt: &R,
    path: &str,
    form: Form,
    lrecl: Option<u64>,
) -> Result<Listed, CommandFault>
    ensures same { IfOk result (λ listed. listed.book ≡ listed.layout) }
    ensures fits { IfOk result (λ listed. FitsLrecl form lrecl (greatest_length listed.layout)) }
    ensures lacks { IfErr result LacksRecordLayout }
{
    let listed = read_book(rt, path)?;
    match judge_lrecl(FileName::Book, form, lrecl, listed.layout.greatest()) {
        Ok(()) => Ok(listed),
        Err(fault) => Err(fault),
    }
}

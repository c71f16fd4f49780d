//! Record lengths that files are said to have, and sizes of files of records of one length.

ghost use Rattle.std.specs.Prelude.{◌≡◌, ◌<◌, true, false, IfErr, IfOk, OnOk};
ghost use Rattle.cob_convert_record.specs.Conversion.{in_length};
ghost use Rattle.cob_program_faults.specs.Lengths.{Fits, FitsLrecl, IsOtherLength, is_uneven, least_lrecl};
ghost use Rattle.cob_program_faults.specs.Texts.{HasOtherLength};
ghost use Rattle.cob_program_faults.specs.declared.fault.FileName.TheVariants.{InBook};

use crate::fault::{CommandFault, FileName};
use cob_convert::Converter;
use cob_records::{Form, size_of};
use std::io::Eprint;
use std::rt::Files;

/// The least record length of a file whose records have at most this length.
fn least_lrecl(form: Form, greatest: u16) -> u32
    ensures { result ≡ least_lrecl form greatest }
{
    match form {
        Form::Fixed => u32::from(greatest),
        Form::Variable => u32::from(greatest) + 4,
        Form::Blocked(_) => u32::from(greatest) + 4,
    }
}

/// Whether records of at most this length stand in a file of this record length.
fn fits(form: Form, lrecl: u64, greatest: u16) -> bool
    ensures yes { result ≡ true → Fits form lrecl greatest }
    ensures no { result ≡ false → Fits form lrecl greatest → ⊥ }
{
    match form {
        Form::Fixed => lrecl == u64::from(greatest),
        Form::Variable => u64::from(greatest) + 4 <= lrecl,
        Form::Blocked(_) => u64::from(greatest) + 4 <= lrecl,
    }
}

/// Asks of a copybook, whose records have at most this length, that they fit the record length that their file is said to have, where one is said.
///
/// # Errors
///
/// The record length that they need, and the one that is said.
pub fn judge_lrecl(
    option: FileName,
    form: Form,
    lrecl: Option<u64>,
    greatest: u16,
) -> Result<(), CommandFault>
    ensures fits { OnOk result (FitsLrecl form lrecl greatest) }
    ensures other { IfErr result (IsOtherLength option form lrecl greatest) }
    ensures named { IfErr result (HasOtherLength option) }
{
    match lrecl {
        None => Ok(()),
        Some(lrecl) if fits(form, lrecl, greatest) => Ok(()),
        Some(lrecl) => Err(CommandFault::OtherLength {
            option,
            least: least_lrecl(form, greatest),
            lrecl,
        }),
    }
}

/// A converter whose input is said to have this record length.
///
/// # Errors
///
/// The record length that its records need, and the one that is said.
pub fn fitting(
    converter: Converter,
    form: Form,
    lrecl: Option<u64>,
) -> Result<Converter, CommandFault>
    ensures kept { IfOk result (λ made. made ≡ converter) }
    ensures fits { IfOk result (λ made. FitsLrecl form lrecl (in_length made)) }
    ensures named { IfErr result (HasOtherLength InBook) }
{
    match judge_lrecl(FileName::InBook, form, lrecl, converter.in_length()) {
        Ok(()) => Ok(converter),
        Err(fault) => Err(fault),
    }
}

/// Whether bytes stand behind the last whole record of so many bytes, where each record has this length.
fn is_uneven(size: u64, length: u16) -> bool
    requires { 0 < length }
    ensures { result ≡ is_uneven size length }
{
    size % u64::from(length) != 0
}

/// The size of a piece of a regular file, which begins behind so many bytes and has so many where it does not go to the end.
fn piece_size<R: Files>(rt: &R, input: &str, from: u64, bytes: Option<u64>) -> Option<u64> {
    let left = size_of(rt, input)?.saturating_sub(from);
    match bytes {
        Some(bytes) => Some(left.min(bytes)),
        None => Some(left),
    }
}

/// Prints on standard error, where each record of a regular file has this length, that its size, or that of its piece, is no multiple of it. Where that
/// can't be printed, nothing is told: the run tells its fault.
pub fn tell_uneven<R: Files + Eprint>(
    rt: &R,
    input: &str,
    form: Form,
    length: u16,
    from: u64,
    bytes: Option<u64>,
)
    requires { 0 < length }
{
    let Form::Fixed = form else {
        return;
    };
    if let Some(size) = piece_size(rt, input, from, bytes) {
        if is_uneven(size, length) {
            let _ = eprintln!(rt; "in size {size} is no multiple of the record length {length}");
        }
    }
}

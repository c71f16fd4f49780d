//! Files that have the numbers of standard streams.

ghost use Rattle.std.specs.Prelude.{◌↔◌, IfOk, IsTrue};
ghost use Rattle.cob_program_runtime.specs.Streams.{IsStandard, KeepsStandard};

use std::fs::File;
use std::io;
use std::os::fd::{AsRawFd, RawFd};
use std::rt::Files;

/// What is opened in the place of a stream: a folder, which is always there and can neither be read nor written as a file.
const FOLDER: &str = "/";

/// Whether a standard stream has this number.
fn is_standard(number: RawFd) -> bool
    ensures { IsTrue result ↔ IsStandard number }
{
    number <= 2
}

/// Opens the folder, and keeps it where it got the number of a standard stream.
///
/// # Errors
///
/// Where the system does not open it.
fn stand_in<R: Files>(rt: &R) -> io::Result<Option<R::File>>
where
    R::File: AsRawFd,
    ensures { IfOk result (KeepsStandard R.File.raw_fd) }
{
    let folder = File::open(rt, FOLDER)?;
    if is_standard(folder.as_raw_fd()) {
        Ok(Some(folder))
    } else {
        Ok(None)
    }
}

/// What stands in for the standard streams that were closed, as long as it is kept.
#[derive(Drop)]
pub struct StandIns<F> {
    first: Option<F>,
    second: Option<F>,
    third: Option<F>,
}

/// Takes the numbers of the standard streams that are closed. It is the first that opens a file.
///
/// # Errors
///
/// Where the system does not open a folder: some of these streams may be closed still.
pub fn take_closed<R: Files>(rt: &R) -> io::Result<StandIns<R::File>>
where
    R::File: AsRawFd,
    ensures first { IfOk result (λ these. KeepsStandard R.File.raw_fd these.first) }
    ensures second { IfOk result (λ these. KeepsStandard R.File.raw_fd these.second) }
    ensures third { IfOk result (λ these. KeepsStandard R.File.raw_fd these.third) }
{
    let first = stand_in(rt)?;
    let second = stand_in(rt)?;
    let third = stand_in(rt)?;
    Ok(StandIns {
        first,
        second,
        third,
    })
}

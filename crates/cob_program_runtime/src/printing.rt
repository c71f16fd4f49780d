//! What is printed on a standard stream that may be a regular file.

ghost use Rattle.std.specs.Prelude.{◌≡◌, ◌+◌, length, IfOk, IfSome, IsOk, None, Some};
ghost use Rattle.cob_program_runtime.specs.Prints.{FitsExtent, saturated};

use crate::extent::Extent;
use crate::limited_file::extent_in;
use std::fmt::{Display, Write};
use std::rt::Files;
use std::{fmt, io};

/// Counts the bytes of a text that is written to it.
#[derive(Drop)]
struct Counter {
    bytes: u64,
}

impl Write for Counter {
    ghost write_str_gives = { λ before text behind. behind.bytes ≡ saturated (before.bytes + length text) };

    fn write_str(&mut self, text: &str) -> fmt::Result {
        self.bytes = self.bytes.saturating_add(text.len() as u64);
        Ok(())
    }
}

/// How many bytes are printed of a value.
fn length_of<D: Display>(value: &D) -> io::Result<u64>
    ensures { IfSome (D.output value.now) (λ text. IfOk result
        (λ bytes. bytes ≡ saturated (length text))) }
{
    let mut counter = Counter { bytes: 0 };
    match counter.write(value) {
        Ok(()) => Ok(counter.bytes),
        Err(error) => Err(io::Error::from(error)),
    }
}

/// Where what stands behind this path is written next and how far, where it is a regular file and there is a limit: behind its end.
pub(crate) fn extent_behind<R: Files>(rt: &R, limit: Option<u64>, path: &str) -> Option<Extent>
    ensures unlimited { limit ≡ None → result ≡ None }
    ensures limit { IfSome result (λ extent. limit ≡ Some extent.limit) }
{
    let limit = limit?;
    match rt.metadata(path) {
        Ok(metadata) => extent_in(&metadata, limit, true),
        Err(_) => None,
    }
}

/// Asks of a value that it fits with so many bytes behind it, where there is a limit.
///
/// # Errors
///
/// Where it does not.
pub(crate) fn fits<D: Display>(extent: Option<Extent>, value: &D, more: u64) -> io::Result<()>
    ensures unlimited { extent ≡ None → IsOk result }
    ensures fits { IfSome (D.output value.now)
        (λ text. IfOk result (λ _. FitsExtent extent (length text + more))) }
{
    match extent {
        None => Ok(()),
        Some(extent) => extent.fits(length_of(value)?.saturating_add(more)),
    }
}

use cob_records::{Telling, size_of};
use std::fs;
use std::os::unix::fs::{FileTypeExt, MetadataExt};
use std::rt::Files;

/// Whether a terminal stands behind this path, as it may behind `/dev/stderr`: a device of characters that is not `/dev/null`.
fn is_terminal<R: Files>(rt: &R, path: &str) -> bool {
    match (fs::metadata(rt, path), fs::metadata(rt, "/dev/null")) {
        (Ok(device), Ok(null)) => {
            device.file_type().is_char_device() && device.rdev() != null.rdev()
        }
        _ => false,
    }
}

/// Whether standard input is a terminal.
pub fn asks_a_person<R: Files>(rt: &R) -> bool {
    is_terminal(rt, "/dev/stdin")
}

/// Whether standard error is a terminal, so that a person reads what is told.
pub fn tells_a_person<R: Files>(rt: &R) -> bool {
    is_terminal(rt, "/dev/stderr")
}

/// How a run over the file of this name tells on standard error how far it is, where that is asked for.
pub fn telling<R: Files>(rt: &R, name: &str, asked: bool) -> Option<Telling> {
    if asked {
        Some(Telling {
            size: size_of(rt, name),
            rewrites: is_terminal(rt, "/dev/stderr"),
        })
    } else {
        None
    }
}

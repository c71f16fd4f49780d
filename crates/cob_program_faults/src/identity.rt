ghost use Rattle.std.specs.Prelude.{◌↔◌, ◌≡◌, true, IsTrue};
ghost use Rattle.cob_program_faults.specs.Identity.{IsSameFile, LeadToOneFile, Loses};

use std::fs::Metadata;
use std::os::unix::fs::{FileTypeExt, MetadataExt};
use std::rt::Files;

/// Which file of the system a name leads to.
#[derive(Clone, Copy, PartialEq, Eq)]
pub struct FileIdentity {
    /// The device that has the file.
    device: u64,
    /// The file's number there.
    number: u64,
    /// Whether what is written to it stays in it: it is a regular file or a block device, and no pipe, terminal or other device.
    keeps: bool,
}

impl FileIdentity {
    /// The identity of the file that a name leads to, by links too; `None` where the system does not tell, as of a name that is not there.
    pub fn of<R: Files>(rt: &R, name: &str) -> Option<FileIdentity> {
        match rt.metadata(name) {
            Ok(metadata) => Some(FileIdentity::of_metadata(&metadata)),
            Err(_) => None,
        }
    }

    /// The identity of the file that an option names for reading records: `-` is what standard input comes from.
    pub fn of_input<R: Files>(rt: &R, name: &str) -> Option<FileIdentity> {
        FileIdentity::of(rt, if name == "-" { "/dev/stdin" } else { name })
    }

    /// The identity of the file that an option names for writing records: `-` is what standard output goes to.
    pub fn of_output<R: Files>(rt: &R, name: &str) -> Option<FileIdentity> {
        FileIdentity::of(rt, if name == "-" { "/dev/stdout" } else { name })
    }

    fn of_metadata(metadata: &Metadata) -> FileIdentity {
        FileIdentity {
            device: metadata.dev(),
            number: metadata.ino(),
            keeps: metadata.is_file() || metadata.file_type().is_block_device(),
        }
    }

    /// Whether two identities are those of one file.
    pub fn is_same_file(self, other: FileIdentity) -> bool
        ensures { IsTrue result ↔ IsSameFile self other }
    {
        self.device == other.device && self.number == other.number
    }

    /// Whether a write to this file would lose what the other one holds: both are one, and it keeps what is written to it.
    fn writes_over(self, other: FileIdentity) -> bool
        ensures keeps { IsTrue result → self.keeps ≡ true }
        ensures same { IsTrue result → IsSameFile self other }
        ensures lost { IsSameFile self other → self.keeps ≡ true → IsTrue result }
    {
        self.keeps && self.is_same_file(other)
    }
}

/// Whether two names lead to one file.
pub fn lead_to_one_file(one: Option<FileIdentity>, other: Option<FileIdentity>) -> bool
    ensures { IsTrue result ↔ LeadToOneFile one other }
{
    match (one, other) {
        (Some(one), Some(other)) => one.is_same_file(other),
        _ => false,
    }
}

/// Whether writing to an output would lose what another file holds.
pub fn loses(output: Option<FileIdentity>, other: Option<FileIdentity>) -> bool
    ensures { IsTrue result ↔ Loses output other }
{
    match (output, other) {
        (Some(output), Some(other)) => output.writes_over(other),
        _ => false,
    }
}

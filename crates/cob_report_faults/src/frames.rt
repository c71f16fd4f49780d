//! Frames that are none, in words.

use crate::reader::Reader;
use cob_records::RecordFault;
use std::fmt;

/// What is wrong with a frame, and what to do, in two lines, of which the last one has no end.
#[derive(Clone, Copy)]
pub struct FrameText {
    pub fault: RecordFault,
    pub reader: Reader,
}

/// Writes why a block can't be read, and what to do. The greatest size of blocks is said of a conversion's alone.
fn write_block<W: fmt::Write>(f: &mut fmt::Formatter<W>, reader: Reader) -> fmt::Result {
    let words = match reader {
        Reader::Conversion => {
            "the block begins with no block descriptor word, or is longer than --in-block says\nlook whether --in-form and --in-block are right"
        }
        Reader::List => {
            "the block begins with no block descriptor word\nlook whether --form is right"
        }
    };
    write!(f, "{words}")
}

impl fmt::Display for FrameText {
    fn fmt<W: fmt::Write>(&self, f: &mut fmt::Formatter<W>) -> fmt::Result {
        let form = self.reader.form_option();
        match self.fault {
            RecordFault::Truncated { .. } => write!(
                f,
                "the input ends inside this record\nlook whether {form} is right and whether layout gives the length that the records have"
            ),
            RecordFault::Descriptor => write!(
                f,
                "the record begins with no record descriptor word\nlook whether {form} is right, or at the records before, which may be out of step"
            ),
            RecordFault::Spanned => write!(
                f,
                "the record is a segment of a spanned one\nunspan the file first"
            ),
            RecordFault::Length => write!(
                f,
                "the record has not the length that its copybook gives under its own counts\nlook whether the copybook is this file's, and whether it is blocked"
            ),
            RecordFault::BlockDescriptor => write_block(f, self.reader),
            RecordFault::PastBlock => write!(
                f,
                "the record does not end within its block\nlook at the block that it stands in: the file is out of step or damaged"
            ),
            RecordFault::ReadFailed => write!(
                f,
                "the device did not give the record\nread the file once more"
            ),
            RecordFault::WriteFailed { .. } | RecordFault::TookNothing { .. } => {
                write!(f, "the device did not take the record\nmake room on it")
            }
        }
    }
}

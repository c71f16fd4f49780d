//! What single moves on one record work with.

ghost use Rattle.std.specs.Prelude.{◌≡◌, IfOk};
ghost use Rattle.cob_report_explain.specs.Room.{HasEachRoom};

use cob_codec::Reading;
use cob_layout::{Counts, Layout};
use std::alloc::{AllocError, Global};

/// The layouts of both records, and how their binary items are read that are sent.
#[derive(Clone, Copy)]
pub struct RecordLayouts<'a> {
    pub input: &'a Layout,
    pub output: &'a Layout,
    pub reading: Reading,
}

/// Room for the counts of both records, and for the bytes of a sender that lies in the output record.
#[derive(Drop)]
pub struct EachRoom {
    pub(crate) in_counts: Counts,
    pub(crate) out_counts: Counts,
    pub(crate) content: Vec<u8>,
}

impl EachRoom {
    /// What the last sender that lay in the output record gave, in front.
    pub fn content(&self) -> &[u8]
        ensures { result.now ≡ self.now.content.items }
    {
        self.content.as_slice()
    }

    /// Room for single moves between records of these layouts.
    ///
    /// # Errors
    ///
    /// Where no memory is left.
    pub fn new(alloc: Global, input: &Layout, output: &Layout) -> Result<EachRoom, AllocError>
        ensures { IfOk result (HasEachRoom (record { input = input.now; output = output.now })) }
    {
        let content = vec![in alloc; 0u8; usize::from(output.greatest())]?;
        Ok(EachRoom {
            in_counts: input.new_counts(alloc)?,
            out_counts: output.new_counts(alloc)?,
            content,
        })
    }
}

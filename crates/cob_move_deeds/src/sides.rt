//! What deeds are carried out between.

use cob_layout::Layout;

/// The layouts of both records, and the storage of the input record.
#[derive(Clone, Copy)]
pub(crate) struct Sides<'a> {
    pub(crate) input_layout: &'a Layout,
    pub(crate) output_layout: &'a Layout,
    pub(crate) input: &'a [u8],
}

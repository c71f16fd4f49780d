use cob_codec::Reading;
use cob_copybook_tree::{Kind, Value};

/// What a statement sends to each of its receivers.
#[derive(Clone, Copy)]
pub enum Sent<'a> {
    /// The bytes of an entry, and how they are read where it is a binary item.
    Entry {
        kind: &'a Kind,
        bytes: &'a [u8],
        reading: Reading,
    },
    /// A literal, or a figurative constant.
    Constant(&'a Value),
}

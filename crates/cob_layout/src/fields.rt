//! The bytes of an entry in a record, read and written in place.
//!
//! An entry of a copybook stands at a [`Place`] of each record: so many bytes from the record's start, and so many bytes
//! long.
//!
//! - [`field`] lends the bytes of a place to be read: they are those of the record at that place, in their order.
//! - [`field_mut`] lends them to be written. By `value` they are the bytes of the place; by `writes_back` the record ends
//!   with what the caller left in them at that place, and with every other byte, before and behind, as it was.
//!
//! Both ask of their caller that the place does not reach past the end of the record; an empty place may stand at the very
//! end. Neither copies a byte, takes memory or can fail. Callers inside the product write inline on `&mut bytes[a..b]`, since
//! provers of callers see through that, while of a write through [`field_mut`] they see only that the record keeps its
//! length.
ghost use Rattle.std.specs.Prelude.{◌≡◌, ◌≤◌, ◌+◌, length};
ghost use Rattle.std.specs.Borrow.{sem};
ghost use Rattle.cob_layout.specs.Fields.{field_of, LendsField};

/// Where an entry stands in a record, and how long it is, in bytes.
#[derive(Clone, Copy, PartialEq, Eq)]
pub struct Place {
    /// The bytes of the record in front of the entry.
    pub offset: u32,
    /// The bytes of the entry.
    pub length: u32,
}

/// The bytes of a place.
pub fn field(bytes: &[u8], place: Place) -> &[u8]
    requires { place.offset + place.length ≤ length bytes.now }
    ensures { result.now ≡ field_of place bytes.now }
{
    let start = place.offset as usize;
    let count = place.length as usize;
    &bytes[start..start + count]
}

/// The bytes of a place, to be written.
pub fn field_mut(bytes: &mut [u8], place: Place) -> &mut [u8]
    requires { place.offset + place.length ≤ length bytes.old }
    // What is written changes the bytes of this place and no other.
    ensures* writes_back { sem 𝓛 (LendsField bytes.entry place result) }
    ensures value { result.now ≡ field_of place bytes.old }
{
    let start = place.offset as usize;
    let count = place.length as usize;
    &mut bytes[start..start + count]
}

//! A record that is held, as it stands by itself in a stream.

ghost use Rattle.std.specs.Prelude.{◌≡◌, ◌+◌, ◌<◌, ◌≤◌, [], ◌++◌, length, take, drop, min, IsFalse, IsTrue, IfOk};
ghost use Rattle.cob_limits.specs.Limits.{longest_record};
ghost use Rattle.cob_records.specs.Frame.{descriptor};
ghost use Rattle.cob_records_parts.specs.Fronts.{front_of};

use byteorder::{BigEndian, ByteOrder};
use cob_records::Form;
use std::alloc::{AllocError, Global};

/// How many bytes both descriptors have that may stand before a record.
const FRONT: usize = 8;

/// How many bytes a descriptor has.
const DESCRIPTOR: usize = 4;

/// What is held of a record and of the descriptors before it.
#[derive(Drop)]
pub(crate) struct Held {
    front: [u8; FRONT],
    at: usize,
    pub(crate) body: Vec<u8>,
    from: usize,
    end: usize,
    ghost front_long: { length front ≡ 8 },
    ghost front_within: { at ≤ 8 },
    ghost order: { from ≤ end },
    ghost within: { end ≤ length body.items },
}

/// The descriptor before so many bytes.
fn put_descriptor(head: &mut [u8], count: usize)
    requires long { length head.old ≡ 4 }
    requires few { count ≤ longest_record + 4 }
    ensures { head.new ≡ descriptor count }
{
    BigEndian::write_u16(head, (DESCRIPTOR + count) as u16);
    head[2] = 0;
    head[3] = 0;
}

/// Puts the descriptors of a record of so many bytes, which stands by itself in this form, at the end of the slice, and says where they begin.
fn put_front(form: Form, count: usize, front: &mut [u8]) -> usize
    requires long { length front.old ≡ 8 }
    requires few { count ≤ longest_record }
    ensures front { drop result front.new ≡ front_of form count }
    ensures within { result ≤ 8 }
    ensures long { length front.new ≡ 8 }
{
    match form {
        Form::Fixed => FRONT,
        Form::Variable => {
            put_descriptor(&mut front[DESCRIPTOR..], count);
            DESCRIPTOR
        }
        Form::Blocked(_) => {
            put_descriptor(&mut front[..DESCRIPTOR], DESCRIPTOR + count);
            put_descriptor(&mut front[DESCRIPTOR..], count);
            0
        }
    }
}

/// Copies as many bytes as there are, and as the piece has room for, and says how many.
fn give_some(bytes: &[u8], piece: &mut [u8]) -> usize
    ensures count { result ≡ min (length bytes.now) (length piece.old) }
    ensures long { length piece.new ≡ length piece.old }
    ensures given { take result piece.new ≡ take result bytes.now }
{
    let count = bytes.len().min(piece.len());
    piece[..count].copy_from_slice(&bytes[..count]);
    count
}

impl Held {
    ghost use Rattle.cob_records.specs.Alone.{framed_alone};
    ghost use Rattle.cob_records_parts.specs.Helds.{IsGivenAway, held_bytes, holds_none};

    /// Nothing is held, and there is room for a record of so many bytes.
    ///
    /// # Errors
    ///
    /// Where no memory is left.
    pub(crate) fn new(alloc: Global, greatest: u16) -> Result<Held, AllocError>
        ensures none { IfOk result IsGivenAway }
        ensures room { IfOk result (λ held. length held.body.items ≡ greatest) }
    {
        Ok(Held {
            front: [0; FRONT],
            at: FRONT,
            body: vec![in alloc; 0u8; usize::from(greatest)]?,
            from: 0,
            end: 0,
        })
    }

    /// Whether nothing is held.
    pub(crate) fn is_empty(&self) -> bool
        ensures is { result ≡ holds_none self.now }
        ensures none { IsTrue result → IsGivenAway self.now }
        ensures some { IsFalse result → 0 < length (held_bytes self.now) }
    {
        self.at == FRONT && self.from == self.end
    }

    /// The record in so many bytes of the room is held, as it stands by itself in this form.
    pub(crate) fn hold(&mut self, form: Form, count: usize)
        requires few { count ≤ longest_record }
        requires within { count ≤ length self.old.body.items }
        ensures held { held_bytes self.new ≡ framed_alone form (take count self.old.body.items) }
        ensures room { self.new.body.items ≡ self.old.body.items }
    {
        self.at = put_front(form, count, &mut self.front);
        self.from = 0;
        self.end = count;
    }

    /// Gives the first bytes that are held, as many as the piece has room for or as stand together, and says how many.
    pub(crate) fn give(&mut self, piece: &mut [u8]) -> usize
        ensures count { result ≤ length piece.new }
        ensures gives { held_bytes self.old ≡ take result piece.new ++ held_bytes self.new }
        ensures some { 0 < length (held_bytes self.old) → 0 < length piece.new → 0 < result }
        ensures room { self.new.body.items ≡ self.old.body.items }
    {
        if self.at < FRONT {
            let count = give_some(&self.front[self.at..], piece);
            self.at += count;
            return count;
        }
        let count = give_some(&self.body[self.from..self.end], piece);
        self.from += count;
        count
    }
}

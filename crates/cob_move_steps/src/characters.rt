//! Steps of characters and of constants.

ghost use Rattle.std.specs.Prelude.{◌≡◌, ◌≤◌, length, IfSome, IsSome, IfOk, IsTrue, vec_len, true, false};
ghost use Rattle.cob_copybook_entry.specs.Described.{plain_value};
ghost use Rattle.cob_move_receive.specs.Characters.{padded, padded_left};
ghost use Rattle.cob_move_receive.specs.Sent.{Occupies};
ghost use Rattle.cob_move_steps.specs.Copies.{AreCharactersCarriedOut, IsCharactersStep, IsConstantCarriedOut, IsConstantFound, gives_bytes, stands_right};

use crate::characters_step::CharactersStep;
use crate::constant_step::ConstantStep;
use crate::short::{copy_all, fill_spaces};
use cob_copybook_tree::{Kind, Value, is_number};
use cob_move_receive::{Sent, is_of_characters, receive};
use std::alloc::{AllocError, Global};

/// Whether a sender gives its bytes as characters, and the receiver takes them without insertions.
fn gives_bytes(sender: &Kind, receiver: &Kind) -> bool
    ensures { result ≡ gives_bytes sender.now receiver.now }
{
    match sender {
        Kind::Group => true,
        Kind::Item(from) => match receiver {
            Kind::Group => true,
            Kind::Item(to) => !is_number(from) && is_of_characters(to),
        },
    }
}

/// Whether the characters stand from the right.
fn stands_right(sender: &Kind, receiver: &Kind) -> bool
    ensures { result ≡ stands_right sender.now receiver.now }
{
    match sender {
        Kind::Group => false,
        Kind::Item(_) => match receiver {
            Kind::Group => false,
            Kind::Item(to) => to.justified,
        },
    }
}

/// Writes characters from the left, cut at the right, with spaces behind them.
#[inline(always)]
fn put_left(text: &[u8], to: &mut [u8])
    ensures { to.new ≡ padded (length to.old) text.now }
{
    let count = text.len().min(to.len());
    let (front, tail) = to.split_at_mut(count);
    copy_all(&text[..count], front);
    fill_spaces(tail);
}

/// Writes characters from the right, cut at the left, with spaces before them. Few receivers are JUSTIFIED: so it is a call, and what is inlined where
/// moves are carried out stays short.
#[inline(never)]
fn put_right(text: &[u8], to: &mut [u8])
    ensures { to.new ≡ padded_left (length to.old) text.now }
{
    let count = text.len().min(to.len());
    let (front, tail) = to.split_at_mut(to.len() - count);
    fill_spaces(front);
    copy_all(&text[text.len() - count..], tail);
}

/// Writes characters from the right or from the left.
#[inline(always)]
pub(crate) fn put(text: &[u8], right: bool, to: &mut [u8])
    ensures left { right ≡ false → to.new ≡ padded (length to.old) text.now }
    ensures right { right ≡ true → to.new ≡ padded_left (length to.old) text.now }
{
    if right {
        put_right(text, to);
    } else {
        put_left(text, to);
    }
}

impl CharactersStep {
    /// The step of the move of an entry of so many bytes to another. There is one where the sender gives its bytes as characters, and the
    /// receiver takes them without insertions.
    pub fn prepare(sender: &Kind, sent: usize, receiver: &Kind) -> Option<CharactersStep>
        ensures step { IfSome result (IsCharactersStep sender.now sent receiver.now) }
        ensures must { IsTrue (gives_bytes sender.now receiver.now) → IsSome result }
    {
        if gives_bytes(sender, receiver) {
            let right = stands_right(sender, receiver);
            Some(CharactersStep { sent, right })
        } else {
            None
        }
    }

    /// Moves the characters of the sender that ends bytes into all of a receiver's bytes.
    #[inline(always)]
    pub fn run(&self, from: &[u8], to: &mut [u8])
        requires { self.now.sent ≤ length from.now }
        ensures { AreCharactersCarriedOut self.now from.now (length to.old) to.new }
    {
        put(&from[from.len() - self.sent..], self.right, to);
    }
}

impl ConstantStep {
    /// The step of the move of a constant to a receiver of so many bytes. There is one where the constant is a value that the receiver asks for.
    ///
    /// # Errors
    ///
    /// There is not enough memory.
    pub fn prepare(
        alloc: Global,
        value: &Value,
        receiver: &Kind,
        size: usize,
    ) -> Result<Option<ConstantStep>, AllocError>
        requires { Occupies receiver.now size }
        ensures { IfOk result (IsConstantFound (plain_value value.now) receiver.now size) }
    {
        let mut bytes = vec![in alloc; 0; size]?;
        let given = Sent::Constant(value);
        if receive(&given, receiver, &mut bytes) {
            Ok(Some(ConstantStep { bytes }))
        } else {
            Ok(None)
        }
    }

    /// Writes what the receiver holds of the constant into all its bytes.
    #[inline(always)]
    pub fn run(&self, to: &mut [u8])
        requires { length to.old ≡ vec_len self.now.bytes }
        ensures { IsConstantCarriedOut self.now to.new }
    {
        copy_all(&self.bytes, to);
    }
}

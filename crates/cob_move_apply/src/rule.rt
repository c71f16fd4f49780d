//! Moves carried out by the rule of MOVE itself, where no step was made for them.

ghost use Rattle.std.specs.Prelude.{◌≡◌, false, length};
ghost use Rattle.cob_move_receive.specs.Received.{Received, outcome};
ghost use Rattle.cob_move_receive.specs.Sent.{Entry, Occupies};

use cob_codec::Reading;
use cob_layout::Kind;
use cob_move_receive::{Sent, receive};

/// What the sender and the receiver of a move describe.
#[derive(Clone, Copy)]
pub(crate) struct Kinds<'a> {
    pub(crate) sender: &'a Kind,
    pub(crate) receiver: &'a Kind,
}

/// Moves all bytes of a sender to all of a receiver. False where a value of the sender is missing: the receiver's bytes are as they were then. It isn't inlined, so
/// that what carries out steps stays short.
#[inline(never)]
pub(crate) fn receive_by_rule(
    kinds: &Kinds<'_>,
    reading: Reading,
    from: &[u8],
    to: &mut [u8],
) -> bool
    requires sent { Occupies kinds.now.sender.now (length from.now) }
    requires received { Occupies kinds.now.receiver.now (length to.old) }
    ensures gets { Received (Entry kinds.now.sender.now from.now reading) kinds.now.receiver.now
        (length to.old) (outcome result to.new) }
    ensures same { result ≡ false → to.new ≡ to.old }
{
    let given = Sent::Entry {
        kind: kinds.sender,
        bytes: from,
        reading,
    };
    receive(&given, kinds.receiver, to)
}

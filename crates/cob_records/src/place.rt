ghost use Rattle.std.specs.Prelude.{◌≡◌, ℕ, ◌<◌, ◌≤◌, List, [], ◌∷◌, ◌++◌, length, take, true, IfNone, IfSome};
ghost use Rattle.cob_limits.specs.Limits.{longest_block, longest_record};
ghost use Rattle.cob_records.specs.Forms.{HasBlockSize};
ghost use Rattle.cob_records.specs.Place.{is_place};
ghost use Rattle.cob_records.specs.Progress.{IsAt, IsPast, IsWithin};
ghost use Rattle.cob_records.specs.declared.place.StreamPlace.TheVariants.{Block, Descriptor};

use crate::blocked::described_block;
use crate::records::{DESCRIPTOR, Form, described};

/// Where in a stream of frames the next byte stands.
#[derive(Clone, Copy)]
pub(crate) enum StreamPlace {
    /// In a block descriptor word, behind so many bytes of it.
    Block {
        head: [u8; DESCRIPTOR],
        seen: usize,
    },
    /// In a record descriptor word, behind so many bytes of it. The open block, if there are blocks, holds so many bytes
    /// from this word on.
    Descriptor {
        head: [u8; DESCRIPTOR],
        seen: usize,
        room: usize,
    },
    /// In a record, of which so many bytes are still to come, and so many of the open block behind it.
    Record {
        left: usize,
        room: usize,
    },
    /// Where no frame is looked for: behind a descriptor that is refused, or that does not fit into its block.
    Lost,
}

/// The place before the first byte of a frame, where the open block holds so many bytes.
pub(crate) fn start(form: Form, greatest: u16, room: usize) -> StreamPlace
    requires greatest { 0 < greatest }
    requires room { room ≤ longest_block }
    ensures place { is_place result ≡ true }
    ensures at { IsAt form greatest room result [] }
{
    match form {
        Form::Fixed => StreamPlace::Record {
            left: usize::from(greatest),
            room,
        },
        Form::Variable => StreamPlace::Descriptor {
            head: [0; DESCRIPTOR],
            seen: 0,
            room,
        },
        Form::Blocked(_) if room == 0 => StreamPlace::Block {
            head: [0; DESCRIPTOR],
            seen: 0,
        },
        Form::Blocked(_) if room < DESCRIPTOR => StreamPlace::Lost,
        Form::Blocked(_) => StreamPlace::Descriptor {
            head: [0; DESCRIPTOR],
            seen: 0,
            room,
        },
    }
}

/// The place behind one more byte of a block descriptor word.
pub(crate) fn behind_block(
    form: Form,
    mut head: [u8; DESCRIPTOR],
    seen: usize,
    byte: u8,
    greatest: u16,
) -> StreamPlace
    requires form { HasBlockSize form }
    requires seen { seen < 4 }
    requires head { length head ≡ 4 }
    requires greatest { greatest ≤ longest_record }
    ensures place { is_place result ≡ true }
    ensures at { (left : ℕ) (bytes : List ℕ) → IsAt form greatest left (Block head seen) bytes
        → IsAt form greatest left result (bytes ++ byte ∷ []) }
{
    let Form::Blocked(most) = form else {
        return StreamPlace::Lost;
    };
    head[seen] = byte;
    if seen + 1 < DESCRIPTOR {
        return StreamPlace::Block {
            head,
            seen: seen + 1,
        };
    }
    match described_block(&head, usize::from(most)) {
        Ok(room) => StreamPlace::Descriptor {
            head: [0; DESCRIPTOR],
            seen: 0,
            room,
        },
        Err(_) => StreamPlace::Lost,
    }
}

/// How many bytes the open block holds behind the frame of a record of so many bytes, or `None` where the frame does not
/// end within it. Without blocks each frame has its place.
fn room_behind(form: Form, room: usize, size: usize) -> Option<usize>
    requires { size ≤ longest_record }
    ensures within { IfSome result (IsWithin form size room) }
    ensures most { IfSome result (λ after. after ≤ room) }
    ensures past { IfNone result (IsPast form size room) }
{
    match form {
        Form::Fixed => Some(room),
        Form::Variable => Some(room),
        Form::Blocked(_) => room.checked_sub(DESCRIPTOR + size),
    }
}

/// The place behind one more byte of a record descriptor word.
pub(crate) fn behind(
    form: Form,
    mut head: [u8; DESCRIPTOR],
    seen: usize,
    room: usize,
    byte: u8,
    greatest: u16,
) -> StreamPlace
    requires form { HasBlockSize form }
    requires seen { seen < 4 }
    requires head { length head ≡ 4 }
    requires greatest { greatest ≤ longest_record }
    requires room { room ≤ longest_block }
    ensures place { is_place result ≡ true }
    ensures at { (left : ℕ) (bytes : List ℕ)
        → IsAt form greatest left (Descriptor head seen room) bytes
        → IsAt form greatest left result (bytes ++ byte ∷ []) }
{
    head[seen] = byte;
    if seen + 1 < DESCRIPTOR {
        return StreamPlace::Descriptor {
            head,
            seen: seen + 1,
            room,
        };
    }
    let Ok(left) = described(&head, usize::from(greatest)) else {
        return StreamPlace::Lost;
    };
    match room_behind(form, room, left) {
        Some(room) => StreamPlace::Record { left, room },
        None => StreamPlace::Lost,
    }
}

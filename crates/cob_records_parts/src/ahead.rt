//! How much of what is left of a stream is chosen.

ghost use Rattle.std.specs.Prelude.{◌≡◌, ◌-◌, ◌==◌};
ghost use Rattle.cob_records_parts.specs.Aheads.{ahead_in, chosen_ahead_of, bytes_ahead};

use crate::walk::Walk;
use cob_records::Form;

/// How much of what is left of a stream is chosen.
#[derive(Clone, Copy)]
pub(crate) enum Ahead {
    /// All of it.
    All,
    /// So many bytes of it.
    Bytes(u64),
    /// Records that are given apart.
    Apart,
}

/// How much of a stream so many records of this length are.
fn bytes_ahead(greatest: u16, count: u64) -> Ahead
    ensures { result ≡ bytes_ahead greatest count }
{
    match count.checked_mul(u64::from(greatest)) {
        Some(bytes) => Ahead::Bytes(bytes),
        None => Ahead::Apart,
    }
}

/// How much of a stream in this form is chosen behind the records that are passed over: all, or so many records.
fn ahead_in(form: Form, greatest: u16, is_all: bool, count: u64) -> Ahead
    ensures { result ≡ ahead_in form greatest is_all count }
{
    match (form, is_all) {
        (Form::Fixed | Form::Variable, true) => Ahead::All,
        (Form::Fixed, false) => bytes_ahead(greatest, count),
        (Form::Variable, false) | (Form::Blocked(_), _) => Ahead::Apart,
    }
}

/// How much of what is left of a stream is chosen. Nothing is said where records are still to be passed over.
pub(crate) fn ahead_of(walk: Walk) -> Ahead
    ensures { result ≡ chosen_ahead_of walk }
{
    if walk.number < walk.skip {
        return Ahead::Apart;
    }
    let is_all = walk.last == u64::MAX;
    ahead_in(walk.form, walk.greatest, is_all, walk.last - walk.number)
}

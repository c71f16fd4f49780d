//! How the counts are taken under which a row asks.

ghost use Rattle.std.specs.Prelude.{◌≡◌, length, IfOk};
ghost use Rattle.cob_layout_places.specs.References.{Refers};
ghost use Rattle.cob_layout.specs.Standing.{IsRoomFor};

use crate::refusal::Refusal;
use cob_layout::{Counts, Layout};
use cob_layout_places::Ref;
use cob_test_rows::{Row, RowFault, bytes_of};
use std::alloc::Global;

/// Which counts are taken from a record's bytes.
#[derive(Drop)]
pub(crate) enum Which {
    /// None: all are the greatest ones.
    Greatest,
    /// All counts of the record.
    All,
    /// Those that the reference needs as a sender.
    Sender,
    /// Those that the reference needs as a receiver.
    Receiver,
}

/// The counts under which a row asks: which are taken, and the bytes that they are taken from.
#[derive(Drop)]
pub(crate) struct Counted {
    /// Which are taken.
    pub(crate) which: Which,
    /// The bytes of a record.
    pub(crate) bytes: Vec<u8>,
}

/// The counts of this name.
fn which_of(name: &str) -> Result<Which, RowFault> {
    match name {
        "greatest" => Ok(Which::Greatest),
        "all" => Ok(Which::All),
        "sender" => Ok(Which::Sender),
        "receiver" => Ok(Which::Receiver),
        _ => Err(RowFault::BadRow),
    }
}

/// The counts of a field: `greatest`, or `all`, `sender` or `receiver` before the bytes.
pub(crate) fn counted_of(alloc: Global, row: &Row, place: usize) -> Result<Counted, RowFault> {
    let written = row.field(place)?;
    let (name, digits) = written.split_once(' ').unwrap_or((written, ""));
    let which = which_of(name)?;
    match bytes_of(alloc, digits)? {
        Some(bytes) => Ok(Counted { which, bytes }),
        None => Err(RowFault::BadRow),
    }
}

/// The same reference where it is a legal one.
pub(crate) fn legal(layout: &Layout, reference: &Ref) -> Result<Ref, RowFault>
    ensures { IfOk result (λ r. Refers r.node r.subscripts.items layout.now) }
{
    match layout.reference(reference.node, reference.subscripts.as_slice()) {
        Some(legal) => Ok(legal),
        None => Err(RowFault::BadRow),
    }
}

/// Takes the counts that a reference needs, as a receiver or as a sender.
fn take_needed(
    layout: &Layout,
    reference: Option<&Ref>,
    receiving: bool,
    bytes: &[u8],
    counts: &mut Counts,
) -> Result<(), Refusal>
    requires room { IsRoomFor layout.now counts.old }
    ensures room { IsRoomFor layout.now counts.new }
{
    let Some(reference) = reference else {
        return Err(Refusal::Row(RowFault::BadRow));
    };
    let legal = legal(layout, reference)?;
    Ok(layout.needed(&legal, receiving, bytes, counts)?)
}

/// Takes counts of a record. Where no reference needs them, these are all or none.
pub(crate) fn take(
    layout: &Layout,
    reference: Option<&Ref>,
    counted: &Counted,
    counts: &mut Counts,
) -> Result<(), Refusal>
    requires room { IsRoomFor layout.now counts.old }
    ensures room { IsRoomFor layout.now counts.new }
{
    let bytes = counted.bytes.as_slice();
    match counted.which {
        Which::Greatest => Ok(()),
        Which::All => Ok(layout.counts_of(bytes, counts)?),
        Which::Sender => take_needed(layout, reference, false, bytes, counts),
        Which::Receiver => take_needed(layout, reference, true, bytes, counts),
    }
}

/// The counts of a record that are taken so.
pub(crate) fn counts_for(
    alloc: Global,
    layout: &Layout,
    reference: Option<&Ref>,
    counted: &Counted,
) -> Result<Counts, Refusal>
    ensures room { IfOk result (IsRoomFor layout.now) }
{
    let mut counts = layout.new_counts(alloc)?;
    take(layout, reference, counted, &mut counts)?;
    Ok(counts)
}

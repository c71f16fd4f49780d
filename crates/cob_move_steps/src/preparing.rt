//! Steps made ready.

ghost use Rattle.std.specs.Prelude.{◌≡◌, ◌-ℤ◌, ◌≤◌, IfSome, IsSome};
ghost use Rattle.cob_picture.specs.Counts.{digits, scale};
ghost use Rattle.cob_copybook_tree.specs.Items.{storage_kind};
ghost use Rattle.cob_move_steps.specs.Steps.{kind_by_lanes, IsItemReader, IsLaneItem, IsNumberStep, IsReaderFor, IsWindowItem, IsWriterFor};

use crate::step::NumberStep;
use crate::storage::{LaneStorage, lane_storage, window_storage};
use cob_codec_lanes::{LaneReader, LaneWriter, Wanted};
use cob_copybook_tree::Item;

/// The digits of a sender's number that a receiver has places for.
pub(crate) fn wanted_of(sender: &Item, receiver: &Item) -> Wanted
    requires { digits receiver.now.picture.positions ≤ 16 }
    ensures digits { result.digits ≡ digits receiver.now.picture.positions }
    ensures shift { result.shift
        ≡ scale receiver.now.picture.positions -ℤ scale sender.now.picture.positions }
{
    let shift = receiver.picture.scale() - sender.picture.scale();
    let digits = receiver.picture.digits();
    Wanted { digits, shift }
}

/// What reads the number of a sender of this kind of storage, and keeps the digits that are wanted.
pub(crate) fn item_reader(sender: &Item, storage: LaneStorage, wanted: Wanted) -> LaneReader
    requires sender { IsWindowItem sender.now }
    requires kind { storage_kind sender.now ≡ kind_by_lanes storage }
    ensures { IsItemReader sender.now wanted.digits wanted.shift result }
{
    let shape = sender.shape();
    match storage {
        LaneStorage::Zoned => LaneReader::zoned(&shape, wanted),
        LaneStorage::Separate => LaneReader::separate(&shape, wanted),
        LaneStorage::Packed => LaneReader::packed(&shape, wanted),
    }
}

/// What reads the number of a sender of this kind of storage for a receiver.
pub(crate) fn reader_for(sender: &Item, storage: LaneStorage, receiver: &Item) -> LaneReader
    requires sender { IsWindowItem sender.now }
    requires kind { storage_kind sender.now ≡ kind_by_lanes storage }
    requires few { digits receiver.now.picture.positions ≤ 16 }
    ensures { IsReaderFor sender.now receiver.now result }
{
    item_reader(sender, storage, wanted_of(sender, receiver))
}

/// What writes the number of a receiver of this kind of storage.
pub(crate) fn writer_for(receiver: &Item, storage: LaneStorage) -> LaneWriter
    requires receiver { IsLaneItem receiver.now }
    requires kind { storage_kind receiver.now ≡ kind_by_lanes storage }
    ensures { IsWriterFor receiver.now result }
{
    let shape = receiver.shape();
    match storage {
        LaneStorage::Zoned => LaneWriter::zoned(&shape),
        LaneStorage::Separate => LaneWriter::separate(&shape),
        LaneStorage::Packed => LaneWriter::packed(&shape),
    }
}

impl NumberStep {
    /// The step of the move of one item to another. There is one where both are numbers of at most sixteen digits and bytes, which
    /// lanes read and write.
    pub fn prepare(sender: &Item, receiver: &Item) -> Option<NumberStep>
        ensures step { IfSome result (IsNumberStep sender.now receiver.now) }
        ensures must { IsLaneItem sender.now → IsLaneItem receiver.now → IsSome result }
    {
        let sent = window_storage(sender)?;
        let received = lane_storage(receiver)?;
        let reader = reader_for(sender, sent, receiver);
        let writer = writer_for(receiver, received);
        Some(NumberStep { reader, writer })
    }
}

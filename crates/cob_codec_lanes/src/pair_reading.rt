//! Items of at most sixteen bytes, read as numbers in two vectors.

ghost use Rattle.std.specs.Prelude.{◌≡◌, ◌+◌, ◌/◌, ◌<◌, ◌≤◌, pos, negsuc};
ghost use Rattle.cob_codec.specs.Packed.{IsPacked};
ghost use Rattle.cob_codec.specs.Separate.{IsSignedSeparately};
ghost use Rattle.cob_codec.specs.Zoned.{IsZoned};
ghost use Rattle.cob_codec_lanes.specs.Pairs.{IsPairRead, IsPairReaderOf};
ghost use Rattle.cob_codec_lanes.specs.Readers.{AreNumeralsOf};

use crate::pair_reader::PairReader;
use crate::reader::LaneReader;
use crate::wanted::Wanted;
use crate::wide_read::WideRead;
use cob_codec::Shape;

/// The last sixteen digits of a number.
fn last_digits() -> Wanted
    ensures digits { result.digits ≡ 16 }
    ensures shift { result.shift ≡ pos 0 }
{
    Wanted {
        digits: 16,
        shift: 0,
    }
}

/// Those in front of them.
fn front_digits() -> Wanted
    ensures digits { result.digits ≡ 16 }
    ensures shift { result.shift ≡ negsuc 15 }
{
    Wanted {
        digits: 16,
        shift: -16,
    }
}

impl PairReader {
    /// What reads zoned items of a shape of at most 16 digits.
    pub fn zoned(shape: &Shape) -> PairReader
        requires { shape.now.digits ≤ 16 }
        ensures { IsPairReaderOf
            (IsZoned shape.now.digits shape.now.signed shape.now.leading) shape.now.digits result }
    {
        PairReader {
            front: LaneReader::zoned(shape, front_digits()),
            back: LaneReader::zoned(shape, last_digits()),
        }
    }

    /// What reads items of a shape of at most 15 digits with a separate sign.
    pub fn separate(shape: &Shape) -> PairReader
        requires { shape.now.digits ≤ 15 }
        ensures { IsPairReaderOf (IsSignedSeparately shape.now.digits shape.now.leading)
            (shape.now.digits + 1) result }
    {
        PairReader {
            front: LaneReader::separate(shape, front_digits()),
            back: LaneReader::separate(shape, last_digits()),
        }
    }

    /// What reads packed items of a shape.
    pub fn packed(shape: &Shape) -> PairReader
        ensures { IsPairReaderOf (IsPacked shape.now.digits shape.now.signed)
            (shape.now.digits / 2 + 1) result }
    {
        PairReader {
            front: LaneReader::packed(shape, front_digits()),
            back: LaneReader::packed(shape, last_digits()),
        }
    }

    /// What reads items of so many characters, each a digit, as whole numbers that aren't negative.
    pub fn numerals(count: u8) -> PairReader
        requires some { 0 < count }
        requires most { count ≤ 16 }
        ensures { IsPairReaderOf (AreNumeralsOf count) count result }
    {
        PairReader {
            front: LaneReader::numerals(count, front_digits()),
            back: LaneReader::numerals(count, last_digits()),
        }
    }

    /// The number of the item at the end of bytes, and of as many before it as there are.
    #[inline(always)]
    pub fn read(&self, bytes: &[u8]) -> WideRead
        ensures { IsPairRead self.now bytes.now
            result.is_number result.minus result.front result.back }
    {
        let back = self.back.read(bytes);
        WideRead {
            is_number: back.is_number,
            minus: back.minus,
            front: self.front.take(bytes),
            back: back.digits,
        }
    }
}

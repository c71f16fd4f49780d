//! Numbers of edited items of any number of digits, read.

ghost use Rattle.std.specs.Prelude.{◌≡◌, ◌<◌, ◌≤◌, ◌↔◌, ◌-◌, true, List, ℕ, IsTrue, IsFalse, count_by, length, slice_index, pos, IfOk, IfSome, IsSome};
ghost use Rattle.cob_codec_lanes.specs.LongPlaces.{all_long_lanes, padded_long_text};
ghost use Rattle.cob_codec_lanes.specs.LongTexts.{AreLonglyShown};
ghost use Rattle.cob_codec_lanes.specs.Texts.{IsKeeperOf};
ghost use Rattle.cob_codec_lanes.specs.Windows.{last_bytes};
ghost use Rattle.cob_edit.specs.Pictured.{places};
ghost use Rattle.cob_edit.specs.Places.{bytes_of, is_digit};
ghost use Rattle.cob_move_steps.specs.Ends.{item_digits};
ghost use Rattle.cob_move_steps.specs.LongDigits.{last_count};
ghost use Rattle.cob_move_steps.specs.LongReads.{ArePairPlacesAt, IsLongTextRead, IsLongTextReaderFor, bytes_of_digits};
ghost use Rattle.cob_move_steps.specs.LongTexts.{IsLongEditedItem};
ghost use Rattle.cob_move_steps.specs.Texts.{digit_bytes_from};

use crate::long_text_reader::{LongTextReader, PairPlaces};
use crate::long_texts::{front_count, is_long_edited_item, long_texts_for, zeros_of_both};
use cob_codec_lanes::{KeptDigits, LongPlaces, LongText, LongTextLanes, Wanted, WideRead};
use cob_copybook_tree::Item;
use cob_edit::{EditedPlace, places_of};
use std::alloc::{AllocError, Global};
use std::simd::prelude::*;

/// Where digits are looked for at these bytes, of which so many are those in front of the last sixteen.
fn pair_at(bytes: &[u8], lead: usize) -> PairPlaces
    requires lead { lead ≡ length bytes.now - 16 }
    requires few { length bytes.now ≤ 31 }
    requires within { (k : ℕ) → k < length bytes.now → slice_index bytes.now k < 48 }
    ensures { ArePairPlacesAt (length bytes.now) bytes.now result }
{
    let (front, back) = bytes.split_at(lead);
    PairPlaces {
        front: LongPlaces::at(front),
        back: LongPlaces::at(back),
    }
}

/// Where the digits of these places, of which so many stand in front of the last sixteen, stand in a text.
fn pair_places(places: &[EditedPlace], lead: usize) -> PairPlaces
    requires lead { lead ≡ count_by is_digit places.now - 16 }
    requires few { count_by is_digit places.now ≤ 31 }
    requires fits { bytes_of places.now ≤ 48 }
    ensures { ArePairPlacesAt (count_by is_digit places.now) (digit_bytes_from 0 places.now)
        result }
{
    let mut bytes = [0u8; 32];
    let mut count = 0;
    let mut byte = 0u8;
    for place in places {
        if place.is_digit() {
            bytes[count] = byte;
            count += 1;
        }
        if place.has_byte() {
            byte += 1;
        }
    }
    pair_at(&bytes[..count], lead)
}

/// Where the digits of an item stand in its text.
fn digit_pair_places(item: &Item) -> PairPlaces
    requires { IsLongEditedItem item.now }
    ensures { ArePairPlacesAt (item_digits item.now) (bytes_of_digits item.now) result }
{
    let places = places_of(&item.picture);
    let lead = usize::from(front_count(item.picture.digits()));
    pair_places(places.as_slice(), lead)
}

/// What moves so many first digits to the end of sixteen lanes, behind zeros.
fn moved_behind(count: u8) -> KeptDigits
    requires { count ≤ 16 }
    ensures { IsKeeperOf count 16 (pos 0) result }
{
    KeptDigits::of(
        count,
        Wanted {
            digits: 16,
            shift: 0,
        },
    )
}

/// How many of so many digits are the last sixteen.
pub(crate) fn last_count(count: u8) -> u8
    ensures { result ≡ last_count count }
{
    if count < 16 { count } else { 16 }
}

/// What reads the number of a sender, if it is edited, and three vectors of lanes hold its texts.
///
/// # Errors
///
/// There is not enough memory.
pub(crate) fn long_text_reader(
    alloc: Global,
    sender: &Item,
) -> Result<Option<LongTextReader>, AllocError>
    ensures reader { IfOk result (λ reader. IfSome reader (IsLongTextReaderFor sender.now)) }
    ensures must { IsLongEditedItem sender.now → IfOk result IsSome }
{
    if !is_long_edited_item(sender) {
        return Ok(None);
    }
    let texts = long_texts_for(alloc, sender)?;
    let digits = sender.picture.digits();
    Ok(Some(LongTextReader {
        size: usize::from(sender.size()),
        digits,
        places: digit_pair_places(sender),
        front: moved_behind(front_count(digits)),
        back: moved_behind(last_count(digits)),
        texts,
    }))
}

/// The text of so many bytes at the end of bytes.
#[inline(always)]
fn last_long_text(bytes: &[u8], size: usize) -> LongTextLanes
    requires within { size ≤ length bytes.now }
    requires fits { size ≤ 48 }
    ensures { all_long_lanes result ≡ padded_long_text (last_bytes size bytes.now) }
{
    LongTextLanes::of(&bytes[bytes.len() - size..])
}

/// Whether a text is that of digits: with a minus, if it isn't the one without.
#[inline(always)]
fn is_either(own: &LongText, front: u8x16, back: u8x16, plus: bool, text: &LongTextLanes) -> bool
    ensures plus { IsTrue plus → IsTrue result }
    ensures minus { IsFalse plus → (bytes : List ℕ) × AreLonglyShown own.now true front back bytes
        × (IsTrue result ↔ (bytes ≡ all_long_lanes text.now)) }
{
    plus || own.is(front, back, true, text)
}

impl LongTextReader {
    /// The number of the edited item at the end of bytes, and none where there are fewer.
    #[inline(always)]
    pub(crate) fn read(&self, bytes: &[u8]) -> WideRead
        ensures { IsLongTextRead self.now bytes.now
            result.is_number result.minus result.front result.back }
    {
        if bytes.len() < self.size {
            return WideRead {
                is_number: false,
                minus: false,
                front: u8x16::splat(0),
                back: u8x16::splat(0),
            };
        }
        let text = last_long_text(bytes, self.size);
        let front = self.places.front.digits(&text);
        let back = self.places.back.digits(&text);
        let own = &self.texts[zeros_of_both(front, back, self.digits)];
        let plus = own.is(front, back, false, &text);
        WideRead {
            is_number: is_either(own, front, back, plus, &text),
            minus: !plus,
            front: self.front.keep(front),
            back: self.back.keep(back),
        }
    }
}

//! Numbers and characters put into edited items, and numbers read out of them.

ghost use Rattle.std.specs.Prelude.{◌≡◌, length, IsTrue, IfSome, Bool, ℕ, List};
ghost use Rattle.cob_picture.specs.Positions.{shows_number};
ghost use Rattle.cob_picture.specs.Counts.{size};
ghost use Rattle.cob_edit.specs.Deedited.{IsNumberOf, ReadsNumber};
ghost use Rattle.cob_edit.specs.Pictured.{IsEdited};

use crate::positions::places_of;
use crate::reading::read_text;
use crate::region::shows_sign;
use crate::text::write_text;
use cob_decimal::Number;
use cob_picture::Picture;

/// Writes the text that a picture of a number gives the number, as a MOVE to a numeric edited item does.
///
/// The number is first aligned to the digits and the scale of the picture. `blank` says BLANK WHEN ZERO: then the value 0 is all
/// spaces. `out` has the size of the picture. (ANSI X3.23-1985, Nucleus: PICTURE clause, editing rules; BLANK WHEN ZERO clause.)
pub fn edit(picture: &Picture, blank: bool, number: &Number, out: &mut [u8])
    requires shows { IsTrue (shows_number picture.now.category) }
    requires room { length out.old ≡ size picture.now.positions }
    ensures text { IsEdited
        picture.now blank number.now.negative number.now.digits number.now.scale out.new }
{
    let places = places_of(picture);
    let places = places.as_slice();
    let kept = number.align(picture.digits(), picture.scale(), shows_sign(places));
    write_text(
        places,
        blank,
        kept.negative(),
        kept.digits().as_slice(),
        out,
    );
}

/// The number whose text the bytes are, and `None` where they are no number's text.
///
/// It has the digits and the scale of the picture, and is negative only where the picture shows a sign. `blank` says BLANK WHEN ZERO,
/// and `bytes` has the size of the picture.
pub fn deedit(picture: &Picture, blank: bool, bytes: &[u8]) -> Option<Number>
    requires shows { IsTrue (shows_number picture.now.category) }
    requires room { length bytes.now ≡ size picture.now.positions }
    // What is read is in range, and the bytes are its text.
    ensures found { IfSome result (IsNumberOf picture.now blank bytes.now) }
    // Every number in range is read from its text.
    ensures only { ReadsNumber picture.now blank bytes.now result }
{
    let places = places_of(picture);
    match read_text(places.as_slice(), blank, bytes) {
        Some((negative, digits)) => Some(Number::new(negative, digits, picture.scale())),
        None => None,
    }
}

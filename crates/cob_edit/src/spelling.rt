//! Characters put into edited items.

ghost use Rattle.std.specs.Prelude.{◌≡◌, ◌≤◌, length, slice_index_or};
ghost use Rattle.cob_cp037.specs.Named.{space_byte};
ghost use Rattle.cob_picture.specs.declared.category.Category.TheVariants.{AlphanumericEdited};
ghost use Rattle.cob_picture.specs.Counts.{size};
ghost use Rattle.cob_edit.specs.Characters.{characters_from, HasCharacters};

use crate::positions::insertion_byte;
use cob_cp037::SPACE;
use cob_picture::{Picture, Position};

/// The byte of this number, and a space past the last.
fn byte_in(bytes: &[u8], at: usize) -> u8
    ensures { result ≡ slice_index_or bytes.now at space_byte }
{
    if at < bytes.len() { bytes[at] } else { SPACE }
}

/// Writes the characters of a sender, and the insertions, at positions that have a byte each.
fn spell(positions: &[Position], sender: &[u8], out: &mut [u8])
    requires room { length out.old ≡ length positions.now }
    ensures { out.new ≡ characters_from positions.now sender.now }
{
    let mut next: usize = 0;
    for (at, position) in positions.iter().enumerate() {
        if position.role.is_character() {
            out[at] = byte_in(sender, next);
            next += 1;
        } else {
            out[at] = insertion_byte(position.symbol);
        }
    }
}

/// Writes the characters of a sender as an alphanumeric edited picture gives them, as a MOVE to such an item does.
///
/// The sender's bytes fill the character places from the left, with spaces for want; insertions print themselves. `out` has the size of
/// the picture. (ANSI X3.23-1985, Nucleus: PICTURE clause, simple insertion editing; MOVE statement.)
pub fn edit_text(picture: &Picture, sender: &[u8], out: &mut [u8])
    requires edited { picture.now.category ≡ AlphanumericEdited }
    requires room { length out.old ≡ size picture.now.positions }
    ensures text { HasCharacters picture.now.positions sender.now out.new }
{
    spell(picture.positions().as_slice(), sender, out);
}

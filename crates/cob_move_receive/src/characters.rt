//! Characters put into receivers.

ghost use Rattle.std.specs.Prelude.{◌≡◌, length};
ghost use Rattle.cob_copybook_tree.specs.Lengths.{item_size};
ghost use Rattle.cob_copybook_tree.specs.Items.{IsStorable};
ghost use Rattle.cob_move_receive.specs.Characters.{Arranged, padded, padded_left, placement_in};

use cob_copybook_tree::Item;
use cob_cp037::SPACE;
use cob_edit::edit_text;
use cob_picture::Category;

/// Writes characters from the left, cut at the right, with spaces behind them.
pub(crate) fn put_left(text: &[u8], bytes: &mut [u8])
    ensures { bytes.new ≡ padded (length bytes.old) text.now }
{
    let count = text.len().min(bytes.len());
    let (front, tail) = bytes.split_at_mut(count);
    front.copy_from_slice(&text[..count]);
    tail.fill(SPACE);
}

/// Writes characters from the right, cut at the left, with spaces before them.
fn put_right(text: &[u8], bytes: &mut [u8])
    ensures { bytes.new ≡ padded_left (length bytes.old) text.now }
{
    let count = text.len().min(bytes.len());
    let (front, tail) = bytes.split_at_mut(bytes.len() - count);
    front.fill(SPACE);
    tail.copy_from_slice(&text[text.len() - count..]);
}

/// Writes characters as they stand in an item: from the left, from the right under JUSTIFIED, or between the insertions of its picture.
/// (ANSI X3.23-1985, Nucleus: the MOVE statement; the JUSTIFIED clause; Language Concepts: standard alignment rules.)
pub(crate) fn put(item: &Item, text: &[u8], bytes: &mut [u8])
    requires storable { IsStorable item.now }
    requires long { length bytes.old ≡ item_size item.now }
    ensures { Arranged (placement_in item.now) (length bytes.old) text.now bytes.new }
{
    match item.picture.category() {
        Category::AlphanumericEdited => edit_text(&item.picture, text, bytes),
        Category::Alphabetic
        | Category::Alphanumeric
        | Category::Numeric
        | Category::NumericEdited => {
            if item.justified {
                put_right(text, bytes);
            } else {
                put_left(text, bytes);
            }
        }
    }
}

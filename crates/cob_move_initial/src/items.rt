//! Items, and groups with a VALUE.

ghost use Rattle.std.specs.Prelude.{◌≡◌, length, option_map, true, IfSome, Some};
ghost use Rattle.cob_picture.specs.Positions.{shows_number};
ghost use Rattle.cob_copybook_entry.specs.Described.{plain_value};
ghost use Rattle.cob_copybook_tree.specs.Lengths.{item_size};
ghost use Rattle.cob_copybook_tree.specs.declared.node.Kind.TheVariants.{Item as ItemKind};
ghost use Rattle.cob_copybook_rules.specs.Values.{IsItemValue, IsNumericValue};
ghost use Rattle.cob_copybook_tree.specs.Resolving.{is_number};
ghost use Rattle.cob_copybook_tree.specs.Items.{IsStorable};
ghost use Rattle.cob_move_receive.specs.Sent.{Amount, Literal};
ghost use Rattle.cob_move_receive.specs.Numbers.{ConstantGives};
ghost use Rattle.cob_move_receive.specs.Received.{Received};
ghost use Rattle.cob_move_initial.specs.Values.{figurative_for, HoldsGroup, HoldsItem};

use cob_layout::{Figurative, Item, Value, is_number};
use cob_move_receive::{Sent, receive_in_group, receive_in_item};

/// Moves a constant to an item: a number to one that shows numbers.
fn move_constant(value: &Value, item: &Item, bytes: &mut [u8])
    requires number { shows_number item.now.picture.category ≡ true
        → (v : Amount) × ConstantGives (plain_value value.now) v }
    requires storable { IsStorable item.now }
    requires long { length bytes.old ≡ item_size item.now }
    ensures { Received (Literal (plain_value value.now)) (ItemKind item.now) (item_size item.now)
        (Some bytes.new) }
{
    receive_in_item(&Sent::Constant(value), item, bytes);
}

/// Writes the constant of an item that is a number.
fn write_number(item: &Item, value: &Value, bytes: &mut [u8])
    requires fits { IsNumericValue item.now.picture (plain_value value.now) }
    requires storable { IsStorable item.now }
    requires long { length bytes.old ≡ item_size item.now }
    ensures { Received (Literal (plain_value value.now)) (ItemKind item.now) (item_size item.now)
        (Some bytes.new) }
{
    move_constant(value, item, bytes);
}

/// The figurative constant that an item without VALUE receives.
fn figurative_for(item: &Item) -> Figurative
    ensures { result ≡ figurative_for item.now }
{
    if item.picture.category().shows_number() {
        Figurative::Zero
    } else {
        Figurative::Space
    }
}

/// Writes what an item without VALUE holds: what MOVE ZERO leaves in a number or an edited number, and MOVE SPACE in another item.
fn clear(item: &Item, bytes: &mut [u8])
    requires storable { IsStorable item.now }
    requires long { length bytes.old ≡ item_size item.now }
    ensures { HoldsItem item.now None bytes.new }
{
    move_constant(&Value::Figurative(figurative_for(item)), item, bytes);
}

/// Writes what one occurrence of an item holds before the first move.
///
/// That is the constant of its VALUE clause: aligned by the point in a number, and as it is written in another item, with no editing and no
/// justification. Without the clause it is what MOVE ZERO leaves in a number or an edited number, and MOVE SPACE in another item. (ANSI
/// X3.23-1985, Nucleus: the VALUE clause.)
pub fn write_item(item: &Item, value: &Option<Value>, bytes: &mut [u8])
    requires storable { IsStorable item.now }
    requires fits { IfSome (option_map plain_value value.now)
        (IsItemValue (is_number item.now) item.now (item_size item.now)) }
    requires long { length bytes.old ≡ item_size item.now }
    ensures holds { HoldsItem item.now (option_map plain_value value.now) bytes.new }
{
    match value {
        None => clear(item, bytes),
        Some(value) if is_number(item) => write_number(item, value, bytes),
        Some(value) => write_group(value, bytes),
    }
}

/// Writes what a group with a VALUE holds before the first move: its characters from the left, with spaces behind them, and a figurative
/// constant, or ALL and a literal, repeated to the last byte. (ANSI X3.23-1985, Nucleus: the VALUE clause; Language Concepts: figurative
/// constants.)
pub fn write_group(value: &Value, bytes: &mut [u8])
    ensures holds { HoldsGroup (length bytes.old) (plain_value value.now) bytes.new }
{
    receive_in_group(&Sent::Constant(value), bytes);
}

//! The table of categories: which sender may be moved to which receiver.

ghost use Rattle.std.specs.Prelude.{◌≡◌};
ghost use Rattle.cob_copybook_entry.specs.Described.{plain_value};
ghost use Rattle.cob_move_receive.specs.Table.{category_with, constant_receivers, entry_may_move, figure_receivers, has_fraction, has_receiver, item_receivers, may_move, receivers_if, receivers_under, sender_kind};

use cob_copybook_tree::{Figurative, Item, Kind, Value};
use cob_picture::Category;

/// What is known of a sender before a record comes.
#[derive(Clone, Copy)]
pub enum SenderKind<'a> {
    /// An entry: a group or an item.
    Entry(&'a Kind),
    /// A literal, or a figurative constant.
    Constant(&'a Value),
}

/// A line of the table: whether a sender may be moved to items of these categories.
#[derive(Clone, Copy, PartialEq, Eq)]
pub(crate) struct Receivers {
    alphabetic: bool,
    /// Alphanumeric, edited or not.
    alphanumeric: bool,
    /// Numeric, edited or not.
    numeric: bool,
}

/// A line of the table.
fn receivers_if(alphabetic: bool, alphanumeric: bool, numeric: bool) -> Receivers
    ensures { result ≡ receivers_if alphabetic alphanumeric numeric }
{
    Receivers {
        alphabetic,
        alphanumeric,
        numeric,
    }
}

/// The line of a sender of a category. (ANSI X3.23-1985, Nucleus: the MOVE statement, the table of legal moves.)
fn receivers_under(category: Category, fraction: bool) -> Receivers
    ensures { result ≡ receivers_under category fraction }
{
    match category {
        Category::Alphabetic | Category::AlphanumericEdited => receivers_if(true, true, false),
        Category::Alphanumeric => receivers_if(true, true, true),
        Category::Numeric if fraction => receivers_if(false, false, true),
        Category::Numeric | Category::NumericEdited => receivers_if(false, true, true),
    }
}

/// Whether a number has places behind the point.
pub(crate) fn has_fraction(scale: i8) -> bool
    ensures { result ≡ has_fraction scale }
{
    scale > 0
}

/// The category of an item: BLANK WHEN ZERO makes a numeric one numeric edited.
fn category_with(category: Category, blank: bool) -> Category
    ensures { result ≡ category_with category blank }
{
    match category {
        Category::Numeric if blank => Category::NumericEdited,
        other => other,
    }
}

/// The line of an item.
fn item_receivers(item: &Item) -> Receivers
    ensures { result ≡ item_receivers item.now }
{
    receivers_under(
        category_with(item.picture.category(), item.blank),
        has_fraction(item.picture.scale()),
    )
}

/// The line of a figurative constant.
fn figure_receivers(figurative: Figurative) -> Receivers
    ensures { result ≡ figure_receivers figurative }
{
    match figurative {
        Figurative::Zero => receivers_if(false, true, true),
        Figurative::Space | Figurative::HighValue | Figurative::LowValue | Figurative::Quote =>
            receivers_if(true, true, false),
    }
}

/// The line of a constant.
fn constant_receivers(value: &Value) -> Receivers
    ensures { result ≡ constant_receivers (plain_value value.now) }
{
    match value {
        Value::Number { number, .. } => receivers_under(
            Category::Numeric,
            has_fraction(number.scale()),
        ),
        Value::Literal(_) => receivers_under(Category::Alphanumeric, false),
        Value::Figurative(figurative) => figure_receivers(*figurative),
        Value::All(_) => receivers_if(true, true, false),
    }
}

/// Whether a line has the category of a receiver.
fn has_receiver(line: Receivers, category: Category) -> bool
    ensures { result ≡ has_receiver line category }
{
    match category {
        Category::Alphabetic => line.alphabetic,
        Category::Alphanumeric | Category::AlphanumericEdited => line.alphanumeric,
        Category::Numeric | Category::NumericEdited => line.numeric,
    }
}

/// Whether an entry may be moved to an item of a category.
fn entry_may_move(kind: &Kind, category: Category) -> bool
    ensures { result ≡ entry_may_move kind.now category }
{
    match kind {
        Kind::Group => true,
        Kind::Item(item) => has_receiver(item_receivers(item), category),
    }
}

/// Whether a sender may be moved to a receiver: where a group is on either side, and else where the table of categories says so.
pub fn may_move(from: &SenderKind<'_>, to: &Kind) -> bool
    ensures allowed { result ≡ may_move (sender_kind from.now) to.now }
{
    let Kind::Item(receiver) = to else {
        return true;
    };
    let category = receiver.picture.category();
    match from {
        SenderKind::Constant(value) => has_receiver(constant_receivers(value), category),
        SenderKind::Entry(kind) => entry_may_move(kind, category),
    }
}

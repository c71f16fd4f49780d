ghost use Rattle.std.specs.Prelude.{◌≡◌, ℕ, ◌+◌, ◌*◌, ◌<◌, ◌≤◌, ◌++◌, length, IfSome, Some};
ghost use Rattle.cob_picture.specs.Positions.{symbol_count, written_out, shows_number, is_edited};
ghost use Rattle.cob_picture.specs.Runs.{ArePositive};
ghost use Rattle.cob_picture.specs.Categories.{IsOf};
ghost use Rattle.cob_picture.specs.declared.category.Category.{Category};

use crate::edited::is_numeric_edited;
use crate::numeric::numeric;
use crate::symbol::{Run, Symbol};

/// What kind of item a picture describes.
#[derive(Clone, Copy, Debug, PartialEq, Eq)]
pub enum Category {
    /// Letters: A alone.
    Alphabetic,
    /// A number in digits, packed or binary.
    Numeric,
    /// Any characters.
    Alphanumeric,
    /// Characters with insertions between.
    AlphanumericEdited,
    /// A number as it prints.
    NumericEdited,
}

impl Category {
    /// Whether its pictures show a number.
    pub fn shows_number(self) -> bool
        ensures { result ≡ shows_number self }
    {
        matches!(self, Category::Numeric | Category::NumericEdited)
    }

    /// Whether its pictures are edited.
    pub fn is_edited(self) -> bool
        ensures { result ≡ is_edited self }
    {
        matches!(self, Category::AlphanumericEdited | Category::NumericEdited)
    }
}

/// How often the symbol stands there.
pub(crate) fn count_of(runs: &[Run], symbol: Symbol) -> u32
    requires { length runs.now ≤ 50 }
    ensures value { result ≡ symbol_count symbol (written_out runs.now) }
    ensures bound { result ≤ 65535 * 50 }
{
    let mut count: u32 = 0;
    for run in runs {
        if run.symbol == symbol {
            count += u32::from(run.count);
        }
    }
    count
}

/// How many positions there are.
pub(crate) fn total(runs: &[Run]) -> u32
    requires { length runs.now ≤ 50 }
    ensures value { result ≡ length (written_out runs.now) }
    ensures bound { result ≤ 65535 * 50 }
{
    let mut count: u32 = 0;
    for run in runs {
        count += u32::from(run.count);
    }
    count
}

/// The category of the runs.
pub(crate) fn category_of(runs: &[Run]) -> Option<Category>
    requires short { length runs.now ≤ 50 }
    requires positive { ArePositive runs.now }
    ensures found { IfSome result (λ c. IsOf c (written_out runs.now)) }
    ensures only { (c : Category) → IsOf c (written_out runs.now) → result ≡ Some c }
{
    if numeric(runs).is_some() {
        return Some(Category::Numeric);
    }
    let all = total(runs);
    let letters = count_of(runs, Symbol::A);
    let digits = count_of(runs, Symbol::Nine);
    let characters = letters + count_of(runs, Symbol::X);
    if all > 0 && letters == all {
        return Some(Category::Alphabetic);
    }
    if characters + digits == all && letters < all && digits < all {
        return Some(Category::Alphanumeric);
    }
    let insertions = count_of(runs, Symbol::B)
        + count_of(runs, Symbol::Zero)
        + count_of(runs, Symbol::Slash);
    if characters + digits + insertions == all && characters > 0 && insertions > 0 {
        return Some(Category::AlphanumericEdited);
    }
    if is_numeric_edited(runs) {
        return Some(Category::NumericEdited);
    }
    None
}

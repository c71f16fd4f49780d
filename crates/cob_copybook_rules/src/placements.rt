ghost use Rattle.std.specs.Prelude.{◌≡◌, Option, unwrap_or, IsTrue};
ghost use Rattle.std.specs.Option.{IsNone};
ghost use Rattle.std.specs.List.{list_any};
ghost use Rattle.cob_picture.specs.Positions.{is};
ghost use Rattle.cob_copybook_tree.specs.Branches.{forest_of};
ghost use Rattle.cob_copybook_rules.specs.Placements.{TakesCharacters, MayBeJustified, CanBeBlank, MayBeBlank, ArePlaced};

use crate::usages::inherited;
use cob_copybook_tree::{Branch, Usage};
use cob_picture::{Category, Picture, Run, Symbol};

/// Whether one of the runs is of the symbol.
fn stands_in(symbol: Symbol, runs: &[Run]) -> bool
    ensures { result ≡ list_any (λ r. is symbol r.symbol) runs.now }
{
    runs.iter().any(|run| run.symbol == symbol)
}

/// Whether the symbol stands in the picture.
fn has(picture: &Picture, symbol: Symbol) -> bool
    ensures { result ≡ list_any (λ p. is symbol p.symbol) picture.now.positions }
{
    stands_in(symbol, picture.runs())
}

/// Whether an entry with the picture, or without one, may be JUSTIFIED, if it is.
fn may_be_justified(justified: bool, picture: &Option<Picture>) -> bool
    ensures yes { IsTrue result → MayBeJustified justified picture.now }
    ensures must { MayBeJustified justified picture.now → IsTrue result }
{
    !justified
        || picture.as_ref().is_some_and(|picture| {
            matches!(
                picture.category(),
                Category::Alphabetic | Category::Alphanumeric
            )
        })
}

/// Whether an item with the usage and the picture can be blank when it is zero.
fn can_be_blank(usage: Usage, picture: &Picture) -> bool
    ensures yes { IsTrue result → CanBeBlank picture.now.category usage picture.now.positions }
    ensures must { CanBeBlank picture.now.category usage picture.now.positions → IsTrue result }
{
    match picture.category() {
        Category::NumericEdited => !has(picture, Symbol::Star),
        Category::Numeric => { usage.is_display() && !picture.signed() && !has(picture, Symbol::P) }
        Category::Alphabetic | Category::Alphanumeric | Category::AlphanumericEdited => false,
    }
}

/// Whether an entry with the usage and the picture may be BLANK WHEN ZERO, if it is.
fn may_be_blank(blank: bool, usage: Usage, picture: &Option<Picture>) -> bool
    ensures yes { IsTrue result → MayBeBlank blank usage picture.now }
    ensures must { MayBeBlank blank usage picture.now → IsTrue result }
{
    if !blank {
        return true;
    }
    match picture {
        Some(picture) => can_be_blank(usage, picture),
        None => false,
    }
}

/// The line of an entry that may not have its JUSTIFIED or its BLANK WHEN ZERO beneath groups with the usage `above`.
pub(crate) fn wrong_placement(above: Option<Usage>, branches: &[Branch]) -> Option<u32>
    ensures fine { IsNone result → ArePlaced above (forest_of branches.now) }
    ensures must { ArePlaced above (forest_of branches.now) → IsNone result }
{
    for branch in branches {
        let entry = &branch.entry;
        let usage = inherited(above, entry.usage);
        if !may_be_justified(entry.justified, &entry.picture)
            || !may_be_blank(entry.blank, usage.unwrap_or(Usage::Display), &entry.picture)
        {
            return Some(entry.line);
        }
        if let Some(line) = wrong_placement(usage, branch.children.as_slice()) {
            return Some(line);
        }
    }
    None
}

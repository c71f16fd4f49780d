//! The bar above the drawing: what the moves keep, what they may lose, and what none of them fills.

use crate::lines::Sides;
use crate::lists::item_at;
use crate::lost::Lost;
use cob_back_losses::{Losses, Unkept};
use cob_report_boxes::NameText;
use cob_report_lossless::LinedSingle;
use cob_report_words::entry_of;
use std::fmt;

/// What the tiles count.
#[derive(Clone, Copy)]
pub(crate) struct Counted<'p, 'a> {
    pub(crate) singles: &'p [LinedSingle<'a>],
    pub(crate) losses: &'p [Losses],
    pub(crate) descriptions: &'p [Option<Unkept>],
    pub(crate) covered: &'p [bool],
}

/// The first of some places: the number of an entry of the output record, and what a move to it may lose, where it may lose something.
#[derive(Clone, Copy)]
struct Place {
    number: usize,
    lost: Option<Lost>,
}

/// How many moves do something, and the first place.
#[derive(Clone, Copy)]
struct Tally {
    count: usize,
    first: Option<Place>,
}

impl Tally {
    /// With one more move, to this place.
    fn with(self, place: Place) -> Tally {
        Tally {
            count: self.count.saturating_add(1),
            first: match self.first {
                Some(first) => Some(first),
                None => Some(place),
            },
        }
    }
}

/// The moves that keep all, those that may lose a description, and those that may lose something.
#[derive(Clone, Copy)]
struct Tallies {
    kept: Tally,
    undescribed: Tally,
    lost: Tally,
}

impl Tallies {
    /// With one more move, to the entry with this number.
    fn with(self, number: usize, losses: Losses, unkept: Option<Unkept>) -> Tallies {
        let place = Place {
            number,
            lost: Some(Lost {
                losses,
                description: unkept.is_some(),
            }),
        };
        let mut more = self;
        if unkept.is_some() {
            more.undescribed = more.undescribed.with(place);
        }
        if !losses.are_none() {
            more.lost = more.lost.with(place);
        }
        if unkept.is_none() && losses.are_none() {
            more.kept = more.kept.with(place);
        }
        more
    }
}

/// What is counted of single moves.
fn tallies_of(counted: Counted<'_, '_>) -> Tallies {
    let none = Tally {
        count: 0,
        first: None,
    };
    let mut tallies = Tallies {
        kept: none,
        undescribed: none,
        lost: none,
    };
    let marks = counted.losses.iter().zip(counted.descriptions.iter());
    for (single, (losses, unkept)) in counted.singles.iter().zip(marks) {
        tallies = tallies.with(single.receiver.number, *losses, *unkept);
    }
    tallies
}

/// A tile: its class, what it counts, and the words behind the number where that is 1 and where it is not.
#[derive(Clone, Copy)]
struct Tile {
    class: &'static str,
    count: usize,
    one: &'static str,
    many: &'static str,
    first: Option<Place>,
}

/// Writes the first place of a tile by its name, and what may be lost there.
fn write_first<W: fmt::Write>(
    f: &mut fmt::Formatter<W>,
    sides: &Sides<'_>,
    place: Place,
) -> fmt::Result {
    if let Some(entry) = entry_of(sides.output.layout.root(), place.number) {
        write!(f, "<small>{}", NameText { entry })?;
        if let Some(lost) = place.lost {
            write!(f, ": {lost}")?;
        }
        write!(f, "</small>")?;
    }
    Ok(())
}

/// Writes a tile, which leads to its first place.
fn write_tile<W: fmt::Write>(
    f: &mut fmt::Formatter<W>,
    sides: &Sides<'_>,
    tile: Tile,
) -> fmt::Result {
    let Tile { class, count, .. } = tile;
    let class = if count == 0 { "none" } else { class };
    write!(f, "<a class=\"{class}\"")?;
    if let Some(place) = tile.first {
        write!(f, " href=\"#{}{}\"", sides.output.letter, place.number)?;
    }
    let words = if count == 1 { tile.one } else { tile.many };
    write!(f, "><b>{count}</b><span>{words}</span>")?;
    if let Some(place) = tile.first {
        write_first(f, sides, place)?;
    }
    writeln!(f, "</a>")
}

/// How many of these bytes are not covered.
pub(crate) fn count_bare(covered: &[bool]) -> usize {
    covered.iter().filter(|covered| !**covered).count()
}

/// The item in which the first byte stands that is not covered.
fn first_bare(sides: &Sides<'_>, covered: &[bool]) -> Option<Place> {
    let bare = covered.iter().position(|covered| !*covered)?;
    let byte = bare.min(0xFFFF) as u32;
    let entry = item_at(&sides.output, sides.output.layout.root(), byte)?;
    Some(Place {
        number: entry.number,
        lost: None,
    })
}

/// Writes the four tiles.
pub(crate) fn write_tiles<W: fmt::Write>(
    f: &mut fmt::Formatter<W>,
    sides: &Sides<'_>,
    counted: Counted<'_, '_>,
) -> fmt::Result {
    let Tallies {
        kept,
        undescribed,
        lost,
    } = tallies_of(counted);
    let tiles = [
        Tile {
            class: "ok",
            count: kept.count,
            one: "move keeps all",
            many: "moves keep all",
            first: None,
        },
        Tile {
            class: "amb",
            count: undescribed.count,
            one: "moves bytes as they are",
            many: "move bytes as they are",
            first: undescribed.first,
        },
        Tile {
            class: "bad",
            count: lost.count,
            one: "may lose something",
            many: "may lose something",
            first: lost.first,
        },
        Tile {
            class: "bad",
            count: count_bare(counted.covered),
            one: "byte that no receiver covers",
            many: "bytes that no receiver covers",
            first: first_bare(sides, counted.covered),
        },
    ];
    writeln!(f, "<nav>")?;
    for tile in tiles.iter() {
        write_tile(f, sides, *tile)?;
    }
    writeln!(f, "</nav>")
}

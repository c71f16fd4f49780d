//! Entries, in the words of their boxes.

use cob_layout::{Kind, Layout, Name, Node, ResolvedOccurs, Spot};
use cob_report_words::{ItemText, entry_of};
use std::fmt;

/// The name of the entry with this number, where it has one.
fn name_of(layout: &Layout, number: usize) -> Option<&Name> {
    match entry_of(layout.root(), number) {
        Some(entry) => entry.name.as_ref(),
        None => None,
    }
}

/// Writes how often an entry occurs, where it is a table.
fn write_occurs<W: fmt::Write>(
    f: &mut fmt::Formatter<W>,
    layout: &Layout,
    occurs: ResolvedOccurs,
) -> fmt::Result {
    match occurs {
        ResolvedOccurs::Once => Ok(()),
        ResolvedOccurs::Fixed(times) => write!(f, " occurs {times}"),
        ResolvedOccurs::Varying { least, most, count } => {
            write!(f, " occurs {least} to {most}")?;
            match name_of(layout, count) {
                Some(name) => write!(f, " on {name}"),
                None => Ok(()),
            }
        }
    }
}

/// Writes what an entry redefines, where it redefines another one.
fn write_redefined<W: fmt::Write>(
    f: &mut fmt::Formatter<W>,
    redefines: &Option<Name>,
) -> fmt::Result {
    match redefines {
        Some(name) => write!(f, " redefines {name}"),
        None => Ok(()),
    }
}

/// An entry, which prints by its name, or as FILLER.
#[derive(Clone, Copy)]
pub struct NameText<'a> {
    pub entry: &'a Node,
}

impl fmt::Display for NameText<'_> {
    fn fmt<W: fmt::Write>(&self, f: &mut fmt::Formatter<W>) -> fmt::Result {
        match &self.entry.name {
            Some(name) => write!(f, "{name}"),
            None => write!(f, "FILLER"),
        }
    }
}

/// How often an entry occurs and what it redefines.
#[derive(Clone, Copy)]
pub struct ClausesText<'a> {
    pub layout: &'a Layout,
    pub entry: &'a Node,
}

impl fmt::Display for ClausesText<'_> {
    fn fmt<W: fmt::Write>(&self, f: &mut fmt::Formatter<W>) -> fmt::Result {
        write_occurs(f, self.layout, self.entry.occurs)?;
        write_redefined(f, &self.entry.redefines)
    }
}

/// What an entry describes, which prints as a group or as its picture and storage.
#[derive(Clone, Copy)]
pub struct KindText<'a> {
    pub kind: &'a Kind,
}

impl fmt::Display for KindText<'_> {
    fn fmt<W: fmt::Write>(&self, f: &mut fmt::Formatter<W>) -> fmt::Result {
        match self.kind {
            Kind::Group => write!(f, "group"),
            Kind::Item(item) => write!(f, "{}", ItemText { item }),
        }
    }
}

/// All that is said of an entry where the pointer rests on its box.
#[derive(Clone, Copy)]
pub struct TitleText<'a> {
    pub layout: &'a Layout,
    pub entry: &'a Node,
    pub spot: Spot,
}

impl fmt::Display for TitleText<'_> {
    fn fmt<W: fmt::Write>(&self, f: &mut fmt::Formatter<W>) -> fmt::Result {
        let TitleText {
            layout,
            entry,
            spot,
        } = *self;
        let kind = KindText { kind: &entry.kind };
        let Spot { offset, length, .. } = spot;
        write!(f, "{:02} {}", entry.level, NameText { entry })?;
        write!(
            f,
            "{}, {kind}, offset {offset}, length {length}, line {}",
            ClausesText { layout, entry },
            entry.line
        )
    }
}

//! The entries of a record with what they inherit.

ghost use Rattle.std.specs.Prelude.{◌≡◌, ◌↔◌, Some, IsTrue};
ghost use Rattle.cob_copybook_tree.specs.declared.node.ResolvedOccurs.TheVariants.{Once};
ghost use Rattle.cob_copybook_tree.specs.Nodes.{is_group_kind, is_varying, kind_shows_number, node};

use cob_copybook_entry::{Name, Sign, Usage, Value};
use cob_picture::Picture;

/// How often an entry occurs.
#[derive(Clone, Copy, PartialEq, Eq)]
pub enum ResolvedOccurs {
    /// It has no OCCURS clause.
    Once,
    /// So many times.
    Fixed(u32),
    /// As often as the item with the number `count` says, from `least` to `most`.
    Varying { least: u32, most: u32, count: usize },
}

impl ResolvedOccurs {
    /// Whether the entry is no table.
    pub fn is_once(self) -> bool
        ensures { IsTrue result ↔ (self ≡ Once) }
    {
        matches!(self, ResolvedOccurs::Once)
    }

    /// Whether the entry is a table that varies.
    pub fn is_varying(self) -> bool
        ensures { result ≡ is_varying self }
    {
        matches!(self, ResolvedOccurs::Varying { .. })
    }
}

/// An elementary item.
#[derive(Drop)]
pub struct Item {
    pub picture: Picture,
    /// Its own USAGE, else that of the nearest group that has one, else DISPLAY.
    pub usage: Usage,
    /// Where its sign stands, by its own SIGN clause or that of the nearest group that has one. None for an item that is no signed
    /// DISPLAY number, and for one without SIGN: its sign is trailing, in the zone of the last digit.
    pub sign: Option<Sign>,
    pub justified: bool,
    /// BLANK WHEN ZERO.
    pub blank: bool,
}

impl Item {
    /// The same item once more. It takes no memory, and so cannot fail.
    pub fn clone(&self) -> Item
        ensures { result ≡ self.now }
    {
        Item {
            picture: self.picture.clone(),
            usage: self.usage,
            sign: self.sign,
            justified: self.justified,
            blank: self.blank,
        }
    }
}

/// What an entry describes.
#[derive(Drop)]
pub enum Kind {
    Group,
    Item(Item),
}

impl Kind {
    /// What an entry describes, once more. It takes no memory, and so cannot fail.
    pub fn clone(&self) -> Kind
        ensures same { result ≡ self.now }
    {
        match self {
            Kind::Group => Kind::Group,
            Kind::Item(item) => Kind::Item(item.clone()),
        }
    }

    /// Whether the entry is a group.
    pub fn is_group(&self) -> bool
        ensures { result ≡ is_group_kind self.now }
    {
        matches!(self, Kind::Group)
    }

    /// Whether the entry is an item that shows a number.
    pub fn shows_number(&self) -> bool
        ensures { result ≡ kind_shows_number self.now }
    {
        match self {
            Kind::Group => false,
            Kind::Item(item) => item.picture.category().shows_number(),
        }
    }
}

/// An entry of a record with those beneath it.
#[derive(Drop)]
pub struct Node {
    /// Its place among all entries of the record, a parent before its children, from 0.
    pub number: usize,
    /// The line of its first word in the text, from 1; 0 for a record that the text doesn't name.
    pub line: u32,
    pub level: u8,
    /// None for FILLER.
    pub name: Option<Name>,
    pub kind: Kind,
    pub occurs: ResolvedOccurs,
    pub redefines: Option<Name>,
    pub value: Option<Value>,
    pub children: Vec<Node>,
}

impl Node {
    /// Whether the entry has this name.
    pub fn is_called(&self, name: &Name) -> bool
        ensures { IsTrue result ↔ ((node self.now).top.name ≡ Some name.now) }
    {
        match &self.name {
            Some(own) => own.as_bytes() == name.as_bytes(),
            None => false,
        }
    }
}

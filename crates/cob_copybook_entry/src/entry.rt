//! What an entry says.

use crate::kinds::{Sign, Usage};
use crate::name::Name;
use crate::value::Value;
use cob_picture::Picture;

/// A name with its qualifiers, the nearest first.
#[derive(Drop)]
pub struct Qualified {
    pub name: Name,
    pub qualifiers: Vec<Name>,
}

/// How often an entry occurs.
#[derive(Drop)]
pub enum Occurs {
    /// So many times, at least once.
    Fixed(u32),
    /// As often as a count says, from `least` to `most`; `least` is below `most`.
    Varying {
        least: u32,
        most: u32,
        count: Qualified,
    },
}

/// A record description entry: its clauses, by themselves.
#[derive(Drop)]
pub struct Entry {
    /// The line of its first word, from 1; 0 for an entry that no text has.
    pub line: u32,
    /// 0 to 99.
    pub level: u8,
    /// None for FILLER.
    pub name: Option<Name>,
    pub redefines: Option<Name>,
    pub picture: Option<Picture>,
    pub usage: Option<Usage>,
    pub sign: Option<Sign>,
    pub occurs: Option<Occurs>,
    pub value: Option<Value>,
    pub justified: bool,
    pub blank: bool,
}

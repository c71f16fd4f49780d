//! Two entries that correspond.

use crate::subordinate::Subordinate;
use cob_layout_places::Node;

/// Two entries below groups that correspond, with the names by which they do.
#[derive(Clone, Copy)]
pub(crate) struct Pair<'b, 'a> {
    pub from: &'b Subordinate<'a>,
    pub to: &'b Subordinate<'a>,
}

/// A sending and a receiving entry that correspond.
#[derive(Clone, Copy)]
pub struct EntryPair<'a> {
    pub from: &'a Node,
    pub to: &'a Node,
}

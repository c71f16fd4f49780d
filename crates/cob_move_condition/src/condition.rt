//! Conditions as plain data.

use crate::class::Class;
use cob_copybook_tree::Value;
use std::cmp::Ordering;

/// What is compared. An entry is named by its number in a list that whoever gives operands has.
#[derive(Drop)]
pub enum Comparand {
    /// An entry of one of two records.
    Entry(usize),
    /// A literal, or a figurative constant.
    Constant(Value),
}

/// A condition.
#[derive(Drop)]
pub enum Condition {
    /// What always holds.
    Always,
    /// The first is less than the second, equal to it or greater.
    Compares(Comparand, Ordering, Comparand),
    /// The entry with this number is of a class.
    HasClass(usize, Class),
    /// A condition doesn't hold.
    Not(Box<Condition>),
    /// Two conditions hold.
    Both(Box<Condition>, Box<Condition>),
    /// One of two conditions holds.
    Either(Box<Condition>, Box<Condition>),
}

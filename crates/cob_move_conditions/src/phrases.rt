use crate::relations::Relation;
use cob_move_condition::Class;
use cob_move_statements::{Reference, StatementSender};
use std::cmp::Ordering;

/// What an entry may be, by itself.
#[derive(Clone, Copy)]
pub enum Quality {
    /// Of a class.
    Class(Class),
    /// A number that has this order beside zero.
    Sign(Ordering),
}

/// A simple condition as it is written.
#[derive(Clone, Copy)]
pub enum TestPhrase<'a> {
    /// Two operands and their relation.
    Relates(StatementSender<'a>, Relation, StatementSender<'a>),
    /// A relation to an operand, whose subject is left out: it is that of the relation before.
    RelatesTo(Relation, StatementSender<'a>),
    /// An operand alone: the name of a condition, or one whose subject and relation are left out.
    StandsAlone(StatementSender<'a>),
    /// An entry is so, or isn't.
    Has {
        entry: Reference<'a>,
        opposite: bool,
        quality: Quality,
    },
}

/// A condition as it is written.
#[derive(Drop)]
pub enum ConditionPhrase<'a> {
    /// A simple condition.
    Simple(TestPhrase<'a>),
    /// A condition in brackets.
    InBrackets(Box<ConditionPhrase<'a>>),
    /// A condition behind NOT.
    BehindNot(Box<ConditionPhrase<'a>>),
    /// Two conditions with AND between them.
    WithAnd(Box<ConditionPhrase<'a>>, Box<ConditionPhrase<'a>>),
    /// Two conditions with OR between them.
    WithOr(Box<ConditionPhrase<'a>>, Box<ConditionPhrase<'a>>),
}

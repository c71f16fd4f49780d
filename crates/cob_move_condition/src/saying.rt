//! What a condition says.

ghost use Rattle.std.specs.Prelude.{◌≡◌, true, Ok, Err, IfErr, IfOk};
ghost use Rattle.cob_move_receive.specs.Sent.{HasAllBytes, Sent as Sends, sent};
ghost use Rattle.cob_move_condition.specs.Comparable.{is_number_operand, kind_of_sent};
ghost use Rattle.cob_move_condition.specs.Compared.{GivesNoNumber};
ghost use Rattle.cob_move_condition.specs.Conditions.{condition_of, sender_compared};
ghost use Rattle.cob_move_condition.specs.Says.{Says, SaysClass, SaysRelation, is_relation};
ghost use Rattle.cob_move_condition.specs.Tested.{IsComparandThere, MayBeCompared, MayBeTested, kind_compared};

use crate::class::Class;
use crate::classes::is_in_class;
use crate::comparing::{WithoutValue, compare};
use crate::condition::{Comparand, Condition};
use crate::operands::Operands;
use cob_move_receive::Sent;
use std::cmp::Ordering;

/// What is compared gives this.
///
/// # Errors
///
/// An entry stands nowhere.
fn give<'a, O: Operands>(
    operand: &'a Comparand,
    operands: &'a O,
    room: &mut O::Room,
) -> Result<Sent<'a>, O::Stop>
    requires there { IsComparandThere (O.has operands.now) operand.now }
    requires room { O.keeps operands.now room.old }
    ensures gives { IfOk result
        (λ s. O.gives operands.now (sender_compared (O.entry operands.now) operand.now)
        (Ok (sent s))) }
    ensures bytes { IfOk result (λ s. HasAllBytes (sent s)) }
    ensures kind { IfOk result
        (λ s. kind_of_sent (sent s) ≡ kind_compared (O.kind operands.now) operand.now) }
    ensures stops { IfErr result
        (λ stop. O.gives operands.now (sender_compared (O.entry operands.now) operand.now)
        (Err stop)) }
    ensures room { O.keeps operands.now room.new }
    ensures went { IfOk result (λ _. O.goes operands.now room.old room.new) }
    ensures halted { IfErr result (λ _. O.halts operands.now room.old room.new) }
{
    match operand {
        Comparand::Entry(number) => operands.give(*number, room),
        Comparand::Constant(value) => Ok(Sent::Constant(value)),
    }
}

/// Whether an order is the one that is asked for.
fn is_relation(relation: Ordering, order: Ordering) -> bool
    ensures { result ≡ is_relation relation order }
{
    match relation {
        Ordering::Less => order.is_lt(),
        Ordering::Equal => order.is_eq(),
        Ordering::Greater => order.is_gt(),
    }
}

/// The stop of an operand that is compared as a number and gives none.
fn stop_of<O: Operands>(
    operand: &Comparand,
    operands: &O,
    room: &mut O::Room,
) -> Result<bool, O::Stop>
    requires there { IsComparandThere (O.has operands.now) operand.now }
    requires room { O.keeps operands.now room.old }
    requires number { is_number_operand (kind_compared (O.kind operands.now) operand.now) ≡ true }
    requires none { (s : Sends)
        × O.gives operands.now (sender_compared (O.entry operands.now) operand.now) (Ok s)
        × (kind_of_sent s ≡ kind_compared (O.kind operands.now) operand.now) × GivesNoNumber s }
    ensures stops { IfErr result
        (O.lacks operands.now (sender_compared (O.entry operands.now) operand.now)) }
    ensures always { IfOk result (λ _. ⊥) }
    ensures room { O.keeps operands.now room.new }
    ensures went { IfOk result (λ _. O.goes operands.now room.old room.new) }
    ensures halted { IfErr result (λ _. O.halts operands.now room.old room.new) }
{
    match operand {
        Comparand::Entry(number) => Err(operands.lack(*number, room)),
        // A constant that is compared as a number gives one.
        Comparand::Constant(_) => Ok(false),
    }
}

/// What a comparison says.
///
/// # Errors
///
/// The first thing missing: an entry that stands nowhere, or the number of one.
fn relation_said<O: Operands>(
    first: &Comparand,
    relation: Ordering,
    second: &Comparand,
    operands: &O,
    room: &mut O::Room,
) -> Result<bool, O::Stop>
    requires may { MayBeCompared (O.has operands.now) (O.kind operands.now) first.now second.now }
    requires room { O.keeps operands.now room.old }
    ensures says { SaysRelation (O.gives operands.now) (O.lacks operands.now)
        (sender_compared (O.entry operands.now) first.now) relation
        (sender_compared (O.entry operands.now) second.now) result }
    ensures room { O.keeps operands.now room.new }
    ensures went { IfOk result (λ _. O.goes operands.now room.old room.new) }
    ensures halted { IfErr result (λ _. O.halts operands.now room.old room.new) }
{
    let one = give(first, operands, room)?;
    let other = give(second, operands, room)?;
    match compare(&one, &other) {
        Ok(order) => Ok(is_relation(relation, order)),
        Err(WithoutValue::First) => stop_of(first, operands, room),
        Err(WithoutValue::Second) => stop_of(second, operands, room),
    }
}

/// What a class condition says.
///
/// # Errors
///
/// The entry stands nowhere.
fn class_said<O: Operands>(
    number: usize,
    class: Class,
    operands: &O,
    room: &mut O::Room,
) -> Result<bool, O::Stop>
    requires there { O.has operands.now number }
    requires room { O.keeps operands.now room.old }
    ensures says { SaysClass (O.gives operands.now) (O.entry operands.now number) class result }
    ensures room { O.keeps operands.now room.new }
    ensures went { IfOk result (λ _. O.goes operands.now room.old room.new) }
    ensures halted { IfErr result (λ _. O.halts operands.now room.old room.new) }
{
    let given = operands.give(number, room)?;
    Ok(is_in_class(class, &given))
}

/// What a condition says of what its operands give: whether it holds. It is looked at from left to right, and no further than it takes to decide.
///
/// # Errors
///
/// The first thing missing that is looked at: an entry that stands nowhere, or the number of one that is compared as a number and whose bytes represent none.
pub fn says<O: Operands>(
    condition: &Condition,
    operands: &O,
    room: &mut O::Room,
) -> Result<bool, O::Stop>
    requires tested { MayBeTested (O.has operands.now) (O.kind operands.now) condition.now }
    requires room { O.keeps operands.now room.old }
    ensures says { Says (O.gives operands.now) (O.lacks operands.now)
        (condition_of (O.entry operands.now) condition.now) result }
    ensures room { O.keeps operands.now room.new }
    ensures went { IfOk result (λ _. O.goes operands.now room.old room.new) }
    ensures halted { IfErr result (λ _. O.halts operands.now room.old room.new) }
{
    match condition {
        Condition::Always => Ok(true),
        Condition::Compares(first, relation, second) => relation_said(
            first, *relation, second, operands, room,
        ),
        Condition::HasClass(number, class) => class_said(*number, *class, operands, room),
        Condition::Not(inner) => {
            let holds = says(inner, operands, room)?;
            Ok(!holds)
        }
        Condition::Both(first, second) => {
            if says(first, operands, room)? {
                says(second, operands, room)
            } else {
                Ok(false)
            }
        }
        Condition::Either(first, second) => {
            if says(first, operands, room)? {
                Ok(true)
            } else {
                says(second, operands, room)
            }
        }
    }
}

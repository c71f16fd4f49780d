//! Values that an entry is held against, and the condition that it is one of them.

ghost use Rattle.std.specs.Prelude.{◌≡◌, ℕ, List, map, IfOk, IsFalse, IsTrue};
ghost use Rattle.cob_copybook_conditions.specs.Names.{plain_span};
ghost use Rattle.cob_copybook_entry.specs.Described.{plain_value};
ghost use Rattle.cob_move_condition.specs.Comparable.{may_compare};
ghost use Rattle.cob_move_condition.specs.Conditions.{Compares as ComparesTo, condition_of};
ghost use Rattle.cob_move_data.specs.Moves.{Literal as LiteralSender, Records, Sender};
ghost use Rattle.cob_move_receive.specs.Table.{Entry as EntryOf, Literal as LiteralOf};
ghost use Rattle.cob_move_tests.specs.declared.entries.NamedEntry.{NamedEntry as Named};
ghost use Rattle.cob_move_tests.specs.Asked.{IsTestable, MayBeListed, MayBeSpanned, MayBeValued};
ghost use Rattle.cob_move_tests.specs.Spans.{AreWithinBy, FromTo as FromToSenders, MayBeWithinAll, MayBeWithinBy, constants, within, within_one};

use crate::conditions::{both, either, opposite_if};
use cob_copybook_conditions::Span;
use cob_copybook_entry::Value;
use cob_copybook_tree::Kind;
use cob_move_condition::{Comparand, Condition, may_compare};
use cob_move_receive::SenderKind;
use std::alloc::{AllocError, Global};
use std::cmp::Ordering;

/// Whether an entry that describes this may be compared with a value.
fn may_have(kind: &Kind, value: &Value) -> bool
    ensures { result ≡ may_compare (EntryOf kind.now) (LiteralOf (plain_value value.now)) }
{
    may_compare(&SenderKind::Entry(kind), &SenderKind::Constant(value))
}

/// Whether an entry that describes this may be compared with the values of a span.
fn may_be_within(kind: &Kind, span: &Span) -> bool
    ensures yes { IsTrue result
        → MayBeWithinBy (EntryOf kind.now) (constants (plain_span span.now)) }
    ensures no { IsFalse result
        → MayBeWithinBy (EntryOf kind.now) (constants (plain_span span.now)) → ⊥ }
{
    match span {
        Span::One(value) => may_have(kind, value),
        Span::FromTo(first, last) => may_have(kind, first) && may_have(kind, last),
    }
}

/// Whether an entry that describes this may be compared with the values of all these.
fn may_be_within_each(kind: &Kind, spans: &[Span]) -> bool
    ensures yes { IsTrue result → AreWithinBy (EntryOf kind.now) (map plain_span spans.now) }
    ensures no { IsFalse result
        → AreWithinBy (EntryOf kind.now) (map plain_span spans.now) → ⊥ }
{
    let Some((first, more)) = spans.split_first() else {
        return true;
    };
    may_be_within(kind, first) && may_be_within_each(kind, more)
}

/// Whether an entry that describes this may be compared with all values of a condition-name.
pub(crate) fn may_hold(kind: &Kind, first: &Span, more: &[Span]) -> bool
    ensures yes { IsTrue result
        → MayBeWithinAll (EntryOf kind.now) (plain_span first.now) (map plain_span more.now) }
    ensures no { IsFalse result
        → MayBeWithinAll (EntryOf kind.now) (plain_span first.now) (map plain_span more.now) → ⊥ }
{
    may_be_within(kind, first) && may_be_within_each(kind, more)
}

/// That the entry with a number is in this order beside a value.
pub fn compares(number: usize, order: Ordering, value: Value) -> Condition
    ensures means { (entry : ℕ → Sender) → condition_of entry result
        ≡ ComparesTo (entry number) order (LiteralSender (plain_value value)) }
    ensures testable { (r : Records) (asked : List Named) → MayBeListed r asked number
        (plain_value value) → IsTestable r asked result }
{
    Condition::Compares(Comparand::Entry(number), order, Comparand::Constant(value))
}

/// That the entry with a number is neither less than a value nor greater than another.
///
/// # Errors
///
/// Memory was refused.
pub fn between(
    alloc: Global,
    number: usize,
    from: Value,
    to: Value,
) -> Result<Condition, AllocError>
    ensures means { IfOk result (λ c. (entry : ℕ → Sender) → condition_of entry c
        ≡ within (entry number) (FromToSenders (LiteralSender (plain_value from))
        (LiteralSender (plain_value to)))) }
    ensures testable { IfOk result (λ c. (r : Records) (asked : List Named)
        → MayBeListed r asked number (plain_value from)
        → MayBeListed r asked number (plain_value to) → IsTestable r asked c) }
{
    let not_less = opposite_if(alloc, true, compares(number, Ordering::Less, from))?;
    let not_greater = opposite_if(alloc, true, compares(number, Ordering::Greater, to))?;
    both(alloc, not_less, not_greater)
}

/// That the entry with a number is one of the values of a span.
///
/// # Errors
///
/// Memory was refused.
fn is_within(alloc: Global, number: usize, span: &Span) -> Result<Condition, AllocError>
    ensures means { IfOk result (λ c. (entry : ℕ → Sender) → condition_of entry c
        ≡ within (entry number) (constants (plain_span span.now))) }
    ensures testable { IfOk result (λ c. (r : Records) (asked : List Named)
        → MayBeSpanned r asked number (plain_span span.now) → IsTestable r asked c) }
{
    match span {
        Span::One(value) => Ok(compares(number, Ordering::Equal, value.clone())),
        Span::FromTo(first, last) => between(alloc, number, first.clone(), last.clone()),
    }
}

/// That the entry with a number is one of the values of a condition-name.
///
/// # Errors
///
/// Memory was refused.
pub(crate) fn is_within_one(
    alloc: Global,
    number: usize,
    first: &Span,
    more: &[Span],
) -> Result<Condition, AllocError>
    ensures means { IfOk result (λ c. (entry : ℕ → Sender) → condition_of entry c
        ≡ within_one (entry number) (plain_span first.now) (map plain_span more.now)) }
    ensures testable { IfOk result (λ c. (r : Records) (asked : List Named)
        → MayBeValued r asked number (plain_span first.now) (map plain_span more.now)
        → IsTestable r asked c) }
{
    let own = is_within(alloc, number, first)?;
    let Some((next, others)) = more.split_first() else {
        return Ok(own);
    };
    let rest = is_within_one(alloc, number, next, others)?;
    either(alloc, own, rest)
}

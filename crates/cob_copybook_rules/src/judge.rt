//! The rules on lengths, one behind the other.

ghost use Rattle.std.specs.Prelude.{◌≡◌, ◌≤◌, ◌↔◌, [], ◌∷◌, IsTrue, IfOk, IfErr};
ghost use Rattle.cob_copybook_tree.specs.Nodes.{forest};
ghost use Rattle.cob_copybook_tree.specs.Lengths.{greatest_number, sum_of};
ghost use Rattle.cob_limits.specs.Limits.{longest_record};
ghost use Rattle.cob_copybook_rules.specs.Areas.{ArePossible};
ghost use Rattle.cob_copybook_rules.specs.LengthRules.{KeepsLengthRules, BreaksLengthRule};

use crate::areas::wrong_area;
use crate::values::wrong_value;
use cob_copybook_tree::{BookFault, BookRule, Node, whole_length};
use cob_limits::MAX_RECORD;
use std::slice;

/// The line of a record's own entry; of a record that the text doesn't name, that of its first entry.
fn line_of(root: &Node) -> u32 {
    match root.children.first() {
        Some(first) if root.line == 0 => first.line,
        _ => root.line,
    }
}

/// Whether a record isn't too long. One that redefines takes no room of its own, and breaks the rule on areas.
fn is_short(root: &Node) -> bool
    ensures { IsTrue result ↔ (sum_of greatest_number (forest (root.now ∷ [])) ≤ longest_record) }
{
    root.redefines.is_some() || whole_length(root) <= MAX_RECORD
}

/// The first rule on lengths that a record is found to break, and the line of the entry that breaks it: of the record's own for one
/// that is too long.
///
/// # Errors
///
/// `TooLong`, `Redefinition` or `Value`, in this order.
pub fn judge_lengths(root: &Node) -> Result<(), BookFault>
    requires possible { ArePossible (forest (root.now ∷ [])) }
    ensures fine { IfOk result (λ _. KeepsLengthRules (forest (root.now ∷ []))) }
    ensures broken { IfErr result (λ f. BreaksLengthRule f.rule (forest (root.now ∷ []))) }
{
    if !is_short(root) {
        return Err(BookFault {
            rule: BookRule::TooLong,
            line: line_of(root),
        });
    }
    if let Some(line) = wrong_area(slice::from_ref(root)) {
        return Err(BookFault {
            rule: BookRule::Redefinition,
            line,
        });
    }
    match wrong_value(false, false, slice::from_ref(root)) {
        Some(line) => Err(BookFault {
            rule: BookRule::Value,
            line,
        }),
        None => Ok(()),
    }
}

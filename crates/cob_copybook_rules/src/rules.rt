ghost use Rattle.std.specs.Prelude.{◌≡◌, [], ◌∷◌, OnOk, IfOk, IfErr, IsSome};
ghost use Rattle.std.specs.Option.{IsNone};
ghost use Rattle.cob_copybook_tree.specs.Branches.{forest_of};
ghost use Rattle.cob_copybook_rules.specs.Rules.{AgreeAll, BreaksClauseRule, AgreeingBreaksNoRule};

use crate::filled::unfilled;
use crate::placements::wrong_placement;
use crate::signs::wrong_sign;
use crate::tables::wrong_table;
use crate::usages::wrong_usage;
use cob_copybook_tree::{BookFault, BookRule, Branch};
use std::slice;

/// That the rule is kept, unless there is a line where it is broken.
fn kept(rule: BookRule, broken: Option<u32>) -> Result<(), BookFault>
    ensures fine { OnOk result (IsNone broken) }
    ensures broken { IfErr result (λ f. (f.rule ≡ rule) × IsSome broken) }
{
    match broken {
        Some(line) => Err(BookFault { rule, line }),
        None => Ok(()),
    }
}

/// Whether the clauses of the entries of a tree agree with each other.
///
/// # Errors
///
/// The first rule on clauses that the tree is found to break, and the line of the entry that breaks it: B3 on items and groups, B5,
/// B6, B8 or B11.
pub fn judge_clauses(root: &Branch) -> Result<(), BookFault>
    ensures fine { IfOk result (λ _. AgreeAll (forest_of (root.now ∷ []))) }
    ensures broken { IfErr result (λ f. BreaksClauseRule f.rule (forest_of (root.now ∷ []))) }
{
    let roots = slice::from_ref(root);
    kept(BookRule::Level, unfilled(roots))?;
    kept(BookRule::Usage, wrong_usage(None, roots))?;
    kept(BookRule::Sign, wrong_sign(None, roots))?;
    kept(BookRule::Table, wrong_table(0, roots))?;
    kept(BookRule::Placement, wrong_placement(None, roots))
}

/// A tree whose clauses agree breaks no rule on them.
pub fn breaks_no_rule()
    ensures { AgreeingBreaksNoRule }
{}

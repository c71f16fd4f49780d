//! Choices of one thing at each of several places, and their ranks.

ghost use Rattle.cob_test_moves.specs.Choices.{AreChoices, product, rank_of};
ghost use Rattle.std.specs.Prelude.{◌≡◌, ◌<◌, List, ℕ, IfOk, IfSome};

use std::alloc::{AllocError, Global};

/// In how many ways one thing can be chosen at each place, of as many as its size says; None where a number of 64 bits can't say it.
#[tactic(auto, using(crate::proofs::Ranks::below))]
pub(crate) fn ways(sizes: &[u64]) -> Option<u64>
    ensures found { IfSome result (λ n. n ≡ product sizes.now) }
    // Choices have a rank below that.
    ensures each { (choices : List ℕ) → AreChoices sizes.now choices
        → rank_of sizes.now choices < product sizes.now }
{
    let Some((size, others)) = sizes.split_first() else {
        return Some(1);
    };
    size.checked_mul(ways(others)?)
}

/// The choices of a rank.
///
/// # Errors
/// Only where memory is refused.
#[tactic(auto, using(crate::proofs::Ranks::place))]
pub(crate) fn choices_of(alloc: Global, sizes: &[u64], rank: u64) -> Result<Vec<u64>, AllocError>
    requires { rank < product sizes.now }
    ensures found { IfOk result (λ v. AreChoices sizes.now v.items) }
    ensures rank { IfOk result (λ v. rank_of sizes.now v.items ≡ rank) }
    // No other choices have it.
    ensures only { (choices : List ℕ) → AreChoices sizes.now choices
        → rank_of sizes.now choices ≡ rank → IfOk result (λ v. v.items ≡ choices) }
{
    let mut choices = Vec::new(alloc);
    let mut left = rank;
    for size in sizes {
        choices.push(left % *size)?;
        left /= *size;
    }
    Ok(choices)
}

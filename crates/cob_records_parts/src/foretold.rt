//! Bytes that are foretold.

ghost use Rattle.std.specs.Prelude.{◌≡◌, ℕ, List, Option};
ghost use Rattle.std.specs.Borrow.{ftrue};
ghost use Rattle.std.specs.Coded.{coded_list, coded_option, coded_ℕ};

use std::marker::Model;

/// Bytes that are foretold to come, where they are known. It takes no memory, and proofs alone read it: a source that stops within a record tells
/// by it what was to come where it stopped.
#[derive(Drop)]
pub(crate) struct Foretold {
    pub(crate) ghost bytes: { Option (List ℕ) } by { coded_option (coded_list coded_ℕ) },
}

impl Model for Foretold {
    ghost also_owns = { λ _. ftrue };
}

/// The bytes that this foretells of a value. It does nothing where it runs.
#[inline(always)]
pub(crate) fn foretell<T>(_of: &T) -> Foretold
    ghost told: { T → Option (List ℕ) }
    ensures { result.bytes ≡ told _of.now }
{
    Foretold {}
}

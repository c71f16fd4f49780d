//! Who is handed single moves.

ghost use Rattle.std.specs.Prelude.{◌≡◌, List, [], ◌∷◌, Option};
ghost use Rattle.cob_report_explain.specs.Each.{Single, append_singles};
ghost use Rattle.cob_report_explain.specs.Seen.{handed_single};

use crate::single::CarriedMove;
use crate::tests::TakenTest;

/// Who is handed each single move, as soon as it is carried out, and each test, as soon as it is taken.
pub trait Watcher {
    // The single moves that it was handed so far, where it tells them.
    ghost seen: { Self → Option (List Single) };

    /// Is handed a single move.
    fn see(&mut self, one: &CarriedMove<'_>)
        ensures { seen self.new ≡ append_singles (seen self.old) (handed_single one.now ∷ []) };

    /// Is handed a test.
    fn see_test(&mut self, one: &TakenTest<'_>)
        ensures { seen self.new ≡ seen self.old };
}

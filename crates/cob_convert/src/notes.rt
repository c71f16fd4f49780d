//! Who is told of rejected records.

ghost use Rattle.std.specs.Prelude.{◌≡◌, List, [], ◌∷◌, Option};
ghost use Rattle.cob_convert_stream.specs.declared.fault.RunFault.{RunFault as Noted};
ghost use Rattle.cob_convert.specs.Outcomes.{append_notes};

use cob_convert_stream::RunFault;

/// An end that is told of each record that a run rejects and sets aside.
pub trait Notes {
    // The faults that it was told so far, where the end tells them.
    ghost told: { Self → Option (List Noted) };

    /// Is told why a record was rejected: its number among all records, where its fault stands, and how many bytes the sink had taken.
    fn note(&mut self, fault: RunFault)
        ensures { told self.new ≡ append_notes (told self.old) (fault ∷ []) };
}

impl<N: Notes> Notes for &mut N {
    ghost told = { λ n. N.told n.now };

    fn note(&mut self, fault: RunFault) {
        Notes::note(&mut **self, fault)
    }
}

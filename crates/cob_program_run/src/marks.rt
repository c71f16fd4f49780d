//! Where rejected records stand among all.

ghost use Rattle.std.specs.Prelude.{◌≡◌, ◌<◌, ◌≤◌, ℕ, Bool};
ghost use Rattle.cob_program_run.specs.Marks.{HasMarks, IsLastPut, marks_behind, last_put, unmarked, with_rejected};

/// What has to be known of the rejected records to name the last record in either output.
#[derive(Clone, Copy)]
pub struct Marks {
    /// The number of the last rejected record; 0 where there is none.
    pub last: u64,
    /// The number of the last record that was converted before that one; 0 where there is none.
    pub before: u64,
}

impl Marks {
    /// Those of no rejected record.
    pub fn new() -> Marks
        ensures value { result ≡ unmarked }
        ensures marks { HasMarks (λ _. Bool.false) result }
    {
        Marks { last: 0, before: 0 }
    }

    /// Those behind one more rejected record, of this number, which is greater than those before.
    pub fn behind(self, number: u64) -> Marks
        ensures value { result ≡ marks_behind self number }
        ensures marks { (rejected : ℕ → Bool) → HasMarks rejected self → self.last < number
            → HasMarks (with_rejected number rejected) result }
    {
        let before_it = number.saturating_sub(1);
        let before = if before_it == self.last {
            self.before
        } else {
            before_it
        };
        Marks {
            last: number,
            before,
        }
    }

    /// The number of the last of so many records that was converted; 0 where none was.
    pub fn last_put(self, came: u64) -> u64
        ensures value { result ≡ last_put self came }
        ensures put { (rejected : ℕ → Bool) → HasMarks rejected self → self.last ≤ came
            → IsLastPut rejected came result }
    {
        if self.last == came { self.before } else { came }
    }
}

//! Why records were set aside, and how many for each reason.

ghost use Rattle.std.specs.Prelude.{◌≡◌, ◌+◌, ◌<◌, true, false, IfOk};
ghost use Rattle.cob_report_run.specs.Causes.{all_in, greatest_count, records_of};

use cob_convert_stream::Reason;
use std::alloc::{AllocError, Global};

/// How many reasons are told apart.
const MOST: usize = 64;

/// How many records do not convert for one reason.
#[derive(Clone, Copy)]
pub struct CauseCount {
    /// The side, the offset and the cause.
    pub reason: Reason,
    /// How many records there are.
    pub records: u64,
}

/// The reasons for which records do not convert, in the order in which they came.
#[derive(Drop)]
pub struct Causes {
    told: Vec<CauseCount>,
    others: u64,
}

/// Counts one more record for a reason, where it is one of these, and says whether it is.
fn count_among(counts: &mut [CauseCount], reason: Reason) -> bool
    ensures counted { result ≡ true → records_of counts.old < greatest_count
        → records_of counts.new ≡ records_of counts.old + 1 }
    ensures same { result ≡ false → counts.new ≡ counts.old }
{
    let Some((first, rest)) = counts.split_first_mut() else {
        return false;
    };
    if first.reason == reason {
        first.records = first.records.saturating_add(1);
        return true;
    }
    count_among(rest, reason)
}

/// Adds a reason, for which there is one record, where there are not as many as are told apart; and says whether.
fn add(counts: &mut Vec<CauseCount>, reason: Reason) -> bool
    ensures added { result ≡ true → records_of counts.new.items ≡ records_of counts.old.items + 1 }
    ensures same { result ≡ false → counts.new.items ≡ counts.old.items }
{
    if counts.len() < MOST {
        counts.push(CauseCount { reason, records: 1 }).is_ok()
    } else {
        false
    }
}

impl Causes {
    /// Those of no records. Behind it, counting takes no memory.
    ///
    /// # Errors
    ///
    /// Where no memory is left.
    pub fn new(alloc: Global) -> Result<Causes, AllocError>
        ensures { IfOk result (λ causes. all_in causes ≡ 0) }
    {
        Ok(Causes {
            told: Vec::with_capacity(alloc, MOST)?,
            others: 0,
        })
    }

    /// The reasons that are told apart, at most 64.
    pub fn told(&self) -> &[CauseCount] {
        self.told.as_slice()
    }

    /// How many records there were for other reasons.
    pub fn others(&self) -> u64 {
        self.others
    }

    /// Counts one more record, which does not convert for this reason.
    pub fn count(&mut self, reason: Reason)
        // It is counted once, up to the greatest `u64`.
        ensures { all_in self.old < greatest_count → all_in self.new ≡ all_in self.old + 1 }
    {
        if count_among(self.told.as_mut_slice(), reason) {
            return;
        }
        if add(&mut self.told, reason) {
            return;
        }
        self.others = self.others.saturating_add(1);
    }
}

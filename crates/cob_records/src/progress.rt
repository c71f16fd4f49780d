ghost use Rattle.std.specs.Prelude.{◌≡◌, ℕ, ◌<◌, ◌≤◌, List, [], ◌++◌, length, take, IfOk, OnErr, is_err};
ghost use Rattle.std.specs.Io.KnownBytes.{IsAtEnd, prepend_known};
ghost use Rattle.std.specs.Time.{instant_nanos};
ghost use Rattle.cob_limits.specs.Limits.{longest_record};
ghost use Rattle.cob_records.specs.Device.{counted};
ghost use Rattle.cob_records.specs.Forms.{HasBlockSize};
ghost use Rattle.cob_records.specs.Progress.{HasPassed, Passes, is_due, told_from};

use crate::device::{DeviceFault, Source};
use crate::passed::Passed;
use crate::records::Form;
use std::io::Eprint;
use std::rt::Clock;
use std::time::Instant;

/// What stands behind a line that is written over the last one, so that nothing of that is left.
const BLANK: &str = "            ";

/// How a source tells how far it is.
#[derive(Clone, Copy, PartialEq, Eq)]
pub struct Telling {
    /// How many bytes it gives, where that is known: then it tells how many percent have passed, and how many seconds the rest takes.
    pub size: Option<u64>,
    /// Whether it writes over the line that it told before, as a terminal can.
    pub rewrites: bool,
}

// When a stream began to pass, and from when the second counts behind which it is told next.
#[derive(Clone, Copy)]
struct Pace {
    began: Instant,
    told: Instant,
}

impl Pace {
    // Whether it is time to tell, and that it is told.
    fn is_due(&mut self, now: Instant) -> bool
        ensures due { result ≡ is_due (instant_nanos self.old.told) (instant_nanos now) }
        ensures told { instant_nanos self.new.told
            ≡ told_from (instant_nanos self.old.told) (instant_nanos now) }
        ensures began { self.new.began ≡ self.old.began }
    {
        match now.checked_duration_since(self.told) {
            Some(gone) if gone.as_secs() < 1 => false,
            gone => {
                self.told = now;
                gone.is_some()
            }
        }
    }
}

/// A source round another that tells on standard error, about once a second, how many records and bytes it has given, and what is
/// ahead. What it tells is for a person who waits: that it can't be told is no failure. Behind a descriptor that is refused, or that does
/// not fit into its block, no record is counted.
#[derive(Drop)]
pub struct Progress<'a, R, T> {
    inner: R,
    rt: &'a T,
    telling: Telling,
    passed: Passed,
    pace: Option<Pace>,
    has_told: bool,
}

impl<'a, R, T> Progress<'a, R, T> {
    ghost use Rattle.cob_records.specs.Progress.{progress_inner, progress_passed};

    /// A source round this one, whose records stand in this form and have at most this length: 1 to 32,752.
    pub fn new(inner: R, rt: &'a T, form: Form, length: u16, telling: Telling) -> Progress<'a, R, T>
        requires block { HasBlockSize form }
        requires low { 0 < length }
        requires high { length ≤ longest_record }
        ensures inner { progress_inner result ≡ inner }
        ensures none { HasPassed [] (progress_passed result) }
        ensures form { (progress_passed result).form ≡ form }
        ensures greatest { (progress_passed result).greatest ≡ length }
    {
        Progress {
            inner,
            rt,
            telling,
            passed: Passed::new(form, length),
            pace: None,
            has_told: false,
        }
    }

    /// The source inside.
    pub fn into_inner(self) -> R
        ensures { result ≡ progress_inner self.entry }
    {
        self.inner
    }
}

impl<R, T: Clock + Eprint> Progress<'_, R, T> {
    ghost use Rattle.cob_records.specs.Progress.{progress_inner, progress_passed};

    // Tells what has passed, where a second has gone by.
    fn tell(&mut self)
        ensures inner { progress_inner self.new ≡ progress_inner self.old }
        ensures passed { progress_passed self.new ≡ progress_passed self.old }
    {
        let Ok(now) = Instant::now(self.rt) else {
            return;
        };
        let mut pace = self.pace.unwrap_or(Pace {
            began: now,
            told: now,
        });
        if pace.is_due(now) {
            let elapsed = now.duration_since(pace.began).as_secs();
            let report = self.passed.report(self.telling.size, elapsed);
            let _ = if self.telling.rewrites {
                eprint!(self.rt; "\r{report}{BLANK}")
            } else {
                eprintln!(self.rt; "{report}")
            };
            self.has_told = true;
        }
        self.pace = Some(pace);
    }

    /// Ends a line that was written over, so that what is printed next begins one of its own.
    pub fn finish(&self) {
        if self.has_told && self.telling.rewrites {
            let _ = eprintln!(self.rt; "");
        }
    }
}

impl<R: Source, T: Clock + Eprint> Source for Progress<'_, R, T> {
    ghost use Rattle.cob_records.specs.Progress.{progress_inner, progress_passed};

    ghost coming = { λ source. R.coming (progress_inner source) };

    ghost failures = { λ source. R.failures (progress_inner source) };

    fn read(&mut self, piece: &mut [u8]) -> Result<usize, DeviceFault>
        ensures count { IfOk result (λ n. n ≤ length piece.new) }
        ensures bytes { IfOk result (λ n. R.coming (progress_inner self.old)
            ≡ prepend_known (take n piece.new) (R.coming (progress_inner self.new))) }
        ensures end { IfOk result (λ n. n ≡ 0 → 0 < length piece.new
            → IsAtEnd (R.coming (progress_inner self.old))) }
        ensures kept { OnErr result (R.coming (progress_inner self.new)
            ≡ R.coming (progress_inner self.old)) }
        ensures cause { R.failures (progress_inner self.new)
            ≡ counted (is_err result) (R.failures (progress_inner self.old)) }

        // What it gave has passed, and nothing else.
        ensures passed { IfOk result (λ n.
            Passes (take n piece.new) (progress_passed self.old) (progress_passed self.new)) }
        ensures still { OnErr result (progress_passed self.new ≡ progress_passed self.old) }
    {
        let count = self.inner.read(piece)?;
        self.passed.add(&piece[..count]);
        self.tell();
        Ok(count)
    }
}

//! A source that gives the chosen records of another.

ghost use Rattle.std.specs.Prelude.{◌≡◌, ◌<◌, ◌≤◌, ℕ, List, Option, [], None, false, true, length, take, option_map, IfErr, IfOk, IfSome, OnErr, OnOk, is_err};
ghost use Rattle.std.specs.Io.KnownBytes.{IsAtEnd, prepend_known};
ghost use Rattle.cob_limits.specs.Limits.{longest_record};
ghost use Rattle.cob_records.specs.Device.{counted};
ghost use Rattle.cob_records.specs.Forms.{HasBlockSize};
ghost use Rattle.cob_records.specs.Frame.{is_write_fault};
ghost use Rattle.cob_records_parts.specs.Choices.{stops_reading};
ghost use Rattle.cob_records_parts.specs.StillGiven.{failures_at, left_at};

use crate::ahead::{Ahead, ahead_of};
use crate::choice::{Choice, ChoiceFault, Stopped};
use crate::foretold::{Foretold, foretell};
use crate::held::Held;
use crate::refill::{pass_over, refill};
use crate::rest::Rest;
use crate::walk::Walk;
use cob_records::{DeviceFault, Form, Source};
use std::alloc::Global;

/// A source round another that gives just the records that are chosen of it, each as it stands by itself in a stream of the same form. Where the source
/// inside tells its bytes, it tells what is given of them; and where a frame can't be read, a mark stands for it, which is never given.
#[derive(Drop)]
pub struct Chosen<R> {
    inner: R,
    walk: Walk,
    held: Held,
    stopped: Option<Stopped>,
    failures: u64,
    told: Foretold,
    ghost room: { length held.body.items ≡ walk.greatest },
    ghost kind: { stops_reading stopped ≡ true },
    ghost marks: { left_at stopped told.bytes ≡ told.bytes },
    ghost quiet: { failures_at stopped failures ≡ failures },
}

impl<R: Source + Drop> Chosen<R> {
    ghost use Rattle.cob_records_parts.specs.Choices.{last_chosen};
    ghost use Rattle.cob_records_parts.specs.Comings.{chosen_coming, given_by};
    ghost use Rattle.cob_records_parts.specs.Gives.{HasGiven, IfStopped, IsPassedTo, StopsPassing, chosen_failures, chosen_inner, chosen_stop, chosen_walk};

    /// A source that gives the records of this choice of another, which stand in this form and have at most this length: 1 to 32,752. Those before
    /// the chosen ones are passed over at once, as far as there are so many.
    ///
    /// # Errors
    ///
    /// A record that is passed over whose frame can't be read; where no memory is left for a record.
    pub fn new(
        alloc: Global,
        mut inner: R,
        form: Form,
        greatest: u16,
        choice: Choice,
    ) -> Result<Chosen<R>, ChoiceFault>
        requires block { HasBlockSize form }
        requires low { 0 < greatest }
        requires high { greatest ≤ longest_record }
        ensures form { IfOk result (λ source. (chosen_walk source).form ≡ form) }
        ensures greatest { IfOk result (λ source. (chosen_walk source).greatest ≡ greatest) }
        ensures skip { IfOk result (λ source. (chosen_walk source).skip ≡ choice.skip) }
        ensures last { IfOk result (λ source. (chosen_walk source).last ≡ last_chosen choice) }
        // Nothing is given yet, and those before the chosen ones have passed, or it is at its end.
        ensures none { IfOk result (λ source.
            HasGiven (R.coming inner) (R.coming (chosen_inner source)) [] source) }
        ensures passed { IfOk result (λ source.
            IsPassedTo (R.coming inner) (R.coming (chosen_inner source)) source) }
        ensures runs { IfOk result (λ source. chosen_stop source ≡ None) }
        ensures failures { IfOk result (λ source. chosen_failures source ≡ 0) }
        ensures reads { IfOk result (λ source.
            R.failures (chosen_inner source) ≡ R.failures inner) }
        // What comes of it is what is given of all that was to come.
        ensures coming { IfOk result (λ source. chosen_coming R.coming source
            ≡ option_map (given_by form greatest choice) (R.coming inner)) }
        ensures stops { IfErr result (StopsPassing form greatest choice.skip (R.coming inner)) }
        ensures kind { IfErr result (λ fault.
            IfStopped fault (λ stop. is_write_fault stop.fault ≡ false)) }
    {
        let Ok(mut held) = Held::new(alloc, greatest) else {
            return Err(ChoiceFault::Memory);
        };
        let mut walk = Walk {
            form,
            greatest,
            skip: choice.skip,
            last: choice.last(),
            number: 0,
            left: 0,
        };
        let told = foretell(&inner);
        match pass_over(&mut inner, &mut walk, &mut held.body) {
            Ok(_) => Ok(Chosen {
                inner,
                walk,
                held,
                stopped: None,
                failures: 0,
                told,
            }),
            Err(stop) => Err(ChoiceFault::Stopped(stop)),
        }
    }
}

impl<R> Chosen<R> {
    ghost use Rattle.cob_records_parts.specs.Comings.{coming_of};
    ghost use Rattle.cob_records_parts.specs.Gives.{chosen_failures, chosen_stop};
    ghost use Rattle.cob_records_parts.specs.Rests.{chosen_ahead};
    ghost use Rattle.cob_records_parts.specs.StillGiven.{IsLeftAt};

    // How much of what is left of the source inside is still given, where it did not stop and holds no part of a record.
    fn ahead(&self) -> Ahead
        ensures { result ≡ chosen_ahead self.now }
    {
        if self.stopped.is_some() || !self.held.is_empty() {
            return Ahead::Apart;
        }
        ahead_of(self.walk)
    }

    /// At which record it stopped, and why, where a read of it failed.
    pub fn stopped(&self) -> Option<Stopped>
        ensures stop { result ≡ chosen_stop self.now }
        ensures kind { IfSome result (λ stop. is_write_fault stop.fault ≡ false) }
        // Behind a fault that is no failed read just its mark is left; and where it did not stop, none of its reads has failed.
        ensures left { (now : Option (List ℕ)) → IsLeftAt result (coming_of now self.now) }
        ensures none { result ≡ None → chosen_failures self.now ≡ 0 }
    {
        self.stopped
    }
}

impl<R: Drop> Chosen<R> {
    ghost use Rattle.cob_records_parts.specs.Rests.{rest_inside};

    /// What is still given of the source inside, where that is all that is left of it, or its first bytes: nothing need be between then.
    ///
    /// # Errors
    ///
    /// This source, where its records are given apart.
    pub fn into_rest(self) -> Result<Rest<R>, Chosen<R>>
        ensures { result ≡ rest_inside self }
    {
        match self.ahead() {
            Ahead::All => Ok(Rest {
                inner: self.inner,
                bytes: None,
            }),
            Ahead::Bytes(bytes) => Ok(Rest {
                inner: self.inner,
                bytes: Some(bytes),
            }),
            Ahead::Apart => Err(self),
        }
    }
}

impl<R: Source> Chosen<R> {
    ghost use Rattle.cob_records_parts.specs.Comings.{chosen_coming};
    ghost use Rattle.cob_records_parts.specs.Gives.{CountsInnerReads, GivesBehind, IsRefilled, StopsGiving, chosen_failures, chosen_stop, chosen_walk};
    ghost use Rattle.cob_records_parts.specs.Helds.{held_bytes};
    ghost use Rattle.cob_records_parts.specs.Walks.{IsSameChoice};

    // Holds the next record that is chosen, where none is held and there is one.
    fn refilled(&mut self) -> Result<(), DeviceFault>
        requires { chosen_stop self.old ≡ None }
        ensures cause { chosen_failures self.new
            ≡ counted (is_err result) (chosen_failures self.old) }
        ensures same { IsSameChoice (chosen_walk self.old) (chosen_walk self.new) }
        ensures gives { OnOk result (GivesBehind R.coming [] self.old self.new) }
        ensures over { OnOk result (IsRefilled R.coming self.old self.new) }
        ensures runs { OnOk result (chosen_stop self.new ≡ None) }
        ensures stops { OnErr result (StopsGiving R.coming self.old self.new) }
        ensures reads { CountsInnerReads R.failures self.old self.new }
        ensures coming { chosen_coming R.coming self.new ≡ chosen_coming R.coming self.old }
        ensures end { OnOk result (length (held_bytes self.new.held) ≡ 0
            → IsAtEnd (chosen_coming R.coming self.new)) }
    {
        if !self.held.is_empty() {
            return Ok(());
        }
        let told = foretell(&*self);
        self.told = told;
        match refill(&mut self.inner, &mut self.walk, &mut self.held) {
            Ok(()) => Ok(()),
            Err(stop) => {
                self.stopped = Some(stop);
                self.failures = self.failures.wrapping_add(1);
                Err(DeviceFault)
            }
        }
    }
}

impl<R: Source> Source for Chosen<R> {
    ghost use Rattle.cob_records_parts.specs.Comings.{chosen_coming};
    ghost use Rattle.cob_records_parts.specs.Gives.{CountsInnerReads, GivesBehind, IsDrained, StopsGiving, chosen_failures, chosen_stop, chosen_walk};
    ghost use Rattle.cob_records_parts.specs.Walks.{IsSameChoice};

    ghost coming = { λ source. chosen_coming R.coming source };

    ghost failures = { λ source. chosen_failures source };

    /// Gives what is held, or of the next record that is chosen. Behind a record whose frame can't be read it fails.
    fn read(&mut self, piece: &mut [u8]) -> Result<usize, DeviceFault>
        ensures count { IfOk result (λ n. n ≤ length piece.new) }
        ensures bytes { IfOk result (λ n. chosen_coming R.coming self.old
            ≡ prepend_known (take n piece.new) (chosen_coming R.coming self.new)) }
        ensures end { IfOk result (λ n. n ≡ 0 → 0 < length piece.new
            → IsAtEnd (chosen_coming R.coming self.old)) }
        ensures kept { OnErr result
            (chosen_coming R.coming self.new ≡ chosen_coming R.coming self.old) }
        ensures cause { chosen_failures self.new
            ≡ counted (is_err result) (chosen_failures self.old) }
        // The same records are chosen, and what it gave stands behind what it had given; where it gave nothing, it is over.
        ensures same { IsSameChoice (chosen_walk self.old) (chosen_walk self.new) }
        ensures gives { IfOk result (λ n.
            GivesBehind R.coming (take n piece.new) self.old self.new) }
        ensures over { IfOk result (λ n. n ≡ 0 → 0 < length piece.new
            → IsDrained R.coming self.old self.new) }
        // It fails where a frame can't be read, and from then on; a read of the source inside failed exactly where that is why.
        ensures runs { OnOk result (chosen_stop self.new ≡ None) }
        ensures stops { OnErr result (chosen_stop self.old ≡ None
            → StopsGiving R.coming self.old self.new) }
        ensures stays { IfSome (chosen_stop self.old) (λ _. self.new.stopped ≡ self.old.stopped) }
        ensures reads { chosen_stop self.old ≡ None
            → CountsInnerReads R.failures self.old self.new }
    {
        if self.stopped.is_some() {
            self.failures = self.failures.wrapping_add(1);
            return Err(DeviceFault);
        }
        self.refilled()?;
        Ok(self.held.give(piece))
    }
}

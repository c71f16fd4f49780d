ghost use Rattle.std.specs.Prelude.{◌≡◌, ℕ, ◌<◌, ◌≤◌, List, [], ◌++◌, length, take, true};
ghost use Rattle.cob_limits.specs.Limits.{longest_block, longest_record};
ghost use Rattle.cob_records.specs.Forms.{HasBlockSize};
ghost use Rattle.cob_records.specs.Place.{is_place};

use crate::place::{StreamPlace, behind, behind_block, start};
use crate::records::Form;
use crate::report::{Report, what_is_ahead};

/// What has passed of a stream of records.
#[derive(Clone, Copy)]
pub(crate) struct Passed {
    form: Form,
    greatest: u16,
    place: StreamPlace,
    records: u64,
    bytes: u64,
    ghost block: { HasBlockSize form },
    ghost low: { 0 < greatest },
    ghost high: { greatest ≤ longest_record },
    ghost within: { is_place place ≡ true },
}

impl Passed {
    ghost use Rattle.cob_records.specs.Progress.{HasPassed, IsReportOf, LeadsTo, Passes, PassesRecord};

    /// What has passed of a stream before its first byte.
    pub(crate) fn new(form: Form, greatest: u16) -> Passed
        requires block { HasBlockSize form }
        requires low { 0 < greatest }
        requires high { greatest ≤ longest_record }
        ensures none { HasPassed [] result }
        ensures form { result.form ≡ form }
        ensures greatest { result.greatest ≡ greatest }
    {
        Passed {
            form,
            greatest,
            place: start(form, greatest, 0),
            records: 0,
            bytes: 0,
        }
    }

    // So many bytes pass, and the next one stands at this place. The answer is how many there are.
    fn move_to(&mut self, place: StreamPlace, count: usize) -> usize
        requires { is_place place ≡ true }
        ensures count { result ≡ count }
        ensures passed { (bytes part : List ℕ) → HasPassed bytes self.old → length part ≡ count
            → LeadsTo self.old place part → HasPassed (bytes ++ part) self.new }
        ensures form { self.new.form ≡ self.old.form }
        ensures greatest { self.new.greatest ≡ self.old.greatest }
    {
        self.place = place;
        self.bytes = self.bytes.saturating_add(count as u64);
        count
    }

    // The rest of a record passes, and the next byte begins a frame, for which the open block holds so many bytes. The answer is how many
    // bytes the rest had.
    fn end_record(&mut self, left: usize, room: usize) -> usize
        requires { room ≤ longest_block }
        ensures count { result ≡ left }
        ensures passed { PassesRecord left room self.old self.new }
        ensures form { self.new.form ≡ self.old.form }
        ensures greatest { self.new.greatest ≡ self.old.greatest }
    {
        self.place = start(self.form, self.greatest, room);
        self.records = self.records.saturating_add(1);
        self.bytes = self.bytes.saturating_add(left as u64);
        left
    }

    // Bytes from the front of the piece pass, some of them at least; the answer is how many.
    fn pass(&mut self, piece: &[u8]) -> usize
        requires { 0 < length piece.now }
        ensures some { 0 < result }
        ensures within { result ≤ length piece.now }
        ensures passed { Passes (take result piece.now) self.old self.new }
        ensures form { self.new.form ≡ self.old.form }
        ensures greatest { self.new.greatest ≡ self.old.greatest }
    {
        match self.place {
            StreamPlace::Block { head, seen } => {
                let place = behind_block(self.form, head, seen, piece[0], self.greatest);
                self.move_to(place, 1)
            }
            StreamPlace::Descriptor { head, seen, room } => {
                let place = behind(self.form, head, seen, room, piece[0], self.greatest);
                self.move_to(place, 1)
            }
            StreamPlace::Record { left, room } if piece.len() < left => {
                let place = StreamPlace::Record {
                    left: left - piece.len(),
                    room,
                };
                self.move_to(place, piece.len())
            }
            StreamPlace::Record { left, room } => self.end_record(left, room),
            StreamPlace::Lost => self.move_to(StreamPlace::Lost, piece.len()),
        }
    }

    /// The piece passes.
    pub(crate) fn add(&mut self, piece: &[u8])
        ensures passed { Passes piece.now self.old self.new }
        ensures form { self.new.form ≡ self.old.form }
        ensures greatest { self.new.greatest ≡ self.old.greatest }
    {
        let mut at: usize = 0;
        while at < piece.len() {
            at += self.pass(&piece[at..]);
        }
    }

    /// What is told of what has passed, where the stream has this size and so many seconds have gone by.
    pub(crate) fn report(&self, size: Option<u64>, elapsed: u64) -> Report
        ensures { (bytes : List ℕ) → HasPassed bytes self.now
            → IsReportOf self.now.form self.now.greatest size elapsed bytes result }
    {
        Report {
            records: self.records,
            bytes: self.bytes,
            ahead: what_is_ahead(size, elapsed, self.bytes),
        }
    }
}

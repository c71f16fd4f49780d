ghost use Rattle.std.specs.Prelude.{◌≡◌, ℕ, ◌<◌, ◌≤◌, ◌+◌, ◌*◌, ◌/◌, ◌%◌, List, ◌++◌, length, take, None, Some, Option, IfOk, OnErr, is_err, true, false};
ghost use Rattle.cob_records.specs.Device.{counted, took_nothing};
ghost use Rattle.cob_records.specs.Hex.{digit_character, hex_text};
ghost use Rattle.cob_program_job.specs.Printed.{Appends, IsTextBehind, bytes_behind, due_text, left_due, owes_begun, says_some, with_due};

use cob_records::{DeviceFault, Sink};
use std::marker::{Brand, PhantomData};

/// How many bytes are turned into digits at a time.
const PIECE: usize = 256;

/// How many digits these have.
const DIGITS: usize = 2 * PIECE;

/// What a sink had taken when bytes began to be printed to it.
pub trait Opening {
    ghost before: { Option (List ℕ) };
}

impl Opening for Brand {
    ghost before = { None };
}

/// A sink that writes each byte as two capital hexadecimal digits to another sink. A byte is taken as soon as its first digit went out;
/// the second one may be due then, and goes out before all else. It takes no memory.
#[derive(Drop)]
pub struct HexSink<W: Sink, K: Opening> {
    inner: W,
    due: Option<u8>,
    begun: bool,
    opening: PhantomData<K>,
    ghost text: { IsTextBehind K.before (with_due (W.taken inner) due) },
    ghost owed: { owes_begun due begun ≡ true },
    ghost said: { says_some begun (bytes_behind K.before (with_due (W.taken inner) due)) ≡ true },
}

/// The character of a digit.
fn character(digit: u8) -> u8
    requires { digit < 16 }
    ensures { result ≡ digit_character digit }
{
    if digit < 10 {
        b'0' + digit
    } else {
        b'A' + (digit - 10)
    }
}

/// Fills a buffer with the text of some bytes.
fn write_text(bytes: &[u8], text: &mut [u8])
    requires { length text.old ≡ 2 * length bytes.now }
    ensures { text.new ≡ hex_text bytes.now }
{
    for (at, byte) in bytes.iter().enumerate() {
        text[2 * at] = character(*byte / 16);
        text[2 * at + 1] = character(*byte % 16);
    }
}

/// The digit that is due where so many digits of a text went out, two for each byte.
fn digit_due(text: &[u8], went: usize) -> Option<u8>
    requires even { length text.now % 2 ≡ 0 }
    requires within { went ≤ length text.now }
    ensures pair { take went text.now ++ due_text result
        ≡ take (2 * (went / 2 + went % 2)) text.now }
    ensures none { went ≡ 0 → result ≡ None }
{
    if went % 2 == 0 {
        None
    } else {
        Some(text[went])
    }
}

impl<W: Sink, K: Opening> HexSink<W, K> {
    /// Writes to this sink, which had taken what is known of the opening.
    pub fn new(inner: W) -> HexSink<W, K>
        requires { W.taken inner ≡ K.before }
        ensures inner { result.inner ≡ inner }
        ensures due { result.due ≡ None }
        ensures begun { result.begun ≡ false }
    {
        HexSink {
            inner,
            due: None,
            begun: false,
            opening: PhantomData,
        }
    }

    /// The sink inside, the digit that is due, and whether a byte was taken.
    pub fn into_parts(self) -> (W, Option<u8>, bool)
        ensures inner { result.0 ≡ self.inner }
        ensures due { result.1 ≡ self.due }
        ensures begun { result.2 ≡ self.begun }
        ensures owed { owes_begun result.1 result.2 ≡ true }
    {
        let HexSink {
            inner,
            due,
            begun,
            ..
        } = self;
        (inner, due, begun)
    }

    /// Writes the digit that is due, and says whether none is left.
    fn put_due(&mut self) -> Result<bool, DeviceFault>
        ensures kept { with_due (W.taken self.new.inner) self.new.due
            ≡ with_due (W.taken self.old.inner) self.old.due }
        ensures none { IfOk result (λ done. done ≡ true → self.new.due ≡ None) }
        ensures cause { W.failures self.new.inner
            ≡ counted (left_due result) (W.failures self.old.inner) }
        ensures errors { W.errors self.new.inner
            ≡ counted (is_err result) (W.errors self.old.inner) }
    {
        let Some(digit) = self.due else {
            return Ok(true);
        };
        if self.inner.write(&[digit])? == 0 {
            return Ok(false);
        }
        self.due = None;
        Ok(true)
    }

    /// Writes the text of some bytes, where no digit is due, and says how many were taken.
    fn put_text(&mut self, bytes: &[u8]) -> Result<usize, DeviceFault>
        requires due { self.old.due ≡ None }
        requires some { 0 < length bytes.now }
        ensures count { IfOk result (λ n. n ≤ length bytes.now) }
        ensures text { IfOk result (λ n. Appends (with_due (W.taken self.old.inner) self.old.due)
            (with_due (W.taken self.new.inner) self.new.due) (take n bytes.now)) }
        ensures kept { OnErr result (with_due (W.taken self.new.inner) self.new.due
            ≡ with_due (W.taken self.old.inner) self.old.due) }
        ensures cause { W.failures self.new.inner
            ≡ counted (took_nothing result bytes.now) (W.failures self.old.inner) }
        ensures errors { W.errors self.new.inner
            ≡ counted (is_err result) (W.errors self.old.inner) }
    {
        let size = bytes.len().min(PIECE);
        let mut digits = [0; DIGITS];
        let text = &mut digits[..2 * size];
        write_text(&bytes[..size], text);
        let went = self.inner.write(text)?;
        self.due = digit_due(text, went);
        let count = went / 2 + went % 2;
        self.begun |= count > 0;
        Ok(count)
    }
}

impl<W: Sink, K: Opening> Sink for HexSink<W, K> {
    ghost taken = { λ sink. bytes_behind K.before (with_due (W.taken sink.inner) sink.due) };

    ghost failures = { λ sink. W.failures sink.inner };

    ghost errors = { λ sink. W.errors sink.inner };

    fn write(&mut self, piece: &[u8]) -> Result<usize, DeviceFault> {
        if piece.is_empty() || !self.put_due()? {
            return Ok(0);
        }
        self.put_text(piece)
    }
}

//! Steps of numbers of edited items, carried out.

ghost use Rattle.std.specs.Prelude.{◌≡◌, ◌≤◌, ◌↔◌, true, false, List, ℕ, IsTrue, IsFalse, length};
ghost use Rattle.cob_codec_lanes.specs.Texts.{all_lanes, AreWidelyShown, padded_text};
ghost use Rattle.cob_codec_lanes.specs.Windows.{last_bytes};
ghost use Rattle.cob_move_steps.specs.Deedits.{IsTextCarriedOut, IsTextRead};
ghost use Rattle.cob_move_steps.specs.Ends.{IsItemWritten};
ghost use Rattle.cob_move_receive.specs.Received.{outcome};

use crate::edit_running::zeros_in_front;
use crate::number_ends::{NumberWriter, ReceiverWriter};
use crate::text_reader::TextReader;
use crate::text_step::TextStep;
use cob_codec_lanes::{LanesRead, TextLanes, WideText, keeps_minus};
use std::simd::prelude::*;

/// The text of so many bytes at the end of bytes.
#[inline(always)]
fn last_text(bytes: &[u8], size: usize) -> TextLanes
    requires within { size ≤ length bytes.now }
    requires fits { size ≤ 32 }
    ensures { all_lanes result ≡ padded_text (last_bytes size bytes.now) }
{
    TextLanes::of(&bytes[bytes.len() - size..])
}

/// Whether a text is that of digits: with a minus, if it isn't the one without.
#[inline(always)]
fn is_either(own: &WideText, digits: u8x16, plus: bool, text: &TextLanes) -> bool
    ensures plus { IsTrue plus → IsTrue result }
    ensures minus { IsFalse plus → (bytes : List ℕ) × AreWidelyShown own.now true digits bytes
        × (IsTrue result ↔ (bytes ≡ all_lanes text.now)) }
{
    plus || own.is(digits, true, text)
}

impl TextReader {
    /// The number of the edited item at the end of bytes, and none where there are fewer.
    #[inline(always)]
    fn read(&self, bytes: &[u8]) -> LanesRead
        ensures { IsTextRead self.now bytes.now result.is_number result.minus result.digits }
    {
        if bytes.len() < self.size {
            return LanesRead {
                is_number: false,
                minus: false,
                digits: u8x16::splat(0),
            };
        }
        let text = last_text(bytes, self.size);
        let digits = self.places.digits(&text);
        let zeros = zeros_in_front(digits, self.digits);
        let own = &self.texts[zeros];
        let plus = own.is(digits, false, &text);
        LanesRead {
            is_number: is_either(own, digits, plus, &text),
            minus: !plus,
            digits: self.kept.keep(digits),
        }
    }
}

/// Writes a number into all bytes of an item, which are at most sixteen.
#[inline(always)]
fn write_number(writer: &NumberWriter, digits: u8x16, minus: bool, to: &mut [u8])
    ensures { IsItemWritten writer.now digits minus (length to.old) to.new }
{
    if to.len() <= 16 {
        writer.write(digits, minus, to);
    }
}

impl TextStep {
    /// Moves the number of the edited sender that ends bytes to a receiver's bytes, as a step of two numbers does.
    ///
    /// False where the sender's bytes are no number's text: the receiver's bytes are as they were then.
    ///
    /// It isn't inlined: a loop over many steps of all kinds stays one short function so.
    #[inline(never)]
    pub fn run(&self, from: &[u8], to: &mut [u8]) -> bool
        requires { length to.old ≤ 32 }
        ensures gets { IsTextCarriedOut self.now from.now (length to.old) (outcome result to.new) }
        ensures same { result ≡ false → to.new ≡ to.old }
    {
        let read = self.reader.read(from);
        if !read.is_number {
            return false;
        }
        let digits = read.digits;
        match &self.writer {
            ReceiverWriter::Number(writer) => {
                write_number(writer, digits, keeps_minus(read.minus, digits), to);
            }
            ReceiverWriter::Text(writer) => writer.write(digits, read.minus, to),
        }
        true
    }
}

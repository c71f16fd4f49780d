//! Steps of numbers of any number of digits, carried out.

ghost use Rattle.std.specs.Prelude.{◌≡◌, ◌-◌, ◌≤◌, ◌++◌, ℕ, Bool, List, IsTrue, false, length, take};
ghost use Rattle.cob_codec_lanes.specs.DigitItems.{AreDigitsMade, AreDigitsRead};
ghost use Rattle.cob_codec_lanes.specs.Lanes.{AreTens};
ghost use Rattle.cob_codec_lanes.specs.WideWords.{IsWideWordRead, IsWideWordWritten};
ghost use Rattle.cob_codec_lanes.specs.Writers.{AreMadeOfBoth};
ghost use Rattle.cob_move_steps.specs.Ends.{IsItemWritten};
ghost use Rattle.cob_move_steps.specs.declared.long_ends.LongReader.TheVariants.{Text};
ghost use Rattle.cob_move_steps.specs.Long.{IsLongCarriedOut, IsLongRead, IsLongWritten};
ghost use Rattle.cob_move_receive.specs.Received.{outcome};

use crate::long_ends::{LongReader, LongReceiver, LongWriter};
use crate::long_step::LongStep;
use crate::long_text_reader::LongTextReader;
use crate::number_ends::NumberWriter;
use cob_codec_lanes::{
    DigitReader, DigitWriter, WideRead, WideWordReader, WideWordWriter, WideWriter,
    keeps_minus_of_both,
};
use std::simd::prelude::*;

/// That there is no number.
#[inline(always)]
fn no_number() -> WideRead
    ensures { result.is_number ≡ false }
{
    WideRead {
        is_number: false,
        minus: false,
        front: u8x16::splat(0),
        back: u8x16::splat(0),
    }
}

/// The number of the item at the end of bytes that has a byte for each digit, and none where there are fewer.
#[inline(always)]
fn read_digits(reader: &DigitReader, bytes: &[u8]) -> WideRead
    ensures { reader.now.digits.size ≤ length bytes.now → AreDigitsRead reader.now bytes.now
        result.is_number result.minus result.front result.back }
{
    if bytes.len() < reader.digits.size {
        return no_number();
    }
    reader.read(bytes)
}

/// The number of the binary item at the end of bytes, and none where there are fewer.
#[inline(always)]
fn read_word(reader: &WideWordReader, bytes: &[u8]) -> WideRead
    ensures { IsWideWordRead reader.now bytes.now
        result.is_number result.minus result.front result.back }
{
    if bytes.len() < reader.width.bytes() {
        return no_number();
    }
    reader.read(bytes)
}

impl LongReader {
    /// The number that the item at the end of bytes gives.
    #[inline(always)]
    fn read(&self, bytes: &[u8]) -> WideRead
        ensures { IsLongRead self.now bytes.now
            result.is_number result.minus result.front result.back }
    {
        match self {
            LongReader::Lanes(reader) => reader.read(bytes),
            LongReader::Digits(reader) => read_digits(reader, bytes),
            LongReader::Word(reader) => read_word(reader, bytes),
            LongReader::Text(reader) => reader.read(bytes),
        }
    }
}

/// Writes a number of at most sixteen digits into all bytes of an item, where they are at most sixteen.
#[inline(always)]
fn write_short(writer: &NumberWriter, digits: u8x16, minus: bool, to: &mut [u8])
    ensures { length to.old ≤ 16 → IsItemWritten writer.now digits minus (length to.old) to.new }
{
    if to.len() <= 16 {
        writer.write(digits, minus, to);
    }
}

/// Writes a packed item of more than sixteen digits, where it has at most sixteen bytes.
#[inline(always)]
fn write_packed(writer: &WideWriter, front: u8x16, back: u8x16, minus: bool, to: &mut [u8])
    ensures { length to.old ≤ 16 → (bytes : List ℕ)
        × AreMadeOfBoth writer.now minus front back bytes × (to.new ≡ take (length to.old) bytes) }
{
    if to.len() <= 16 {
        writer.write(front, back, minus, to);
    }
}

/// Writes an item that has a byte for each digit, where so many bytes are its.
#[inline(always)]
fn write_digits(writer: &DigitWriter, front: u8x16, back: u8x16, minus: bool, to: &mut [u8])
    ensures { length to.old ≡ writer.now.digits.size → AreTens front → AreTens back
        → AreDigitsMade writer.now minus
        (take (writer.now.digits.count - 16) front ++ back) to.new }
{
    if to.len() == writer.digits.size {
        writer.write(front, back, minus, to);
    }
}

/// Writes a binary item of more than sixteen digits, where so many bytes are its.
#[inline(always)]
fn write_word(writer: &WideWordWriter, front: u8x16, back: u8x16, minus: bool, to: &mut [u8])
    ensures { length to.old ≡ 8 → IsWideWordWritten writer.now front back minus to.new }
{
    if to.len() == 8 {
        writer.write(front, back, minus, to);
    }
}

impl LongWriter {
    /// Writes the digits of a number, those in front and the last sixteen, with its sign into all bytes of an item.
    #[inline(always)]
    fn write(&self, front: u8x16, back: u8x16, minus: bool, to: &mut [u8])
        ensures { IsLongWritten self.now front back minus (length to.old) to.new }
    {
        match self {
            LongWriter::Short(writer) => write_short(writer, back, minus, to),
            LongWriter::Packed(writer) => write_packed(writer, front, back, minus, to),
            LongWriter::Digits(writer) => write_digits(writer, front, back, minus, to),
            LongWriter::Word(writer) => write_word(writer, front, back, minus, to),
        }
    }
}

impl LongStep {
    /// Moves a number that was read to a receiver's bytes, as a number, edited or as characters. False where none was read.
    ///
    /// Whether the sender is edited is a type parameter: so each of the two calls is inlined, and no number that was read goes through memory.
    #[inline(always)]
    fn put<const EDITED: bool>(&self, read: WideRead, to: &mut [u8]) -> bool
        ensures gets { (bytes : List ℕ) → IsLongRead self.now.reader bytes
            read.is_number read.minus read.front read.back
            → IsLongCarriedOut self.now bytes (length to.old) (outcome result to.new) }
        ensures same { result ≡ false → to.new ≡ to.old }
    {
        if !read.is_number {
            return false;
        }
        let front = self.front.keep(read.front, read.back);
        let back = self.back.keep(read.front, read.back);
        match &self.writer {
            LongReceiver::Number(writer) => {
                let minus = keeps_minus_of_both(read.minus, front, back);
                writer.write(front, back, minus, to);
            }
            LongReceiver::Text(writer) => writer.write(front, back, read.minus, to),
            LongReceiver::Characters(writer) => writer.write(front, back, to),
        }
        true
    }

    /// Moves the number of an edited sender, as [`LongStep::run`] does, where this is the step's reader.
    ///
    /// It isn't inlined: what carries out steps of other senders clears no memory for texts so, and stays short.
    #[inline(never)]
    fn run_edited(&self, reader: &LongTextReader, from: &[u8], to: &mut [u8]) -> bool
        ensures gets { self.now.reader ≡ Text reader.now
            → IsLongCarriedOut self.now from.now (length to.old) (outcome result to.new) }
        ensures same { result ≡ false → to.new ≡ to.old }
    {
        let read = reader.read(from);
        self.put::<true>(read, to)
    }

    /// Moves the number of the sender that ends bytes to a receiver's bytes, as a step of two shorter numbers does, or its digits as characters. A
    /// binary sender is read as its picture says.
    ///
    /// False where the sender's bytes represent no number: the receiver's bytes are as they were then.
    ///
    /// It isn't inlined: a loop over many steps of all kinds stays one short function so.
    #[inline(never)]
    pub fn run(&self, from: &[u8], to: &mut [u8]) -> bool
        ensures gets { IsLongCarriedOut self.now from.now (length to.old)
            (outcome result to.new) }
        ensures same { result ≡ false → to.new ≡ to.old }
    {
        match &self.reader {
            LongReader::Text(reader) => self.run_edited(reader, from, to),
            _ => {
                let read = self.reader.read(from);
                self.put::<false>(read, to)
            }
        }
    }
}

use crate::long_numerals::LongNumerals;
use crate::long_text_reader::LongTextReader;
use crate::long_text_writer::LongTextWriter;
use crate::number_ends::NumberWriter;
use cob_codec_lanes::{
    DigitReader, DigitWriter, PairReader, WideWordReader, WideWordWriter, WideWriter,
};

/// What reads the number that items of one kind give, of any number of digits.
#[derive(Drop)]
pub enum LongReader {
    /// Those of at most sixteen bytes that aren't binary.
    Lanes(PairReader),
    /// Those of more bytes, each of a digit or the sign.
    Digits(DigitReader),
    /// Binary ones.
    Word(WideWordReader),
    /// Edited ones.
    Text(LongTextReader),
}

/// What writes the number of items of one kind of storage, of any number of digits.
#[derive(Clone, Copy)]
pub enum LongWriter {
    /// Those that sixteen lanes hold.
    Short(NumberWriter),
    /// Packed ones of more than sixteen digits.
    Packed(WideWriter),
    /// Those of more than sixteen bytes, each of a digit or the sign.
    Digits(DigitWriter),
    /// Binary ones of more than sixteen digits.
    Word(WideWordWriter),
}

/// What writes the number that items of one kind receive, of any number of digits.
#[derive(Drop)]
pub enum LongReceiver {
    /// Those that are stored as numbers.
    Number(LongWriter),
    /// Edited ones.
    Text(LongTextWriter),
    /// Those that take its digits as characters.
    Characters(LongNumerals),
}

//! The values of items.

ghost use Rattle.std.specs.Prelude.{◌≡◌, ◌≤◌, ◌<◌, ◌+◌, ◌++◌, length, IfErr, IfSome, IfNone, Some, None, is_err, true, false, Bool, List, [], ◌∷◌, ℕ};
ghost use Rattle.cob_records.specs.Hex.{digit_character, byte_text};
ghost use Rattle.cob_copybook_tree.specs.Lengths.{item_size};
ghost use Rattle.cob_cp037.specs.Table.{IsCoded};
ghost use Rattle.cob_copybook_tree.specs.Items.{IsNumberItem, Represents};
ghost use Rattle.cob_report_show.specs.Values.{IsNumberShown, IsNoNumber, IsByteShown, IsBytePiece, ArePieces, AreQuoted, AreUnknown, IsNumberValue, IsValueShown, is_escaped, escaped};
ghost use Rattle.cob_report_show.specs.Lines.{IsLineWith};
ghost use Rattle.cob_report_show.specs.Sent.{SendsAdded, SendsFront, SendsOne};
ghost use Rattle.cob_records.specs.Device.{counted, Took};
ghost use Rattle.cob_records.specs.Frame.{is_write_error, is_write_fault};

use crate::text::{ListingLine, push_text, put};
use arrayvec::ArrayVec;
use cob_cp037::decode_byte;
use cob_layout::{Item, is_number_item, read_number};
use cob_records::{RecordFault, Sink};

/// The quotation mark of code page 037.
const QUOTE: u8 = 0x7F;

/// The backslash of code page 037.
const BACKSLASH: u8 = 0xE0;

/// The character of a hexadecimal digit.
fn digit(value: u8) -> u8
    requires { value < 16 }
    ensures { result ≡ digit_character value }
{
    if value < 10 {
        b'0' + value
    } else {
        b'A' + (value - 10)
    }
}

/// Whether a byte is that of a quotation mark or of a backslash, which have a meaning of their own in what is shown.
fn is_escaped(byte: u8) -> bool
    ensures { result ≡ is_escaped byte }
{
    byte == QUOTE || byte == BACKSLASH
}

/// The character that shows a byte, where one does.
fn plain_character(byte: u8) -> Option<u8>
    ensures found { IfSome result (λ character. IsCoded character byte) }
    ensures only { (character : ℕ) → IsCoded character byte → is_escaped byte ≡ false
        → result ≡ Some character }
    ensures plain { IfSome result (λ _. is_escaped byte ≡ false) }
    ensures mark { is_escaped byte ≡ true → result ≡ None }
{
    if is_escaped(byte) {
        return None;
    }
    decode_byte(byte)
}

/// How a byte is shown among characters: as its character, or where it has none, or is a quotation mark or a backslash, as `\x`
/// and its two hexadecimal digits.
pub fn shown_byte(byte: u8) -> ArrayVec<u8, 4>
    ensures plain { (character : ℕ) → IsCoded character byte → is_escaped byte ≡ false
        → result.items ≡ character ∷ [] }
    ensures mark { is_escaped byte ≡ true → result.items ≡ escaped byte }
    ensures none { ((character : ℕ) → IsCoded character byte → ⊥)
        → result.items ≡ escaped byte }
    ensures shown { IsByteShown byte result.items }
    ensures long { length result.items ≤ 4 }
{
    let mut text = ArrayVec::new();
    match plain_character(byte) {
        Some(character) => text.push(character),
        None => {
            text.push(b'\\');
            text.push(b'x');
            text.push(digit(byte / 16));
            text.push(digit(byte % 16));
        }
    }
    text
}

/// The text of the number that the bytes of an item represent, where they represent one.
pub fn number_text(item: &Item, bytes: &[u8]) -> Option<ArrayVec<u8, 64>>
    requires number { IsNumberItem item.now }
    requires long { length bytes.now ≡ item_size item.now }
    ensures found { IfSome result (λ text. IsNumberShown item.now bytes.now text.items) }
    ensures none { IfNone result ((negative : Bool) (digits : List ℕ)
        → Represents item.now bytes.now negative digits → ⊥) }
{
    let number = read_number(item, bytes)?;
    let mut text = ArrayVec::new();
    number.write_text(&mut text);
    Some(text)
}

/// How bytes are written.
#[derive(Clone, Copy, PartialEq, Eq)]
pub(crate) enum Notation {
    /// Among characters.
    Characters,
    /// By their hexadecimal digits.
    Digits,
}

/// The hexadecimal digits of a byte.
pub fn digits_of(byte: u8) -> ArrayVec<u8, 4>
    ensures digits { result.items ≡ byte_text byte }
    ensures long { length result.items ≤ 4 }
{
    let mut digits = ArrayVec::new();
    digits.push(digit(byte / 16));
    digits.push(digit(byte % 16));
    digits
}

/// How a byte is written.
fn piece_of(notation: Notation, byte: u8) -> ArrayVec<u8, 4>
    ensures piece { IsBytePiece notation byte result.items }
    ensures long { length result.items ≤ 4 }
{
    match notation {
        Notation::Characters => shown_byte(byte),
        Notation::Digits => digits_of(byte),
    }
}

/// Writes what a line holds where there is no room left in it for a further byte and for its end.
fn make_room<W: Sink>(
    sink: &mut W,
    sent: &mut u64,
    line: &mut ListingLine,
) -> Result<(), RecordFault>
    ensures lines { Took (W.taken sink.old) (W.taken sink.new)
        (SendsFront line.old.items line.new.items sent.old sent.new result) }
    ensures room { length line.new.items + 6 ≤ 256 }
    ensures kind { IfErr result (λ fault. is_write_fault fault ≡ true) }
    ensures cause { W.failures sink.new ≡ counted (is_err result) (W.failures sink.old) }
    ensures errors { W.errors sink.new ≡ counted (is_write_error result) (W.errors sink.old) }
{
    if line.remaining_capacity() >= 6 {
        return Ok(());
    }
    let answer = put(sink, sent, line.as_slice());
    line.clear();
    answer
}

/// Adds bytes to a line, and writes what it holds where there is no room in it.
fn put_pieces<W: Sink>(
    sink: &mut W,
    sent: &mut u64,
    line: &mut ListingLine,
    notation: Notation,
    bytes: &[u8],
) -> Result<(), RecordFault>
    requires { length line.old.items + 2 ≤ 256 }
    ensures lines { Took (W.taken sink.old) (W.taken sink.new)
        (SendsAdded line.old.items line.new.items (ArePieces notation bytes.now)
        sent.old sent.new result) }
    ensures room { length line.new.items + 2 ≤ 256 }
    ensures kind { IfErr result (λ fault. is_write_fault fault ≡ true) }
    ensures cause { W.failures sink.new ≡ counted (is_err result) (W.failures sink.old) }
    ensures errors { W.errors sink.new ≡ counted (is_write_error result) (W.errors sink.old) }
{
    for byte in bytes {
        make_room(sink, sent, line)?;
        push_text(line, piece_of(notation, *byte).as_slice());
    }
    Ok(())
}

/// Ends a line whose value is that of bytes as characters, in quotation marks, and writes it.
fn put_characters<W: Sink>(
    sink: &mut W,
    sent: &mut u64,
    line: &mut ListingLine,
    bytes: &[u8],
) -> Result<(), RecordFault>
    requires { length line.old.items + 66 ≤ 256 }
    ensures lines { Took (W.taken sink.old) (W.taken sink.new)
        (SendsOne (IsLineWith line.old.items (AreQuoted bytes.now)) sent.old sent.new result) }
    ensures kind { IfErr result (λ fault. is_write_fault fault ≡ true) }
    ensures cause { W.failures sink.new ≡ counted (is_err result) (W.failures sink.old) }
    ensures errors { W.errors sink.new ≡ counted (is_write_error result) (W.errors sink.old) }
{
    line.push(b'"');
    put_pieces(sink, sent, line, Notation::Characters, bytes)?;
    line.push(b'"');
    line.push(b'\n');
    put(sink, sent, line.as_slice())
}

/// Ends a line whose value is that of bytes that represent no number, a question mark and their hexadecimal digits, and writes it.
fn put_unknown<W: Sink>(
    sink: &mut W,
    sent: &mut u64,
    line: &mut ListingLine,
    bytes: &[u8],
) -> Result<(), RecordFault>
    requires { length line.old.items + 66 ≤ 256 }
    ensures lines { Took (W.taken sink.old) (W.taken sink.new)
        (SendsOne (IsLineWith line.old.items (AreUnknown bytes.now)) sent.old sent.new result) }
    ensures kind { IfErr result (λ fault. is_write_fault fault ≡ true) }
    ensures cause { W.failures sink.new ≡ counted (is_err result) (W.failures sink.old) }
    ensures errors { W.errors sink.new ≡ counted (is_write_error result) (W.errors sink.old) }
{
    line.push(b'?');
    put_pieces(sink, sent, line, Notation::Digits, bytes)?;
    line.push(b'\n');
    put(sink, sent, line.as_slice())
}

/// Ends a line whose value is that of a number item, and writes it.
fn put_number<W: Sink>(
    sink: &mut W,
    sent: &mut u64,
    line: &mut ListingLine,
    item: &Item,
    bytes: &[u8],
) -> Result<(), RecordFault>
    requires room { length line.old.items + 66 ≤ 256 }
    requires number { IsNumberItem item.now }
    requires long { length bytes.now ≡ item_size item.now }
    ensures lines { Took (W.taken sink.old) (W.taken sink.new)
        (SendsOne (IsLineWith line.old.items (IsNumberValue item.now bytes.now))
        sent.old sent.new result) }
    ensures kind { IfErr result (λ fault. is_write_fault fault ≡ true) }
    ensures cause { W.failures sink.new ≡ counted (is_err result) (W.failures sink.old) }
    ensures errors { W.errors sink.new ≡ counted (is_write_error result) (W.errors sink.old) }
{
    let Some(text) = number_text(item, bytes) else {
        return put_unknown(sink, sent, line, bytes);
    };
    push_text(line, text.as_slice());
    line.push(b'\n');
    put(sink, sent, line.as_slice())
}

/// Ends a line with the value of an item of these bytes, and writes it: a number, `?` and the bytes of a number item that represent none,
/// or characters.
pub(crate) fn put_value<W: Sink>(
    sink: &mut W,
    sent: &mut u64,
    line: &mut ListingLine,
    item: &Item,
    bytes: &[u8],
) -> Result<(), RecordFault>
    requires room { length line.old.items + 66 ≤ 256 }
    requires long { length bytes.now ≡ item_size item.now }
    ensures lines { Took (W.taken sink.old) (W.taken sink.new)
        (SendsOne (IsLineWith line.old.items (IsValueShown item.now bytes.now))
        sent.old sent.new result) }
    ensures kind { IfErr result (λ fault. is_write_fault fault ≡ true) }
    ensures cause { W.failures sink.new ≡ counted (is_err result) (W.failures sink.old) }
    ensures errors { W.errors sink.new ≡ counted (is_write_error result) (W.errors sink.old) }
{
    if is_number_item(item) {
        put_number(sink, sent, line, item, bytes)
    } else {
        put_characters(sink, sent, line, bytes)
    }
}

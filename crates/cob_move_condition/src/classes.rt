//! Whether entries are of a class.

ghost use Rattle.std.specs.Prelude.{◌≡◌, ◌↔◌, true, IsTrue};
ghost use Rattle.cob_codec.specs.Readings.{keeping_zones};
ghost use Rattle.cob_move_receive.specs.Sent.{HasAllBytes, Entry, sent};
ghost use Rattle.cob_move_condition.specs.Classes.{AreOfClass, IsInClass, IsOfLetters, is_capital, is_class_byte, is_from, is_small};
ghost use Rattle.cob_move_condition.specs.declared.class.Class.TheVariants.{Numeric};

use crate::class::Class;
use crate::comparable::{is_number_operand, kind_of};
use crate::comparing::number_of_operand;
use cob_codec::Reading;
use cob_copybook_tree::Kind;
use cob_cp037::{NINE, SPACE, ZERO};
use cob_move_receive::Sent;

/// Whether a byte is one from another to a third.
fn is_from(low: u8, high: u8, byte: u8) -> bool
    ensures { result ≡ is_from low high byte }
{
    low <= byte && byte <= high
}

/// Whether a byte is that of a capital letter.
fn is_capital(byte: u8) -> bool
    ensures { result ≡ is_capital byte }
{
    is_from(0xC1, 0xC9, byte) || (is_from(0xD1, 0xD9, byte) || is_from(0xE2, 0xE9, byte))
}

/// Whether a byte is that of a small letter.
fn is_small(byte: u8) -> bool
    ensures { result ≡ is_small byte }
{
    is_from(0x81, 0x89, byte) || (is_from(0x91, 0x99, byte) || is_from(0xA2, 0xA9, byte))
}

/// Whether characters of the class may have this byte.
fn is_class_byte(class: Class, byte: u8) -> bool
    ensures { result ≡ is_class_byte class byte }
{
    match class {
        Class::Numeric => is_from(ZERO, NINE, byte),
        Class::Alphabetic => byte == SPACE || (is_capital(byte) || is_small(byte)),
        Class::AlphabeticLower => byte == SPACE || is_small(byte),
        Class::AlphabeticUpper => byte == SPACE || is_capital(byte),
    }
}

/// Whether all bytes are of the class.
fn are_of_class(class: Class, bytes: &[u8]) -> bool
    ensures { IsTrue result ↔ AreOfClass class bytes.now }
{
    bytes.iter().all(|byte| is_class_byte(class, *byte))
}

/// What an entry gives where its zones are read strictly.
fn as_it_stands<'a>(kind: &'a Kind, bytes: &'a [u8], reading: Reading) -> Sent<'a>
    ensures { sent result ≡ Entry kind.now bytes.now (keeping_zones reading) }
{
    Sent::Entry {
        kind,
        bytes,
        reading: reading.keeping_zones(),
    }
}

/// Whether what an operand gives is numeric.
fn is_numeric(given: &Sent<'_>) -> bool
    requires { HasAllBytes (sent given.now) }
    ensures { (result ≡ true) ↔ IsInClass Numeric (sent given.now) }
{
    match given {
        Sent::Constant(_) => false,
        Sent::Entry {
            kind,
            bytes,
            reading,
        } => {
            if is_number_operand(&kind_of(given)) {
                number_of_operand(&as_it_stands(kind, bytes, *reading)).is_some()
            } else {
                are_of_class(Class::Numeric, bytes)
            }
        }
    }
}

/// Whether what an operand gives are letters or spaces of a class.
fn is_of_letters(class: Class, given: &Sent<'_>) -> bool
    requires { IsOfLetters class }
    ensures { (result ≡ true) ↔ IsInClass class (sent given.now) }
{
    match given {
        Sent::Constant(_) => false,
        Sent::Entry { bytes, .. } => are_of_class(class, bytes),
    }
}

/// Whether what an operand gives is of a class.
pub fn is_in_class(class: Class, given: &Sent<'_>) -> bool
    requires { HasAllBytes (sent given.now) }
    ensures { (result ≡ true) ↔ IsInClass class (sent given.now) }
{
    match class {
        Class::Numeric => is_numeric(given),
        Class::Alphabetic => is_of_letters(Class::Alphabetic, given),
        Class::AlphabeticLower => is_of_letters(Class::AlphabeticLower, given),
        Class::AlphabeticUpper => is_of_letters(Class::AlphabeticUpper, given),
    }
}

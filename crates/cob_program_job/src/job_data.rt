ghost use Rattle.std.specs.Prelude.{◌≡◌, ◌≤◌, ◌<◌, ◌+◌, ◌*◌, ◌%◌, ◌∷◌, ◌++◌, length, IfOk, IfErr, IfSome, OnOk, true, [], List};
ghost use Rattle.std.specs.List.{list_all};
ghost use Rattle.std.specs.Char.{is_ascii_hexdigit, to_ascii_uppercase};
ghost use Rattle.cob_records.specs.Hex.{byte_text, digit_character};
ghost use Rattle.cob_program_job.specs.JobData.{is_data_line, line_digits, AreDigitsOf, IsData, IsRefusedBy, line_number_behind};
ghost use Rattle.cob_program_job.specs.declared.job_data.DataFault.TheVariants.{Memory};

use crate::job_text::{Lines, split_line};
use memchr::memchr;
use std::alloc::{AllocError, Global};

/// Why data are not read.
#[derive(Clone, Copy, PartialEq, Eq)]
pub enum DataFault {
    /// A bad line, with its number in the job.
    Line(u32),
    /// Memory was refused.
    Memory,
}

impl From<AllocError> for DataFault {
    ghost from_gives = { λ _ fault. fault ≡ Memory };

    fn from(_: AllocError) -> DataFault {
        DataFault::Memory
    }
}

/// The value of a digit.
fn digit_value(digit: u8) -> u8
    requires { is_ascii_hexdigit digit ≡ true }
    ensures value { result < 16 }
    ensures character { digit_character result ≡ to_ascii_uppercase digit }
{
    let value = digit % 16;
    if digit > b'9' { value + 9 } else { value }
}

/// The byte of two digits.
fn byte_of(high: u8, low: u8) -> u8
    requires high { is_ascii_hexdigit high ≡ true }
    requires low { is_ascii_hexdigit low ≡ true }
    ensures { byte_text result ≡ to_ascii_uppercase high ∷ to_ascii_uppercase low ∷ [] }
{
    digit_value(high) * 16 + digit_value(low)
}

/// Whether a line holds nothing but digits and spaces. It looks at each character, since a loop that does not end early is made into
/// vector instructions.
fn is_data(line: &[u8]) -> bool
    ensures { result ≡ is_data_line line.now }
{
    let mut all = true;
    for character in line {
        all &= character.is_ascii_hexdigit() | (*character == b' ');
    }
    all
}

/// Adds the digits of a line.
fn add_digits(digits: &mut Vec<u8>, line: &[u8]) -> Result<(), AllocError>
    ensures { OnOk result (digits.new.items ≡ digits.old.items ++ line_digits line.now) }
{
    let mut rest = line;
    while let Some(at) = memchr(b' ', rest) {
        digits.extend_from_slice(&rest[..at])?;
        rest = &rest[at + 1..];
    }
    digits.extend_from_slice(rest)
}

/// Fills the bytes with what the digits stand for.
fn fill(digits: &[u8], bytes: &mut [u8])
    requires size { length digits.now ≡ 2 * length bytes.old }
    requires digits { list_all is_ascii_hexdigit digits.now ≡ true }
    ensures value { AreDigitsOf digits.now bytes.new }
{
    for at in 0..bytes.len() {
        bytes[at] = byte_of(digits[2 * at], digits[2 * at + 1]);
    }
}

/// The bytes that digits stand for, two for each.
fn bytes_of(alloc: Global, digits: &[u8]) -> Result<Vec<u8>, AllocError>
    requires even { length digits.now % 2 ≡ 0 }
    requires digits { list_all is_ascii_hexdigit digits.now ≡ true }
    ensures { IfOk result (λ bytes. AreDigitsOf digits.now bytes.items) }
{
    let mut bytes = vec![in alloc; 0u8; digits.len() / 2]?;
    fill(digits, bytes.as_mut_slice());
    Ok(bytes)
}

/// The bytes of data, whose first line has this number in the job: hexadecimal digits in pairs, with spaces and line ends anywhere
/// between them. It takes room for the digits and for the bytes.
pub fn decode(alloc: Global, text: &[u8], first_line: u32) -> Result<Vec<u8>, DataFault>
    ensures bytes { IfOk result (λ bytes. IsData text.now bytes.items) }
    ensures refused { IfErr result (λ fault. IsRefusedBy text.now first_line fault) }
{
    let mut digits = Vec::with_capacity(alloc, text.len())?;
    let mut lines = Lines {
        rest: text,
        number: first_line,
    };
    let mut last = first_line;
    while !lines.rest.is_empty() {
        let (line, rest) = split_line(lines.rest);
        last = lines.number;
        if !is_data(line) {
            return Err(DataFault::Line(last));
        }
        add_digits(&mut digits, line)?;
        lines.rest = rest;
        lines.number = last.saturating_add(1);
    }
    if digits.len() % 2 != 0 {
        return Err(DataFault::Line(last));
    }
    Ok(bytes_of(alloc, &digits)?)
}

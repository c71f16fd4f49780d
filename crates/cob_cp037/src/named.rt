//! The bytes of the characters that the rules of COBOL name.

ghost use Rattle.std.specs.Prelude.{◌≡◌};
ghost use Rattle.cob_cp037.specs.Named.{
  BytesAreNamed,
  asterisk_byte,
  b_byte,
  c_byte,
  comma_byte,
  currency_byte,
  d_byte,
  minus_byte,
  nine_byte,
  plus_byte,
  point_byte,
  quote_byte,
  r_byte,
  slash_byte,
  space_byte,
  zero_byte,
};

/// A space.
pub const SPACE: u8 = 0x40;

/// The digit 0; that of the digit `d` is `ZERO + d`.
pub const ZERO: u8 = 0xF0;

/// The digit 9.
pub const NINE: u8 = 0xF9;

/// `+`.
pub const PLUS: u8 = 0x4E;

/// `-`.
pub const MINUS: u8 = 0x60;

/// `.`.
pub const POINT: u8 = 0x4B;

/// `,`.
pub const COMMA: u8 = 0x6B;

/// `/`.
pub const SLASH: u8 = 0x61;

/// `*`.
pub const ASTERISK: u8 = 0x5C;

/// `$`, the currency sign.
pub const CURRENCY: u8 = 0x5B;

/// `"`.
pub const QUOTE: u8 = 0x7F;

/// The letter B, of DB.
pub const LETTER_B: u8 = 0xC2;

/// The letter C, of CR.
pub const LETTER_C: u8 = 0xC3;

/// The letter D, of DB.
pub const LETTER_D: u8 = 0xC4;

/// The letter R, of CR.
pub const LETTER_R: u8 = 0xD9;

/// Each constant is the byte that has its name, and each named byte is that of its character in the table.
pub fn constants_are_the_bytes()
    ensures space { SPACE ≡ space_byte }
    ensures zero { ZERO ≡ zero_byte }
    ensures nine { NINE ≡ nine_byte }
    ensures plus { PLUS ≡ plus_byte }
    ensures minus { MINUS ≡ minus_byte }
    ensures point { POINT ≡ point_byte }
    ensures comma { COMMA ≡ comma_byte }
    ensures slash { SLASH ≡ slash_byte }
    ensures asterisk { ASTERISK ≡ asterisk_byte }
    ensures currency { CURRENCY ≡ currency_byte }
    ensures quote { QUOTE ≡ quote_byte }
    ensures b { LETTER_B ≡ b_byte }
    ensures c { LETTER_C ≡ c_byte }
    ensures d { LETTER_D ≡ d_byte }
    ensures r { LETTER_R ≡ r_byte }
    ensures named { BytesAreNamed }
{}

//! Texts with the escapes of HTML.

ghost use Rattle.std.specs.Prelude.{◌≡◌, IfNone, IfSome, encode_utf8, encode_utf8_all};
ghost use Rattle.cob_report_html.specs.Escapes.{escaped_character};

use std::fmt;

/// The escape of a character that has a meaning of its own in HTML; none of another one, which stands as it is.
pub fn escape_of(character: char) -> Option<&'static str>
    ensures escape { IfSome result
        (λ escape. encode_utf8_all (escaped_character character) ≡ escape.now) }
    ensures plain { IfNone result
        (encode_utf8_all (escaped_character character) ≡ encode_utf8 character) }
{
    match character {
        '<' => Some("&lt;"),
        '>' => Some("&gt;"),
        '&' => Some("&amp;"),
        '"' => Some("&quot;"),
        _ => None,
    }
}

/// A text, which prints with its escapes.
#[derive(Clone, Copy)]
pub struct Escaped<'a> {
    pub text: &'a str,
}

impl fmt::Display for Escaped<'_> {
    ghost use Rattle.std.specs.Prelude.{Some, encode_utf8_all};
    ghost use Rattle.std.specs.Str.{chars};
    ghost use Rattle.cob_report_html.specs.Escapes.{written_text};

    ghost output = { λ shown. Some (encode_utf8_all (written_text (chars shown.text.now))) };

    fn fmt<W: fmt::Write>(&self, f: &mut fmt::Formatter<W>) -> fmt::Result {
        for character in self.text.chars() {
            match escape_of(character) {
                Some(escape) => f.write_str(escape)?,
                None => f.write_char(character)?,
            }
        }
        Ok(())
    }
}

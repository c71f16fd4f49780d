//! The constants of VALUE clauses.

ghost use Rattle.std.specs.Prelude.{◌≡◌, ◌≤◌, length};
ghost use Rattle.cob_limits.specs.Limits.{longest_literal};
ghost use Rattle.cob_copybook_entry.specs.Described.{plain_value};

use crate::kinds::Figurative;
use arrayvec::ArrayVec;
use cob_decimal::Number;
use cob_limits::MAX_LITERAL;
use std::marker::Model;

/// The characters of a quoted literal: at most 160.
///
/// Contracts see their list, in ASCII.
#[derive(Drop, PartialEq, Eq)]
pub struct Text {
    characters: ArrayVec<u8, MAX_LITERAL>,
}

impl Model for Text {
    ghost use Rattle.std.specs.Prelude.{List, ℕ};

    ghost Value = { List ℕ };

    ghost view = { λ t. t.characters.items };

    ghost inverse = { λ cs. record { characters = record { items = cs } } };
}

impl Text {
    /// The literal of these characters, at most [`MAX_LITERAL`].
    pub fn of(text: &[u8]) -> Text
        requires { length text.now ≤ longest_literal }
        ensures { result ≡ text.now }
    {
        let mut characters = ArrayVec::new();
        for character in text {
            characters.push(*character);
        }
        Text { characters }
    }

    /// The characters, in ASCII.
    pub fn as_bytes(&self) -> &[u8]
        ensures value { result.now ≡ self.now }
        ensures short { length result.now ≤ longest_literal }
    {
        self.characters.as_slice()
    }

    /// The same literal once more. It takes no memory, and so cannot fail.
    pub fn clone(&self) -> Text
        ensures { result ≡ self.now }
    {
        Text::of(self.as_bytes())
    }
}

/// The constant of a VALUE clause.
#[derive(Drop)]
pub enum Value {
    /// A numeric literal, and whether a sign is written before it.
    Number { signed: bool, number: Number },
    /// A quoted literal.
    Literal(Text),
    /// A figurative constant, with ALL or without.
    Figurative(Figurative),
    /// ALL and a quoted literal that isn't empty.
    All(Text),
}

impl Value {
    /// The same constant once more. It takes no memory, and so cannot fail.
    pub fn clone(&self) -> Value
        ensures { plain_value result ≡ plain_value self.now }
    {
        match self {
            Value::Number { signed, number } => Value::Number {
                signed: *signed,
                number: number.clone(),
            },
            Value::Literal(text) => Value::Literal(text.clone()),
            Value::Figurative(figurative) => Value::Figurative(*figurative),
            Value::All(text) => Value::All(text.clone()),
        }
    }
}

//! Names of entries.

ghost use Rattle.std.specs.Prelude.{◌≡◌, ℕ, ◌≤◌, List, length};
ghost use Rattle.cob_limits.specs.Limits.{longest_name};

use arrayvec::ArrayVec;
use cob_limits::MAX_NAME;
use std::fmt;
use std::marker::Model;

/// The name of an entry: at most 30 characters, in capitals.
///
/// Contracts see the list of the characters, in ASCII.
#[derive(Drop, PartialEq, Eq)]
pub struct Name {
    characters: ArrayVec<u8, MAX_NAME>,
}

impl Model for Name {
    ghost use Rattle.std.specs.Prelude.{List, ℕ};

    ghost Value = { List ℕ };

    ghost view = { λ n. n.characters.items };

    ghost inverse = { λ cs. record { characters = record { items = cs } } };
}

impl Name {
    /// The name of these characters, at most [`MAX_NAME`], which need not be a name that the rules allow.
    pub fn from_characters(text: &[u8]) -> Name
        requires { length text.now ≤ longest_name }
        ensures { result ≡ text.now }
    {
        let mut characters = ArrayVec::new();
        for character in text {
            characters.push(*character);
        }
        Name { characters }
    }

    /// The characters, in ASCII.
    pub fn as_bytes(&self) -> &[u8]
        ensures value { result.now ≡ self.now }
        ensures short { length result.now ≤ longest_name }
    {
        self.characters.as_slice()
    }

    /// The same name once more. It takes no memory, and so cannot fail.
    pub fn clone(&self) -> Name
        ensures { result ≡ self.now }
    {
        Name::from_characters(self.as_bytes())
    }
}

impl fmt::Display for Name {
    fn fmt<W: fmt::Write>(&self, f: &mut fmt::Formatter<W>) -> fmt::Result {
        for character in self.as_bytes() {
            f.write_char(char::from(*character))?;
        }
        Ok(())
    }
}

//! Templates of texts.

ghost use Rattle.cob_test_moves.specs.Choices.{product};
ghost use Rattle.std.specs.Prelude.{◌≡◌, ◌<◌, IfSome};

use crate::choices::{choices_of, ways};
use std::alloc::{AllocError, Global};

/// A template of texts: its places, with the pieces that can stand at each, and how many these are.
#[derive(Drop)]
pub(crate) struct Template<'a> {
    places: Vec<Vec<&'a str>>,
    sizes: Vec<u64>,
}

/// The pieces of a text between bars.
fn pieces_of(alloc: Global, text: &str) -> Result<Vec<&str>, AllocError> {
    let mut pieces = Vec::new(alloc);
    for piece in text.split('|') {
        pieces.push(piece)?;
    }
    Ok(pieces)
}

/// One piece.
fn one_piece(alloc: Global, piece: &str) -> Result<Vec<&str>, AllocError> {
    let mut pieces = Vec::new(alloc);
    pieces.push(piece)?;
    Ok(pieces)
}

impl<'a> Template<'a> {
    /// Adds a place.
    fn add(&mut self, pieces: Vec<&'a str>) -> Result<(), AllocError> {
        self.sizes.push(pieces.len() as u64)?;
        self.places.push(pieces)?;
        Ok(())
    }

    /// Adds the places of a part, for the pieces in its brace and for what stands behind; or answers that the brace isn't closed.
    fn add_part(&mut self, alloc: Global, part: &'a str) -> Result<bool, AllocError> {
        let Some((pieces, plain)) = part.split_once('}') else {
            return Ok(false);
        };
        self.add(pieces_of(alloc, pieces)?)?;
        self.add(one_piece(alloc, plain)?)?;
        Ok(true)
    }

    /// Adds all places of a text, or answers that a brace isn't closed.
    fn add_all(&mut self, alloc: Global, text: &'a str) -> Result<bool, AllocError> {
        let mut parts = text.split('{');
        if let Some(plain) = parts.next() {
            self.add(one_piece(alloc, plain)?)?;
        }
        for part in parts {
            if !self.add_part(alloc, part)? {
                return Ok(false);
            }
        }
        Ok(true)
    }

    /// Reads a template; None where a brace isn't closed.
    pub(crate) fn read(alloc: Global, text: &'a str) -> Result<Option<Template<'a>>, AllocError> {
        let mut template = Template {
            places: Vec::new(alloc),
            sizes: Vec::new(alloc),
        };
        if template.add_all(alloc, text)? {
            Ok(Some(template))
        } else {
            Ok(None)
        }
    }

    /// How many texts there are; None where a number of 64 bits can't say it.
    pub(crate) fn texts(&self) -> Option<u64>
        ensures { IfSome result (λ n. n ≡ product self.now.sizes.items) }
    {
        ways(self.sizes.as_slice())
    }

    /// The text of a rank among all.
    pub(crate) fn text(&self, alloc: Global, rank: u64) -> Result<String, AllocError>
        requires { rank < product self.now.sizes.items }
    {
        let mut text = String::new(alloc);
        let choices = choices_of(alloc, self.sizes.as_slice(), rank)?;
        for (pieces, choice) in self.places.iter().zip(choices.iter()) {
            if let Some(piece) = pieces.get(*choice as usize) {
                text.push_str(piece)?;
            }
        }
        Ok(text)
    }
}

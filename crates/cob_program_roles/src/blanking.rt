//! The words of a record's own entry left out of a text, where nothing but a name stands in it.

use cob_source::{SourceRule, Token, TokenKind, tokens};
use std::alloc::{AllocError, Global};

/// The words of a text, if it breaks no rule of the reference format.
///
/// # Errors
///
/// Where no memory is left.
pub(crate) fn words_of(alloc: Global, text: &[u8]) -> Result<Option<Vec<Token>>, AllocError> {
    match tokens(alloc, text) {
        Ok(words) => Ok(Some(words)),
        Err(fault) => match fault.rule {
            SourceRule::Memory => Err(AllocError),
            _ => Ok(None),
        },
    }
}

/// A text whose words are left out.
#[derive(Drop)]
struct Blanking {
    text: Vec<u8>,
    /// Where each of its lines begins.
    starts: Vec<usize>,
}

/// Where each line of a text begins.
fn starts_of(alloc: Global, text: &[u8]) -> Result<Vec<usize>, AllocError> {
    let mut starts = Vec::new(alloc);
    starts.push(0)?;
    for (place, byte) in text.iter().enumerate() {
        if *byte == b'\n' {
            starts.push(place.saturating_add(1))?;
        }
    }
    Ok(starts)
}

/// Whether bytes are these characters, in whatever case of letters.
fn are_characters(bytes: &[u8], characters: &[u8]) -> bool {
    if bytes.len() != characters.len() {
        return false;
    }
    for (place, byte) in bytes.iter().enumerate() {
        match characters.get(place) {
            Some(character) if byte.to_ascii_uppercase() == *character => {}
            _ => return false,
        }
    }
    true
}

impl Blanking {
    /// Puts a space in the place of a byte.
    fn put_space(&mut self, place: usize) {
        if let Some(byte) = self.text.get_mut(place) {
            *byte = b' ';
        }
    }

    /// Puts spaces in the place of a word, and of a comma directly behind it; answers whether it stands whole on its line.
    fn leave_out(&mut self, word: &Token) -> bool {
        let line = word.line.saturating_sub(1) as usize;
        let Some(start) = self.starts.as_slice().get(line) else {
            return false;
        };
        let from = (*start).saturating_add(usize::from(word.column).saturating_sub(1));
        let to = from.saturating_add(word.text.len());
        match self.text.as_slice().get(from..to) {
            Some(bytes) if are_characters(bytes, word.text.as_slice()) => {}
            _ => return false,
        }
        for place in from..to {
            self.put_space(place);
        }
        if let Some(b',') = self.text.as_slice().get(to) {
            self.put_space(to);
        }
        true
    }
}

/// Whether it is a word with this text.
fn is_word_of(word: &Token, text: &[u8]) -> bool {
    matches!(word.kind, TokenKind::Word) && word.text.as_slice() == text
}

/// Whether it is a period.
fn is_stop(word: &Token) -> bool {
    matches!(word.kind, TokenKind::Stop)
}

/// Whether OF or IN stands at a place among words.
fn is_of_at(words: &[Token], place: usize) -> bool {
    match words.get(place) {
        Some(word) => is_word_of(word, b"OF") || is_word_of(word, b"IN"),
        None => false,
    }
}

/// How many words a record's own entry has, its period among them, where it has level 01 and perhaps a name alone.
fn own_words(words: &[Token]) -> Option<usize> {
    let level = words.first()?;
    if !is_word_of(level, b"01") && !is_word_of(level, b"1") {
        return None;
    }
    let second = words.get(1)?;
    if is_stop(second) {
        return Some(2);
    }
    match words.get(2) {
        Some(third) if matches!(second.kind, TokenKind::Word) && is_stop(third) => Some(3),
        _ => None,
    }
}

/// The OF or IN before the word at a place, where no further one stands behind the word.
fn last_of(words: &[Token], place: usize) -> Option<&Token> {
    let before = place.checked_sub(1)?;
    if is_of_at(words, before) && !is_of_at(words, place.saturating_add(1)) {
        words.get(before)
    } else {
        None
    }
}

/// Leaves out the last qualifiers that are the name of the record; answers whether they stand whole on their lines.
fn leave_qualifiers_out(blanking: &mut Blanking, words: &[Token], name: &[u8]) -> bool {
    for (place, word) in words.iter().enumerate() {
        if !is_word_of(word, name) {
            continue;
        }
        if let Some(of) = last_of(words, place) {
            if !blanking.leave_out(word) || !blanking.leave_out(of) {
                return false;
            }
        }
    }
    true
}

/// Leaves out these words; answers whether they stand whole on their lines.
fn leave_words_out(blanking: &mut Blanking, words: &[Token]) -> bool {
    for word in words {
        if !blanking.leave_out(word) {
            return false;
        }
    }
    true
}

/// A text without the words of its record's own entry, and without its name as the last of qualifiers, each other word on its line and in its column; `None`
/// where that entry has clauses, or a word goes on on the next line.
///
/// # Errors
///
/// Where no memory is left.
pub(crate) fn blanked(alloc: Global, text: &[u8]) -> Result<Option<Vec<u8>>, AllocError> {
    let Some(words) = words_of(alloc, text)? else {
        return Ok(None);
    };
    let count = own_words(words.as_slice()).unwrap_or(0);
    let Some((own, others)) = words.as_slice().split_at_checked(count) else {
        return Ok(None);
    };
    let Some(named) = own.get(1) else {
        return Ok(None);
    };
    let mut blanking = Blanking {
        text: Vec::from_slice(alloc, text)?,
        starts: starts_of(alloc, text)?,
    };
    let name = named.text.as_slice();
    if leave_words_out(&mut blanking, own) && leave_qualifiers_out(&mut blanking, others, name) {
        return Ok(Some(blanking.text));
    }
    Ok(None)
}

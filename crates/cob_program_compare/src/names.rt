//! The entries that words of the command line name.

ghost use Rattle.std.specs.Prelude.{◌≤◌, length};
ghost use Rattle.cob_copybook_names.specs.Listed.{texts};
ghost use Rattle.cob_program_compare.specs.Ignored.{linked_names};

use crate::fault::NameRule;
use cob_copybook_names::{Bearer, Directory, NameFault, Qualifiers, name_of, names_beneath};
use cob_layout::{Layout, Node};
use std::alloc::{AllocError, Global};

/// Adds an entry and those beneath it, each with its number and the names above it.
fn list_entries<'a>(
    alloc: Global,
    entry: &'a Node,
    above: &[&'a [u8]],
    listed: &mut Vec<Bearer<'a, usize>>,
) -> Result<(), AllocError> {
    let mut names = Vec::new(alloc);
    names.extend_from_slice(above)?;
    listed.push(Bearer {
        name: name_of(&entry.name),
        above: names,
        entry: entry.number,
    })?;
    let beneath = names_beneath(alloc, &entry.name, above)?;
    for child in entry.children.iter() {
        list_entries(alloc, child, beneath.as_slice(), listed)?;
    }
    Ok(())
}

/// How long the word is at the front of a text: up to a space or a comma.
fn word_length(text: &[u8]) -> usize
    ensures { result ≤ length text.now }
{
    for (place, byte) in text.iter().enumerate() {
        if *byte == b' ' || *byte == b',' {
            return place;
        }
    }
    text.len()
}

/// The words of a text: spaces part them, and a comma is a word.
fn words_of<'a>(alloc: Global, text: &'a [u8]) -> Result<Vec<&'a [u8]>, AllocError> {
    let mut words = Vec::new(alloc);
    let mut rest = text;
    while let Some((first, others)) = rest.split_first() {
        if *first == b' ' {
            rest = others;
        } else {
            let (word, behind) = rest.split_at(word_length(rest).max(1));
            words.push(word)?;
            rest = behind;
        }
    }
    Ok(words)
}

/// Whether a word is a comma.
fn is_comma(word: &[u8]) -> bool {
    word == b",".as_slice()
}

/// The words of qualifiers: OF or IN and a name, again and again.
#[derive(Clone, Copy)]
struct QualifierTexts<'a> {
    words: &'a [&'a [u8]],
}

impl Qualifiers for QualifierTexts<'_> {
    ghost names = { λ qualifiers. linked_names (texts qualifiers.words.now) };

    fn nearest(&self) -> Option<(&[u8], Self)> {
        let (_, named) = self.words.split_first()?;
        let (name, words) = named.split_first()?;
        Some((*name, QualifierTexts { words }))
    }
}

/// Whether a word stands between a name and a qualifier.
fn is_linking(word: &[u8]) -> bool {
    word == b"OF".as_slice() || word == b"IN".as_slice()
}

/// Whether words are qualifiers: OF or IN and a name, again and again.
fn are_qualifiers(words: &[&[u8]]) -> bool {
    let mut wants_name = false;
    for word in words {
        if is_comma(word) || wants_name == is_linking(word) {
            return false;
        }
        wants_name = !wants_name;
    }
    !wants_name
}

/// The number of the only entry that these words name, a name with its qualifiers.
fn number_of<'a>(directory: &Directory<'a, usize>, words: &[&[u8]]) -> Result<usize, NameRule> {
    let Some((name, qualifiers)) = words.split_first() else {
        return Err(NameRule::Grammar);
    };
    if is_comma(name) || !are_qualifiers(qualifiers) {
        return Err(NameRule::Grammar);
    }
    match directory.only_named(name, QualifierTexts { words: qualifiers }) {
        Ok(bearer) => Ok(bearer.entry),
        Err(NameFault::Unknown) => Err(NameRule::Unknown),
        Err(NameFault::Ambiguous) => Err(NameRule::Ambiguous),
    }
}

/// How many words stand before the first comma.
fn words_before_comma(words: &[&[u8]]) -> usize
    ensures { result ≤ length words.now }
{
    for (place, word) in words.iter().enumerate() {
        if is_comma(word) {
            return place;
        }
    }
    words.len()
}

/// Adds the numbers of the entries that these words name: names with their qualifiers, with commas between them. It answers the rule that they break.
fn add_numbers<'a>(
    directory: &Directory<'a, usize>,
    words: &[&[u8]],
    numbers: &mut Vec<usize>,
) -> Result<Result<(), NameRule>, AllocError> {
    let (reference, behind) = words.split_at(words_before_comma(words));
    let number = match number_of(directory, reference) {
        Ok(number) => number,
        Err(rule) => return Ok(Err(rule)),
    };
    numbers.push(number)?;
    match behind.split_first() {
        Some((_, further)) => add_numbers(directory, further, numbers),
        None => Ok(Ok(())),
    }
}

/// The entries of a record by their names.
fn directory_of(alloc: Global, layout: &Layout) -> Result<Directory<'_, usize>, AllocError> {
    let mut listed = Vec::new(alloc);
    list_entries(alloc, layout.root(), &[], &mut listed)?;
    Directory::new(alloc, listed)
}

/// The numbers of the entries that these words name. It answers the rule that they break.
fn numbers_of<'a>(
    alloc: Global,
    directory: &Directory<'a, usize>,
    words: &[&[u8]],
) -> Result<Result<Vec<usize>, NameRule>, AllocError> {
    let mut numbers = Vec::new(alloc);
    match add_numbers(directory, words, &mut numbers)? {
        Ok(()) => Ok(Ok(numbers)),
        Err(rule) => Ok(Err(rule)),
    }
}

/// The numbers of the entries that a text names. It answers the rule that the names break.
fn numbers_in<'a>(
    alloc: Global,
    directory: &Directory<'a, usize>,
    names: &str,
) -> Result<Result<Vec<usize>, NameRule>, AllocError> {
    let text = names.as_bytes().to_ascii_uppercase(alloc)?;
    let words = words_of(alloc, text.as_slice())?;
    numbers_of(alloc, directory, words.as_slice())
}

/// The numbers of the entries that a text names, with commas between their names. It answers the rule that these break.
///
/// # Errors
///
/// Want of memory.
pub(crate) fn entries_named(
    alloc: Global,
    layout: &Layout,
    names: Option<&str>,
) -> Result<Result<Vec<usize>, NameRule>, AllocError> {
    let Some(names) = names else {
        return Ok(Ok(Vec::new(alloc)));
    };
    let directory = directory_of(alloc, layout)?;
    numbers_in(alloc, &directory, names)
}

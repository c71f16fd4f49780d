//! The words that words mean.

ghost use Rattle.std.specs.Prelude.{◌≡◌, ◌∷◌, ◌++◌, IfOk, OnOk, map, option_map, string_bytes};
ghost use Rattle.cob_program_words.specs.Meant.{has_one_book, has_one_form, meant, meant_option, meant_options, meant_word, option_in, with_option_in};

use std::alloc::{AllocError, Global};
use std::convert::AsStr;

// Whether a command has one copybook.
fn has_one_book(command: &str) -> bool
    ensures { result ≡ has_one_book command.now }
{
    matches!(command, "layout" | "show" | "compare" | "pieces")
}

// Whether a command has one copybook, and a form.
fn has_one_form(command: &str) -> bool
    ensures { result ≡ has_one_form command.now }
{
    matches!(command, "show" | "compare" | "pieces")
}

// The option of a command that is meant by one of another name.
fn meant_option(command: &str, option: &str) -> Option<&'static str>
    ensures { option_map (λ option. option.now) result ≡ meant_option command.now option.now }
{
    match option {
        "--in-book" if has_one_book(command) => Some("--book"),
        "--in-form" if has_one_form(command) => Some("--form"),
        _ => None,
    }
}

// The option in a word, without the value that may stand behind it.
fn option_in(word: &str) -> &str
    ensures { result.now ≡ option_in word.now }
{
    match word.split_once('=') {
        Some((option, _)) => option,
        None => word,
    }
}

// A word with this option in the place of its own.
fn with_option_in(alloc: Global, option: &str, word: &str) -> Result<String, AllocError>
    ensures { IfOk result (λ it. string_bytes it ≡ with_option_in option.now word.now) }
{
    let mut text = String::new(alloc);
    text.push_str(option)?;
    if let Some((_, value)) = word.split_once('=') {
        text.push('=')?;
        text.push_str(value)?;
    }
    Ok(text)
}

// A word as it is.
fn same_word(alloc: Global, word: &str) -> Result<String, AllocError>
    ensures { IfOk result (λ it. string_bytes it ≡ word.now) }
{
    let mut text = String::new(alloc);
    text.push_str(word)?;
    Ok(text)
}

// The word that is meant by a word behind the name of a command.
fn meant_word(alloc: Global, command: &str, word: &str) -> Result<String, AllocError>
    ensures { IfOk result (λ it. string_bytes it ≡ meant_word command.now word.now) }
{
    match meant_option(command, option_in(word)) {
        Some(option) => with_option_in(alloc, option, word),
        None => same_word(alloc, word),
    }
}

// Adds the words that are meant by words behind the name of a command.
fn push_meant<S: AsStr>(
    alloc: Global,
    command: &str,
    words: &[S],
    meant: &mut Vec<String>,
) -> Result<(), AllocError>
    ensures { OnOk result (map string_bytes meant.new.items
        ≡ map string_bytes meant.old.items ++ map (meant_word command.now) (map S.text words.now)) }
{
    for word in words {
        meant.push(meant_word(alloc, command, word.as_str())?)?;
    }
    Ok(())
}

// The words of a command with its options by their own names.
fn meant_options<S: AsStr>(alloc: Global, words: &[S]) -> Result<Vec<String>, AllocError>
    ensures { IfOk result (λ it. map string_bytes it.items ≡ meant_options (map S.text words.now)) }
{
    let mut meant = Vec::new(alloc);
    if let Some((command, options)) = words.split_first() {
        let command = command.as_str();
        meant.push(same_word(alloc, command)?)?;
        push_meant(alloc, command, options, &mut meant)?;
    }
    Ok(meant)
}

/// The words that words after the program's name mean: `help` before others asks for their help, as `--help` behind them does, and of a command with one
/// copybook `--in-book` means `--book`, and `--in-form` means `--form`.
///
/// # Errors
///
/// Where no memory is left.
pub fn meant_words<S: AsStr>(alloc: Global, words: &[S]) -> Result<Vec<String>, AllocError>
    ensures { IfOk result (λ it. map string_bytes it.items ≡ meant (map S.text words.now)) }
{
    match words.split_first() {
        Some((first, rest)) if first.as_str() == "help" => {
            let mut meant = meant_options(alloc, rest)?;
            meant.push(same_word(alloc, "--help")?)?;
            Ok(meant)
        }
        _ => meant_options(alloc, words),
    }
}

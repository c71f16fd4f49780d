//! What defines an option and a command.

/// How an option stands in words, with the name that help gives its value.
#[derive(Clone, Copy)]
pub enum Standing<'a> {
    /// It has to be there, with a value.
    Required(&'a str),
    /// It has a value, in whose place a word stands where the option is not there: the value's name, and the word.
    Default(&'a str, &'a str),
    /// It has a value, and may be left out.
    Optional(&'a str),
    /// It stands alone.
    Alone,
}

/// An option of a command.
#[derive(Clone, Copy)]
pub struct OptionDefinition<'a> {
    /// Its name, which stands behind two hyphens.
    pub name: &'a str,
    /// How it stands in words.
    pub standing: Standing<'a>,
    /// What help says of it.
    pub help: &'a str,
}

/// A command with its options, beside the request for help, which each command has.
#[derive(Clone, Copy)]
pub struct CommandDefinition<'a> {
    /// Its name.
    pub name: &'a str,
    /// What it does, as the list of commands says it.
    pub about: &'a str,
    /// How its words stand, where help is not to work it out.
    pub usage: Option<&'a str>,
    /// What help says behind its options.
    pub notes: &'a str,
    /// Its options, in groups of those that several commands have.
    pub groups: &'a [&'a [OptionDefinition<'a>]],
}

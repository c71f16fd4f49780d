/// One character of a joined text, and where it stands.
#[derive(Clone, Copy, PartialEq, Eq, Default)]
pub struct Cell {
    pub line: u32,
    pub column: u8,
    pub byte: u8,
}

/// How far a text is cut.
#[derive(Clone, Copy, PartialEq, Eq)]
pub enum Cutting {
    /// Into words as they stand between spaces and quotes.
    Whole,
    /// Into the pieces of these words too, as a paragraph needs them.
    Apart,
}

/// What a token is.
#[derive(Clone, Copy, PartialEq, Eq)]
pub enum TokenKind {
    /// A word, in capitals.
    Word,
    /// A literal between quotes.
    Literal,
    /// A period that ends a sentence.
    Stop,
}

/// A word, a literal or a stop of a source text.
#[derive(Drop)]
pub struct Token {
    /// The characters, in ASCII: a word in capitals, a literal as it stands and without its quotes, a stop's period.
    pub text: Vec<u8>,
    /// The line of the first character, from 1.
    pub line: u32,
    /// The column of the first character, from 8 to 72.
    pub column: u8,
    pub kind: TokenKind,
}

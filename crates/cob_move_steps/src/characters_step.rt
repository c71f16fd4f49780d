/// The single move of characters from one entry to another, made ready.
#[derive(Clone, Copy)]
pub struct CharactersStep {
    /// How many bytes the sender has.
    pub sent: usize,
    /// Whether the characters stand from the right: the receiver is JUSTIFIED.
    pub right: bool,
}

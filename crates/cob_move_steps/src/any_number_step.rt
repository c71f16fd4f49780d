use crate::number_ends::{NumberReader, NumberWriter};

/// The single move of a number, or of characters that are one, to a number of any kind of storage, made ready.
#[derive(Clone, Copy)]
pub struct AnyNumberStep {
    pub reader: NumberReader,
    pub writer: NumberWriter,
}

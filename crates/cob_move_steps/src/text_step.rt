use crate::number_ends::ReceiverWriter;
use crate::text_reader::TextReader;

/// The single move of the number of an edited item, made ready: it moves the number of any text of the sender.
#[derive(Drop)]
pub struct TextStep {
    pub reader: TextReader,
    pub writer: ReceiverWriter,
}

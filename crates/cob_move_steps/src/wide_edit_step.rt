use crate::number_ends::NumberReader;
use crate::text_writer::TextWriter;

/// The single move of a number to an edited item of more than sixteen bytes, made ready: it moves the number of any bytes of the sender.
#[derive(Drop)]
pub struct WideEditStep {
    pub reader: NumberReader,
    pub writer: TextWriter,
}

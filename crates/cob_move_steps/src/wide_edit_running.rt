//! Steps to edited items of at most thirty-two bytes, carried out.

ghost use Rattle.std.specs.Prelude.{◌≡◌, ◌≤◌, false, length};
ghost use Rattle.cob_move_steps.specs.Edits.{IsTextWritten};
ghost use Rattle.cob_move_steps.specs.Running.{IsWideEditCarriedOut};
ghost use Rattle.cob_move_receive.specs.Received.{outcome};

use crate::edit_running::zeros_in_front;
use crate::text_writer::TextWriter;
use crate::wide_edit_step::WideEditStep;
use std::simd::prelude::*;

impl TextWriter {
    /// Writes the text of a number into all bytes of an item.
    #[inline(always)]
    pub(crate) fn write(&self, digits: u8x16, minus: bool, to: &mut [u8])
        requires { length to.old ≤ 32 }
        ensures { IsTextWritten self.now digits minus (length to.old) to.new }
    {
        let zeros = zeros_in_front(digits, self.digits);
        self.texts[zeros].write(digits, minus, to);
    }
}

impl WideEditStep {
    /// Moves the number of the sender that ends bytes to a receiver's bytes, as a step to a shorter item does.
    ///
    /// False where the sender's bytes represent no number: the receiver's bytes are as they were then.
    ///
    /// It isn't inlined: a loop over many steps of all kinds stays one short function so.
    #[inline(never)]
    pub fn run(&self, from: &[u8], to: &mut [u8]) -> bool
        requires { length to.old ≤ 32 }
        ensures gets { IsWideEditCarriedOut self.now from.now (length to.old)
            (outcome result to.new) }
        ensures same { result ≡ false → to.new ≡ to.old }
    {
        let read = self.reader.read(from);
        if !read.is_number {
            return false;
        }
        self.writer.write(read.digits, read.minus, to);
        true
    }
}

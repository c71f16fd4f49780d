//! Steps to edited items, carried out.

ghost use Rattle.std.specs.Prelude.{◌≡◌, ◌==◌, ◌≤◌, false, length, take};
ghost use Rattle.std.specs.List.{prefix_len};
ghost use Rattle.cob_move_steps.specs.Running.{IsEditCarriedOut};
ghost use Rattle.cob_move_receive.specs.Received.{outcome};

use crate::edit_step::EditStep;
use cob_codec_lanes::zeros_before;
use std::simd::prelude::*;

/// How many of so many digits are zeros in front.
#[inline(always)]
pub(crate) fn zeros_in_front(digits: u8x16, count: u8) -> usize
    ensures value { count ≤ length digits → result ≡ prefix_len (λ d. d == 0) (take count digits) }
    ensures within { result ≤ count }
{
    let zeros = zeros_before(digits);
    let count = usize::from(count);
    if zeros < count { zeros } else { count }
}

impl EditStep {
    /// Moves the number of the sender that ends bytes to a receiver's bytes, as a step of two numbers does.
    ///
    /// False where the sender's bytes represent no number: the receiver's bytes are as they were then.
    ///
    /// It isn't inlined: a loop over many steps of all kinds stays one short function so.
    #[inline(never)]
    pub fn run(&self, from: &[u8], to: &mut [u8]) -> bool
        requires { length to.old ≤ 16 }
        ensures gets { IsEditCarriedOut self.now from.now (length to.old) (outcome result to.new) }
        ensures same { result ≡ false → to.new ≡ to.old }
    {
        let read = self.reader.read(from);
        if !read.is_number {
            return false;
        }
        let digits = read.digits;
        let zeros = zeros_in_front(digits, self.digits);
        self.texts[zeros].write(digits, read.minus, to);
        true
    }
}

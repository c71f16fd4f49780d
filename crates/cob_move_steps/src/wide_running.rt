//! Steps to packed items of more than sixteen digits, carried out.

ghost use Rattle.std.specs.Prelude.{◌≡◌, ◌≤◌, false, length};
ghost use Rattle.cob_move_steps.specs.Wide.{IsWideCarriedOut};
ghost use Rattle.cob_move_receive.specs.Received.{outcome};

use crate::wide_step::WideStep;
use cob_codec_lanes::keeps_minus_of_both;
use cob_copybook_tree::one_sent_number;

impl WideStep {
    /// Moves the number of the sender that ends bytes to a receiver's bytes, as a step of two shorter numbers does.
    ///
    /// False where the sender's bytes represent no number: the receiver's bytes are as they were then.
    ///
    /// It isn't inlined: a loop over many steps of all kinds stays one short function so.
    #[inline(never)]
    pub fn run(&self, from: &[u8], to: &mut [u8]) -> bool
        requires { length to.old ≤ 16 }
        ensures gets { IsWideCarriedOut self.now from.now (length to.old) (outcome result to.new) }
        ensures same { result ≡ false → to.new ≡ to.old }
    {
        one_sent_number();
        let back = self.back.read(from);
        if !back.is_number {
            return false;
        }
        let front = self.front.take(from);
        let digits = back.digits;
        let minus = keeps_minus_of_both(back.minus, front, digits);
        self.writer.write(front, digits, minus, to);
        true
    }
}

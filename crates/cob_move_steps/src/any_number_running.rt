//! Steps of numbers between items of any kind, carried out.

ghost use Rattle.std.specs.Prelude.{◌≡◌, ◌≤◌, false, length};
ghost use Rattle.cob_move_steps.specs.Running.{IsAnyNumberCarriedOut};
ghost use Rattle.cob_move_receive.specs.Received.{outcome};

use crate::any_number_step::AnyNumberStep;
use cob_codec_lanes::keeps_minus;

impl AnyNumberStep {
    /// Moves the number of the sender that ends bytes to a receiver's bytes, as a step of two numbers does. A binary sender is read as its
    /// picture says.
    ///
    /// False where the sender's bytes represent no number: the receiver's bytes are as they were then.
    ///
    /// It isn't inlined: a loop over many steps of all kinds stays one short function so.
    #[inline(never)]
    pub fn run(&self, from: &[u8], to: &mut [u8]) -> bool
        requires { length to.old ≤ 16 }
        ensures gets { IsAnyNumberCarriedOut
            self.now from.now (length to.old) (outcome result to.new) }
        ensures same { result ≡ false → to.new ≡ to.old }
    {
        let read = self.reader.read(from);
        if !read.is_number {
            return false;
        }
        let digits = read.digits;
        let minus = keeps_minus(read.minus, digits);
        self.writer.write(digits, minus, to);
        true
    }
}

//! Steps of numbers that are moved to characters, carried out.

ghost use Rattle.std.specs.Prelude.{◌≡◌, ◌≤◌, false, length};
ghost use Rattle.cob_move_steps.specs.Numerals.{IsNumeralsCarriedOut};
ghost use Rattle.cob_move_receive.specs.Received.{outcome};

use crate::characters::put;
use crate::numerals_step::NumeralsStep;

impl NumeralsStep {
    /// Moves the digits of the number of the sender that ends bytes into all of a receiver's bytes, as characters. A binary sender is read as its
    /// picture says.
    ///
    /// False where the sender's bytes represent no number: the receiver's bytes are as they were then.
    ///
    /// It isn't inlined: a loop over many steps of all kinds stays one short function so.
    #[inline(never)]
    pub fn run(&self, from: &[u8], to: &mut [u8]) -> bool
        ensures gets { IsNumeralsCarriedOut self.now from.now (length to.old)
            (outcome result to.new) }
        ensures same { result ≡ false → to.new ≡ to.old }
    {
        let read = self.reader.read(from);
        if !read.is_number {
            return false;
        }
        let mut characters = [0; 16];
        self.text.write(read.digits, false, &mut characters);
        let count = usize::from(self.count);
        put(&characters[..count], self.right, to);
        true
    }
}

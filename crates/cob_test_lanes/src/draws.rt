//! Numbers that look random and are the same in each run.

ghost use Rattle.std.specs.Prelude.{◌<◌};

/// Draws of a linear congruential generator.
#[derive(Drop)]
pub struct Draws {
    state: u64,
}

impl Draws {
    /// Draws from this beginning.
    pub fn new(state: u64) -> Draws {
        Draws { state }
    }

    /// The next draw: a number below a limit.
    pub fn below(&mut self, limit: u32) -> u32
        requires { 0 < limit }
        ensures { result < limit }
    {
        self.state = self
            .state
            .wrapping_mul(6_364_136_223_846_793_005)
            .wrapping_add(1_442_695_040_888_963_407);
        ((self.state >> 33) % u64::from(limit)) as u32
    }

    /// The next draw, of a byte.
    pub fn byte(&mut self) -> u8 {
        self.below(256) as u8
    }
}

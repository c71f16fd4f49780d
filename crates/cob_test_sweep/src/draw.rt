//! Random numbers.

ghost use Rattle.std.specs.Prelude.{◌<◌};

/// A generator of random numbers, as the heading of the program has it.
#[derive(Clone, Copy)]
pub(crate) struct Draw {
    state: u64,
}

impl Draw {
    /// The generator of a job.
    pub(crate) fn new(number: u64) -> Draw {
        Draw { state: number }
    }

    /// The next number below a limit.
    pub(crate) fn below(&mut self, limit: u64) -> u64
        requires { 0 < limit }
        ensures { result < limit }
    {
        self.state = self
            .state
            .wrapping_mul(6_364_136_223_846_793_005)
            .wrapping_add(1_442_695_040_888_963_407);
        (self.state >> 33) % limit
    }

    /// One of the parts of a text that are parted by this character.
    pub(crate) fn part_of<'a>(&mut self, text: &'a str, between: char) -> &'a str {
        let parts = text.split(between).count().max(1);
        let place = self.below(parts as u64);
        text.split(between).nth(place as usize).unwrap_or("")
    }
}

// Numbers that look random.

ghost use Rattle.std.specs.Prelude.{◌<◌};

/// A generator of 64 bits with two shifts to the left and one to the right (G. Marsaglia's xorshift). It begins at the
/// seed.
#[derive(Drop)]
pub(crate) struct Draw {
    x: u64,
}

impl Draw {
    pub(crate) fn new(seed: u64) -> Draw {
        Draw { x: seed }
    }

    /// The next number of the generator.
    pub(crate) fn next(&mut self) -> u64 {
        self.x ^= self.x << 13;
        self.x ^= self.x >> 7;
        self.x ^= self.x << 17;
        self.x
    }

    /// A number below the limit: the remainder of the upper half of the next number.
    pub(crate) fn below(&mut self, limit: u64) -> u64
        requires { 0 < limit }
        ensures { result < limit }
    {
        (self.next() >> 32) % limit
    }

    /// Whether one of so many comes.
    pub(crate) fn one_in(&mut self, limit: u64) -> bool
        requires { 0 < limit }
    {
        self.below(limit) == 0
    }
}

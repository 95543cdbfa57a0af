// Numbers that are drawn, the same in every build.
ghost use Rattle.std.specs.Prelude.{◌≡◌, ◌==◌, ◌<◌, ◌%◌, length, slice_get};
ghost use Rattle.iom_hardware_runner.specs.Draws.{drawn_after};

/// Numbers drawn from a seed, each by shifts of the last one (xorshift).
#[derive(Clone, Copy)]
pub(crate) struct Draws {
    last: u64,
}

impl Draws {
    pub(crate) fn new(seed: u64) -> Draws
        ensures { result.last ≡ seed }
    {
        Draws { last: seed }
    }

    /// Whether no numbers are drawn: the seed was 0.
    pub(crate) fn are_off(&self) -> bool
        ensures { result ≡ (self.now.last == 0) }
    {
        self.last == 0
    }

    /// The next number, below the count, of which there is one at least.
    pub(crate) fn below(&mut self, count: u64) -> u64
        requires { 0 < count }
        ensures drawn { self.new.last ≡ drawn_after self.old.last }
        ensures number { result ≡ drawn_after self.old.last % count }
    {
        let mut drawn = self.last;
        drawn ^= drawn << 13;
        drawn ^= drawn >> 7;
        drawn ^= drawn << 17;
        self.last = drawn;
        drawn % count
    }

    /// One of the values, by the next number. None where there are none, and then nothing is drawn.
    pub(crate) fn one_of<T: Copy>(&mut self, values: &[T]) -> Option<T>
        ensures { result ≡ slice_get values.now (drawn_after self.old.last % length values.now) }
    {
        if values.is_empty() {
            return None;
        }
        let place = usize::try_from(self.below(values.len() as u64)).ok()?;
        values.get(place).copied()
    }
}

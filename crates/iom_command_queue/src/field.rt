ghost use Rattle.std.specs.Prelude.{◌≡◌, ◌+◌, ◌-◌, ◌*◌, ◌^◌, ◌<◌, ◌≤◌, ◌==◌};
ghost use Rattle.iom_command_queue.specs.Bits.{bits_of, is_set, as_bit};

/// Some bits of a word, named by the highest and the lowest, as the standard's figures name them.
#[derive(Clone, Copy)]
pub(crate) struct Field {
    pub(crate) high: u32,
    pub(crate) low: u32,
}

impl Field {
    /// The number that stands in the field.
    pub(crate) fn read(self, word: u64) -> u64
        requires within { self.high < 64 }
        requires some { self.low ≤ self.high }
        ensures value { result ≡ bits_of word self.high self.low }
        ensures fits { result < 2 ^ (self.high + 1 - self.low) }
    {
        (word << (63 - self.high)) >> (63 - self.high + self.low)
    }

    /// The word in which the number stands in the field, and all else is zero.
    pub(crate) fn place(self, value: u64) -> u64
        requires within { self.high < 64 }
        requires some { self.low ≤ self.high }
        requires fits { value < 2 ^ (self.high + 1 - self.low) }
        ensures { result ≡ value * 2 ^ self.low }
    {
        value << self.low
    }
}

/// One bit of a word, by its number.
#[derive(Clone, Copy)]
pub(crate) struct Bit(pub(crate) u32);

impl Bit {
    /// Whether the bit is 1.
    pub(crate) fn is_set(self, word: u64) -> bool
        requires { self.0 < 64 }
        ensures { result ≡ is_set word self.0 }
    {
        let field = Field {
            high: self.0,
            low: self.0,
        };
        field.read(word) == 1
    }

    /// The word in which the bit is as told, and all else is zero.
    pub(crate) fn place(self, set: bool) -> u64
        requires { self.0 < 64 }
        ensures { result ≡ as_bit set * 2 ^ self.0 }
    {
        u64::from(set) << self.0
    }
}

ghost use Rattle.std.specs.Prelude.{◌≡◌, ◌+◌, ◌<◌, ◌≤◌, ◌%◌, ◌^◌, ◌==◌};
ghost use Rattle.iom_registers.specs.Bits.{bits};

/// The field `word[high:low]`.
pub(crate) fn field(word: u64, high: u32, low: u32) -> u64
    requires order { low ≤ high }
    requires narrow { high < low + 63 }
    requires range { high < 64 }
    ensures { result ≡ bits high low word }
{
    (word >> low) % (1 << (high + 1 - low))
}

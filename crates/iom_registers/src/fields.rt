ghost use Rattle.std.specs.Prelude.{◌≡◌, ◌+◌, ◌<◌, ◌≤◌, ◌%◌, ◌^◌, if◌then◌else◌};
ghost use Rattle.iom_registers.specs.Bits.{bits};

/// The field `value[high:low]`.
pub(crate) fn field(value: u64, high: u32, low: u32) -> u64
    requires order { low ≤ high }
    requires narrow { high < low + 63 }
    requires range { high < 64 }
    ensures { result ≡ bits high low value }
{
    (value >> low) % (1 << (high + 1 - low))
}

/// The low four bytes of a value, which is all that a register of four bytes takes.
pub(crate) fn low_word(value: u64) -> u32
    ensures { result ≡ value % 2 ^ 32 }
{
    (value % (1 << 32)) as u32
}

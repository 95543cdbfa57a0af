ghost use Rattle.std.specs.Prelude.{◌<◌, ◌^◌};

use crate::fields::field;

/// What `cqb` and `fqb` hold (IOMMU specification, chapter 5, "Command-queue base (cqb)").
#[derive(Clone, Copy, PartialEq, Eq)]
pub struct QueueBase {
    /// The field `LOG2SZ-1`, below 32: one less than the binary logarithm of how many entries there are.
    pub log2sz_less_1: u8,
    /// The page where the queue begins, below 2^44.
    pub ppn: u64,
    ghost sized: { log2sz_less_1 < 32 },
    ghost in_range: { ppn < 2 ^ 44 },
}

impl QueueBase {
    ghost use Rattle.std.specs.Prelude.{◌≡◌, ◌≤◌};
    ghost use Rattle.iom_registers.specs.Fields.{base_at, base_value, entry_count, address};

    // What a register that was written so holds.
    pub(crate) fn at(value: u64) -> QueueBase
        ensures { result ≡ base_at value }
    {
        QueueBase {
            log2sz_less_1: field(value, 4, 0) as u8,
            ppn: field(value, 53, 10),
        }
    }

    /// What `cqb` or `fqb` reads where it holds this. Written, it is held.
    pub fn value(self) -> u64
        ensures value { result ≡ base_value self }
        ensures held { base_at result ≡ self }
    {
        self.log2sz_less_1 as u64 + (self.ppn << 10)
    }

    /// How many entries the queue has: a power of two, from 2 to 2^32.
    pub fn entries(self) -> u64
        ensures value { result ≡ entry_count self }
        ensures range { (2 ≤ result) × (result ≤ 2 ^ 32) }
    {
        2 << self.log2sz_less_1
    }

    /// The physical address of the first entry.
    pub fn address(self) -> u64
        ensures value { result ≡ address self }
        ensures range { result < 2 ^ 56 }
    {
        self.ppn << 12
    }
}

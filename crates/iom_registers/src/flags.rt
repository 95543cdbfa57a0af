ghost use Rattle.std.specs.Prelude.{⊤, [], ◌∷◌, codes};

use bitflags::{Flag, Flags, bitflag_items};

/// The bits of `cqcsr` (IOMMU specification, chapter 5, "Command-queue CSR (cqcsr)").
#[derive(Clone, Copy, PartialEq, Eq)]
pub struct Cqcsr(u32);

bitflag_items! {
    impl Cqcsr: u32 {
        const CQEN = 1 << 0;
        const CIE = 1 << 1;
        const CQMF = 1 << 8;
        const CMD_TO = 1 << 9;
        const CMD_ILL = 1 << 10;
        const FENCE_W_IP = 1 << 11;
        const CQON = 1 << 16;
        const BUSY = 1 << 17;
    }
}

impl Flags for Cqcsr {
    type Bits = u32;

    ghost exact = { ⊤ };

    ghost table = { (codes "CQEN", 1) ∷ (codes "CIE", 2) ∷ (codes "CQMF", 256) ∷ (codes "CMD_TO", 512)
        ∷ (codes "CMD_ILL", 1024) ∷ (codes "FENCE_W_IP", 2048) ∷ (codes "CQON", 65536) ∷ (codes "BUSY", 131072) ∷ [] };

    ghost set_of = { λ bits. bits.0 };

    fn flags<'a>() -> &'a [Flag<Cqcsr>] {
        Cqcsr::FLAGS
    }

    fn bits(&self) -> u32 {
        self.0
    }

    fn from_bits_retain(bits: u32) -> Cqcsr {
        Cqcsr(bits)
    }
}

/// The bits of `fqcsr` (IOMMU specification, chapter 5, "Fault queue CSR (fqcsr)").
#[derive(Clone, Copy, PartialEq, Eq)]
pub struct Fqcsr(u32);

bitflag_items! {
    impl Fqcsr: u32 {
        const FQEN = 1 << 0;
        const FIE = 1 << 1;
        const FQMF = 1 << 8;
        const FQOF = 1 << 9;
        const FQON = 1 << 16;
        const BUSY = 1 << 17;
    }
}

impl Flags for Fqcsr {
    type Bits = u32;

    ghost exact = { ⊤ };

    ghost table = { (codes "FQEN", 1) ∷ (codes "FIE", 2) ∷ (codes "FQMF", 256) ∷ (codes "FQOF", 512)
        ∷ (codes "FQON", 65536) ∷ (codes "BUSY", 131072) ∷ [] };

    ghost set_of = { λ bits. bits.0 };

    fn flags<'a>() -> &'a [Flag<Fqcsr>] {
        Fqcsr::FLAGS
    }

    fn bits(&self) -> u32 {
        self.0
    }

    fn from_bits_retain(bits: u32) -> Fqcsr {
        Fqcsr(bits)
    }
}

/// The bits of `ipsr` (IOMMU specification, chapter 5, "Interrupt pending status register (ipsr)").
#[derive(Clone, Copy, PartialEq, Eq)]
pub struct Ipsr(u32);

bitflag_items! {
    impl Ipsr: u32 {
        const CIP = 1 << 0;
        const FIP = 1 << 1;
    }
}

impl Flags for Ipsr {
    type Bits = u32;

    ghost exact = { ⊤ };

    ghost table = { (codes "CIP", 1) ∷ (codes "FIP", 2) ∷ [] };

    ghost set_of = { λ bits. bits.0 };

    fn flags<'a>() -> &'a [Flag<Ipsr>] {
        Ipsr::FLAGS
    }

    fn bits(&self) -> u32 {
        self.0
    }

    fn from_bits_retain(bits: u32) -> Ipsr {
        Ipsr(bits)
    }
}

ghost use Rattle.std.specs.Prelude.{◌≡◌};
ghost use Rattle.iom_registers.specs.Places.{register_offset, register_width, register_at};

/// Why a register access is refused.
#[derive(Clone, Copy, PartialEq, Eq, Debug)]
pub enum RegFault {
    /// No register begins at the offset.
    BadOffset,
    /// A register begins at the offset, and has another width.
    BadWidth,
}

/// The registers, by the names that chapter 5 of the IOMMU specification gives them.
#[derive(Clone, Copy, PartialEq, Eq)]
pub enum Register {
    /// What the IOMMU can do.
    Capabilities,
    /// Features control.
    Fctl,
    /// Device-directory-table pointer.
    Ddtp,
    /// Command-queue base.
    Cqb,
    /// Command-queue head.
    Cqh,
    /// Command-queue tail.
    Cqt,
    /// Fault-queue base.
    Fqb,
    /// Fault-queue head.
    Fqh,
    /// Fault-queue tail.
    Fqt,
    /// Command-queue control and status.
    Cqcsr,
    /// Fault-queue control and status.
    Fqcsr,
    /// Interrupt pending status.
    Ipsr,
}

impl Register {
    /// Where the register begins, in bytes from the beginning of the register file.
    pub fn offset(self) -> u64
        ensures { result ≡ register_offset self }
    {
        match self {
            Register::Capabilities => offsets::CAPABILITIES,
            Register::Fctl => offsets::FCTL,
            Register::Ddtp => offsets::DDTP,
            Register::Cqb => offsets::CQB,
            Register::Cqh => offsets::CQH,
            Register::Cqt => offsets::CQT,
            Register::Fqb => offsets::FQB,
            Register::Fqh => offsets::FQH,
            Register::Fqt => offsets::FQT,
            Register::Cqcsr => offsets::CQCSR,
            Register::Fqcsr => offsets::FQCSR,
            Register::Ipsr => offsets::IPSR,
        }
    }

    /// How many bytes the register has.
    pub fn width(self) -> u32
        ensures { result ≡ register_width self }
    {
        match self {
            Register::Capabilities | Register::Ddtp | Register::Cqb | Register::Fqb => 8,
            Register::Fctl | Register::Cqh | Register::Cqt | Register::Fqh | Register::Fqt => 4,
            Register::Cqcsr | Register::Fqcsr | Register::Ipsr => 4,
        }
    }

    /// The register that an access of `width` bytes at `offset` reaches. `BadOffset` where none begins
    /// there, else `BadWidth` where it has another width.
    pub fn at(offset: u64, width: u32) -> Result<Register, RegFault>
        ensures { result ≡ register_at offset width }
    {
        let register = match offset {
            offsets::CAPABILITIES => Register::Capabilities,
            offsets::FCTL => Register::Fctl,
            offsets::DDTP => Register::Ddtp,
            offsets::CQB => Register::Cqb,
            offsets::CQH => Register::Cqh,
            offsets::CQT => Register::Cqt,
            offsets::FQB => Register::Fqb,
            offsets::FQH => Register::Fqh,
            offsets::FQT => Register::Fqt,
            offsets::CQCSR => Register::Cqcsr,
            offsets::FQCSR => Register::Fqcsr,
            offsets::IPSR => Register::Ipsr,
            _ => return Err(RegFault::BadOffset),
        };
        if width == register.width() {
            Ok(register)
        } else {
            Err(RegFault::BadWidth)
        }
    }
}

// Where each register begins (IOMMU specification, chapter 5, "Register layout").
mod offsets {
    pub const CAPABILITIES: u64 = 0;

    pub const FCTL: u64 = 8;

    pub const DDTP: u64 = 16;

    pub const CQB: u64 = 24;

    pub const CQH: u64 = 32;

    pub const CQT: u64 = 36;

    pub const FQB: u64 = 40;

    pub const FQH: u64 = 48;

    pub const FQT: u64 = 52;

    pub const CQCSR: u64 = 72;

    pub const FQCSR: u64 = 76;

    pub const IPSR: u64 = 84;
}

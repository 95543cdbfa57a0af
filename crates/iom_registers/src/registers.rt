ghost use Rattle.std.specs.Prelude.{◌≡◌, ◌<◌, ◌≤◌, ◌%◌, ◌^◌, ◌*◌, ◌↔◌, IsTrue, refl};
ghost use Rattle.iom_registers.specs.Places.{register_width};
ghost use Rattle.iom_registers.specs.Queues.{with_interrupts, directory_mode, directory_root};
ghost use Rattle.iom_registers.specs.Table.{at_power_on, value_of, written, with_cqcsr, with_fqcsr};

use crate::directory::{DirectoryMode, DirectoryPointer};
use crate::indices::index_in;
use crate::mmio::Mmio;
use crate::queue_base::QueueBase;
use crate::register::{RegFault, Register};
use crate::status::{CommandStatus, FaultStatus, PendingInterrupts};

/// What `capabilities` reads: version 1.0, Sv39, Sv48, Sv39x4, Sv48x4, ATS, interrupts by wire, 32 bits of address.
const CAPABILITIES: u64 = 0x20_1206_0610;

/// What `fctl` reads: interrupts by wire.
const FCTL: u64 = 2;

/// The register file. One field for each register that can change, named as in chapter 5 of the IOMMU
/// specification.
#[derive(Clone, Copy, PartialEq, Eq)]
pub struct Registers {
    pub(crate) ddtp: DirectoryPointer,
    pub(crate) cqb: QueueBase,
    pub(crate) cqh: u32,
    pub(crate) cqt: u32,
    pub(crate) cqcsr: CommandStatus,
    pub(crate) fqb: QueueBase,
    pub(crate) fqh: u32,
    pub(crate) fqt: u32,
    pub(crate) fqcsr: FaultStatus,
    pub(crate) ipsr: PendingInterrupts,
}

impl Registers {
    /// The registers at power-on.
    pub fn new() -> Registers
        ensures { result ≡ at_power_on }
    {
        Registers {
            ddtp: DirectoryPointer::off(),
            cqb: QueueBase::at(0),
            cqh: 0,
            cqt: 0,
            cqcsr: CommandStatus::decode(0),
            fqb: QueueBase::at(0),
            fqh: 0,
            fqt: 0,
            fqcsr: FaultStatus::decode(0),
            ipsr: PendingInterrupts::decode(0),
        }
    }

    /// What a read of the register gives.
    pub fn value(&self, register: Register) -> u64
        ensures value { result ≡ value_of self.now register }
        ensures fits { result < 2 ^ (8 * register_width register) }
    {
        match register {
            Register::Capabilities => CAPABILITIES,
            Register::Fctl => FCTL,
            Register::Ddtp => self.ddtp.value(),
            Register::Cqb => self.cqb.value(),
            Register::Cqh => self.command_head() as u64,
            Register::Cqt => self.command_tail() as u64,
            Register::Fqb => self.fqb.value(),
            Register::Fqh => self.fault_head() as u64,
            Register::Fqt => self.fault_tail() as u64,
            Register::Cqcsr => self.cqcsr.value(),
            Register::Fqcsr => self.fqcsr.value(),
            Register::Ipsr => self.ipsr.value(),
        }
    }

    /// What a write of the register does. Read-only registers stay, and so do the bits of a value that
    /// the register hasn't.
    pub fn set(&mut self, register: Register, value: u64)
        ensures { self.new ≡ written self.old register value }
    {
        match register {
            Register::Capabilities | Register::Fctl | Register::Cqh | Register::Fqt => {}
            Register::Ddtp => self.ddtp = self.ddtp.written(value),
            Register::Cqb => {
                if !self.cqcsr.cqen {
                    self.cqb = QueueBase::at(value);
                }
            }
            Register::Cqt => self.cqt = index_in(value, self.command_entries()),
            Register::Fqb => {
                if !self.fqcsr.fqen {
                    self.fqb = QueueBase::at(value);
                }
            }
            Register::Fqh => self.fqh = index_in(value, self.fault_entries()),
            Register::Cqcsr => self.set_cqcsr(CommandStatus::decode(value)),
            Register::Fqcsr => self.set_fqcsr(FaultStatus::decode(value)),
            Register::Ipsr => {
                self.ipsr = self.ipsr.written(PendingInterrupts::decode(value));
                self.raise_interrupts();
            }
        }
    }

    fn set_cqcsr(&mut self, bits: CommandStatus)
        ensures { self.new ≡ with_interrupts (with_cqcsr self.old bits) }
    {
        if bits.cqen && !self.cqcsr.cqen {
            self.cqh = 0;
        }
        self.cqcsr = self.cqcsr.written(bits);
        self.raise_interrupts();
    }

    fn set_fqcsr(&mut self, bits: FaultStatus)
        ensures { self.new ≡ with_interrupts (with_fqcsr self.old bits) }
    {
        if bits.fqen && !self.fqcsr.fqen {
            self.fqt = 0;
        }
        self.fqcsr = self.fqcsr.written(bits);
        self.raise_interrupts();
    }

    // Sets the bits of ipsr whose interrupts are due.
    pub(crate) fn raise_interrupts(&mut self)
        ensures { self.new ≡ with_interrupts self.old }
    {
        self.ipsr = PendingInterrupts {
            cip: self.ipsr.cip || self.cqcsr.is_interrupt_due(),
            fip: self.ipsr.fip || self.fqcsr.is_interrupt_due(),
        };
    }

    /// Whether the two hold the same in each register. It changes nothing.
    pub fn is_same(&self, other: &Registers) -> bool
        ensures { IsTrue result ↔ (self.now ≡ other.now) }
    {
        self == other
    }

    /// How a transaction finds its device context.
    pub fn directory_mode(&self) -> DirectoryMode
        ensures { result ≡ directory_mode self.now }
    {
        self.ddtp.mode
    }

    /// The number of the page that is the directory's root.
    pub fn directory_root(&self) -> u64
        ensures value { result ≡ directory_root self.now }
        ensures range { result < 2 ^ 44 }
    {
        self.ddtp.ppn
    }
}

/// Nothing follows a write but what the table says.
impl Mmio for Registers {
    ghost registers = { λ r. r };

    ghost after = { written };

    ghost writes_registers = { λ x r value. refl };

    fn read(&self, offset: u64, width: u32) -> Result<u64, RegFault> {
        let register = Register::at(offset, width)?;
        Ok(self.value(register))
    }

    fn write(&mut self, offset: u64, width: u32, value: u64) -> Result<(), RegFault> {
        let register = Register::at(offset, width)?;
        self.set(register, value);
        Ok(())
    }
}

ghost use Rattle.std.specs.Prelude.{◌≡◌, if◌then◌else◌};

use crate::fields::low_word;
use crate::flags::{Cqcsr, Fqcsr, Ipsr};
use bitflags::Flags;

/// What `cqcsr` holds, bit by bit. `cqon` isn't here: it is `cqen`, since writes take effect at once.
#[derive(Clone, Copy, PartialEq, Eq)]
pub(crate) struct CommandStatus {
    /// The command queue is on.
    pub cqen: bool,
    /// Its interrupts are enabled.
    pub cie: bool,
    /// A command couldn't be loaded, or a fence's word not be stored.
    pub cqmf: bool,
    /// A command took too long.
    pub cmd_to: bool,
    /// The command at the head is illegal.
    pub cmd_ill: bool,
    /// A fence that asked for an interrupt is done.
    pub fence_w_ip: bool,
}

/// What `fqcsr` holds, bit by bit. `fqon` isn't here: it is `fqen`, since writes take effect at once.
#[derive(Clone, Copy, PartialEq, Eq)]
pub(crate) struct FaultStatus {
    /// The fault queue is on.
    pub fqen: bool,
    /// Its interrupts are enabled.
    pub fie: bool,
    /// A record couldn't be stored.
    pub fqmf: bool,
    /// A record found the queue full.
    pub fqof: bool,
}

/// What `ipsr` holds, bit by bit.
#[derive(Clone, Copy, PartialEq, Eq)]
pub(crate) struct PendingInterrupts {
    /// The command queue's interrupt is pending.
    pub cip: bool,
    /// The fault queue's interrupt is pending.
    pub fip: bool,
}

// A bit of a register's value, where it is set.
fn bit(is_set: bool, bit: u32) -> u64
    ensures { result ≡ (if is_set then bit else 0) }
{
    if is_set { bit as u64 } else { 0 }
}

impl CommandStatus {
    ghost use Rattle.iom_registers.specs.Fields.{cqcsr_bits, cqcsr_value, cqcsr_written, is_command_interrupt_due};

    // The bits that a value names.
    pub(crate) fn decode(value: u64) -> CommandStatus
        ensures { result ≡ cqcsr_bits value }
    {
        let bits = Cqcsr::from_bits_retain(low_word(value));
        CommandStatus {
            cqen: bits.contains(Cqcsr::CQEN),
            cie: bits.contains(Cqcsr::CIE),
            cqmf: bits.contains(Cqcsr::CQMF),
            cmd_to: bits.contains(Cqcsr::CMD_TO),
            cmd_ill: bits.contains(Cqcsr::CMD_ILL),
            fence_w_ip: bits.contains(Cqcsr::FENCE_W_IP),
        }
    }

    pub(crate) fn value(self) -> u64
        ensures { result ≡ cqcsr_value self }
    {
        bit(self.cqen, Cqcsr::CQEN.bits())
            + bit(self.cie, Cqcsr::CIE.bits())
            + bit(self.cqmf, Cqcsr::CQMF.bits())
            + bit(self.cmd_to, Cqcsr::CMD_TO.bits())
            + bit(self.cmd_ill, Cqcsr::CMD_ILL.bits())
            + bit(self.fence_w_ip, Cqcsr::FENCE_W_IP.bits())
            + bit(self.cqen, Cqcsr::CQON.bits())
    }

    // What a write of these bits leaves.
    pub(crate) fn written(self, bits: CommandStatus) -> CommandStatus
        ensures { result ≡ cqcsr_written self bits }
    {
        let stay = self.cqen || !bits.cqen;
        CommandStatus {
            cqen: bits.cqen,
            cie: bits.cie,
            cqmf: stay && self.cqmf && !bits.cqmf,
            cmd_to: stay && self.cmd_to && !bits.cmd_to,
            cmd_ill: stay && self.cmd_ill && !bits.cmd_ill,
            fence_w_ip: stay && self.fence_w_ip && !bits.fence_w_ip,
        }
    }

    // Whether the command queue's interrupt is due.
    pub(crate) fn is_interrupt_due(self) -> bool
        ensures { result ≡ is_command_interrupt_due self }
    {
        self.cie && (self.cqmf || self.cmd_to || self.cmd_ill || self.fence_w_ip)
    }
}

impl FaultStatus {
    ghost use Rattle.iom_registers.specs.Fields.{fqcsr_bits, fqcsr_value, fqcsr_written, is_fault_interrupt_due};

    // The bits that a value names.
    pub(crate) fn decode(value: u64) -> FaultStatus
        ensures { result ≡ fqcsr_bits value }
    {
        let bits = Fqcsr::from_bits_retain(low_word(value));
        FaultStatus {
            fqen: bits.contains(Fqcsr::FQEN),
            fie: bits.contains(Fqcsr::FIE),
            fqmf: bits.contains(Fqcsr::FQMF),
            fqof: bits.contains(Fqcsr::FQOF),
        }
    }

    pub(crate) fn value(self) -> u64
        ensures { result ≡ fqcsr_value self }
    {
        bit(self.fqen, Fqcsr::FQEN.bits())
            + bit(self.fie, Fqcsr::FIE.bits())
            + bit(self.fqmf, Fqcsr::FQMF.bits())
            + bit(self.fqof, Fqcsr::FQOF.bits())
            + bit(self.fqen, Fqcsr::FQON.bits())
    }

    // What a write of these bits leaves.
    pub(crate) fn written(self, bits: FaultStatus) -> FaultStatus
        ensures { result ≡ fqcsr_written self bits }
    {
        let stay = self.fqen || !bits.fqen;
        FaultStatus {
            fqen: bits.fqen,
            fie: bits.fie,
            fqmf: stay && self.fqmf && !bits.fqmf,
            fqof: stay && self.fqof && !bits.fqof,
        }
    }

    // Whether the fault queue's interrupt is due.
    pub(crate) fn is_interrupt_due(self) -> bool
        ensures { result ≡ is_fault_interrupt_due self }
    {
        self.fie && (self.fqmf || self.fqof)
    }
}

impl PendingInterrupts {
    ghost use Rattle.iom_registers.specs.Fields.{ipsr_bits, ipsr_value, ipsr_written};

    // The bits that a value names.
    pub(crate) fn decode(value: u64) -> PendingInterrupts
        ensures { result ≡ ipsr_bits value }
    {
        let bits = Ipsr::from_bits_retain(low_word(value));
        PendingInterrupts {
            cip: bits.contains(Ipsr::CIP),
            fip: bits.contains(Ipsr::FIP),
        }
    }

    pub(crate) fn value(self) -> u64
        ensures { result ≡ ipsr_value self }
    {
        bit(self.cip, Ipsr::CIP.bits()) + bit(self.fip, Ipsr::FIP.bits())
    }

    // What a write of these bits leaves.
    pub(crate) fn written(self, bits: PendingInterrupts) -> PendingInterrupts
        ensures { result ≡ ipsr_written self bits }
    {
        PendingInterrupts {
            cip: self.cip && !bits.cip,
            fip: self.fip && !bits.fip,
        }
    }
}

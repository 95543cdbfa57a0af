// Registers by their names, and what the driver reads off them.
ghost use Rattle.std.specs.Prelude.{◌≡◌};
ghost use Rattle.iom_registers.specs.Queues.{command_status};
ghost use Rattle.iom_registers.specs.Table.{value_of};

use bitflags::Flags;
use iom_registers::{Cqcsr, Mmio, Register};

/// The value of a register.
#[inline]
pub(crate) fn read<M: Mmio>(io: &M, register: Register) -> u64
    ensures { result ≡ value_of (M.registers io.now) register }
{
    io.read(register.offset(), register.width()).unwrap()
}

/// Writes a register.
#[inline]
pub(crate) fn write<M: Mmio>(io: &mut M, register: Register, value: u64)
    ensures { io.new ≡ M.after io.old register value }
{
    let _ = io.write(register.offset(), register.width(), value);
}

/// Whether a command took too long.
pub(crate) fn has_timed_out<M: Mmio>(io: &M) -> bool
    ensures { result ≡ (command_status (M.registers io.now)).cmd_to }
{
    let status = read(io, Register::Cqcsr);
    Cqcsr::from_bits_retain(status as u32).contains(Cqcsr::CMD_TO)
}

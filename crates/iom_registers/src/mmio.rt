ghost use Rattle.std.specs.Prelude.{◌≡◌, ◌<◌, ◌^◌, ◌*◌, ℕ, IfOk};
ghost use Rattle.iom_registers.specs.Places.{register_at, answer_of, done_of, changed_by};
ghost use Rattle.iom_registers.specs.Table.{value_of, written};
ghost use Rattle.iom_registers.specs.declared.register.Register.{Register};
ghost use Rattle.iom_registers.specs.declared.registers.Registers.{Registers};

use crate::register::{RegFault, Register};
use crate::registers::Registers;

/// What software reaches by register accesses: a register file, or a machine that has one.
///
/// Offsets and widths are in bytes. An access reaches the register that begins at the offset, with that
/// register's width; another is refused, and changes nothing.
pub trait Mmio {
    /// The register file inside.
    ghost registers: { Self → Registers };

    /// The whole of it after a write to a register: the register file, and whatever follows the write.
    ghost after: { Self → Register → ℕ → Self };

    /// The value of the register at the offset. `BadOffset` where none begins there, else `BadWidth` where
    /// it has another width.
    fn read(&self, offset: u64, width: u32) -> Result<u64, RegFault>
        ensures answer { result ≡ answer_of (value_of (registers self.now)) (register_at offset width) }
        ensures fits { IfOk result (λ value. value < 2 ^ (8 * width)) };

    /// Writes the register at the offset. Refused as a read is, and then nothing changes.
    fn write(&mut self, offset: u64, width: u32, value: u64) -> Result<(), RegFault>
        ensures answer { result ≡ done_of (register_at offset width) }
        ensures left { self.new ≡ changed_by (after self.old) self.old value (register_at offset width) };

    /// Whatever else follows, the register file is what the table says of the write.
    ghost writes_registers: { (x : Self) (r : Register) (value : ℕ)
        → registers (after x r value) ≡ written (registers x) r value };
}

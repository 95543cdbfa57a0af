// What software sees of its registers, and what follows a write (IOMMU specification, chapter 5).
ghost use Rattle.std.specs.Prelude.{◌≡◌, refl};
ghost use Rattle.iom_iommu.specs.Parts.{registers_of, after_write};

use crate::iommu::Iommu;
use iom_registers::{Mmio, RegFault, Register, Registers};
use iom_tlb::TransCache;

impl<C: TransCache> Iommu<C> {
    /// Its registers.
    pub fn registers(&self) -> &Registers
        ensures { result.now ≡ registers_of self.now }
    {
        &self.registers
    }
}

/// What follows a write is what the table of the registers says; and where the command queue is off after it, no
/// invalidation request is open, no fence waits for one, and what a fence at its head had counted is given up.
impl<C: TransCache> Mmio for Iommu<C> {
    ghost registers = { registers_of };

    ghost after = { after_write };

    ghost writes_registers = { λ x r value. refl };

    fn read(&self, offset: u64, width: u32) -> Result<u64, RegFault> {
        self.registers.read(offset, width)
    }

    // Written into its caller, which knows the register.
    #[inline(always)]
    fn write(&mut self, offset: u64, width: u32, value: u64) -> Result<(), RegFault> {
        let register = Register::at(offset, width)?;
        self.registers.set(register, value);
        if !self.registers.is_command_queue_on() {
            self.fence_snapshot = None;
            self.fence_waits = false;
            self.slots.close_all();
        }
        Ok(())
    }
}

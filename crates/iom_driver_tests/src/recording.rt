// Registers that remember in which order they were written.
use iom_registers::{Mmio, RegFault, Register, Registers};

/// A register file, and the last six registers that were written, the oldest first.
#[derive(Clone, Copy)]
pub struct Recording {
    pub registers: Registers,
    pub first: Option<Register>,
    pub second: Option<Register>,
    pub third: Option<Register>,
    pub fourth: Option<Register>,
    pub fifth: Option<Register>,
    pub sixth: Option<Register>,
}

impl Recording {
    ghost use Rattle.std.specs.Prelude.{◌≡◌};
    ghost use Rattle.iom_registers.specs.Table.{at_power_on};

    /// At power-on nothing was written.
    pub fn new() -> Recording
        ensures { result.registers ≡ at_power_on }
    {
        Recording {
            registers: Registers::new(),
            first: None,
            second: None,
            third: None,
            fourth: None,
            fifth: None,
            sixth: None,
        }
    }
}

impl Mmio for Recording {
    ghost use Rattle.std.specs.Prelude.{refl};
    ghost use Rattle.iom_driver_tests.specs.Recorded.{recorded};

    ghost registers = { λ r. r.registers };

    ghost after = { recorded };

    ghost writes_registers = { λ x r value. refl };

    fn read(&self, offset: u64, width: u32) -> Result<u64, RegFault> {
        let register = Register::at(offset, width)?;
        Ok(self.registers.value(register))
    }

    fn write(&mut self, offset: u64, width: u32, value: u64) -> Result<(), RegFault> {
        let register = Register::at(offset, width)?;
        self.registers.set(register, value);
        self.first = self.second;
        self.second = self.third;
        self.third = self.fourth;
        self.fourth = self.fifth;
        self.fifth = self.sixth;
        self.sixth = Some(register);
        Ok(())
    }
}

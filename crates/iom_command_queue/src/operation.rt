ghost use Rattle.std.specs.Prelude.{◌≡◌, Some};
ghost use Rattle.iom_command_queue.specs.Formats.{opcode_of, func3_of};
ghost use Rattle.iom_command_queue.specs.Legal.{operation_at};
ghost use Rattle.iom_command_queue.specs.Names.{operation_name};

use crate::illegal::Illegal;
use std::fmt;

/// The commands by name, as opcode and func3 tell them apart.
#[derive(Clone, Copy, PartialEq, Eq)]
pub enum Operation {
    /// IOTINVAL.VMA
    IotinvalVma,
    /// IOTINVAL.GVMA
    IotinvalGvma,
    /// IOFENCE.C
    IofenceC,
    /// IODIR.INVAL_DDT
    IodirInvalDdt,
    /// ATS.INVAL
    AtsInval,
}

impl Operation {
    /// The operation with this opcode and func3.
    pub(crate) fn at(opcode: u64, func3: u64) -> Result<Operation, Illegal>
        ensures { result ≡ operation_at opcode func3 }
    {
        match (opcode, func3) {
            (1, 0) => Ok(Operation::IotinvalVma),
            (1, 1) => Ok(Operation::IotinvalGvma),
            (2, 0) => Ok(Operation::IofenceC),
            (3, 0) => Ok(Operation::IodirInvalDdt),
            (4, 0) => Ok(Operation::AtsInval),
            (1..=4, _) => Err(Illegal::Func),
            _ => Err(Illegal::Opcode),
        }
    }

    pub(crate) fn opcode(self) -> u64
        ensures { result ≡ opcode_of self }
    {
        match self {
            Operation::IotinvalVma | Operation::IotinvalGvma => 1,
            Operation::IofenceC => 2,
            Operation::IodirInvalDdt => 3,
            Operation::AtsInval => 4,
        }
    }

    pub(crate) fn func3(self) -> u64
        ensures { result ≡ func3_of self }
    {
        match self {
            Operation::IotinvalGvma => 1,
            _ => 0,
        }
    }
}

/// The command's name, as `iotinval.vma`.
impl fmt::Display for Operation {
    ghost output = { λ operation. Some (operation_name operation) };

    fn fmt<W: fmt::Write>(&self, f: &mut fmt::Formatter<W>) -> fmt::Result {
        f.write_str(match self {
            Operation::IotinvalVma => "iotinval.vma",
            Operation::IotinvalGvma => "iotinval.gvma",
            Operation::IofenceC => "iofence.c",
            Operation::IodirInvalDdt => "iodir.inval_ddt",
            Operation::AtsInval => "ats.inval",
        })
    }
}

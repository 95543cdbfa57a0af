// Why a script isn't run to its end, and the exit status then.
ghost use Rattle.std.specs.Prelude.{◌≡◌};
ghost use Rattle.iom_hardware_runner.specs.Parts.{script_fault_of, read_fault_of};
ghost use Rattle.iom_hardware_runner.specs.Statuses.{status_of};

use iom_script::ScriptFault;
use iom_script_reading::ReadFault;
use thiserror::Error;

/// Why a script isn't run to its end.
#[derive(Clone, Copy, PartialEq, Eq, Debug, Error)]
pub enum RunFault {
    #[error("line {0}: bad script")]
    BadScript(u64),
    #[error("reading failed")]
    Reading,
    #[error("writing failed")]
    Writing,
    #[error("out of memory")]
    Memory,
    #[error("too many events")]
    TooManyEvents,
}

impl From<ScriptFault> for RunFault {
    ghost from_gives = { λ fault run. run ≡ script_fault_of fault };

    fn from(fault: ScriptFault) -> RunFault {
        match fault {
            ScriptFault::Memory => RunFault::Memory,
            ScriptFault::Line(number) => RunFault::BadScript(number),
        }
    }
}

impl From<ReadFault> for RunFault {
    ghost from_gives = { λ fault run. run ≡ read_fault_of fault };

    fn from(fault: ReadFault) -> RunFault {
        match fault {
            ReadFault::Reading => RunFault::Reading,
            ReadFault::Memory => RunFault::Memory,
        }
    }
}

/// The exit status of a program whose run ended so: 0 where nothing was wrong, 1 where something was, 2 where a line isn't in
/// the grammar, and 4 where reading, writing or memory failed.
pub fn exit_status(ended: &Result<bool, RunFault>) -> u8
    ensures { result ≡ status_of ended.now }
{
    match ended {
        Ok(false) => 0,
        Ok(true) => 1,
        Err(RunFault::BadScript(_)) => 2,
        Err(RunFault::Reading | RunFault::Writing | RunFault::Memory | RunFault::TooManyEvents) =>
            4,
    }
}

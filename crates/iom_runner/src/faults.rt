// What keeps a script from being run, and the status that the program then ends with.
ghost use Rattle.std.specs.Prelude.{◌≡◌};
ghost use Rattle.iom_runner.specs.Bytes.{run_fault_of};
ghost use Rattle.iom_runner.specs.Reading.{read_fault_of};
ghost use Rattle.iom_runner.specs.Statuses.{status_of};

use iom_command_line::ArgsFault;
use iom_script::ScriptFault;
use iom_script_reading::ReadFault;
use thiserror::Error;

/// Why a script isn't run to its end.
#[derive(Debug, Drop, Error)]
pub enum RunFault {
    /// The script can't be read.
    #[error("reading failed")]
    Reading,
    /// Its lines can't be written.
    #[error("writing failed")]
    Writing,
    #[error("out of memory")]
    Memory,
    /// This line, counted from 1, is the first that isn't in the grammar.
    #[error("line {0}: bad script")]
    Script(u64),
}

impl From<ScriptFault> for RunFault {
    ghost from_gives = { λ fault run. run ≡ run_fault_of fault };

    fn from(fault: ScriptFault) -> RunFault {
        match fault {
            ScriptFault::Line(number) => RunFault::Script(number),
            ScriptFault::Memory => RunFault::Memory,
        }
    }
}

impl From<ReadFault> for RunFault {
    ghost from_gives = { λ fault run. run ≡ read_fault_of fault };

    fn from(fault: ReadFault) -> RunFault {
        match fault {
            ReadFault::Reading => RunFault::Reading,
            ReadFault::Memory => RunFault::Memory,
        }
    }
}

/// Why the program doesn't end well.
#[derive(Debug, Drop, Error)]
pub enum ProgramFault {
    #[error("{0}")]
    Args(ArgsFault),
    #[error("{0}")]
    Run(RunFault),
}

impl From<ArgsFault> for ProgramFault {
    ghost use Rattle.iom_runner.specs.declared.faults.ProgramFault.TheVariants.{Args};

    ghost from_gives = { λ fault program. program ≡ Args fault };

    fn from(fault: ArgsFault) -> ProgramFault {
        ProgramFault::Args(fault)
    }
}

impl From<RunFault> for ProgramFault {
    ghost use Rattle.iom_runner.specs.declared.faults.ProgramFault.TheVariants.{Run};

    ghost from_gives = { λ fault program. program ≡ Run fault };

    fn from(fault: RunFault) -> ProgramFault {
        ProgramFault::Run(fault)
    }
}

impl ProgramFault {
    /// The status with which the program ends: 3 for a bad command line, 2 for a script that isn't in
    /// the grammar, and 1 where reading, writing or memory failed.
    pub fn status(&self) -> u8
        ensures { result ≡ status_of self.now }
    {
        match self {
            ProgramFault::Args(ArgsFault::Bad) => 3,
            ProgramFault::Run(RunFault::Script(_)) => 2,
            ProgramFault::Args(ArgsFault::Memory)
            | ProgramFault::Run(RunFault::Reading | RunFault::Writing | RunFault::Memory) => 1,
        }
    }
}

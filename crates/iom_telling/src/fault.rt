ghost use Rattle.std.specs.Prelude.{◌≡◌};
ghost use Rattle.iom_telling.specs.Faults.{telling_fault_of, fault_of};

use iom_tell::TellFault;
use thiserror::Error;

/// Why a script isn't told to its end.
#[derive(Clone, Copy, PartialEq, Eq, Debug, Error)]
pub enum TellingFault {
    /// Its lines can't be written.
    #[error("writing failed")]
    Writing,
    #[error("out of memory")]
    Memory,
    /// No line can say an event, or the access that it began.
    #[error("an event that no line can say")]
    Unsayable,
}

/// What a fault at one event is for the whole.
fn widened(fault: TellFault) -> TellingFault
    ensures { result ≡ telling_fault_of fault }
{
    match fault {
        TellFault::Memory => TellingFault::Memory,
        TellFault::Unsayable => TellingFault::Unsayable,
    }
}

/// What failed, if something did.
pub(crate) fn fault_of(told: Result<(), TellFault>) -> Option<TellingFault>
    ensures { result ≡ fault_of told }
{
    match told {
        Ok(()) => None,
        Err(fault) => Some(widened(fault)),
    }
}

//! Why a search ends early.
ghost use Rattle.std.specs.Prelude.{◌≡◌};
ghost use Rattle.iom_litmus.specs.declared.fault.SearchFault.TheVariants.{Memory};

use std::alloc::AllocError;

/// Why a search ended before all was gone through.
#[derive(Clone, Copy, PartialEq, Eq, Debug)]
pub enum SearchFault {
    /// Memory was refused. That is also answered where a system, made anew and brought the same way, isn't the same.
    Memory,
    /// There are more places than it may find.
    TooMany,
    /// There are more schedules than can be counted: 2^64 or more.
    TooManySchedules,
    /// Steps can be taken for ever: some lead back to a place from which they began.
    Endless,
}

impl From<AllocError> for SearchFault {
    ghost from_gives = { λ _ fault. fault ≡ Memory };

    fn from(_fault: AllocError) -> SearchFault {
        SearchFault::Memory
    }
}

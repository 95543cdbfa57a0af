// The faults with which a walk stops.
ghost use Rattle.std.specs.Prelude.{◌≡◌};
ghost use Rattle.iom_base.specs.Causes.{guest_page_fault_of};
ghost use Rattle.iom_stage_walk.specs.Both.{plain};
ghost use Rattle.iom_stage_walk.specs.Second.{reported};

use iom_base::{AccessKind, Cause};
use iom_stage_walk::WalkFault;

/// A fault that tells no guest physical address.
pub(crate) fn plain(cause: Cause) -> WalkFault
    ensures { result ≡ plain cause }
{
    WalkFault {
        cause,
        gpa: 0,
        implicit: false,
    }
}

/// The guest page fault of an access of this kind at a guest physical address, which the walk itself reads where it is
/// implicit.
pub(crate) fn guest_page_fault(kind: AccessKind, gpa: u64, implicit: bool) -> WalkFault
    ensures { result ≡ reported (guest_page_fault_of kind) gpa implicit }
{
    WalkFault {
        cause: Cause::guest_page_fault(kind),
        gpa,
        implicit,
    }
}

// Whether an access in flight is waited for.
ghost use Rattle.std.specs.Prelude.{◌≡◌};
ghost use Rattle.iom_inflight.specs.Flights.{is_same_kind};
ghost use Rattle.iom_inflight.specs.Rings.{is_header_awaited};

use crate::header::AccessHeader;
use iom_base::AccessKind;

/// Whether the kinds are the same.
fn is_same(one: AccessKind, other: AccessKind) -> bool
    ensures { result ≡ is_same_kind one other }
{
    match (one, other) {
        (AccessKind::Read, AccessKind::Read) | (AccessKind::Write, AccessKind::Write) => true,
        (AccessKind::Read, AccessKind::Write) | (AccessKind::Write, AccessKind::Read) => false,
    }
}

impl AccessHeader {
    /// Whether it is of the kind, and was accepted up to this number.
    pub(crate) fn is_awaited(&self, before: u64, kind: AccessKind) -> bool
        ensures { result ≡ is_header_awaited before kind self.now }
    {
        is_same(self.kind, kind) && self.number <= before
    }
}

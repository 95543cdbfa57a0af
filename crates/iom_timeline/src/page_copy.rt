// A copy of a translation, and up to where it is of use.
ghost use Rattle.std.specs.Prelude.{◌≡◌, ◌≤◌, ◌↔◌, IfSome, IsNone};

use crate::period::{NEVER, Period};
use crate::timeline::{CopyKind, Place};

/// A copy of a translation, for as long as it was there.
#[derive(Clone, Copy)]
pub struct PageCopy {
    pub kind: CopyKind,
    pub place: Place,
    pub period: Period,
    /// The line from which on nothing reaches the frame by it, though it is there, or [`NEVER`].
    pub useless_from: u64,
}

impl PageCopy {
    /// It comes to be at this line.
    pub(crate) fn begin(kind: CopyKind, place: Place, line: u64) -> PageCopy {
        PageCopy {
            kind,
            place,
            period: Period::since(line),
            useless_from: NEVER,
        }
    }

    /// When something could reach the frame by it. None where it was of no use from its first line on.
    pub fn of_use(&self) -> Option<Period>
        ensures none { IsNone result ↔ (self.now.useless_from ≤ self.now.period.from) }
        ensures from { IfSome result (λ period. period.from ≡ self.now.period.from) }
        ensures until { IfSome result (λ period.
            (self.now.useless_from ≤ self.now.period.until → period.until ≡ self.now.useless_from)
            × (self.now.period.until ≤ self.now.useless_from
            → period.until ≡ self.now.period.until)) }
    {
        if self.useless_from <= self.period.from {
            return None;
        }
        Some(Period {
            from: self.period.from,
            until: self.useless_from.min(self.period.until),
        })
    }

    /// When it was there, and of no use any more. None where it was of use to its end.
    pub fn of_no_use(&self) -> Option<Period>
        ensures none { IsNone result ↔ (self.now.period.until ≤ self.now.useless_from) }
        ensures from { IfSome result (λ period.
            (self.now.period.from ≤ self.now.useless_from → period.from ≡ self.now.useless_from)
            × (self.now.useless_from ≤ self.now.period.from
            → period.from ≡ self.now.period.from)) }
        ensures until { IfSome result (λ period. period.until ≡ self.now.period.until) }
    {
        if self.period.until <= self.useless_from {
            return None;
        }
        Some(Period {
            from: self.useless_from.max(self.period.from),
            until: self.period.until,
        })
    }
}

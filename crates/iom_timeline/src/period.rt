ghost use Rattle.std.specs.Prelude.{◌≡◌, ◌≤◌};

/// The line of what hasn't come by the end of the trace.
pub const NEVER: u64 = u64::MAX;

/// The time from one line to another. It never ends before it begins.
#[derive(Clone, Copy)]
pub struct Period {
    pub from: u64,
    /// The line at which it ended, or [`NEVER`].
    pub until: u64,
    pub ghost in_order: { from ≤ until },
}

impl Period {
    /// It begins at this line, and hasn't ended.
    pub fn since(line: u64) -> Period
        ensures { (result.from ≡ line) × (result.until ≡ NEVER) }
    {
        Period {
            from: line,
            until: NEVER,
        }
    }

    /// The same, ended at this line; at its first one where that is later.
    pub fn ended(self, line: u64) -> Period
        ensures from { result.from ≡ self.from }
        ensures until { self.from ≤ line → result.until ≡ line }
    {
        Period {
            from: self.from,
            until: line.max(self.from),
        }
    }
}

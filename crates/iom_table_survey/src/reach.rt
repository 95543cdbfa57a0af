ghost use Rattle.std.specs.Prelude.{◌≡◌, ◌<◌, ◌+◌, ◌^◌, ℕ, true, false, ⊤};
ghost use Rattle.iom_base.specs.Rights.{allows};
ghost use Rattle.iom_table_survey.specs.Rows.{row_has, GrowsBy, IsInRun};
ghost use Rattle.iom_table_survey.specs.Reaches.{frames_by, AddsReach};

use crate::frame_row::FrameRow;
use iom_base::{AccessKind, Rights};

/// The frames that can be read, and those that can be written.
#[derive(Drop)]
pub struct Reach {
    pub readable: FrameRow,
    pub writable: FrameRow,
}

/// Puts a run of frames into the set, where that is allowed.
fn insert_where(row: &mut FrameRow, allowed: bool, first: u64, count: u64)
    requires some { 0 < count }
    requires fits { first + count < 2 ^ 64 }
    ensures { GrowsBy row.old row.new (λ f. IsInRun first count f × (allowed ≡ true)) }
{
    if allowed {
        row.insert_run(first, count);
    }
}

impl Reach {
    /// No frame can be reached.
    pub fn new() -> Reach
        ensures { (kind : AccessKind) (f : ℕ) → row_has (frames_by result kind) f ≡ false }
    {
        Reach {
            readable: FrameRow::new(),
            writable: FrameRow::new(),
        }
    }

    /// Whether an access of this kind can reach the frame.
    pub fn contains(&self, frame: u64, kind: AccessKind) -> bool
        ensures { result ≡ row_has (frames_by self.now kind) frame }
    {
        match kind {
            AccessKind::Read => self.readable.contains(frame),
            AccessKind::Write => self.writable.contains(frame),
        }
    }

    /// So many frames from the first on can be reached by what the right allows.
    pub fn insert_run(&mut self, first: u64, count: u64, rights: Rights)
        requires some { 0 < count }
        requires fits { first + count < 2 ^ 64 }
        ensures { AddsReach self.old self.new (λ kind f. IsInRun first count f × (allows rights kind ≡ true)) }
    {
        let can_read = rights.allows(AccessKind::Read);
        let can_write = rights.allows(AccessKind::Write);
        insert_where(&mut self.readable, can_read, first, count);
        insert_where(&mut self.writable, can_write, first, count);
    }

    /// The frame can be reached by what the right allows.
    pub fn insert(&mut self, frame: u32, rights: Rights)
        ensures { AddsReach self.old self.new (λ kind f. (frame ≡ f) × (allows rights kind ≡ true)) }
    {
        self.insert_run(u64::from(frame), 1, rights);
    }

    /// The frame can be reached by an access of this kind.
    pub fn insert_for(&mut self, frame: u64, kind: AccessKind)
        ensures { AddsReach self.old self.new (λ own f. (f ≡ frame) × (own ≡ kind)) }
    {
        match kind {
            AccessKind::Read => self.readable.insert(frame),
            AccessKind::Write => self.writable.insert(frame),
        }
    }

    /// Every frame can be reached, by each kind of access.
    pub fn insert_all(&mut self)
        ensures { AddsReach self.old self.new (λ kind f. ⊤) }
    {
        self.readable.insert_all();
        self.writable.insert_all();
    }

    /// No frame can be reached any more.
    pub fn clear(&mut self)
        ensures { (kind : AccessKind) (f : ℕ) → row_has (frames_by self.new kind) f ≡ false }
    {
        self.readable.clear();
        self.writable.clear();
    }

    /// What can be reached there can be reached here too.
    pub fn union(&mut self, other: &Reach)
        ensures { AddsReach self.old self.new (λ kind f. row_has (frames_by other.now kind) f ≡ true) }
    {
        self.readable.union(&other.readable);
        self.writable.union(&other.writable);
    }
}

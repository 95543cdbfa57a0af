//! The row of each frame, and the frames whose rows are free.
ghost use Rattle.std.specs.Prelude.{◌≡◌, ◌↔◌, ◌+◌, ◌<◌, ◌^◌, IsTrue, IfOk, OnOk, length, max, replicate, slice_get, vec_capacity};
ghost use Rattle.std.specs.Option.{option_copied};
ghost use Rattle.iom_frame_set.specs.Sets.{room};
ghost use Rattle.iom_ledger.specs.Counts.{row_of_frame, granted, released, confirmed, KeepsCounts, ChangesRow, IsFreeSet};

use crate::row::Row;
use iom_frame_set::FrameSet;
use std::alloc::{AllocError, Global};

/// The row of a frame that nothing names.
const FREE: Row = Row {
    grants: 0,
    pending: 0,
};

/// The row of each frame, and the set of the frames whose rows are free. A frame beyond the last that has a
/// row is named by nothing. A device has a page for each number of 64 bits at most, and the number of a
/// device has 32: so a count of 128 bits has room for each page that there may be.
#[derive(Drop)]
pub(crate) struct FrameRows {
    rows: Vec<Row>,
    free: FrameSet,
    ghost is_free: { IsFreeSet rows.items free },
}

impl FrameRows {
    ghost use Rattle.iom_ledger.specs.Same.{IsSameFrameRows};

    /// A row for each of so many frames, named by nothing.
    pub(crate) fn new(alloc: Global, frames: u32) -> Result<FrameRows, AllocError>
        ensures { IfOk result (λ made. made.rows.items ≡ replicate frames (record { grants = 0; pending = 0 })) }
    {
        let mut rows = Vec::with_capacity(alloc, frames as usize)?;
        let mut free = FrameSet::full(alloc);
        free.make_room(frames)?;
        rows.resize(frames as usize, FREE)?;
        Ok(FrameRows { rows, free })
    }

    /// The row of the frame, if it has one.
    pub(crate) fn row(&self, frame: u32) -> Option<&Row>
        ensures { option_copied result ≡ slice_get self.now.rows.items frame }
    {
        self.rows.get(frame as usize)
    }

    /// The frames whose rows are free, and those that have none.
    pub(crate) fn free_frames(&self) -> &FrameSet
        ensures { result.now ≡ self.now.free }
    {
        &self.free
    }

    /// Makes room for the row of the frame and of those below it; no row comes or changes. Only new memory
    /// can be refused.
    pub(crate) fn make_room(&mut self, frame: u32) -> Result<(), AllocError>
        ensures room { OnOk result (frame < room self.new.free) }
        ensures capacity { OnOk result (frame < vec_capacity self.new.rows) }
        ensures kept { self.new.rows.items ≡ self.old.rows.items }
    {
        if (frame as usize) < self.rows.len() {
            return Ok(());
        }
        self.free.make_room(frame)?;
        let missing = (frame as usize + 1).saturating_sub(self.rows.len());
        self.rows.reserve(missing)
    }

    /// Adds the rows that are missing up to that of the frame, for which there is room.
    fn add_rows(&mut self, frame: u32)
        requires room { frame < room self.old.free }
        requires capacity { frame < vec_capacity self.old.rows }
        ensures rows { length self.new.rows.items ≡ max (length self.old.rows.items) (frame + 1) }
        ensures kept { KeepsCounts self.old.rows.items self.new.rows.items }
        ensures room { frame < room self.new.free }
    {
        let rows = frame as usize + 1;
        if self.rows.len() < rows {
            self.rows.resize(rows, FREE).unwrap();
        }
    }

    /// Counts one grant of the frame more. Takes no memory.
    pub(crate) fn grant(&mut self, frame: u32)
        requires room { frame < room self.old.free }
        requires capacity { frame < vec_capacity self.old.rows }
        requires below { (row_of_frame self.old.rows.items frame).grants + 1 < 2 ^ 128 }
        ensures row { ChangesRow granted self.old.rows.items self.new.rows.items frame }
        ensures rows { length self.new.rows.items ≡ max (length self.old.rows.items) (frame + 1) }
    {
        self.add_rows(frame);
        self.rows[frame as usize].grants += 1;
        self.free.remove(frame);
    }

    /// Counts one grant of the frame as released.
    pub(crate) fn release(&mut self, frame: u32)
        requires granted { 0 < (row_of_frame self.old.rows.items frame).grants }
        requires below { (row_of_frame self.old.rows.items frame).pending + 1 < 2 ^ 128 }
        ensures row { ChangesRow released self.old.rows.items self.new.rows.items frame }
        ensures rows { length self.new.rows.items ≡ length self.old.rows.items }
    {
        let row = &mut self.rows[frame as usize];
        row.grants -= 1;
        row.pending += 1;
    }

    /// Counts one release of the frame as confirmed.
    pub(crate) fn confirm(&mut self, frame: u32)
        requires { 0 < (row_of_frame self.old.rows.items frame).pending }
        ensures row { ChangesRow confirmed self.old.rows.items self.new.rows.items frame }
        ensures rows { length self.new.rows.items ≡ length self.old.rows.items }
    {
        let row = &mut self.rows[frame as usize];
        row.pending -= 1;
        if row.is_free() {
            self.free.insert(frame);
        }
    }

    /// Whether both have the same row of each frame, and the same set of free frames.
    pub(crate) fn is_same(&self, other: &FrameRows) -> bool
        ensures { IsTrue result ↔ IsSameFrameRows self.now other.now }
    {
        if !self.free.is_same(&other.free) {
            return false;
        }
        self.rows.as_slice() == other.rows.as_slice()
    }
}

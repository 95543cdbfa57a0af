ghost use Rattle.std.specs.Prelude.{◌≡◌, ◌↔◌, ◌+◌, ◌-◌, ◌^◌, ◌<◌, ◌≤◌, length, replicate, IfOk, IsTrue, None, Some, slice_get, slice_set, MatchOption};
ghost use Rattle.std.specs.Option.{option_map_or};
ghost use Rattle.iom_phys_mem.specs.Words.{zeroed};
ghost use Rattle.iom_table_frames.specs.Owners.{has_owner, owner_at, opening_owners, IsFreeForTable, NoneIsFree, IsHighestFree, HasFree, GivesBack, AreSoMany, IsFreeInMemory};

use iom_base::{FRAME_SIZE, Owner};
use iom_frame_set::FrameSet;
use iom_ledger::Ledger;
use iom_phys_mem::{Bytes, Memory};
use std::alloc::{AllocError, Global};
use std::marker::Model;

/// How many frames at the end of memory are the system's from the start.
const SYSTEM_FRAMES: u32 = 4;

/// The owner of each frame, where it is reserved. Beside the owners stands the set of the frames
/// that aren't.
#[derive(Drop)]
pub struct TableFrames {
    owners: Vec<Option<Owner>>,
    unreserved: FrameSet,
}

impl Model for TableFrames {
    ghost use Rattle.std.specs.Prelude.{List, Option};
    ghost use Rattle.iom_base.specs.declared.owner.Owner.{Owner};

    ghost Value = { List (Option Owner) };

    ghost view = { λ t. t.owners.items };

    ghost use Rattle.iom_table_frames.specs.Unreserved.{IsUnreservedSet};

    ghost invariant = { λ t. IsUnreservedSet t.owners.items t.unreserved };
}

impl TableFrames {
    /// The owners of so many frames: the last four are the system's. Takes all its memory here.
    pub fn new(alloc: Global, frames: u32) -> Result<TableFrames, AllocError>
        requires { 4 ≤ frames }
        ensures { IfOk result (λ owners. owners ≡ opening_owners frames) }
    {
        let mut owners = Vec::with_capacity(alloc, frames as usize)?;
        let mut unreserved = FrameSet::empty(alloc);
        unreserved.make_room(frames)?;
        for frame in 0..frames - SYSTEM_FRAMES {
            owners.push(None)?;
            unreserved.insert(frame);
        }
        for fixed in 0..SYSTEM_FRAMES {
            owners.push(Some(Owner::System))?;
        }
        Ok(TableFrames { owners, unreserved })
    }

    /// Whether the frame is reserved; false outside memory.
    pub fn is_reserved(&self, frame: u32) -> bool
        ensures { result ≡ has_owner self.now frame }
    {
        match self.owners.get(frame as usize) {
            None => false,
            Some(owner) => owner.is_some(),
        }
    }

    /// Whom the frame is reserved for. None where it isn't reserved, or outside memory.
    pub fn owner_of(&self, frame: u32) -> Option<Owner>
        ensures { result ≡ owner_at self.now frame }
    {
        match self.owners.get(frame as usize) {
            None => None,
            Some(owner) => *owner,
        }
    }

    /// Whether the frame of memory is free: neither reserved nor held, nor released and not confirmed, by any
    /// device.
    pub(crate) fn is_free(&self, ledger: &Ledger, frame: u32) -> bool
        requires { frame < length self.now }
        ensures { IsTrue result ↔ IsFreeForTable self.now ledger.now None frame }
    {
        self.unreserved.contains(frame) && ledger.free_frames().contains(frame)
    }

    /// The highest free frame below the limit, which isn't the named one: free is what is neither
    /// reserved nor held, nor released and not confirmed, by any device.
    pub fn highest_free(&self, ledger: &Ledger, limit: u32, named: Option<u32>) -> Option<u32>
        requires { limit ≤ length self.now }
        ensures { MatchOption result (NoneIsFree self.now ledger.now named 0 limit) (IsHighestFree self.now ledger.now named limit) }
    {
        self.unreserved
            .highest_in_both(ledger.free_frames(), limit, named)
    }

    /// Whether so many frames are free besides the named one.
    pub fn has_free(&self, ledger: &Ledger, count: u32, named: Option<u32>) -> bool
        requires { length self.now < 2 ^ 32 }
        ensures { IsTrue result ↔ HasFree self.now ledger.now named count (length self.now) }
    {
        let mut limit = self.owners.len() as u32;
        for counted in 0..count {
            match self.highest_free(ledger, limit, named) {
                None => return false,
                Some(frame) => limit = frame,
            }
        }
        true
    }

    /// How many frames of memory are free. Looks at a word for 64 of them.
    pub fn count_free(&self, ledger: &Ledger) -> u32
        requires { length self.now < 2 ^ 32 }
        ensures { AreSoMany (IsFreeInMemory self.now ledger.now) result }
    {
        self.unreserved
            .count_in_both(ledger.free_frames(), self.owners.len() as u32)
    }

    /// Reserves the frame for the owner, and makes its bytes zero.
    pub fn reserve(&mut self, memory: &mut Memory, frame: u32, owner: Owner)
        requires owned { frame < length self.old }
        requires inside { frame < length memory.old }
        ensures owners { self.new ≡ slice_set self.old frame (Some owner) }
        ensures zero { memory.new ≡ slice_set memory.old frame zeroed }
    {
        self.owners[frame as usize] = Some(owner);
        self.unreserved.remove(frame);
        clear(memory, frame);
    }

    /// The highest free frame, besides the named one, becomes the owner's, and its bytes zero. Where there is
    /// none, nothing changes.
    pub fn take(
        &mut self,
        memory: &mut Memory,
        ledger: &Ledger,
        owner: Owner,
        named: Option<u32>,
    ) -> Option<u32>
        requires { length self.old ≡ length memory.old }
        ensures found { MatchOption result (NoneIsFree self.old ledger.now named 0 (length self.old))
            (IsHighestFree self.old ledger.now named (length self.old)) }
        ensures owners { self.new ≡ option_map_or (λ frame. slice_set self.old frame (Some owner)) result self.old }
        ensures memory { memory.new ≡ option_map_or (λ frame. slice_set memory.old frame zeroed) result memory.old }
        ensures size { (length self.new ≡ length self.old) × (length memory.new ≡ length memory.old) }
    {
        let frame = self.highest_free(ledger, memory.frames(), named)?;
        self.reserve(memory, frame, owner);
        Some(frame)
    }

    /// Whether the frame is the owner's.
    fn is_owned_by(&self, frame: u32, owner: Owner) -> bool
        ensures { IsTrue result ↔ (slice_get self.now frame ≡ Some (Some owner)) }
    {
        match self.owners.get(frame as usize) {
            Some(Some(own)) => *own == owner,
            _ => false,
        }
    }

    /// Takes the owner off the frame, and makes its bytes zero.
    fn release(&mut self, memory: &mut Memory, frame: u32)
        requires owned { frame < length self.old }
        requires inside { frame < length memory.old }
        ensures owners { self.new ≡ slice_set self.old frame None }
        ensures zero { memory.new ≡ slice_set memory.old frame zeroed }
    {
        self.owners[frame as usize] = None;
        self.unreserved.insert(frame);
        clear(memory, frame);
    }

    /// The frames of the owner are reserved no more, and their bytes become zero. Looks at each frame.
    pub fn give_back(&mut self, memory: &mut Memory, owner: Owner)
        requires { length self.old ≡ length memory.old }
        ensures { GivesBack owner self.old self.new memory.old memory.new }
    {
        for frame in 0..memory.frames() {
            if self.is_owned_by(frame, owner) {
                self.release(memory, frame);
            }
        }
    }

    /// Whether both have the same owners.
    // The set of unreserved frames is determined by the owners.
    pub fn is_same(&self, other: &TableFrames) -> bool
        ensures { IsTrue result ↔ (self.now ≡ other.now) }
    {
        self.owners.as_slice() == other.owners.as_slice()
    }
}

/// Makes the bytes of the frame zero.
fn clear(memory: &mut Memory, frame: u32)
    requires { frame < length memory.old }
    ensures { memory.new ≡ slice_set memory.old frame zeroed }
{
    if let Some(bytes) = memory.frame_mut(frame) {
        *bytes = [0; FRAME_SIZE];
    }
}

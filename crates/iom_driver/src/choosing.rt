// The frames that become tables, or pages of the directory.
ghost use Rattle.std.specs.Prelude.{◌≡◌, ◌<◌, ◌≤◌, ◌+◌, ◌^◌, ◌∷◌, Some, None, All, length, IfSome, IfNone};
ghost use Rattle.iom_driver.specs.Attaching.{root_frames};
ghost use Rattle.iom_driver.specs.Choices.{AreHighestFree, owned_by, cleared};
ghost use Rattle.iom_page_table.specs.SecondTables.{other_quarters};
ghost use Rattle.iom_table_frames.specs.Owners.{HasFree};

use crate::driver::Driver;
use arrayvec::ArrayVec;
use iom_base::{Mode, Owner};
use iom_phys_mem::Memory;
use iom_table_frames::TableFrames;

/// Reserves the frames for the owner, and makes them zero.
pub(crate) fn reserve_all(
    owners: &mut TableFrames,
    memory: &mut Memory,
    frames: &[u32],
    owner: Owner,
)
    requires owned { All (λ frame. frame < length owners.old) frames.now }
    requires inside { All (λ frame. frame < length memory.old) frames.now }
    ensures owners { owners.new ≡ owned_by owner frames.now owners.old }
    ensures memory { memory.new ≡ cleared frames.now memory.old }
{
    for frame in frames {
        owners.reserve(memory, *frame, owner);
    }
}

/// Reserves four frames side by side for the owner, and makes them zero.
fn reserve_four(owners: &mut TableFrames, memory: &mut Memory, root: u32, owner: Owner)
    requires owned { All (λ frame. frame < length owners.old) (root ∷ other_quarters root) }
    requires inside { All (λ frame. frame < length memory.old) (root ∷ other_quarters root) }
    requires fits { root + 4 < 2 ^ 32 }
    ensures owners { owners.new ≡ owned_by owner (root ∷ other_quarters root) owners.old }
    ensures memory { memory.new ≡ cleared (root ∷ other_quarters root) memory.old }
{
    let frames = [root, root + 1, root + 2, root + 3];
    reserve_all(owners, memory, &frames, owner);
}

/// Reserves the frames of a root for the owner, and makes them zero: one in the first stage, four else.
pub(crate) fn reserve_root(
    owners: &mut TableFrames,
    memory: &mut Memory,
    mode: Mode,
    root: u32,
    owner: Owner,
)
    requires owned { All (λ frame. frame < length owners.old) (root_frames mode root) }
    requires inside { All (λ frame. frame < length memory.old) (root_frames mode root) }
    requires fits { root + 4 < 2 ^ 32 }
    ensures owners { owners.new ≡ owned_by owner (root_frames mode root) owners.old }
    ensures memory { memory.new ≡ cleared (root_frames mode root) memory.old }
{
    match mode {
        Mode::First(_) => reserve_all(owners, memory, &[root], owner),
        Mode::Second(_) | Mode::Both(_) => reserve_four(owners, memory, root, owner),
    }
}

impl Driver {
    /// So many of the highest free frames, the highest first, the named one passed over.
    #[inline(always)]
    pub(crate) fn choose(&self, count: usize, named: Option<u32>) -> Option<ArrayVec<u32, 3>>
        requires { count ≤ 3 }
        ensures chosen { IfSome result (λ chosen.
            AreHighestFree self.now.owners self.now.ledger named self.now.frames count chosen.items) }
        ensures none { IfNone result (¬ HasFree self.now.owners self.now.ledger named count self.now.frames) }
    {
        let mut chosen = ArrayVec::new();
        let mut limit = self.frames;
        for _ in 0..count {
            let frame = self.owners.highest_free(&self.ledger, limit, named)?;
            chosen.push(frame);
            limit = frame;
        }
        Some(chosen)
    }
}

// Which frames are reserved at some time.
ghost use Rattle.std.specs.Prelude.{◌≡◌, length};
ghost use Rattle.iom_world.specs.Shown.{shown_of};
ghost use Rattle.iom_tell.specs.Told.{AreReservedOf};

use iom_phys_mem::MAX_FRAMES;
use iom_virtio_blk::Disk;
use iom_world::World;
use std::alloc::{AllocError, Global};
use std::marker::Model;

/// Whether each frame of a memory is reserved, as it was noted last. It takes its memory when it is made, and none after that.
#[derive(Drop)]
pub struct ReservedFrames {
    are_reserved: Vec<bool>,
}

impl Model for ReservedFrames {
    ghost use Rattle.std.specs.Prelude.{List, Bool, ◌≡◌, length};

    ghost Value = { List Bool };

    ghost view = { λ frames. frames.are_reserved.items };

    ghost invariant = { λ frames. length frames.are_reserved.items ≡ 4096 };
}

/// Notes which frames of the world are reserved.
fn note_each<D: Disk>(are_reserved: &mut [bool], world: &World<D>)
    requires { length are_reserved.old ≡ 4096 }
    ensures noted { AreReservedOf are_reserved.new (shown_of D.shown world.now) }
    ensures len { length are_reserved.new ≡ 4096 }
{
    for frame in 0..MAX_FRAMES {
        are_reserved[frame as usize] = world.is_reserved(frame);
    }
}

impl ReservedFrames {
    ghost use Rattle.std.specs.Prelude.{◌≡◌, ◌<◌, false, get_or};

    /// No frame is noted.
    pub fn new(alloc: Global) -> Result<ReservedFrames, AllocError> {
        let are_reserved = vec![in alloc; false; MAX_FRAMES as usize]?;
        Ok(ReservedFrames { are_reserved })
    }

    /// Notes which frames of the world are reserved.
    pub(crate) fn note<D: Disk>(&mut self, world: &World<D>)
        ensures { AreReservedOf self.new (shown_of D.shown world.now) }
    {
        note_each(&mut self.are_reserved, world);
    }

    /// Whether the frame was noted as reserved.
    pub(crate) fn was_reserved(&self, frame: u32) -> bool
        requires { frame < 4096 }
        ensures { result ≡ get_or self.now frame false }
    {
        self.are_reserved[frame as usize]
    }
}

// How a test begins.
ghost use Rattle.std.specs.Prelude.{IfOk, OnOk};
ghost use Rattle.iom_litmus_world.specs.Openings.{GoesThrough, HasOpened};

use crate::events::is_of_block;
use iom_base::Sequence;
use iom_machine::Event;
use iom_virtio_blk::Disk;
use iom_world::World;
use std::alloc::{AllocError, Global};

/// A world of so many frames and levels of the device directory, at power-on, and what happens in it before a test begins.
#[derive(Drop)]
pub struct Opening {
    pub frames: u32,
    pub levels: u8,
    pub events: Sequence<Event>,
}

/// More events than these aren't counted: more is told as if there were no memory.
pub(crate) const MOST_EVENTS: u64 = u64::MAX - 1;

/// The events happen, one after another.
fn go_through<D: Disk>(world: &mut World<D>, events: &[Event]) -> Result<(), AllocError>
    ensures { OnOk result (GoesThrough world.old events.now world.new) }
{
    for event in events {
        if world.events() >= MOST_EVENTS || is_of_block(event) {
            return Err(AllocError);
        }
        world.step(event);
    }
    Ok(())
}

impl Opening {
    /// A world that has gone through the events.
    pub(crate) fn world<D: Disk>(&self, alloc: Global) -> Result<World<D>, AllocError>
        ensures { IfOk result (HasOpened self.now) }
    {
        let Ok(mut world) = World::new(alloc, self.frames, self.levels, Vec::new(alloc)) else {
            return Err(AllocError);
        };
        go_through(&mut world, self.events.as_slice())?;
        Ok(world)
    }
}

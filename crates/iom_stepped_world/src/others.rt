// The events in which what is under way has no part.
ghost use Rattle.std.specs.Prelude.{◌+◌, ◌<◌, ◌^◌};
ghost use Rattle.iom_stepped_machine.specs.Machine.{Answer, Whole};
ghost use Rattle.iom_stepped_world.specs.Happens.{Does};
ghost use Rattle.iom_stepped_world.specs.Others.{LeavesWalks};
ghost use Rattle.iom_stepped_world.specs.Shown.{stepped_of};
ghost use Rattle.iom_stepped_world.specs.Sound.{AreBesideWorld};

use iom_machine::{Event, Outcome};
use iom_virtio_blk::Disk;
use iom_walks::Walks;
use iom_world::World;

/// One of these happens, as in a world without walks. What is under way stays.
pub(crate) fn happen<D: Disk>(world: &mut World<D>, walks: &Walks, event: &Event) -> Outcome
    requires beside { AreBesideWorld D.shown world.old walks.now }
    requires count { world.old.hardware.board.events + 1 < 2 ^ 64 }
    requires leaves { LeavesWalks event.now }
    ensures does { Does (stepped_of D.shown world.old walks.now) (Whole event.now) (Answer result) (stepped_of D.shown world.new walks.now) }
    ensures beside { AreBesideWorld D.shown world.new walks.now }
{
    world.step(event)
}

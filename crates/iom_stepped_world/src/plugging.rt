// A device is plugged in.
ghost use Rattle.std.specs.Prelude.{◌+◌, ◌<◌, ◌^◌};
ghost use Rattle.iom_stepped_machine.specs.Machine.{Answer, Whole};
ghost use Rattle.iom_stepped_world.specs.Happens.{Does};
ghost use Rattle.iom_stepped_world.specs.Others.{Plugs};
ghost use Rattle.iom_stepped_world.specs.Shown.{stepped_of};
ghost use Rattle.iom_stepped_world.specs.Sound.{AreBesideWorld, AreSound};

use iom_base::DeviceId;
use iom_machine::{Event, Outcome};
use iom_virtio_blk::Disk;
use iom_walks::Walks;
use iom_world::World;

/// A device is plugged in, with nothing under way.
pub(crate) fn plug<D: Disk>(
    world: &mut World<D>,
    walks: &mut Walks,
    event: &Event,
    id: DeviceId,
) -> Outcome
    requires sound { AreSound D.shown world.old walks.old }
    requires count { world.old.hardware.board.events + 1 < 2 ^ 64 }
    requires plugs { Plugs event.now id }
    ensures does { Does (stepped_of D.shown world.old walks.old) (Whole event.now) (Answer result) (stepped_of D.shown world.new walks.new) }
    ensures beside { AreBesideWorld D.shown world.new walks.new }
{
    let outcome = world.step(event);
    if let Outcome::Done = outcome {
        walks.add(id);
    }
    outcome
}

// The loads of requests that are under way.
ghost use Rattle.std.specs.Prelude.{◌+◌, ◌<◌, ◌^◌};
ghost use Rattle.iom_stepped_machine.specs.Machine.{Load};
ghost use Rattle.iom_stepped_world.specs.Happens.{Does};
ghost use Rattle.iom_stepped_world.specs.Shown.{stepped_of};
ghost use Rattle.iom_stepped_world.specs.Sound.{AreBesideWorld, AreSound};
ghost use Rattle.iom_stepped_world.specs.Told.{told};
ghost use Rattle.iom_walks.specs.Invariant.{AreWalks};

use crate::answering::load_outcome;
use crate::outcome::SteppedOutcome;
use iom_base::DeviceId;
use iom_stepped_hardware as hardware;
use iom_stepped_refinement::idle_law;
use iom_virtio_blk::Disk;
use iom_walks::Walks;
use iom_world::World;
use iom_world_walks::loads_law;

/// The next load of the device's request is made: `NoWalk` where none is under way, `Loaded` where it goes on, and else its
/// answer, with which the request ends. `NoSuchDevice` where no device has the id.
pub(crate) fn load<D: Disk>(world: &mut World<D>, walks: &mut Walks, id: DeviceId) -> SteppedOutcome
    requires sound { AreSound D.shown world.old walks.old }
    requires count { world.old.hardware.board.events + 1 < 2 ^ 64 }
    ensures does { Does (stepped_of D.shown world.old walks.old) (Load id) (told result) (stepped_of D.shown world.new walks.new) }
    ensures beside { AreBesideWorld D.shown world.new walks.new }
    ensures walks { AreWalks walks.new }
{
    loads_law();
    idle_law();
    walks.facts();
    let made = hardware::load(&mut world.hardware, walks, id);
    walks.facts();
    load_outcome(made)
}

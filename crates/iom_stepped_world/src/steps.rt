// A block device takes a step.
ghost use Rattle.std.specs.Prelude.{◌+◌, ◌<◌, ◌^◌};
ghost use Rattle.iom_machine.specs.declared.event.Event.TheVariants as events;
ghost use Rattle.iom_stepped_machine.specs.Machine.{Whole};
ghost use Rattle.iom_stepped_world.specs.Happens.{Does};
ghost use Rattle.iom_stepped_world.specs.Shown.{stepped_of};
ghost use Rattle.iom_stepped_world.specs.Sound.{AreBesideWorld, AreSound};
ghost use Rattle.iom_stepped_world.specs.Told.{told};

use crate::answering::step_outcome;
use crate::outcome::SteppedOutcome;
use iom_base::DeviceId;
use iom_stepped_hardware as hardware;
use iom_stepped_refinement::idle_law;
use iom_virtio_blk::Disk;
use iom_walks::Walks;
use iom_world::World;
use iom_world_effects::laws_below;
use iom_world_walks::begins_law;

/// The block device takes a step (virtio 1.2, sections 2.7 and 5.2), up to the access that it wants, whose request begins in
/// the same event: `Walking` where that needs a load. It is `Waiting` while its request is under way.
pub(crate) fn step_block<D: Disk>(
    world: &mut World<D>,
    walks: &mut Walks,
    id: DeviceId,
) -> SteppedOutcome
    requires sound { AreSound D.shown world.old walks.old }
    requires count { world.old.hardware.board.events + 1 < 2 ^ 64 }
    ensures does { Does (stepped_of D.shown world.old walks.old) (Whole (events.Step id)) (told result) (stepped_of D.shown world.new walks.new) }
    ensures beside { AreBesideWorld D.shown world.new walks.new }
{
    begins_law();
    idle_law();
    laws_below();
    step_outcome(hardware::step(&mut world.hardware, walks, id))
}

// The IOMMU takes a command.
ghost use Rattle.std.specs.Prelude.{◌≡◌, ◌+◌, ◌<◌, ◌^◌};
ghost use Rattle.iom_machine.specs.declared.event.Event.TheVariants as events;
ghost use Rattle.iom_machine.specs.declared.outcome.Outcome.TheVariants as outcome;
ghost use Rattle.iom_stepped_machine.specs.Machine.{Answer, Whole};
ghost use Rattle.iom_stepped_world.specs.Happens.{Does};
ghost use Rattle.iom_stepped_world.specs.Shown.{stepped_of};
ghost use Rattle.iom_stepped_world.specs.Sound.{AreBesideWorld};
ghost use Rattle.iom_world_effects.specs.Effect.{fetch_named};

use iom_machine::Outcome;
use iom_stepped_hardware as hardware;
use iom_virtio_blk::Disk;
use iom_walks::Walks;
use iom_world::{World, named};
use iom_world_effects::laws_below;

/// The IOMMU takes the next command. After an IOTINVAL or an IODIR.INVAL_DDT, whatever it covers, all requests that are under
/// way begin anew, and look in no cache (IOMMU specification, section 3.1).
pub(crate) fn fetch<D: Disk>(world: &mut World<D>, walks: &mut Walks) -> Outcome
    requires beside { AreBesideWorld D.shown world.old walks.old }
    requires count { world.old.hardware.board.events + 1 < 2 ^ 64 }
    ensures does { Does (stepped_of D.shown world.old walks.old) (Whole events.Fetch) (Answer result) (stepped_of D.shown world.new walks.new) }
    ensures beside { AreBesideWorld D.shown world.new walks.new }
{
    laws_below();
    Outcome::Fetched(named(hardware::fetch(&mut world.hardware, walks)))
}

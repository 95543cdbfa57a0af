// The events at which a request that is under way is given up.
ghost use Rattle.std.specs.Prelude.{◌≡◌, ◌+◌, ◌<◌, ◌^◌, false};
ghost use Rattle.std.specs.Option.{option_map_or};
ghost use Rattle.iom_base.specs.DeviceKinds.{is_block_device};
ghost use Rattle.iom_machine.specs.declared.event.Event.TheVariants as events;
ghost use Rattle.iom_stepped_machine.specs.Machine.{Answer, Whole};
ghost use Rattle.iom_stepped_world.specs.Happens.{Does};
ghost use Rattle.iom_stepped_world.specs.Others.{GivesUpWhenDone};
ghost use Rattle.iom_stepped_world.specs.Shown.{stepped_of};
ghost use Rattle.iom_stepped_world.specs.Sound.{AreBesideWorld, AreSound};

use iom_base::{DeviceId, DeviceKind};
use iom_machine::{Event, Outcome};
use iom_virtio_blk::Disk;
use iom_walks::Walks;
use iom_world::World;

/// A device is reset or revived, or its queue is set: its request that is under way is given up then.
pub(crate) fn start_over<D: Disk>(
    world: &mut World<D>,
    walks: &mut Walks,
    event: &Event,
    id: DeviceId,
) -> Outcome
    requires sound { AreSound D.shown world.old walks.old }
    requires count { world.old.hardware.board.events + 1 < 2 ^ 64 }
    requires over { GivesUpWhenDone event.now id }
    ensures does { Does (stepped_of D.shown world.old walks.old) (Whole event.now) (Answer result) (stepped_of D.shown world.new walks.new) }
    ensures beside { AreBesideWorld D.shown world.new walks.new }
{
    let outcome = world.step(event);
    if let Outcome::Done = outcome {
        walks.give_up(id);
    }
    outcome
}

/// Whether the device is there, and a block device.
fn is_block(known: Option<DeviceKind>) -> bool
    ensures { result ≡ option_map_or is_block_device known false }
{
    match known {
        Some(kind) => kind.is_block_device(),
        None => false,
    }
}

/// A device is detached. A block device is reset then, and its request that is under way is given up; that of any other
/// device stays: what it finds lingers until the ticket is confirmed.
pub(crate) fn detach<D: Disk>(
    world: &mut World<D>,
    walks: &mut Walks,
    event: &Event,
    id: DeviceId,
) -> Outcome
    requires sound { AreSound D.shown world.old walks.old }
    requires count { world.old.hardware.board.events + 1 < 2 ^ 64 }
    requires detaches { event.now ≡ events.Detach id }
    ensures does { Does (stepped_of D.shown world.old walks.old) (Whole event.now) (Answer result) (stepped_of D.shown world.new walks.new) }
    ensures beside { AreBesideWorld D.shown world.new walks.new }
{
    let is_block = is_block(world.hardware.board.kind_of(id));
    let outcome = world.step(event);
    if let Outcome::Ticket(_) = outcome {
        if is_block {
            walks.give_up(id);
        }
    }
    outcome
}

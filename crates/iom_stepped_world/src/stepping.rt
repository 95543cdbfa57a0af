// One event, and what comes of it.
ghost use Rattle.std.specs.Prelude.{◌+◌, ◌<◌, ◌^◌};
ghost use Rattle.iom_stepped_machine.specs.Machine.{Whole};
ghost use Rattle.iom_stepped_world.specs.Happens.{Does};
ghost use Rattle.iom_stepped_world.specs.Others.{PagesFit};
ghost use Rattle.iom_stepped_world.specs.Shown.{stepped_of};
ghost use Rattle.iom_stepped_world.specs.Sound.{AreBesideWorld, AreSound};
ghost use Rattle.iom_stepped_world.specs.Told.{told};
ghost use Rattle.iom_walks.specs.Invariant.{AreWalks};

use crate::begins::{read, write};
use crate::beside::{read_through_cache, read_translated, write_through_cache, write_translated};
use crate::fetching::fetch;
use crate::others::happen;
use crate::outcome::SteppedOutcome;
use crate::plugging::plug;
use crate::recovery::{detach, start_over};
use crate::steps::step_block;
use iom_machine::Event;
use iom_virtio_blk::Disk;
use iom_walks::Walks;
use iom_world::World;

/// The event happens. Afterwards one request of each device at most is under way, as before.
pub(crate) fn take<D: Disk>(
    world: &mut World<D>,
    walks: &mut Walks,
    event: &Event,
) -> SteppedOutcome
    requires sound { AreSound D.shown world.old walks.old }
    requires count { world.old.hardware.board.events + 1 < 2 ^ 64 }
    ensures does { Does (stepped_of D.shown world.old walks.old) (Whole event.now) (told result) (stepped_of D.shown world.new walks.new) }
    ensures beside { AreBesideWorld D.shown world.new walks.new }
    ensures walks { AreWalks walks.new }
{
    let outcome = by_event(world, walks, event);
    walks.facts();
    outcome
}

/// The event happens. What is under way has a part in these; all others happen as in a world without walks.
fn by_event<D: Disk>(world: &mut World<D>, walks: &mut Walks, event: &Event) -> SteppedOutcome
    requires sound { AreSound D.shown world.old walks.old }
    requires count { world.old.hardware.board.events + 1 < 2 ^ 64 }
    ensures does { Does (stepped_of D.shown world.old walks.old) (Whole event.now) (told result) (stepped_of D.shown world.new walks.new) }
    ensures beside { AreBesideWorld D.shown world.new walks.new }
{
    match event {
        Event::Read {
            device,
            address,
            len,
        } => read(world, walks, *device, *address, *len),
        Event::Write {
            device,
            address,
            bytes,
        } => write(world, walks, *device, *address, bytes.as_slice()),
        Event::Step { device } => step_block(world, walks, *device),
        Event::ReadTranslated {
            device,
            address,
            len,
        } => SteppedOutcome::Answer(read_translated(world, walks, *device, *address, *len)),
        Event::WriteTranslated {
            device,
            address,
            bytes,
        } => SteppedOutcome::Answer(write_translated(
            world,
            walks,
            *device,
            *address,
            bytes.as_slice(),
        )),
        Event::ReadThroughCache {
            device,
            address,
            len,
        } => SteppedOutcome::Answer(read_through_cache(world, walks, *device, *address, *len)),
        Event::WriteThroughCache {
            device,
            address,
            bytes,
        } => SteppedOutcome::Answer(write_through_cache(
            world,
            walks,
            *device,
            *address,
            bytes.as_slice(),
        )),
        Event::Fetch => SteppedOutcome::Answer(fetch(world, walks)),
        Event::Plug { device, .. } => SteppedOutcome::Answer(plug(world, walks, event, *device)),
        Event::Detach { device } => SteppedOutcome::Answer(detach(world, walks, event, *device)),
        Event::Reset { device } | Event::Revive { device } | Event::Queue { device, .. } => {
            SteppedOutcome::Answer(start_over(world, walks, event, *device))
        }
        _ => SteppedOutcome::Answer(happen(world, walks, event)),
    }
}

/// What an event names is in range: of a question its page. It does nothing: a proof knows of a page what a call told of it.
pub(crate) fn names(event: &Event)
    ensures { PagesFit event.now }
{
    if let Event::Ask { page, .. } = event {
        let _number = page.number();
    }
}

// The world of a run: a walk is one event there, or each of its loads is.

use iom_base::DeviceId;
use iom_inflight::MadeAt;
use iom_machine::{Event, Outcome};
use iom_stepped_world::{SteppedOutcome, SteppedWorld};
use iom_virtio_blk::MemoryDisk;
use iom_world::World;

/// A run has far fewer events than this, those included by which the test looks.
const MOST_EVENTS: u64 = 10_000_000;

/// The world of a run.
#[derive(Drop)]
pub(crate) enum Paced {
    Whole(Box<World<MemoryDisk>>),
    Stepped(Box<SteppedWorld<MemoryDisk>>),
}

impl Paced {
    pub(crate) fn step(&mut self, event: &Event) -> SteppedOutcome {
        match self {
            Paced::Whole(world) if world.events() < MOST_EVENTS => {
                SteppedOutcome::Answer(world.step(event))
            }
            Paced::Stepped(stepped) if stepped.world.events() < MOST_EVENTS => stepped.step(event),
            _ => SteppedOutcome::Answer(Outcome::NothingInFlight),
        }
    }

    /// The next load of the device's request. There is none where a walk is one event.
    pub(crate) fn load(&mut self, device: DeviceId) -> SteppedOutcome {
        match self {
            Paced::Stepped(stepped) if stepped.world.events() < MOST_EVENTS => stepped.load(device),
            _ => SteppedOutcome::NoWalk,
        }
    }

    /// The oldest access of the device in flight.
    pub(crate) fn oldest(&self, device: DeviceId) -> Option<MadeAt> {
        match self {
            Paced::Whole(world) => world.oldest(device),
            Paced::Stepped(stepped) => stepped.world.oldest(device),
        }
    }

    /// Whether it settles, in 400 events at most.
    pub(crate) fn settles(&mut self) -> bool {
        let settled = match self {
            Paced::Whole(world) if world.events() < MOST_EVENTS => world.settle(),
            Paced::Stepped(stepped) if stepped.world.events() < MOST_EVENTS => stepped.settle(),
            _ => return false,
        };
        settled.is_ok_and(|count| count <= 400)
    }
}

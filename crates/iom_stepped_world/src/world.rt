// A world beside which requests are under way, from power-on on.
ghost use Rattle.std.specs.Prelude.{◌≡◌, ◌↔◌, ◌+◌, ◌<◌, ◌^◌, IfOk, IsErrOf, is_some};
ghost use Rattle.iom_block_devices.specs.Shown.{states_of};
ghost use Rattle.iom_driver.specs.Layout.{IsLevels};
ghost use Rattle.iom_phys_mem.specs.Sizes.{IsMemorySize};
ghost use Rattle.iom_phys_mem.specs.declared.memory.MemError.TheVariants.{BadSize};
ghost use Rattle.iom_stepped_machine.specs.Machine.{Load, Whole};
ghost use Rattle.iom_stepped_world.specs.Happens.{BeginsStepped, SteppedHappens};
ghost use Rattle.iom_stepped_world.specs.Shown.{stepped_of};
ghost use Rattle.iom_stepped_world.specs.Sound.{AreSound};
ghost use Rattle.iom_stepped_world.specs.SoundIsFact.{are_sound_prop};
ghost use Rattle.iom_stepped_world.specs.Told.{told};
ghost use Rattle.iom_walks.specs.Walks.{under_way_of};

use crate::loads::load;
use crate::outcome::SteppedOutcome;
use crate::stepping::{names, take};
use iom_base::DeviceId;
use iom_machine::Event;
use iom_phys_mem::MemError;
use iom_stepped_hardware::laws::events_stay_beside;
use iom_stepped_refinement::{facts_law, idle_law, runs_law};
use iom_virtio_blk::Disk;
use iom_walks::Walks;
use iom_world::World;
use std::alloc::Global;

/// A world, and beside it the requests of its devices that are under way.
#[derive(Drop)]
pub struct SteppedWorld<D: Disk> {
    /// Its hardware and its driver.
    pub world: World<D>,
    /// The requests that are under way, one of each device at most.
    pub walks: Walks,
    ghost sound: { AreSound D.shown world walks } by { are_sound_prop D.shown world walks },
}

impl<D: Disk> SteppedWorld<D> {
    /// The world at power-on, as [`World::new`] says, with nothing under way. `BadSize` exactly where the frames aren't 64 to
    /// 4,096 or the levels aren't 1 to 3; else `OutOfMemory` where an allocation is refused.
    pub fn new(
        alloc: Global,
        frames: u32,
        levels: u8,
        disks: Vec<D>,
    ) -> Result<SteppedWorld<D>, MemError>
        ensures begins { IfOk result (λ new. BeginsStepped frames levels (states_of D.shown disks.items) (stepped_of D.shown new.world new.walks)) }
        ensures bad_size { (IsErrOf result BadSize) ↔ ¬ (IsMemorySize frames × IsLevels levels) }
    {
        idle_law();
        events_stay_beside();
        let world = World::new(alloc, frames, levels, disks)?;
        let Ok(walks) = Walks::new(alloc) else {
            return Err(MemError::OutOfMemory);
        };
        Ok(SteppedWorld { world, walks })
    }

    /// One event, and what comes of it: a lawful step of the ledger machine with walks from every state that the world shows,
    /// whatever is under way. A read, a write and a step of a block device whose access needs a load are under way from then
    /// on (`Walking`); `Occupied` where a request of the device is, and then nothing of this one is kept. After a fetch that
    /// does an IOTINVAL or an IODIR.INVAL_DDT all requests that are under way begin anew, and look in no cache (RISC-V IOMMU
    /// Architecture Specification, section 3.1). A reset, a revival, a queue that is set and the detach of a block device
    /// give the device's request up. All else happens as [`World::step`] says. Each event is counted, and a refusal changes
    /// nothing.
    pub fn step(&mut self, event: &Event) -> SteppedOutcome
        requires count { self.old.world.hardware.board.events + 1 < 2 ^ 64 }
        ensures happens { SteppedHappens (stepped_of D.shown self.old.world self.old.walks) (Whole event.now) (told result)
            (stepped_of D.shown self.new.world self.new.walks) }
    {
        facts_law();
        runs_law();
        names(event);
        self.walks.facts();
        take(&mut self.world, &mut self.walks, event)
    }

    /// The next load of the device's request is made, from memory as it is now: of an entry of the device directory, or of a
    /// page table (IOMMU specification, section 2.3). `NoWalk` where none is under way; `Loaded` where the request goes on;
    /// else its answer, with which it ends: `Accepted` where the access is in flight from now on, or `Fault`, whose record
    /// goes into the fault queue. A block device hears of that. `NoSuchDevice` where no device has the id. It is an event,
    /// and counted.
    pub fn load(&mut self, id: DeviceId) -> SteppedOutcome
        requires count { self.old.world.hardware.board.events + 1 < 2 ^ 64 }
        ensures happens { SteppedHappens (stepped_of D.shown self.old.world self.old.walks) (Load id) (told result)
            (stepped_of D.shown self.new.world self.new.walks) }
    {
        facts_law();
        runs_law();
        self.walks.facts();
        load(&mut self.world, &mut self.walks, id)
    }

    /// Whether a request of the device is under way.
    pub fn is_walking(&self, id: DeviceId) -> bool
        ensures { result ≡ is_some (under_way_of self.now.walks id) }
    {
        self.walks.is_walking(id)
    }
}

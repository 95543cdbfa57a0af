// What a world tells of what an answer doesn't show: its hardware, where the newest access is, and which frames are
// reserved.
ghost use Rattle.std.specs.Prelude.{◌≡◌, ◌-◌, length, IfOk};
ghost use Rattle.iom_block_devices.specs.Changes.{block_with};
ghost use Rattle.iom_block_devices.specs.Wanted.{wanted_of};
ghost use Rattle.iom_driver.specs.StateOf.{state_of};
ghost use Rattle.iom_inflight.specs.Flights.{count_in, row_of, waiting_at};
ghost use Rattle.iom_iommu.specs.Parts.{flights_of};
ghost use Rattle.iom_table_frames.specs.Owners.{has_owner};
ghost use Rattle.iom_world.specs.Shown.{inside_of};

use crate::world::World;
use iom_base::{Access, DeviceId};
use iom_driver::Driver;
use iom_hardware::Hardware;
use iom_inflight::MadeAt;
use iom_virtio_blk::Disk;
use std::alloc::{AllocError, Global};

impl<D: Disk> World<D> {
    /// Its hardware, to be looked at.
    pub fn hardware(&self) -> &Hardware<D>
        ensures { result.now ≡ self.now.hardware }
    {
        &self.hardware
    }

    /// Its driver, to be looked at.
    pub fn driver(&self) -> &Driver
        ensures { result.now ≡ self.now.driver }
    {
        &self.driver
    }

    /// The access of the device that was accepted last, of those in flight. None where nothing of it is in flight, or no
    /// device has the id.
    pub fn newest(&self, id: DeviceId) -> Option<MadeAt>
        ensures { result ≡ waiting_at (row_of (flights_of self.now.hardware.board.iommu).rows id)
            (count_in (row_of (flights_of self.now.hardware.board.iommu).rows id) - 1) }
    {
        let place = self.hardware.board.iommu.in_flight(id).saturating_sub(1);
        self.hardware.board.iommu.waiting_at(id, place)
    }

    /// The access that the block device wants, or waits for where it began that. None where it wants none, or no block
    /// device has the id.
    pub fn wanted(&self, alloc: Global, id: DeviceId) -> Result<Option<Access>, AllocError>
        ensures { IfOk result (λ access. access ≡ wanted_of (block_with (inside_of D.shown self.now).blocks id)) }
    {
        self.hardware.wanted(alloc, id)
    }

    /// How many frames memory has.
    pub fn frames(&self) -> u32
        ensures { result ≡ length self.now.hardware.board.memory }
    {
        self.hardware.board.iommu.frames()
    }

    /// Whether the frame is reserved, for tables or for the system; false outside memory.
    pub fn is_reserved(&self, frame: u32) -> bool
        ensures { result ≡ has_owner (state_of self.now.driver).owners frame }
    {
        self.driver.is_reserved(frame)
    }
}

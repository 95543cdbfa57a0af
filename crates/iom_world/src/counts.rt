// What a world tells of itself, beside the outcomes of its events.
ghost use Rattle.std.specs.Prelude.{◌≡◌, ◌==◌, ◌≤◌, length, nat_le, nat_lt, slice_get};
ghost use Rattle.iom_driver.specs.Fences.{last_fence};
ghost use Rattle.iom_driver.specs.StateOf.{state_of};
ghost use Rattle.iom_inflight.specs.Flights.{first_busy, oldest_in, row_of};
ghost use Rattle.iom_inflight.specs.Invariant.{AreFlights};
ghost use Rattle.iom_iommu.specs.Parts.{flights_of};
ghost use Rattle.iom_machine.specs.declared.state.State.{State};
ghost use Rattle.iom_world.specs.Counts.{IsTraceOf};
ghost use Rattle.iom_world.specs.Made.{IsMadeByCommit};
ghost use Rattle.iom_world.specs.Shown.{shown_of};
ghost use Rattle.iom_world.specs.Shows.{Shows};

use crate::world::World;
use iom_base::DeviceId;
use iom_fabric::OnLink;
use iom_inflight::MadeAt;
use iom_machine::Trace;
use iom_virtio_blk::Disk;

impl<D: Disk> World<D> {
    /// What holds of accesses in flight and of messages, whatever events there were. It does nothing.
    pub fn facts(&self)
        ensures flights { AreFlights (flights_of self.now.hardware.board.iommu) }
        ensures messages { length self.now.hardware.board.fabric ≤ 64 }
    {
        self.hardware.board.iommu.facts();
        self.hardware.board.fabric.facts();
    }

    /// The access that a commit of the device would make. None where nothing of it is in flight, or no device has the id.
    #[tactic(auto, using(crate::proofs::OldestLemmas::oldest_is_made))]
    pub fn oldest(&self, id: DeviceId) -> Option<MadeAt>
        ensures oldest { result ≡ oldest_in (row_of (flights_of self.now.hardware.board.iommu).rows id) }
        ensures made { IsMadeByCommit (flights_of self.now.hardware.board.iommu) id result }
    {
        self.hardware.board.iommu.oldest(id)
    }

    /// The first device, in the order of plugging, that has an access in flight. None where none has.
    pub fn first_busy(&self) -> Option<DeviceId>
        ensures { result ≡ first_busy (flights_of self.now.hardware.board.iommu).rows }
    {
        self.hardware.board.iommu.first_busy()
    }

    /// Whether no message is under way.
    pub fn is_quiet(&self) -> bool
        ensures { result ≡ (length self.now.hardware.board.fabric == 0) }
    {
        self.hardware.board.fabric.is_empty()
    }

    /// Whether a ticket isn't confirmed.
    pub fn has_pending(&self) -> bool
        ensures { result ≡ nat_lt (state_of self.now.driver).confirmed (state_of self.now.driver).given }
    {
        self.driver.has_pending()
    }

    /// Whether the numbers of fences are used up.
    pub fn has_used_up(&self) -> bool
        ensures { result ≡ nat_le 4294967295 (last_fence (state_of self.now.driver)) }
    {
        self.driver.has_used_up()
    }

    /// The message at the place, counted from 0, and the link that it is on; it stays. None where there is none.
    pub fn message(&self, place: u64) -> Option<OnLink>
        ensures { result ≡ slice_get self.now.hardware.board.fabric place }
    {
        self.hardware.board.fabric.get(place as usize)
    }

    /// The counts that stand beside an outcome: tickets given and not confirmed, accesses in flight over all
    /// devices, messages under way, and frames that are free. Counting these goes through memory's frames.
    pub fn trace(&self) -> Trace
        ensures { (state : State) → Shows (shown_of D.shown self.now) state → IsTraceOf state (shown_of D.shown self.now) result }
    {
        self.hardware.board.iommu.facts();
        Trace {
            tickets: self.driver.pending() as u64,
            flight: self.hardware.board.iommu.all_in_flight() as u64,
            messages: self.hardware.board.fabric.len() as u64,
            free: u64::from(self.driver.count_free()),
        }
    }
}

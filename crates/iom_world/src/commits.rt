// What becomes of an access in flight: it is made, on the frame that it was translated to.
ghost use denote.Follow.{follows_so};
ghost use Rattle.std.specs.Borrow.{sem};
ghost use mathlib.Core.Option.{none};
ghost use Rattle.iom_world.specs.contracts.world.World.{the_row};
ghost use Rattle.std.specs.Prelude.{⊤, ◌≡◌, ◌+◌, ◌<◌, ◌^◌, length};
ghost use Rattle.iom_world_effects.specs.Commits.{CommitsAccess};
ghost use Rattle.iom_hardware.specs.Blocks.{oldest_number};
ghost use Rattle.iom_inflight.specs.Flights.{row_of};
ghost use Rattle.iom_iommu.specs.Parts.{flights_of};
ghost use Rattle.iom_answers.specs.Answers.{outcome_of};
ghost use Rattle.iom_world.specs.Blocks.{CommitsOf};
ghost use Rattle.iom_world.specs.Shown.{parts_of, disks_of, inside_of};

use crate::world::World;
use iom_answers::{Answer, Lent};
use iom_base::{AccessKind, DeviceId};
use iom_virtio_blk::Disk;
use iom_world_effects::laws_below;

impl<D: Disk> World<D> {
    /// The oldest access of a device in flight is made, on the frame that it was translated to: `Read`, with
    /// its bytes lent from there, or `Wrote`, with how many were stored. Nothing changes where nothing of the
    /// device is in flight, or no device has the id.
    #[inline(never)]
    pub(crate) fn commit(&mut self, id: DeviceId) -> Answer<'_>
        requires count { self.old.hardware.board.events + 1 < 2 ^ 64 }
        ensures* happens { sem 𝓛 (follows_so (the_row D.row D.Disk) (the_row D.row D.Disk) self.entry.ghost_name none (λ _ _. ⊤) (λ v.
            CommitsAccess (parts_of self.old) id (outcome_of result) (parts_of v)
            × (disks_of v ≡ disks_of self.old)
            × CommitsOf (oldest_number (row_of (flights_of self.old.hardware.board.iommu).rows id)) (inside_of D.shown self.old) id (outcome_of result) (inside_of D.shown v)
            × (v.hardware.board.events ≡ self.old.hardware.board.events + 1)
            × (v.made ≡ self.old.made))) }
    {
        laws_below();
        let made = match self.hardware.commit(id) {
            Ok(Some(made)) => made,
            Ok(None) => return Answer::NothingInFlight,
            Err(why) => return Answer::Refused(why),
        };
        match made.kind {
            AccessKind::Read => Answer::Read(Lent::new(self.hardware.board.bytes_of(made))),
            AccessKind::Write => Answer::Wrote(u64::from(made.len)),
        }
    }
}

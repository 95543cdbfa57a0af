// What becomes of an access in flight: it is made, on the frame that it was translated to.
ghost use Rattle.std.specs.Prelude.{◌≡◌, ◌+◌, ◌<◌, ◌^◌, IfOk, IfSome, length};
ghost use Rattle.iom_inflight.specs.Flights.{oldest_in, row_of};
ghost use Rattle.iom_iommu.specs.Parts.{flights_of};
ghost use Rattle.iom_iommu.specs.Requests.{IsWithinFrame};
ghost use Rattle.iom_board.specs.Commits.{CommitsOldestAccess, WouldMake, StandWhereMade};
ghost use Rattle.iom_board.specs.Counted.{IsCounted};
ghost use Rattle.iom_board.specs.BoardParts.{board_parts};
ghost use Rattle.iom_board.specs.Invariant.{BoardInvariant};

use crate::board::Board;
use crate::permits::Act;
use iom_base::{DeviceId, Refusal};
use iom_inflight::MadeAt;

impl Board {
    /// The oldest access of the device in flight is made, on the frame that it was translated to: where its bytes are then.
    /// None where nothing of the device is in flight, and then nothing changes; nor does anything where no device has
    /// the id, `NoSuchDevice`.
    #[inline(always)]
    pub fn commit(&mut self, id: DeviceId) -> Result<Option<MadeAt>, Refusal>
        requires invariants { BoardInvariant (board_parts self.old) self.old.events }
        requires count { self.old.events + 1 < 2 ^ 64 }
        ensures effect { CommitsOldestAccess (board_parts self.old) id result (board_parts self.new) }
        ensures within { IfOk result (λ made. IfSome made (IsWithinFrame (length self.new.memory))) }
        ensures invariants { BoardInvariant (board_parts self.new) self.new.events }
        ensures counted { IsCounted self.old self.new }
    {
        self.events += 1;
        if let Some(why) = self.refusal(Act::Any, id) {
            return Err(why);
        }
        Ok(self.iommu.commit(&mut self.memory, id))
    }

    /// The access that a commit of the device would make. None where nothing of it is in flight, or no device has the id.
    pub fn oldest(&self, id: DeviceId) -> Option<MadeAt>
        ensures value { result ≡ oldest_in (row_of (flights_of self.now.iommu).rows id) }
        ensures commit { WouldMake (board_parts self.now) id result }
    {
        self.iommu.oldest(id)
    }

    /// The bytes that stand where an access was made, or would be: after the commit of a read those that it gave.
    #[inline(always)]
    pub fn bytes_of(&self, made: MadeAt) -> &[u8]
        requires within { IsWithinFrame (length self.now.memory) made }
        ensures { StandWhereMade self.now.memory made result.now }
    {
        let offset = usize::from(made.offset);
        let frame = self.memory.frame(made.frame).unwrap();
        &frame[offset..offset + usize::from(made.len)]
    }
}

// What the IOMMU does with the commands in its queue.
ghost use Rattle.std.specs.Prelude.{◌+◌, ◌<◌, ◌^◌};
ghost use Rattle.iom_iommu.specs.Fetches.{IsAtCommand};
ghost use Rattle.iom_board.specs.Commits.{TakesCommand};
ghost use Rattle.iom_board.specs.Counted.{IsCounted};
ghost use Rattle.iom_board.specs.BoardParts.{board_parts};
ghost use Rattle.iom_board.specs.Looks.{LooksForCommand};
ghost use Rattle.iom_board.specs.Invariant.{BoardInvariant};

use crate::board::Board;
use crate::messages::send_opened;
use iom_iommu::{Fetched, Front};

impl Board {
    /// The IOMMU takes the command at the head of its queue, if it can (section 3.1, "Command-Queue (CQ)"). Where that is
    /// an invalidation of a device's own translations, the request to the device is sent.
    #[inline(always)]
    pub fn fetch(&mut self) -> Fetched
        requires invariants { BoardInvariant (board_parts self.old) self.old.events }
        requires count { self.old.events + 1 < 2 ^ 64 }
        ensures effect { TakesCommand (board_parts self.old) result (board_parts self.new) }
        ensures invariants { BoardInvariant (board_parts self.new) self.new.events }
        ensures counted { IsCounted self.old self.new }
    {
        match self.look() {
            Front::Stopped => Fetched::Stopped,
            Front::Empty => Fetched::Empty,
            Front::Command => self.fetch_next(),
        }
    }

    /// The first part of a fetch: the IOMMU looks whether there is a command at the head of its queue at all (section 3.1,
    /// "Command-Queue (CQ)"). Where there is none, the fetch is done. Where there is one, nothing changed, and the event
    /// isn't counted yet: [`fetch_next`](Self::fetch_next) goes on.
    #[inline(always)]
    pub fn look(&mut self) -> Front
        requires invariants { BoardInvariant (board_parts self.old) self.old.events }
        requires count { self.old.events + 1 < 2 ^ 64 }
        ensures { LooksForCommand self.old result self.new }
    {
        match self.iommu.look() {
            Front::Stopped => {
                self.events += 1;
                Front::Stopped
            }
            Front::Empty => {
                self.events += 1;
                Front::Empty
            }
            Front::Command => Front::Command,
        }
    }

    /// The rest of a fetch, where there is a command at the head of the queue: the IOMMU takes it, as
    /// [`fetch`](Self::fetch) says.
    #[inline(always)]
    pub fn fetch_next(&mut self) -> Fetched
        requires invariants { BoardInvariant (board_parts self.old) self.old.events }
        requires count { self.old.events + 1 < 2 ^ 64 }
        requires waits { IsAtCommand self.old.iommu }
        ensures effect { TakesCommand (board_parts self.old) result (board_parts self.new) }
        ensures invariants { BoardInvariant (board_parts self.new) self.new.events }
        ensures counted { IsCounted self.old self.new }
    {
        self.events += 1;
        let answer = self.iommu.fetch_next(&mut self.memory);
        send_opened(&mut self.fabric, &answer, self.iommu.slots().last());
        answer
    }
}

// What is done about a device that doesn't answer.
ghost use Rattle.std.specs.Prelude.{◌+◌, ◌<◌, ◌^◌};
ghost use Rattle.iom_board.specs.Commits.{GivesUpFence, ResetsAnyDevice};
ghost use Rattle.iom_board.specs.Counted.{IsCounted};
ghost use Rattle.iom_board.specs.BoardParts.{board_parts};
ghost use Rattle.iom_board.specs.Invariant.{BoardInvariant};

use crate::board::Board;
use crate::permits::Act;
use iom_base::{DeviceId, Refusal};
use iom_device::reset;

impl Board {
    /// A fence that waits for devices is given up (`cmd_to` of `cqcsr`, IOMMU specification, section 3.1.4): its requests
    /// are closed, and the command queue stops there. False where none waits so, and then nothing changes.
    pub fn timeout(&mut self) -> bool
        requires invariants { BoardInvariant (board_parts self.old) self.old.events }
        requires count { self.old.events + 1 < 2 ^ 64 }
        ensures effect { GivesUpFence (board_parts self.old) result (board_parts self.new) }
        ensures invariants { BoardInvariant (board_parts self.new) self.new.events }
        ensures counted { IsCounted self.old self.new }
    {
        self.events += 1;
        self.iommu.timeout()
    }

    /// A device is reset: where it has a cache, that is empty then, and a new epoch has begun. Nothing changes where no
    /// device has the id, `NoSuchDevice`.
    pub fn reset(&mut self, id: DeviceId) -> Result<(), Refusal>
        requires invariants { BoardInvariant (board_parts self.old) self.old.events }
        requires count { self.old.events + 1 < 2 ^ 64 }
        ensures effect { ResetsAnyDevice (board_parts self.old) id result (board_parts self.new) }
        ensures invariants { BoardInvariant (board_parts self.new) self.new.events }
        ensures counted { IsCounted self.old self.new }
    {
        self.events += 1;
        if let Some(why) = self.refusal(Act::Any, id) {
            return Err(why);
        }
        reset(&mut self.devices, id);
        Ok(())
    }
}

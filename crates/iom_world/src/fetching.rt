// What the IOMMU does with the driver's commands.
ghost use Rattle.std.specs.Prelude.{◌≡◌, ◌+◌, ◌<◌, ◌^◌};
ghost use Rattle.iom_answers.specs.Answers.{outcome_of};
ghost use Rattle.iom_iommu.specs.Fetches.{IsAtCommand};
ghost use Rattle.iom_machine.specs.declared.outcome.Outcome.TheVariants as outcome;
ghost use Rattle.iom_world_effects.specs.Effect.{name_of_command, fetch_named, FetchesNext};
ghost use Rattle.iom_world.specs.Shown.{parts_of, disks_of, inside_of};

use crate::world::World;
use iom_answers::Answer;
use iom_command_queue::Command;
use iom_iommu::Front;
use iom_machine::{CommandName, Fetched};
use iom_virtio_blk::Disk;
use iom_world_effects::laws_below;

/// The name of a command.
fn name_of(command: Command) -> CommandName
    ensures { result ≡ name_of_command command }
{
    match command {
        Command::IotinvalVma { .. } => CommandName::IotinvalVma,
        Command::IotinvalGvma { .. } => CommandName::IotinvalGvma,
        Command::IofenceC { .. } => CommandName::IofenceC,
        Command::IodirInvalDdt { .. } => CommandName::IodirInvalDdt,
        Command::AtsInval { .. } => CommandName::AtsInval,
    }
}

/// What the IOMMU answers to a fetch, with its command by name (IOMMU specification, section 3.1).
pub fn named(answer: iom_iommu::Fetched) -> Fetched
    ensures { result ≡ fetch_named answer }
{
    match answer {
        iom_iommu::Fetched::Did(command) => Fetched::Did(name_of(command)),
        iom_iommu::Fetched::Waiting => Fetched::Waiting,
        iom_iommu::Fetched::Empty => Fetched::Empty,
        iom_iommu::Fetched::Stopped => Fetched::Stopped,
    }
}

impl<D: Disk> World<D> {
    /// The IOMMU takes its next command. Where that is an invalidation of a device's own translations, the
    /// device is asked for it.
    // What costs little is written into the loop of a run.
    #[inline(always)]
    pub(crate) fn fetch(&mut self) -> Answer<'static>
        requires count { self.old.hardware.board.events + 1 < 2 ^ 64 }
        ensures effect { FetchesNext (parts_of self.old) (outcome_of result) (parts_of self.new) }
        ensures disks { disks_of self.new ≡ disks_of self.old }
        ensures inside { inside_of D.shown self.new ≡ inside_of D.shown self.old }
        ensures events { self.new.hardware.board.events ≡ self.old.hardware.board.events + 1 }
        ensures made { self.new.made ≡ self.old.made }
    {
        laws_below();
        match self.hardware.board.look() {
            Front::Stopped => Answer::Fetched(Fetched::Stopped),
            Front::Empty => Answer::Fetched(Fetched::Empty),
            Front::Command => Answer::Fetched(self.fetch_next()),
        }
    }

    /// The rest of a fetch that finds a command.
    #[inline(never)]
    fn fetch_next(&mut self) -> Fetched
        requires count { self.old.hardware.board.events + 1 < 2 ^ 64 }
        requires waits { IsAtCommand self.old.hardware.board.iommu }
        ensures effect { FetchesNext (parts_of self.old) (outcome.Fetched result) (parts_of self.new) }
        ensures disks { disks_of self.new ≡ disks_of self.old }
        ensures inside { inside_of D.shown self.new ≡ inside_of D.shown self.old }
        ensures events { self.new.hardware.board.events ≡ self.old.hardware.board.events + 1 }
        ensures made { self.new.made ≡ self.old.made }
    {
        laws_below();
        named(self.hardware.board.fetch_next())
    }
}

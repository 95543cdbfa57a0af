ghost use Rattle.std.specs.Prelude.{◌≡◌, ◌↔◌, IsTrue};

use iom_base::DeviceId;

/// What hardware does by itself.
#[derive(Clone, Copy, PartialEq, Eq)]
pub enum HardwareStep {
    /// It fetches a command.
    Fetch,
    /// It makes the oldest access of the device that is in flight.
    Commit(DeviceId),
    /// It goes on with a walk for the device, by one load.
    Load(DeviceId),
    /// The message at this place, from 0, comes.
    Deliver(usize),
    /// It is lost.
    Drop(usize),
    /// It is kept, and comes once more.
    Repeat(usize),
    /// It gives up waiting for devices.
    Timeout,
}

/// One step of a schedule.
#[derive(Clone, Copy, PartialEq, Eq)]
pub enum Step {
    /// The column at this place, from 0, runs its next cell.
    Column(usize),
    Hardware(HardwareStep),
}

impl Step {
    /// Whether they are the same step.
    pub(crate) fn is_same(self, other: Step) -> bool
        ensures { IsTrue result ↔ (self ≡ other) }
    {
        self == other
    }
}

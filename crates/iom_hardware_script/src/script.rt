use iom_base::{DeviceId, GrantRights, Sequence};
use iom_machine::Event;

/// What software says that its devices may reach, and what becomes of frames.
#[derive(Clone, Copy, PartialEq, Eq)]
pub enum Claim {
    /// From here on the device may reach the frame at the page, with the right.
    Grant {
        device: DeviceId,
        page: u64,
        frame: u64,
        rights: GrantRights,
    },
    /// A request of the device at the page is accepted now, as it was granted.
    Ready {
        device: DeviceId,
        page: u64,
    },
    /// What the device was granted at the page is withdrawn.
    Release {
        device: DeviceId,
        page: u64,
    },
    /// No way is left to what the claim with this number withdrew.
    Done {
        number: u64,
    },
    /// Nobody uses the frame, and it goes to somebody else.
    HandOff {
        frame: u64,
    },
    /// The frame came back from the allocator.
    Take {
        frame: u64,
    },
    /// What the device writes counts as written by software.
    Trust {
        device: DeviceId,
    },
}

/// How hardware is asked to act by itself.
#[derive(Clone, Copy, PartialEq, Eq)]
pub enum Help {
    /// Before each later line of software it takes steps that are drawn from this seed; where the seed is 0, none.
    Auto {
        seed: u64,
    },
    /// Then the device also makes requests at these pages.
    Traffic {
        device: DeviceId,
        first: u64,
        last: u64,
    },
    /// It goes on until nothing more happens.
    Quiesce,
}

/// How many events a walk takes, where it may begin, and which leaves it knows.
#[derive(Clone, Copy, PartialEq, Eq)]
pub enum Pace {
    /// All loads of a walk are made in one event.
    Whole,
    /// Each load of a walk is an event of its own.
    Stepped,
    /// A walk is one event, and may begin at a table that a cached non-leaf entry names.
    Pointed,
    /// A walk is one event, and knows leaves of 64 KiB (Privileged Architecture, "Svnapot").
    Napot,
    /// Both.
    PointedNapot,
}

/// The hardware that a script begins with.
#[derive(Clone, Copy, PartialEq, Eq)]
pub struct Setup {
    /// How many frames the memory has, from 64 to 4,096.
    pub frames: u32,
    pub pace: Pace,
}

/// What a line of a script says, behind that of the hardware.
#[derive(Drop)]
pub enum HardwareLine {
    /// What devices and hardware do, and the processor's stores and loads: as in a script of a world.
    Event(Event),
    /// Software reads the register at the offset, in so many bytes.
    RegisterRead { offset: u64, width: u64 },
    /// Software writes the value to the register at the offset, in so many bytes.
    RegisterWrite { offset: u64, width: u64, value: u64 },
    /// Software claims this.
    Claim(Claim),
    /// Hardware is asked to act by itself.
    Help(Help),
    /// The next load of the device's walk is made, where each is an event of its own.
    Load { device: DeviceId },
}

/// What a line of a script says, and which line it is.
#[derive(Drop)]
pub struct NumberedLine {
    /// The number of the line in the script, from 1: comments and empty lines are counted.
    pub number: u64,
    pub line: HardwareLine,
}

/// What a script says.
#[derive(Drop)]
pub struct HardwareScript {
    /// The hardware that the first line says. None where the script says nothing at all; it then has no lines.
    pub setup: Option<Setup>,
    /// What happens, in order.
    pub lines: Sequence<NumberedLine>,
}

// Accesses that were accepted.

use crate::call::{Act, Call};
use iom_base::{AccessKind, DeviceId};

/// How many accesses of a device are in flight at most.
pub(crate) const MOST_IN_FLIGHT: u64 = 8;

/// An access that was accepted.
#[derive(Clone, Copy)]
pub(crate) struct Flying {
    /// The request, or the step of a block device, which doesn't say what it wants.
    pub(crate) call: Call,
    /// The frames on which it may have been accepted if it is a read, and if it is a write.
    pub(crate) reads: u64,
    pub(crate) writes: u64,
    pub(crate) is_made: bool,
}

impl Flying {
    /// Whether it isn't known what it wants.
    pub(crate) fn is_unknown(self) -> bool {
        self.call.act == Act::Step
    }

    pub(crate) fn frames(self, kind: AccessKind) -> u64 {
        match kind {
            AccessKind::Read => self.reads,
            AccessKind::Write => self.writes,
        }
    }
}

/// The accesses of a device.
#[derive(Clone, Copy)]
pub(crate) struct Flights {
    /// How many were accepted ever.
    pub(crate) accepted: u64,
    /// How many aren't made.
    pub(crate) waiting: u64,
    /// The oldest of those.
    pub(crate) oldest: Option<Flying>,
}

/// The accesses of this device.
pub(crate) fn flights_of(flights: &[Flying], device: DeviceId) -> Flights {
    let mut found = Flights {
        accepted: 0,
        waiting: 0,
        oldest: None,
    };
    for flying in flights {
        if flying.call.device == device {
            found.accepted = found.accepted.wrapping_add(1);
            if !flying.is_made {
                found.waiting = found.waiting.wrapping_add(1);
                if found.waiting == 1 {
                    found.oldest = Some(*flying);
                }
            }
        }
    }
    found
}

/// The oldest access of the device that isn't made is made now.
pub(crate) fn make_oldest(flights: &mut [Flying], device: DeviceId) {
    for place in 0..flights.len() {
        if flights[place].call.device == device && !flights[place].is_made {
            flights[place].is_made = true;
            return;
        }
    }
}

// What is done in a run, and what is told of it.
ghost use Rattle.std.specs.Prelude.{⊤};

use iom_base::{Cause, DeviceId, GrantRights, Mode, NewDevice, Size};
use iom_machine::{CommandName, Event, Fetched, Outcome};
use iom_stepped_world::{SteppedEvent, SteppedOutcome, SteppedSink};

/// The raw device of each run.
pub(crate) const DEVICE: DeviceId = 1;

/// What is done, by that device or about it.
#[derive(Clone, Copy)]
pub(crate) enum Act {
    Plug,
    Attach,
    Detach,
    Reset,
    /// It gets the frame at the page.
    Grant(u64, u64),
    Release(u64),
    /// It asks for a read of one byte at the address.
    Read(u64),
    /// Its request makes its next load.
    Load,
    /// Its oldest access is made.
    Commit,
    Fetch,
    Poll,
}

/// What is told of that.
#[derive(Clone, Copy, PartialEq, Eq)]
pub(crate) enum Tells {
    Done,
    Ticket(u32),
    Walking,
    Occupied,
    Loaded,
    NoWalk,
    Accepted(u64),
    Busy,
    Fault(Cause),
    /// So many bytes were read.
    Read(usize),
    Did(CommandName),
    Waiting,
    /// The tickets from the first to the last are confirmed.
    Confirmed(u32, u32),
    /// Anything else.
    Other,
}

fn whole(act: Act) -> Event {
    let device = DEVICE;
    match act {
        Act::Plug => Event::Plug {
            device,
            new: NewDevice::Raw,
        },
        Act::Attach => Event::Attach {
            device,
            mode: Mode::First(Size::Sv39),
            ats: false,
        },
        Act::Detach => Event::Detach { device },
        Act::Reset => Event::Reset { device },
        Act::Grant(page, frame) => Event::Grant {
            device,
            page,
            frame,
            rights: GrantRights::ReadWrite,
        },
        Act::Release(page) => Event::Release { device, page },
        Act::Read(address) => Event::Read {
            device,
            address,
            len: 1,
        },
        Act::Commit => Event::Commit { device },
        Act::Fetch | Act::Load => Event::Fetch,
        Act::Poll => Event::Poll,
    }
}

pub(crate) fn event_of(act: Act) -> SteppedEvent {
    match act {
        Act::Load => SteppedEvent::Load { device: DEVICE },
        _ => SteppedEvent::Event(whole(act)),
    }
}

fn told_of(outcome: &Outcome) -> Tells {
    match outcome {
        Outcome::Done => Tells::Done,
        Outcome::Ticket(ticket) => Tells::Ticket(*ticket),
        Outcome::Accepted(number) => Tells::Accepted(*number),
        Outcome::Busy => Tells::Busy,
        Outcome::Fault(cause) => Tells::Fault(*cause),
        Outcome::Read(bytes) => Tells::Read(bytes.len()),
        Outcome::Fetched(Fetched::Did(name)) => Tells::Did(*name),
        Outcome::Fetched(Fetched::Waiting) => Tells::Waiting,
        Outcome::Confirmed { first, last, .. } => Tells::Confirmed(*first, *last),
        _ => Tells::Other,
    }
}

fn what_of(outcome: &SteppedOutcome) -> Tells {
    match outcome {
        SteppedOutcome::Answer(outcome) => told_of(outcome),
        SteppedOutcome::Walking => Tells::Walking,
        SteppedOutcome::Occupied => Tells::Occupied,
        SteppedOutcome::Loaded => Tells::Loaded,
        SteppedOutcome::NoWalk => Tells::NoWalk,
    }
}

/// What has to be told, one after another, from this place on.
#[derive(Drop)]
pub(crate) struct Expected<'a> {
    pub(crate) rows: &'a [(Act, Tells)],
    pub(crate) at: usize,
}

impl<'a> SteppedSink for Expected<'a> {
    /// The place of the first row that was told otherwise.
    type Fault = usize;

    ghost takes = { λ before outcome after. ⊤ };

    ghost fails = { λ before outcome after. ⊤ };

    fn put(&mut self, outcome: &SteppedOutcome) -> Result<(), usize> {
        match self.rows.get(self.at) {
            Some((_, expected)) if *expected == what_of(outcome) => {
                self.at = self.at.wrapping_add(1);
                Ok(())
            }
            _ => Err(self.at),
        }
    }
}

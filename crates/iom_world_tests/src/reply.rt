// What comes of an event, as it is counted.

use crate::messages::What;
use iom_base::{AccessKind, Cause, DeviceKind, Mode, Refusal};
use iom_fabric::Translation;
use iom_machine::{BlockStep, CommandName, Fetched, Outcome};
use iom_stepped_world::SteppedOutcome;
use iom_virtqueue::ChainFault;

/// What comes of an event, by its kind; and what no outcome shows by itself.
#[derive(Clone, Copy, PartialEq)]
pub(crate) enum Told {
    Done,
    Refused(Refusal),
    Ticket,
    Confirmed { timed_out: bool },
    NoneConfirmed { timed_out: bool },
    Record,
    NoRecord,
    Did(CommandName),
    Waits,
    Empty,
    Stopped,
    TimedOut,
    NoEffect,
    Accepted,
    /// A request is under way from now on; one was, and nothing of this one is kept; a load was made, and it goes on; there is none.
    Walking,
    Occupied,
    Loaded,
    NoWalk,
    Busy,
    BadSpan,
    Fault(Cause),
    Miss,
    Sent,
    Lost,
    Answered { can_read: bool, can_write: bool },
    AnsweredFault(Cause),
    Kept,
    Stale,
    AnswerRefused,
    Ignored,
    Invalidated,
    Closed,
    NotClosed,
    Dropped,
    Repeated,
    NoMessage,
    Read,
    Wrote,
    NothingInFlight,
    Bytes,
    Free(bool),
    Idle,
    Waiting,
    Asked,
    Chain(ChainFault),
    Finished,
    Down,
    Status(u8),
    /// A command was done whose request to invalidate was lost, since 64 messages were under way.
    InvalidationLost,
    /// A command waits, and more requests to invalidate are open than there are devices of these kinds.
    ManyOpen,
    /// The access was refused when the fault queue was full.
    RecordLost,
    /// It was the 256th ticket that isn't confirmed.
    LastTicket,
    /// A device that wasn't asked said that an open request is done.
    ForgedTrue,
    /// The fence was given up while such a message was under way.
    Under(What),
    /// The command was done while a walk was under way.
    DidUnder(CommandName),
    /// The page was released, or the device quarantined or detached, under a walk of the device.
    UnderWalk,
    /// The walk that ended had begun anew.
    EndedAnew,
    /// The access that was made is one of a device of this kind that is attached in this mode.
    Made(DeviceKind, Mode),
}

/// What comes of an event, and the numbers that it names.
#[derive(Clone, Copy)]
pub(crate) struct Heard {
    pub(crate) reply: Told,
    /// The number of the access, the ticket or the request, how many bytes were written, or the frame that is told.
    pub(crate) number: u64,
    /// The last of the tickets, where several are confirmed.
    pub(crate) last: u64,
}

fn of_fetch(fetched: Fetched) -> Told {
    match fetched {
        Fetched::Did(name) => Told::Did(name),
        Fetched::Waiting => Told::Waits,
        Fetched::Empty => Told::Empty,
        Fetched::Stopped => Told::Stopped,
    }
}

fn of_step(step: BlockStep) -> Told {
    match step {
        BlockStep::Idle => Told::Idle,
        BlockStep::Waiting => Told::Waiting,
        BlockStep::Asked => Told::Asked,
        BlockStep::Chain(fault) => Told::Chain(fault),
        BlockStep::Finished { .. } => Told::Finished,
        BlockStep::Down => Told::Down,
    }
}

fn of_answer(translation: Translation) -> Told {
    match translation {
        Translation::Page { rights, .. } => Told::Answered {
            can_read: rights.allows(AccessKind::Read),
            can_write: rights.allows(AccessKind::Write),
        },
        Translation::Refused(cause) => Told::AnsweredFault(cause),
    }
}

/// What comes of messages.
fn of_message(outcome: &Outcome) -> Told {
    match outcome {
        Outcome::Sent => Told::Sent,
        Outcome::Lost => Told::Lost,
        Outcome::Answered(translation) => of_answer(*translation),
        Outcome::Kept => Told::Kept,
        Outcome::Stale => Told::Stale,
        Outcome::AnswerRefused => Told::AnswerRefused,
        Outcome::Ignored => Told::Ignored,
        Outcome::Invalidated(_) => Told::Invalidated,
        Outcome::Closed(_) => Told::Closed,
        Outcome::NotClosed(_) => Told::NotClosed,
        Outcome::Dropped => Told::Dropped,
        Outcome::Repeated => Told::Repeated,
        _ => Told::NoMessage,
    }
}

/// What an access and the IOMMU say.
fn of_access(outcome: &Outcome) -> Told {
    match outcome {
        Outcome::Accepted(_) => Told::Accepted,
        Outcome::Busy => Told::Busy,
        Outcome::BadSpan => Told::BadSpan,
        Outcome::Fault(cause) => Told::Fault(*cause),
        Outcome::Miss => Told::Miss,
        Outcome::Read(_) => Told::Read,
        Outcome::Wrote(_) => Told::Wrote,
        Outcome::NothingInFlight => Told::NothingInFlight,
        Outcome::Fetched(fetched) => of_fetch(*fetched),
        Outcome::TimedOut => Told::TimedOut,
        Outcome::NoEffect => Told::NoEffect,
        Outcome::Stepped(step) => of_step(*step),
        _ => of_message(outcome),
    }
}

/// What comes of an event, by its kind.
fn told_of(outcome: &Outcome) -> Told {
    match outcome {
        Outcome::Done => Told::Done,
        Outcome::Refused(why) => Told::Refused(*why),
        Outcome::Ticket(_) => Told::Ticket,
        Outcome::Confirmed { timed_out, .. } => Told::Confirmed {
            timed_out: *timed_out,
        },
        Outcome::NoneConfirmed { timed_out } => Told::NoneConfirmed {
            timed_out: *timed_out,
        },
        Outcome::Record(_) => Told::Record,
        Outcome::NoRecord => Told::NoRecord,
        Outcome::Bytes(_) => Told::Bytes,
        Outcome::Free(is_free) => Told::Free(*is_free),
        Outcome::Status(status) => Told::Status(*status),
        _ => of_access(outcome),
    }
}

fn number_of(outcome: &Outcome) -> u64 {
    match outcome {
        Outcome::Ticket(ticket) => u64::from(*ticket),
        Outcome::Confirmed { first, .. } => u64::from(*first),
        Outcome::Answered(Translation::Page { frame, .. }) => u64::from(*frame),
        Outcome::Accepted(number)
        | Outcome::Invalidated(number)
        | Outcome::Closed(number)
        | Outcome::NotClosed(number)
        | Outcome::Wrote(number) => *number,
        _ => 0,
    }
}

/// What comes of an event where a walk may make one load an event.
pub(crate) fn heard_of(outcome: &SteppedOutcome) -> Heard {
    let reply = match outcome {
        SteppedOutcome::Answer(outcome) => return heard_whole(outcome),
        SteppedOutcome::Walking => Told::Walking,
        SteppedOutcome::Occupied => Told::Occupied,
        SteppedOutcome::Loaded => Told::Loaded,
        SteppedOutcome::NoWalk => Told::NoWalk,
    };
    Heard {
        reply,
        number: 0,
        last: 0,
    }
}

fn heard_whole(outcome: &Outcome) -> Heard {
    let last = match outcome {
        Outcome::Confirmed { last, .. } => u64::from(*last),
        _ => 0,
    };
    Heard {
        reply: told_of(outcome),
        number: number_of(outcome),
        last,
    }
}

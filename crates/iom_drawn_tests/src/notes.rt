// What is counted of a run.

use crate::draw::LAST_OF_THREE;
use crate::run::Step;
use iom_base::{DeviceId, Refusal};
use iom_machine::{Event, Fetched, Outcome};

/// What is counted of a run.
#[derive(Clone, Copy, PartialEq)]
pub(crate) enum Note {
    /// A device keeps an answer.
    Kept,
    /// An answer was older than what its device dropped last.
    Stale,
    /// A device drops what it was asked to.
    Invalidated,
    /// An invalidation is done.
    Closed,
    /// A word that one is done, where none was open: it was forged, or came twice.
    NotClosed,
    /// A device's cache has nothing for an access.
    Miss,
    /// An access through a cache, which was made later.
    Made,
    /// A request was refused that said it is translated.
    Forged,
    /// A message was lost.
    Dropped,
    /// A message was repeated.
    Repeated,
    /// A fence that waited for devices was given up.
    TimedOut,
    /// None waited, so none was given up.
    NoEffect,
    /// After that the IOMMU takes no command.
    Stopped,
    /// The driver learns of it.
    Told,
    /// The command queue was emptied and filled anew.
    Restarted,
    /// A device was quarantined.
    Quarantined,
    /// A device was attached again that was quarantined.
    Revived,
    /// A device that was quarantined may still reach what it held.
    NotYet,
    /// A device was detached.
    Detached,
    /// A device was attached.
    Attached,
    /// A device was reset.
    Reset,
}

/// What this delivery is, of what is counted.
fn noted_delivery(outcome: &Outcome) -> Option<Note> {
    match outcome {
        Outcome::Kept => Some(Note::Kept),
        Outcome::Stale => Some(Note::Stale),
        Outcome::Invalidated(_) => Some(Note::Invalidated),
        Outcome::Closed(_) => Some(Note::Closed),
        Outcome::NotClosed(_) => Some(Note::NotClosed),
        _ => None,
    }
}

/// What this access through a cache is, which was made where it showed on which frame.
fn noted_access(outcome: &Outcome, frame: Option<u64>) -> Option<Note> {
    match outcome {
        Outcome::Miss => Some(Note::Miss),
        Outcome::Accepted(_) => frame.map(|_| Note::Made),
        _ => None,
    }
}

/// What this poll is, of what is counted.
fn noted_poll(outcome: &Outcome) -> Option<Note> {
    match outcome {
        Outcome::Confirmed {
            timed_out: true,
            ..
        } => Some(Note::Told),
        Outcome::NoneConfirmed { timed_out: true } => Some(Note::Told),
        _ => None,
    }
}

/// What this revival is, of what is counted.
fn noted_revival(outcome: &Outcome) -> Option<Note> {
    match outcome {
        Outcome::Done => Some(Note::Revived),
        Outcome::Refused(Refusal::StillGranted) => Some(Note::NotYet),
        _ => None,
    }
}

/// What this step of the driver or the IOMMU is, of what is counted.
fn noted_recovery(step: &Step) -> Option<Note> {
    match (&step.event, &step.outcome) {
        (Event::Timeout, Outcome::TimedOut) => Some(Note::TimedOut),
        (Event::Timeout, Outcome::NoEffect) => Some(Note::NoEffect),
        (Event::Fetch, Outcome::Fetched(Fetched::Stopped)) => Some(Note::Stopped),
        (Event::Poll, outcome) => noted_poll(outcome),
        (Event::Restart, Outcome::Done) => Some(Note::Restarted),
        (Event::Quarantine { .. }, Outcome::Ticket(_)) => Some(Note::Quarantined),
        (Event::Revive { .. }, outcome) => noted_revival(outcome),
        (Event::Detach { .. }, Outcome::Ticket(_)) => Some(Note::Detached),
        (Event::Attach { .. }, Outcome::Done) => Some(Note::Attached),
        (Event::Reset { .. }, Outcome::Done) => Some(Note::Reset),
        _ => None,
    }
}

/// What this step is, of what is counted.
fn noted(step: &Step) -> Option<Note> {
    match &step.event {
        Event::Deliver { .. } => noted_delivery(&step.outcome),
        Event::ReadThroughCache { .. } | Event::WriteThroughCache { .. } => {
            noted_access(&step.outcome, step.frame)
        }
        Event::ReadTranslated { .. } | Event::WriteTranslated { .. } => match &step.outcome {
            Outcome::Fault(_) => Some(Note::Forged),
            _ => None,
        },
        Event::Drop { .. } => match &step.outcome {
            Outcome::Dropped => Some(Note::Dropped),
            _ => None,
        },
        Event::Repeat { .. } => match &step.outcome {
            Outcome::Repeated => Some(Note::Repeated),
            _ => None,
        },
        _ => noted_recovery(step),
    }
}

/// How many steps are such.
fn count(steps: &[Step], asked: Note) -> usize {
    steps
        .iter()
        .filter(|step| noted(step) == Some(asked))
        .count()
}

/// How many accesses of the device were made.
pub(crate) fn count_made(steps: &[Step], asked: DeviceId) -> usize {
    let of_device = steps.iter().filter(
        |step| matches!(&step.event, Event::Commit { device } if *device == asked),
    );
    of_device
        .filter(|step| !matches!(step.outcome, Outcome::NothingInFlight))
        .count()
}

/// Whether an access of the device is accepted here at a page that can be granted in tables of four levels alone.
fn is_far(step: &Step, asked: DeviceId) -> bool {
    let (Event::Read {
        device,
        address,
        ..
    }
    | Event::Write {
        device,
        address,
        ..
    }
    | Event::ReadThroughCache {
        device,
        address,
        ..
    }
    | Event::WriteThroughCache {
        device,
        address,
        ..
    }) = &step.event
    else {
        return false;
    };
    *device == asked
        && *address / 4096 > LAST_OF_THREE
        && matches!(step.outcome, Outcome::Accepted(_))
}

/// How many accesses of the device were such.
pub(crate) fn count_far(steps: &[Step], asked: DeviceId) -> usize {
    steps.iter().filter(|step| is_far(step, asked)).count()
}

/// Whether each of the list comes in these steps as often as it says at least.
pub(crate) fn come_often(steps: &[Step], least: &[(Note, usize)]) -> bool {
    for (note, least) in least {
        if count(steps, *note) < *least {
            return false;
        }
    }
    true
}

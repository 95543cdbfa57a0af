// What the runs met.

use crate::call::{Act, Call};
use crate::history::{Tie, kind_of, standing_of};
use crate::judge::MOST_TICKETS;
use crate::knows::{Knows, MOST_RECORDS};
use crate::messages::{MOST_MESSAGES, Message};
use crate::reply::{Heard, Told};
use crate::walks::under_walks;
use iom_machine::CommandName;
use std::alloc::AllocError;

/// How many requests to invalidate a run has to have open at once, of devices that take up frames.
const MANY_OPEN: usize = 8;

/// What came of such an event.
pub(crate) type Row = (Act, Told);

pub(crate) fn has_met(met: &[Row], act: Act, reply: Told) -> bool {
    for (other, what) in met {
        if *other == act && *what == reply {
            return true;
        }
    }
    false
}

/// It was met, and is noted once.
fn meet(met: &mut Vec<Row>, act: Act, reply: Told) -> Result<(), AllocError> {
    if !has_met(met.as_slice(), act, reply) {
        met.push((act, reply))?;
    }
    Ok(())
}

/// A fence was given up under these messages.
fn meet_under_way(met: &mut Vec<Row>, messages: &[Message]) -> Result<(), AllocError> {
    for message in messages {
        meet(met, Act::Timeout, Told::Under(message.what))?;
    }
    Ok(())
}

/// This came of the call, with what stood beside it.
pub(crate) fn meet_all(
    met: &mut Vec<Row>,
    knows: &Knows,
    call: Call,
    heard: Heard,
) -> Result<(), AllocError> {
    if let Some(reply) = beside(knows, call, heard) {
        meet(met, call.act, reply)?;
    }
    if let Some(reply) = under_walks(knows, call, heard.reply) {
        meet(met, call.act, reply)?;
    }
    if heard.reply == Told::TimedOut {
        meet_under_way(met, knows.messages.as_slice())?;
    }
    meet(met, call.act, heard.reply)
}

/// What the outcome doesn't show by itself, if there is something; before it is known.
fn beside(knows: &Knows, call: Call, heard: Heard) -> Option<Told> {
    let is_full = knows.messages.len() >= MOST_MESSAGES;
    match (call.act, heard.reply) {
        (_, Told::Did(CommandName::AtsInval)) if is_full => Some(Told::InvalidationLost),
        (_, Told::Waits) if knows.open.len() >= MANY_OPEN => Some(Told::ManyOpen),
        (_, Told::Fault(_)) if knows.records == MOST_RECORDS && !knows.has_lost => {
            Some(Told::RecordLost)
        }
        (_, Told::Ticket) if heard.number == knows.confirmed.wrapping_add(MOST_TICKETS) => {
            Some(Told::LastTicket)
        }
        (_, Told::NotClosed) if knows.open.contains(&heard.number) => Some(Told::ForgedTrue),
        (Act::Commit, Told::Read | Told::Wrote) => made(knows, call),
        _ => None,
    }
}

/// What is said of an access of the device that was made.
fn made(knows: &Knows, call: Call) -> Option<Told> {
    let kind = kind_of(&knows.entries, call.device)?;
    let standing = standing_of(&knows.entries, knows.confirmed, call.device);
    if standing.tie == Tie::Attached {
        Some(Told::Made(kind, standing.mode))
    } else {
        None
    }
}

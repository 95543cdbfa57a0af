// Whether what came of an event may come of it, by what the test knows.

use crate::call::{Act, Call};
use crate::flights::{Flying, flights_of};
use crate::history::{Right, Tie, has, kind_of, standing_of};
use crate::knows::Knows;
use crate::messages::{MOST_MESSAGES, Message, What};
use crate::reply::{Heard, Told};
use crate::rules::{
    accepting, is_fault_of_translated, may_answer, may_fault, may_fault_somewhere, right_for,
};
use crate::walks::{is_full, may_load};
use iom_base::{AccessKind, DeviceKind, Refusal};
use iom_inflight::MadeAt;

/// How many tickets are unconfirmed at most.
pub(crate) const MOST_TICKETS: u64 = 256;

/// One of the test's rules.
#[derive(Clone, Copy, PartialEq, Debug)]
pub(crate) enum Rule {
    /// A request is answered so only.
    Reply,
    /// A step of a block device is.
    Step,
    /// A load is.
    Load,
    /// A question is.
    Answer,
    /// Another message that arrives is.
    Delivery,
    /// A message is sent, lost or copied, by the room that there is.
    Message,
    /// A commit makes the oldest access.
    Order,
    /// An access is made on a frame on which it can have been accepted.
    Frame,
    /// An access is made on a frame that its device may reach so now.
    Reach,
    /// A read gives the bytes that stand there, and a write changes its own bytes alone.
    Bytes,
    /// No page is granted that is held or lingers.
    Grant,
    /// What is released was held, and what is detached or quarantined was attached; tickets come in order, and are confirmed so.
    Ticket,
    /// There is a fault record exactly where one was written.
    Record,
    /// A frame is free exactly where nobody may reach it.
    Free,
    /// The world settles.
    Settle,
    /// A device is revived, and a fence given up, only where that can be.
    Act,
}

/// Whether a device of this kind sends requests of this kind.
fn can_send(kind: DeviceKind, act: Act) -> bool {
    match act {
        Act::Read | Act::Write => kind.sends_untranslated(),
        Act::ReadTranslated | Act::WriteTranslated => kind.forges(),
        _ => kind.sends_through_cache(),
    }
}

/// Whether the request of a device that can send it, with a lawful span, may be answered so.
fn may_reply_in_page(knows: &Knows, call: Call, heard: Heard) -> bool {
    let flights = flights_of(&knows.flights, call.device);
    if is_full(knows, call.device) {
        return heard.reply == Told::Busy;
    }
    let walks = knows.is_stepped && matches!(call.act, Act::Read | Act::Write);
    if walks && knows.walk(call.device).is_some() {
        return heard.reply == Told::Occupied;
    }
    let is_translated = matches!(call.act, Act::ReadTranslated | Act::WriteTranslated);
    match heard.reply {
        Told::Accepted => {
            !is_translated
                && accepting(knows, call.device, Some(call.page), call.kind()) != 0
                && heard.number == flights.accepted.wrapping_add(1)
        }
        Told::Fault(cause) => may_fault(knows, call, cause),
        Told::Walking => walks,
        Told::Miss => matches!(call.act, Act::ReadThroughCache | Act::WriteThroughCache),
        _ => false,
    }
}

/// Whether the request may be answered so.
fn may_reply(knows: &Knows, call: Call, heard: Heard) -> bool {
    let Some(kind) = kind_of(&knows.entries, call.device) else {
        return heard.reply == Told::Refused(Refusal::NoSuchDevice);
    };
    if !can_send(kind, call.act) {
        heard.reply == Told::Refused(Refusal::WrongKind)
    } else if !call.is_in_page() {
        heard.reply == Told::BadSpan
    } else {
        may_reply_in_page(knows, call, heard)
    }
}

/// Whether this may come of a step of a block device.
fn may_step(knows: &Knows, call: Call, heard: Heard) -> bool {
    let Some(kind) = kind_of(&knows.entries, call.device) else {
        return heard.reply == Told::Refused(Refusal::NoSuchDevice);
    };
    let flights = flights_of(&knows.flights, call.device);
    let is_full = is_full(knows, call.device);
    if knows.walk(call.device).is_some() && kind.is_block_device() {
        return heard.reply == Told::Waiting;
    }
    match heard.reply {
        Told::Refused(why) => why == Refusal::WrongKind && !kind.is_block_device(),
        _ if !kind.is_block_device() => false,
        Told::Accepted => !is_full && heard.number == flights.accepted.wrapping_add(1),
        Told::Busy => is_full,
        Told::Walking => knows.is_stepped && !kind.has_cache() && !is_full,
        Told::Fault(cause) if kind.has_cache() => {
            !is_full && is_fault_of_translated(knows, call, cause)
        }
        Told::Fault(cause) => !is_full && may_fault_somewhere(knows, call.device, cause),
        Told::Asked => !is_full && kind.has_cache(),
        Told::Waiting => flights.waiting > 0,
        Told::Idle | Told::Chain(_) | Told::Finished | Told::Down => true,
        _ => false,
    }
}

/// Whether the access that was the oldest by what the world told may be that one, and may be made now; or the rule that
/// it breaks.
fn judge_access(knows: &Knows, flying: Flying, made: MadeAt, heard: Heard) -> (Rule, bool) {
    let call = flying.call;
    let frame = u64::from(made.frame);
    let is_asked = flying.is_unknown()
        || u64::from(made.offset) == call.offset
            && u64::from(made.len) == call.len
            && made.kind == call.kind();
    let is_told = match heard.reply {
        Told::Read => made.kind == AccessKind::Read,
        Told::Wrote => { made.kind == AccessKind::Write && heard.number == u64::from(made.len) }
        _ => false,
    };
    if !is_asked || !is_told || made.device != call.device {
        (Rule::Order, false)
    } else if !has(flying.frames(made.kind), frame) {
        (Rule::Frame, false)
    } else {
        let reached = knows.reached(call.device, None, right_for(made.kind));
        (Rule::Reach, has(reached, frame))
    }
}

/// Whether this may come of a commit, where this was the oldest access by what the world told.
pub(crate) fn judge_commit(
    knows: &Knows,
    call: Call,
    oldest: Option<MadeAt>,
    heard: Heard,
) -> (Rule, bool) {
    let flying = flights_of(&knows.flights, call.device).oldest;
    match (flying, oldest) {
        (Some(flying), Some(made)) => judge_access(knows, flying, made, heard),
        (None, None) => {
            let is_plugged = kind_of(&knows.entries, call.device).is_some();
            let may = match heard.reply {
                Told::NothingInFlight => is_plugged,
                Told::Refused(why) => !is_plugged && why == Refusal::NoSuchDevice,
                _ => false,
            };
            (Rule::Order, may)
        }
        _ => (Rule::Order, false),
    }
}

/// Whether the answer may be heard so by its device.
fn may_hear(knows: &Knows, message: Message, heard: Heard) -> bool {
    let has_cache = match kind_of(&knows.entries, message.device) {
        Some(kind) => kind.has_cache(),
        None => false,
    };
    match heard.reply {
        Told::Kept => has_cache && !message.is_refused,
        Told::Stale => has_cache,
        Told::AnswerRefused => has_cache && message.is_refused,
        Told::Ignored => !has_cache,
        _ => false,
    }
}

/// Whether this may come of the message's arrival.
fn judge_delivery(knows: &Knows, message: Message, heard: Heard) -> (Rule, bool) {
    let is_it = heard.number == message.serial;
    let counts = knows.open.contains(&message.serial) && !message.is_forged;
    match message.what {
        What::Question => {
            let may = may_answer(knows, message.device, message.page, heard);
            (Rule::Answer, may)
        }
        What::Answer => (Rule::Delivery, may_hear(knows, message, heard)),
        What::Request => (Rule::Delivery, is_it && heard.reply == Told::Invalidated),
        What::Word => {
            let reply = if counts {
                Told::Closed
            } else {
                Told::NotClosed
            };
            (Rule::Delivery, is_it && heard.reply == reply)
        }
    }
}

/// Whether this may come of a message's being sent, lost, copied or delivered.
fn judge_message(knows: &Knows, call: Call, heard: Heard) -> (Rule, bool) {
    let is_full = knows.messages.len() >= MOST_MESSAGES;
    let reply = heard.reply;
    match (knows.message(call.place), call.act) {
        (_, Act::Ask | Act::Forge) => {
            let may = match reply {
                Told::Sent => !is_full,
                Told::Lost => is_full,
                _ => true,
            };
            (Rule::Message, may)
        }
        (None, _) => (Rule::Message, reply == Told::NoMessage),
        (_, Act::Drop) => (Rule::Message, reply == Told::Dropped),
        (_, Act::Repeat) if is_full => (Rule::Message, reply == Told::Lost),
        (_, Act::Repeat) => (Rule::Message, reply == Told::Repeated),
        (Some(message), _) => judge_delivery(knows, message, heard),
    }
}

/// Whether what was released, detached or quarantined can have been.
fn may_part(knows: &Knows, call: Call) -> bool {
    let standing = standing_of(&knows.entries, knows.confirmed, call.device);
    let is_attached = standing.tie == Tie::Attached;
    match call.act {
        Act::Release => knows.held(call.device, call.page, Right::Read) != 0,
        Act::Detach => is_attached && knows.reached(call.device, None, Right::Read) == 0,
        _ => is_attached,
    }
}

/// Whether the ticket may come now.
fn may_give(knows: &Knows, ticket: u64) -> bool {
    ticket == knows.last_ticket.wrapping_add(1)
        && ticket.wrapping_sub(knows.confirmed) <= MOST_TICKETS
}

/// Whether this may come of a poll.
fn may_confirm(knows: &Knows, heard: Heard) -> bool {
    match heard.reply {
        Told::Confirmed { .. } => {
            heard.number == knows.confirmed.wrapping_add(1)
                && heard.number <= heard.last
                && heard.last <= knows.last_ticket
        }
        _ => true,
    }
}

/// Whether the frame may be said to be free, or not.
fn may_be_free(knows: &Knows, frame: u64, is_free: bool) -> bool {
    let is_reached = has(knows.reached_by_any(true), frame);
    let is_granted = (4..12).contains(&frame);
    if is_free {
        !is_reached
    } else {
        is_reached || !is_granted || knows.is_crowded
    }
}

/// Whether this may come of a call of the driver or a step of the IOMMU.
fn judge_driver(knows: &Knows, call: Call, heard: Heard) -> (Rule, bool) {
    match (call.act, heard.reply) {
        (_, Told::Ticket) => {
            let may = may_give(knows, heard.number) && may_part(knows, call);
            (Rule::Ticket, may)
        }
        (Act::Grant, Told::Done) => {
            let reached = knows.reached(call.device, Some(call.page), Right::Read);
            (Rule::Grant, reached == 0)
        }
        (Act::Revive, Told::Done) => {
            let standing = standing_of(&knows.entries, knows.confirmed, call.device);
            (
                Rule::Act,
                standing.tie == Tie::Quarantined && !standing.is_pending,
            )
        }
        (Act::Faults, reply) => (Rule::Record, (reply == Told::Record) == (knows.records > 0)),
        (Act::Poll, _) => (Rule::Ticket, may_confirm(knows, heard)),
        (Act::Free, Told::Free(is_free)) => {
            (Rule::Free, may_be_free(knows, call.frame, is_free))
        }
        (Act::Timeout, Told::TimedOut) => (Rule::Act, !knows.open.is_empty()),
        _ => (Rule::Act, true),
    }
}

/// Whether this may come of an event that isn't a commit, and by which rule.
pub(crate) fn judge(knows: &Knows, call: Call, heard: Heard) -> (Rule, bool) {
    match call.act {
        Act::Read
        | Act::Write
        | Act::ReadTranslated
        | Act::WriteTranslated
        | Act::ReadThroughCache
        | Act::WriteThroughCache => (Rule::Reply, may_reply(knows, call, heard)),
        Act::Step => (Rule::Step, may_step(knows, call, heard)),
        Act::Load => (Rule::Load, may_load(knows, call, heard)),
        Act::Ask | Act::Forge | Act::Deliver | Act::Drop | Act::Repeat => {
            judge_message(knows, call, heard)
        }
        _ => judge_driver(knows, call, heard),
    }
}

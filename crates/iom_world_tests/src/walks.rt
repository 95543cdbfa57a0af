// Walks that are under way, where each load is an event (IOMMU specification, section 2.3).

use crate::call::{Act, Call};
use crate::flights::{MOST_IN_FLIGHT, flights_of};
use crate::history::kind_of;
use crate::knows::Knows;
use crate::reply::{Heard, Told};
use crate::rules::{accepting, may_fault, may_fault_somewhere};
use iom_base::{DeviceId, Refusal};

/// How many loads of a walk don't end it: 24 in both stages, and three of the directory, of which the last ends it.
const MOST_LOADS: u64 = 26;

/// A walk that is under way.
#[derive(Clone, Copy)]
pub(crate) struct Walk {
    /// What was asked for: by a request, or by a step of a block device, which doesn't say what it wants.
    pub(crate) call: Call,
    /// How many loads it made since it began, or began anew.
    pub(crate) loads: u64,
    /// Whether it began anew.
    pub(crate) is_anew: bool,
}

pub(crate) fn walk_of(walks: &[Walk], device: DeviceId) -> Option<Walk> {
    for walk in walks {
        if walk.call.device == device {
            return Some(*walk);
        }
    }
    None
}

/// All begin anew: no load from before counts.
pub(crate) fn begin_anew(walks: &mut [Walk]) {
    for walk in walks.iter_mut() {
        walk.loads = 0;
        walk.is_anew = true;
    }
}

/// Whether the device's walk is given up by what happened.
pub(crate) fn gives_up(knows: &Knows, call: Call, reply: Told) -> bool {
    match (call.act, reply) {
        (Act::Reset | Act::Revive | Act::Queue, Told::Done) => true,
        (Act::Detach, Told::Ticket) => match kind_of(&knows.entries, call.device) {
            Some(kind) => kind.is_block_device(),
            None => false,
        },
        _ => false,
    }
}

/// What the outcome doesn't show of the walks that are under way, if there is something; before it is known.
pub(crate) fn under_walks(knows: &Knows, call: Call, reply: Told) -> Option<Told> {
    match (call.act, reply) {
        (Act::Fetch, Told::Did(name)) if !knows.walks.is_empty() => Some(Told::DidUnder(name)),
        (Act::Release | Act::Quarantine | Act::Detach, Told::Ticket) => match knows.walk(
            call.device,
        ) {
            Some(_) => Some(Told::UnderWalk),
            None => None,
        },
        (Act::Load, Told::Accepted) => match knows.walk(call.device) {
            Some(walk) if walk.is_anew => Some(Told::EndedAnew),
            _ => None,
        },
        _ => None,
    }
}

/// How many of the eight places of the device are taken.
pub(crate) fn taken(knows: &Knows, device: DeviceId) -> u64 {
    let waiting = flights_of(&knows.flights, device).waiting;
    match knows.walk(device) {
        Some(_) => waiting.wrapping_add(1),
        None => waiting,
    }
}

/// Whether the eight are.
pub(crate) fn is_full(knows: &Knows, device: DeviceId) -> bool {
    taken(knows, device) >= MOST_IN_FLIGHT
}

/// Whether the walk's request may be answered so at this load, as a whole one would be now.
fn may_end(knows: &Knows, walk: Walk, heard: Heard) -> bool {
    let call = walk.call;
    let is_unknown = call.act == Act::Step;
    let next = flights_of(&knows.flights, call.device)
        .accepted
        .wrapping_add(1);
    match heard.reply {
        Told::Loaded => walk.loads < MOST_LOADS,
        Told::Accepted => {
            heard.number == next
                && (is_unknown || accepting(knows, call.device, Some(call.page), call.kind()) != 0)
        }
        Told::Fault(cause) if is_unknown => may_fault_somewhere(knows, call.device, cause),
        Told::Fault(cause) => may_fault(knows, call, cause),
        _ => false,
    }
}

/// Whether this may come of a load.
pub(crate) fn may_load(knows: &Knows, call: Call, heard: Heard) -> bool {
    if kind_of(&knows.entries, call.device).is_none() {
        return heard.reply == Told::Refused(Refusal::NoSuchDevice);
    }
    match knows.walk(call.device) {
        Some(walk) => may_end(knows, walk, heard),
        None => heard.reply == Told::NoWalk,
    }
}

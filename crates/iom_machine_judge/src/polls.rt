// Which tickets a poll may confirm, and which tables it may give back.
ghost use Rattle.std.specs.Prelude.{◌≡◌, ◌↔◌, ◌+◌, ◌-◌, ◌<◌, ◌≤◌, ℕ, suc, false, IfOk, IsTrue, All};
ghost use Rattle.iom_machine_judge.specs.Words.{History, May, confirms, confirmed_from, DeviceMay, AreNextTickets, ArePending, MayConfirm, Polls, IsPastOf, state_of, Decides};

use crate::line::Decided;
use iom_base::{AcceptedAccess, DeviceId, PAGE_SIZE};
use iom_kept_state::{KeptGrants, KeptState};
use iom_machine::{Choice, Device, Outcome};

/// Whether each of the accesses of the device may reach its frame, once the tickets from the first to the last are confirmed.
fn each_may(
    grants: &KeptGrants,
    id: DeviceId,
    in_flight: &[AcceptedAccess],
    first: u32,
    last: u32,
) -> bool
    requires { first ≤ last }
    ensures { (h : History) → IsPastOf grants.now h
        → IsTrue result ↔ All (λ flight. May (confirmed_from first (suc (last - first)) h) id flight.frame flight.access.kind) in_flight.now }
{
    match in_flight {
        [] => true,
        [flight, later @ ..] => {
            let page = flight.access.address / PAGE_SIZE;
            grants.may_once(id, page, flight.frame, flight.access.kind, first, last)
                && each_may(grants, id, later, first, last)
        }
    }
}

/// Whether each access in flight of these devices may reach its frame, once the tickets from the first to the last are confirmed.
fn all_may(grants: &KeptGrants, devices: &[Device], first: u32, last: u32) -> bool
    requires { first ≤ last }
    ensures { (h : History) → IsPastOf grants.now h
        → IsTrue result ↔ All (DeviceMay (confirmed_from first (suc (last - first)) h)) devices.now }
{
    match devices {
        [] => true,
        [device, others @ ..] => {
            each_may(grants, device.id, device.in_flight.as_slice(), first, last)
                && all_may(grants, others, first, last)
        }
    }
}

/// Whether these are the oldest pending tickets, or the first few of them.
fn are_next_tickets(kept: &KeptState, first: u32, last: u32) -> bool
    ensures shown { IsTrue result → (first ≡ kept.now.grants.confirmed + 1) × (first ≤ last) × (last ≤ kept.now.grants.given) }
    ensures next { (h : History) → IsPastOf kept.now.grants h → IsTrue result ↔ AreNextTickets (state_of kept.now h) first last }
{
    u64::from(first) == u64::from(kept.grants.last_confirmed()) + 1
        && first <= last
        && last <= kept.grants.given
}

/// Whether none of the tickets from the first to the last is confirmed.
fn none_confirmed(grants: &KeptGrants, first: u32, last: u32) -> bool
    requires { 0 < first }
    ensures { (h : History) → IsPastOf grants.now h
        → IsTrue result ↔ ((ticket : ℕ) → first ≤ ticket → ticket ≤ last → confirms h ticket ≡ false) }
{
    for before in first - 1..last {
        if grants.is_confirmed(before + 1) {
            return false;
        }
    }
    true
}

/// Whether these tickets were given, and none of them is confirmed.
fn are_pending(kept: &KeptState, first: u32, last: u32) -> bool
    ensures shown { IsTrue result → (0 < first) × (first ≤ last) × (last ≤ kept.now.grants.given) }
    ensures pending { (h : History) → IsPastOf kept.now.grants h → IsTrue result ↔ ArePending (state_of kept.now h) first last }
{
    if first == 0 || first > last || last > kept.grants.given {
        return false;
    }
    none_confirmed(&kept.grants, first, last)
}

/// Whether these tickets may be confirmed: the next ones, or any that are pending, where no order is asked for.
pub fn may_confirm(kept: &KeptState, first: u32, last: u32) -> bool
    ensures shown { IsTrue result → (0 < first) × (first ≤ last) × (last ≤ kept.now.grants.given) }
    ensures may { (h : History) → IsPastOf kept.now.grants h → IsTrue result ↔ MayConfirm (state_of kept.now h) first last }
{
    are_next_tickets(kept, first, last) || !kept.limits.in_order && are_pending(kept, first, last)
}

/// Whether a poll may come so; the next state is then kept.
pub(crate) fn judge_poll(kept: &mut KeptState, outcome: &Outcome, choice: &Choice) -> Decided
    ensures { IfOk result (λ may. Decides may kept.old kept.new (λ before after. Polls choice.now.returned before outcome.now after)) }
{
    match outcome {
        Outcome::Confirmed { first, last, .. } => {
            if !may_confirm(kept, *first, *last) {
                return Ok(false);
            }
            if !all_may(&kept.grants, kept.devices.as_slice(), *first, *last) {
                return Ok(false);
            }
            kept.grants.confirm(*first, *last)?;
            kept.take_leave()?;
            Ok(true)
        }
        Outcome::NoneConfirmed { .. } => {
            let returned = choice.returned.as_slice();
            if !kept.may_give_back_all(returned) {
                return Ok(false);
            }
            kept.give_back(returned);
            Ok(true)
        }
        _ => Ok(false),
    }
}

//! The releases that aren't confirmed, the oldest first, in a ring that is made once.
ghost use Rattle.std.specs.Prelude.{◌≡◌, ◌↔◌, ◌<◌, ◌≤◌, ◌==◌, ℕ, List, IsTrue, true, false, not, [], ◌∷◌, ◌++◌, length, filter};
ghost use Rattle.iom_ledger.specs.declared.pending.Pending.{Pending};
ghost use Rattle.iom_ledger.specs.Counts.{AreCounted};
ghost use Rattle.iom_ledger.specs.Ring.{tickets, is_ticket_among, is_ascending, is_other, DropsNamedBy, TakesFirst};
ghost use Rattle.iom_ledger.specs.Rows.{AllNamed};
ghost use Rattle.iom_ledger.specs.RowChanges.{DropsRows, DropsNamed};

use crate::device_list::Devices;
use crate::devices::drop_named_in;
use crate::frame_rows::FrameRows;
use crate::pending::Pending;
use circular_buffer::HeapCircularBuffer;

/// The releases that aren't confirmed, the oldest first.
pub(crate) type Ring = HeapCircularBuffer<Pending>;

/// Whether the tickets ascend once this one goes last, if they do before.
pub(crate) fn still_ascend(pending: &Ring, ascending: bool, release: Pending) -> bool
    ensures { result ≡ true → (ascending ≡ true → is_ascending pending.now.items ≡ true) → is_ascending (pending.now.items ++ release ∷ []) ≡ true }
{
    match pending.back() {
        None => true,
        Some(newest) => ascending && newest.ticket <= release.ticket,
    }
}

/// Adds a release. The ring has room for it, so no memory is taken.
pub(crate) fn note(pending: &mut Ring, release: Pending)
    requires { length pending.old.items < pending.old.capacity }
    ensures items { pending.new.items ≡ pending.old.items ++ release ∷ [] }
    ensures capacity { pending.new.capacity ≡ pending.old.capacity }
{
    pending.push_back(release);
}

/// Takes the releases at the front that are under the ticket, and drops the rows that wait for them.
fn confirm_front(devices: &mut Devices, frames: &mut FrameRows, pending: &mut Ring, ticket: u32)
    requires { AreCounted devices.old frames.old.rows.items }
    ensures counted { AreCounted devices.new frames.new.rows.items }
    ensures frames { length frames.new.rows.items ≡ length frames.old.rows.items }
    ensures taken { (n : ℕ) × TakesFirst devices.old devices.new pending.old.items pending.new.items n ticket }
    ensures capacity { pending.new.capacity ≡ pending.old.capacity }
{
    for n in 0..pending.len() {
        match pending.front().copied() {
            Some(oldest) if ticket == oldest.ticket => {
                pending.pop_front();
                drop_named_in(devices, frames, oldest);
            }
            _ => return,
        }
    }
}

/// Whether no release is under the ticket, as the oldest shows: there is none, or the tickets ascend from one
/// that is higher.
fn is_past(pending: &Ring, ascending: bool, ticket: u32) -> bool
    ensures { result ≡ true → (ascending ≡ true → is_ascending pending.now.items ≡ true) → is_ticket_among ticket (tickets pending.now.items) ≡ false }
{
    match pending.front() {
        None => true,
        Some(oldest) => ascending && ticket < oldest.ticket,
    }
}

/// Takes the oldest release: where it is under the ticket, the rows that wait for it are dropped, and
/// else it goes to the end.
fn turn(devices: &mut Devices, frames: &mut FrameRows, pending: &mut Ring, ticket: u32)
    requires counted { AreCounted devices.old frames.old.rows.items }
    requires room { length pending.old.items ≤ pending.old.capacity }
    ensures counted { AreCounted devices.new frames.new.rows.items }
    ensures frames { length frames.new.rows.items ≡ length frames.old.rows.items }
    ensures rows { (release : Pending) (rest : List Pending) → pending.old.items ≡ release ∷ rest → DropsNamed devices.old devices.new release ticket }
    ensures items { (release : Pending) (rest : List Pending) → pending.old.items ≡ release ∷ rest
        → pending.new.items ≡ rest ++ filter (is_other ticket) (release ∷ []) }
    ensures capacity { pending.new.capacity ≡ pending.old.capacity }
    ensures room { length pending.new.items ≤ pending.new.capacity }
{
    if let Some(release) = pending.pop_front() {
        if ticket == release.ticket {
            drop_named_in(devices, frames, release);
        } else {
            pending.push_back(release);
        }
    }
}

/// Drops each release under the ticket, with the rows that wait for it. The ring is turned once.
fn confirm_each(devices: &mut Devices, frames: &mut FrameRows, pending: &mut Ring, ticket: u32)
    requires { AreCounted devices.old frames.old.rows.items }
    ensures counted { AreCounted devices.new frames.new.rows.items }
    ensures frames { length frames.new.rows.items ≡ length frames.old.rows.items }
    ensures rows { DropsNamedBy devices.old devices.new pending.old.items ticket }
    ensures items { pending.new.items ≡ filter (is_other ticket) pending.old.items }
    ensures capacity { pending.new.capacity ≡ pending.old.capacity }
{
    for n in 0..pending.len() {
        turn(devices, frames, pending, ticket);
    }
}

/// Drops each release under the ticket, with the rows that wait for it. Those at the front are taken there.
/// The ring is turned only where others may be behind them: not where the tickets ascend and those of the
/// other releases are above.
pub(crate) fn confirm_in(
    devices: &mut Devices,
    frames: &mut FrameRows,
    pending: &mut Ring,
    ascending: bool,
    ticket: u32,
)
    requires counted { AreCounted devices.old frames.old.rows.items }
    requires named { AllNamed devices.old pending.old.items }
    requires ordered { ascending ≡ true → is_ascending pending.old.items ≡ true }
    ensures counted { AreCounted devices.new frames.new.rows.items }
    ensures frames { length frames.new.rows.items ≡ length frames.old.rows.items }
    ensures rows { DropsRows devices.old devices.new ticket }
    ensures items { pending.new.items ≡ filter (is_other ticket) pending.old.items }
    ensures capacity { pending.new.capacity ≡ pending.old.capacity }
{
    confirm_front(devices, frames, pending, ticket);
    if !is_past(pending, ascending, ticket) {
        confirm_each(devices, frames, pending, ticket);
    }
}

/// Whether both have the same releases in the same order.
pub(crate) fn has_same_releases(pending: &Ring, other: &Ring) -> bool
    ensures { IsTrue result ↔ (pending.now.items ≡ other.now.items) }
{
    if pending.len() != other.len() {
        return false;
    }
    for n in 0..pending.len() {
        if pending.get(n).copied() != other.get(n).copied() {
            return false;
        }
    }
    true
}

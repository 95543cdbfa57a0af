// What is said of a page at which a device reaches a frame.
use crate::notes::{Note, Notes};
use crate::tickets::ticket_wait;
use iom_base::DeviceId;
use iom_ledger::{Ledger, Reach};
use iom_virtio_blk::Disk;
use iom_world::World;
use std::fmt::Write;

/// Notes that the device holds the frame at the page; or that the frame lingers there, and what its ticket waits for.
pub(crate) fn note_reach<D: Disk>(
    notes: &mut Notes,
    world: &World<D>,
    device: DeviceId,
    frame: u32,
    reach: Reach,
) {
    let mut note = Note::new();
    let page = reach.page;
    let _ = match reach.ticket {
        None => write!(note, "frame {frame}: {device:06x} holds it at page {page}"),
        Some(ticket) => match ticket_wait(world, ticket) {
            None => write!(
                note,
                "frame {frame} lingers for {device:06x} at page {page} under ticket {ticket}"
            ),
            Some(wait) => write!(
                note,
                "frame {frame} lingers for {device:06x} at page {page} under ticket {ticket}: {wait}"
            ),
        },
    };
    notes.push(note);
}

/// How the device reaches the frame at the page.
fn reach_at(ledger: &Ledger, device: DeviceId, frame: u32, page: u64) -> Option<Reach> {
    let mut from = 0;
    for _ in 0..ledger.page_count(device) {
        let reach = ledger.reach_from(device, frame, from)?;
        if reach.page == page {
            return Some(reach);
        }
        from = reach.index + 1;
    }
    None
}

/// Notes what the device holds at the page, or what lingers there, if anything is or does.
pub(crate) fn note_page<D: Disk>(notes: &mut Notes, world: &World<D>, device: DeviceId, page: u64) {
    let ledger = world.driver().ledger();
    let Some((frame, _)) = ledger
        .holds(device, page)
        .or_else(|| ledger.lingers(device, page))
    else {
        return;
    };
    if let Some(reach) = reach_at(ledger, device, frame, page) {
        note_reach(notes, world, device, frame, reach);
    }
}

/// Notes what a ticket waits for that isn't confirmed.
pub(crate) fn note_ticket<D: Disk>(notes: &mut Notes, world: &World<D>, ticket: u32) {
    if let Some(wait) = ticket_wait(world, ticket) {
        let mut note = Note::new();
        let _ = write!(note, "ticket {ticket}: {wait}");
        notes.push(note);
    }
}

/// Notes the ticket under which the device was quarantined or leaves, and what it waits for.
pub(crate) fn note_parting<D: Disk>(notes: &mut Notes, world: &World<D>, device: DeviceId) {
    let Some(ticket) = world.driver().parting_ticket(device) else {
        return;
    };
    let mut note = Note::new();
    let _ = write!(
        note,
        "{device:06x} was quarantined or detached under ticket {ticket}"
    );
    notes.push(note);
    note_ticket(notes, world, ticket);
}

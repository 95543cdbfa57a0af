// What would have to be done before a refused call.
use crate::frames::note_owner;
use crate::head::head_wait;
use crate::notes::{Note, Notes};
use crate::pages::{note_page, note_parting, note_ticket};
use iom_base::{DeviceId, Refusal};
use iom_machine::Event;
use iom_virtio_blk::Disk;
use iom_world::World;
use std::fmt::Write;

/// What has to be done first, by the reason alone.
fn remedy(refusal: Refusal) -> &'static str {
    match refusal {
        Refusal::NoSuchDevice => "no device has this id: plug it in first",
        Refusal::AlreadyAttached =>
            "the device is attached, or not yet gone: detach it and wait for its ticket; revive one that was quarantined",
        Refusal::NotAttached => "the device isn't attached: attach it first",
        Refusal::NotTrusted =>
            "only a device that obeys invalidations may have ATS: attach it without",
        Refusal::FrameOutOfRange => "memory has no such frame",
        Refusal::FrameReserved =>
            "the frame is reserved, for the driver or for tables: choose another one",
        Refusal::IovaOutOfRange =>
            "the page is beyond the lower half of the addresses that the device's tables translate",
        Refusal::IovaBusy => "release what is held at the page first, and wait for its ticket",
        Refusal::NotGranted => "nothing is held at the page",
        Refusal::NoFrames =>
            "no frame is left for a table: release pages or detach a device, and wait for the ticket",
        Refusal::QueueFull => "the command queue has no room: let the IOMMU fetch first",
        Refusal::TooManyPending =>
            "256 tickets aren't confirmed: let the IOMMU fetch, and poll first",
        Refusal::Quarantined => "the device is quarantined: revive it first",
        Refusal::NumbersUsedUp => "no number is left for a fence",
        Refusal::Memory => "memory was refused",
        Refusal::StillGranted =>
            "release what the device still holds, if anything, and wait until nothing of it lingers",
        Refusal::IdTooWide => "the device directory of this world names no id as wide as this",
        Refusal::TooManyDevices => "16 devices are plugged in",
        Refusal::NotStarted => "the driver isn't started",
        Refusal::AlreadyPlugged => "a device with this id is plugged in",
        Refusal::WrongKind => "a device of this kind doesn't do that",
        Refusal::BadMedium => "there is no such disk, or a device has it",
        Refusal::BadQueue =>
            "a queue has 2, 4 or so on up to 256 descriptors, and its parts are aligned",
    }
}

/// The device that a call is about.
fn device_of(event: &Event) -> Option<DeviceId> {
    match event {
        Event::Plug { device, .. }
        | Event::Medium { device, .. }
        | Event::Attach { device, .. }
        | Event::Detach { device }
        | Event::Grant { device, .. }
        | Event::Release { device, .. }
        | Event::Quarantine { device }
        | Event::Revive { device } => Some(*device),
        _ => None,
    }
}

/// The page that a call is about.
fn page_of(event: &Event) -> Option<u64> {
    match event {
        Event::Grant { page, .. } | Event::Release { page, .. } => Some(*page),
        _ => None,
    }
}

/// Notes the first page at which the device still holds something, or something lingers.
fn note_first_page<D: Disk>(notes: &mut Notes, world: &World<D>, device: DeviceId) {
    if let Some(page) = world.driver().ledger().page_at(device, 0) {
        note_page(notes, world, device, page);
    }
}

/// Notes what the state says of a refusal that is about a device.
fn note_device<D: Disk>(
    notes: &mut Notes,
    world: &World<D>,
    event: &Event,
    device: DeviceId,
    refusal: Refusal,
) {
    match refusal {
        Refusal::AlreadyAttached | Refusal::NotAttached | Refusal::Quarantined => {
            note_parting(notes, world, device);
        }
        Refusal::StillGranted => {
            note_parting(notes, world, device);
            note_first_page(notes, world, device);
        }
        Refusal::IovaBusy | Refusal::NotGranted => {
            if let Some(page) = page_of(event) {
                note_page(notes, world, device, page);
            }
        }
        _ => {}
    }
}

/// Notes what the state says of a refusal that is about all devices.
fn note_whole<D: Disk>(notes: &mut Notes, world: &World<D>, event: &Event, refusal: Refusal) {
    match refusal {
        Refusal::FrameReserved => {
            if let Event::Grant { frame, .. } = event {
                if let Ok(frame) = u32::try_from(*frame) {
                    note_owner(notes, world, frame);
                }
            }
        }
        Refusal::QueueFull => {
            let head = head_wait(&world.hardware().board);
            let mut note = Note::new();
            let _ = write!(note, "{head}");
            notes.push(note);
        }
        Refusal::TooManyPending => {
            if let Some(ticket) = world.driver().oldest_pending() {
                note_ticket(notes, world, ticket);
            }
        }
        _ => {}
    }
}

/// Notes what would have to be done before the call, and what stands in its way.
pub(crate) fn note_refusal<D: Disk>(
    notes: &mut Notes,
    world: &World<D>,
    event: &Event,
    refusal: Refusal,
) {
    let mut note = Note::new();
    let first = remedy(refusal);
    let _ = write!(note, "{first}");
    notes.push(note);
    if let Some(device) = device_of(event) {
        note_device(notes, world, event, device, refusal);
    }
    note_whole(notes, world, event, refusal);
}

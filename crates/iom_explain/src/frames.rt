// Why a frame isn't free.
use crate::notes::{Note, Notes};
use crate::pages::note_reach;
use iom_base::{DeviceId, Owner};
use iom_virtio_blk::Disk;
use iom_world::World;
use std::fmt::Write;

/// Notes whom the frame is reserved for, where it is.
pub(crate) fn note_owner<D: Disk>(notes: &mut Notes, world: &World<D>, frame: u32) {
    let Some(owner) = world.driver().owner_of(frame) else {
        return;
    };
    let mut note = Note::new();
    let _ = match owner {
        Owner::System => write!(
            note,
            "frame {frame} is the driver's own: a queue, the completion word or a page of the device directory"
        ),
        Owner::OneDevice(device) => write!(note, "frame {frame} is a table of {device:06x}"),
    };
    notes.push(note);
}

/// Notes each page at which the device holds the frame, or at which the frame lingers, as long as there is room.
fn note_device<D: Disk>(notes: &mut Notes, world: &World<D>, device: DeviceId, frame: u32) {
    let ledger = world.driver().ledger();
    let mut from = 0;
    for _ in 0..ledger.page_count(device) {
        let Some(reach) = ledger.reach_from(device, frame, from) else {
            return;
        };
        note_reach(notes, world, device, frame, reach);
        from = reach.index + 1;
    }
}

/// Notes why a frame of memory isn't free: who holds it, and for whom it lingers, at which page, under which ticket, and what that waits
/// for; or whom it is reserved for.
pub(crate) fn note_frame<D: Disk>(notes: &mut Notes, world: &World<D>, frame: u64) {
    let Ok(frame) = u32::try_from(frame) else {
        return;
    };
    note_owner(notes, world, frame);
    for device in &world.hardware().board.devices {
        note_device(notes, world, device.id, frame);
    }
}

// What is shown behind an answer.
ghost use Rattle.std.specs.Prelude.{◌≡◌, IfOk};
ghost use Rattle.iom_block_devices.specs.Changes.{block_with};
ghost use Rattle.iom_block_devices.specs.Wanted.{wanted_of};
ghost use Rattle.iom_machine.specs.declared.event.Event.{Event};
ghost use Rattle.iom_trace_lines.specs.TraceLines.{is_accepted, takes_frames};
ghost use Rattle.iom_world.specs.Shown.{shown_of};
ghost use Rattle.iom_tell.specs.Told.{asking, began_by, behind_of, behind_accepted, behind_asked, newest_frame};

use crate::behind::Behind;
use iom_base::{Access, AccessKind, DeviceId};
use iom_machine::{Event, Outcome};
use iom_virtio_blk::Disk;
use iom_world::World;
use std::alloc::{AllocError, Global};

/// Whether the event takes frames for tables, where it is done.
pub(crate) fn takes_frames(event: &Event, outcome: &Outcome) -> bool
    ensures { result ≡ takes_frames event.now outcome.now }
{
    matches!(event, Event::Attach { .. } | Event::Grant { .. }) && matches!(outcome, Outcome::Done)
}

/// Whether an access is accepted.
fn is_accepted(outcome: &Outcome) -> bool
    ensures { result ≡ is_accepted outcome.now }
{
    matches!(outcome, Outcome::Accepted(_))
}

/// The event by which the device asks for the access.
fn asking(device: DeviceId, access: Access) -> Event
    ensures { result ≡ asking device access }
{
    match access.kind {
        AccessKind::Read => Event::Read {
            device,
            address: access.address,
            len: access.len,
        },
        AccessKind::Write => Event::Write {
            device,
            address: access.address,
            bytes: access.bytes,
        },
    }
}

/// The frame of the device's newest access.
fn newest_frame<D: Disk>(world: &World<D>, device: DeviceId) -> Option<u32>
    ensures { result ≡ newest_frame (shown_of D.shown world.now) device }
{
    match world.newest(device) {
        None => None,
        Some(made) => Some(made.frame),
    }
}

/// What is shown of the access that the device's step began: it, and its frame.
fn began_by<D: Disk>(
    alloc: Global,
    world: &World<D>,
    device: DeviceId,
) -> Result<Behind, AllocError>
    ensures { IfOk result (λ behind. behind ≡ began_by device (newest_frame (shown_of D.shown world.now) device)
        (wanted_of (block_with (shown_of D.shown world.now).inside.blocks device))) }
{
    let on = newest_frame(world, device);
    match world.wanted(alloc, device)? {
        None => Ok(Behind::Nothing),
        Some(access) => Ok(Behind::Began(asking(device, access), on)),
    }
}

/// What is shown of the device's newest access: its frame.
fn frame_of<D: Disk>(world: &World<D>, device: DeviceId) -> Behind
    ensures { result ≡ behind_asked (newest_frame (shown_of D.shown world.now) device) }
{
    match newest_frame(world, device) {
        None => Behind::Nothing,
        Some(frame) => Behind::On(frame),
    }
}

/// What is shown behind the answer to an event by which an access was accepted.
fn behind_accepted<D: Disk>(
    alloc: Global,
    world: &World<D>,
    event: &Event,
) -> Result<Behind, AllocError>
    ensures { IfOk result (λ behind. behind ≡ behind_accepted (shown_of D.shown world.now) event.now) }
{
    match event {
        Event::Step { device } => began_by(alloc, world, *device),
        Event::Read { device, .. }
        | Event::Write { device, .. }
        | Event::ReadTranslated { device, .. }
        | Event::WriteTranslated { device, .. }
        | Event::ReadThroughCache { device, .. }
        | Event::WriteThroughCache { device, .. } => Ok(frame_of(world, *device)),
        _ => Ok(Behind::Nothing),
    }
}

/// What is shown behind the outcome, which the event had of the world as it now is.
pub(crate) fn behind_of<D: Disk>(
    alloc: Global,
    world: &World<D>,
    event: &Event,
    outcome: &Outcome,
) -> Result<Behind, AllocError>
    ensures { IfOk result (λ behind. behind ≡ behind_of (shown_of D.shown world.now) event.now outcome.now) }
{
    if takes_frames(event, outcome) {
        Ok(Behind::Tables)
    } else if is_accepted(outcome) {
        behind_accepted(alloc, world, event)
    } else {
        Ok(Behind::Nothing)
    }
}

// What devices and hardware do, and what the processor stores and loads, where a walk is one event.
ghost use Rattle.std.specs.Prelude.{◌≡◌, ◌+◌, ◌<◌, ◌≤◌, ◌^◌, false};
ghost use Rattle.iom_hardware.specs.Invariant.{HardwareInvariant};
ghost use Rattle.iom_hardware_script.specs.Grammar.{IsOfHardware, is_of_hardware};
ghost use Rattle.iom_hardware_session.specs.Events.{IsUntranslated, IsTranslated, IsThroughCache, IsMessage, IsOther, IsOfBlock, IsForeign, EventEffect};
ghost use Rattle.iom_hardware_session.specs.Shown.{shown_beside};
ghost use Rattle.iom_hardware_session.specs.declared.beside.Beside.TheVariants.{Nothing};

use crate::answer::Answer;
use iom_base::AccessKind;
use iom_board::Sender;
use iom_hardware::Hardware;
use iom_machine::Event;
use iom_virtio_blk::MemoryDisk;

/// A device asks for an access at an address that the IOMMU translates.
fn untranslated(hardware: &mut Hardware<MemoryDisk>, event: &Event) -> Answer
    requires event { IsUntranslated event.now }
    requires invariants { HardwareInvariant hardware.old }
    requires count { hardware.old.board.events + 1 < 2 ^ 64 }
    ensures effect { EventEffect event.now result (shown_beside Nothing hardware.old) (shown_beside Nothing hardware.new) }
    ensures invariants { HardwareInvariant hardware.new }
    ensures counted { hardware.new.board.events ≡ hardware.old.board.events + 1 }
{
    let board = &mut hardware.board;
    match event {
        Event::Read {
            device,
            address,
            len,
        } => Answer::Replied(board.request(
            Sender::Own,
            *device,
            *address,
            *len,
            AccessKind::Read,
            &[],
        )),
        Event::Write {
            device,
            address,
            bytes,
        } => Answer::Replied(board.request(
            Sender::Own,
            *device,
            *address,
            bytes.as_slice().len() as u64,
            AccessKind::Write,
            bytes.as_slice(),
        )),
        _ => Answer::NotOfHardware,
    }
}

/// A device asks for an access at an address that it says is translated.
fn translated(hardware: &mut Hardware<MemoryDisk>, event: &Event) -> Answer
    requires event { IsTranslated event.now }
    requires invariants { HardwareInvariant hardware.old }
    requires count { hardware.old.board.events + 1 < 2 ^ 64 }
    ensures effect { EventEffect event.now result (shown_beside Nothing hardware.old) (shown_beside Nothing hardware.new) }
    ensures invariants { HardwareInvariant hardware.new }
    ensures counted { hardware.new.board.events ≡ hardware.old.board.events + 1 }
{
    let board = &mut hardware.board;
    match event {
        Event::ReadTranslated {
            device,
            address,
            len,
        } => Answer::Replied(board.translated(*device, *address, *len, AccessKind::Read, &[])),
        Event::WriteTranslated {
            device,
            address,
            bytes,
        } => Answer::Replied(board.translated(
            *device,
            *address,
            bytes.as_slice().len() as u64,
            AccessKind::Write,
            bytes.as_slice(),
        )),
        _ => Answer::NotOfHardware,
    }
}

/// A device asks for an access through its own cache.
fn through_cache(hardware: &mut Hardware<MemoryDisk>, event: &Event) -> Answer
    requires event { IsThroughCache event.now }
    requires invariants { HardwareInvariant hardware.old }
    requires count { hardware.old.board.events + 1 < 2 ^ 64 }
    ensures effect { EventEffect event.now result (shown_beside Nothing hardware.old) (shown_beside Nothing hardware.new) }
    ensures invariants { HardwareInvariant hardware.new }
    ensures counted { hardware.new.board.events ≡ hardware.old.board.events + 1 }
{
    let board = &mut hardware.board;
    match event {
        Event::ReadThroughCache {
            device,
            address,
            len,
        } => Answer::ThroughCache(board.through_cache(
            Sender::Own,
            *device,
            *address,
            *len,
            AccessKind::Read,
            &[],
        )),
        Event::WriteThroughCache {
            device,
            address,
            bytes,
        } => Answer::ThroughCache(board.through_cache(
            Sender::Own,
            *device,
            *address,
            bytes.as_slice().len() as u64,
            AccessKind::Write,
            bytes.as_slice(),
        )),
        _ => Answer::NotOfHardware,
    }
}

/// A message is sent, arrives, is lost or repeated.
fn message(hardware: &mut Hardware<MemoryDisk>, event: &Event) -> Answer
    requires event { IsMessage event.now }
    requires invariants { HardwareInvariant hardware.old }
    requires count { hardware.old.board.events + 1 < 2 ^ 64 }
    ensures effect { EventEffect event.now result (shown_beside Nothing hardware.old) (shown_beside Nothing hardware.new) }
    ensures invariants { HardwareInvariant hardware.new }
    ensures counted { hardware.new.board.events ≡ hardware.old.board.events + 1 }
{
    match event {
        Event::Ask { device, page } => Answer::Sent(hardware.board.ask(*device, *page)),
        Event::Forge { device, serial } => { Answer::Sent(hardware.board.forge(*device, *serial)) }
        Event::Deliver { place } => Answer::Delivered(hardware.deliver(*place)),
        Event::Drop { place } => Answer::Dropped(hardware.board.drop_message(*place)),
        Event::Repeat { place } => Answer::Repeated(hardware.board.repeat(*place)),
        _ => Answer::NotOfHardware,
    }
}

/// A device is plugged in, reset, or makes an access; the IOMMU takes a command, or gives a fence up; the processor
/// stores or loads.
fn other(hardware: &mut Hardware<MemoryDisk>, event: &Event) -> Answer
    requires event { IsOther event.now }
    requires invariants { HardwareInvariant hardware.old }
    requires count { hardware.old.board.events + 1 < 2 ^ 64 }
    ensures effect { EventEffect event.now result (shown_beside Nothing hardware.old) (shown_beside Nothing hardware.new) }
    ensures invariants { HardwareInvariant hardware.new }
    ensures counted { hardware.new.board.events ≤ hardware.old.board.events + 1 }
{
    match event {
        Event::Plug { device, new } => Answer::Plugged(hardware.plug(*device, *new)),
        Event::Reset { device } => Answer::Reset(hardware.reset(*device)),
        Event::Commit { device } => Answer::Committed(hardware.commit(*device)),
        Event::Fetch => Answer::Fetched(hardware.board.fetch()),
        Event::Timeout => Answer::TimedOut(hardware.board.timeout()),
        Event::Poke { address, bytes } => {
            Answer::Stored(hardware.board.store(*address, bytes.as_slice()))
        }
        Event::Peek { address, len } => {
            Answer::Loaded(hardware.board.load(*address, *len).map(|_| ()))
        }
        _ => Answer::NotOfHardware,
    }
}

/// A block device gets a disk, its queue, takes a step, or tells its status.
fn of_block(hardware: &mut Hardware<MemoryDisk>, event: &Event) -> Answer
    requires event { IsOfBlock event.now }
    requires invariants { HardwareInvariant hardware.old }
    requires count { hardware.old.board.events + 1 < 2 ^ 64 }
    ensures effect { EventEffect event.now result (shown_beside Nothing hardware.old) (shown_beside Nothing hardware.new) }
    ensures invariants { HardwareInvariant hardware.new }
    ensures counted { hardware.new.board.events ≤ hardware.old.board.events + 1 }
{
    match event {
        Event::Medium { device, disk } => Answer::TookDisk(hardware.medium(*device, *disk)),
        Event::Queue {
            device,
            size,
            descriptors,
            available,
            used,
        } => Answer::QueueSet(hardware.queue(*device, *size, *descriptors, *available, *used)),
        Event::Step { device } => Answer::TookStep(hardware.step(*device)),
        Event::Status { device } => Answer::Status(hardware.status(*device)),
        _ => Answer::NotOfHardware,
    }
}

/// What devices, hardware or the processor do; an event that is none of theirs does nothing.
pub(crate) fn event(hardware: &mut Hardware<MemoryDisk>, event: &Event) -> Answer
    requires invariants { HardwareInvariant hardware.old }
    requires count { hardware.old.board.events + 1 < 2 ^ 64 }
    ensures effect { IsOfHardware event.now → EventEffect event.now result (shown_beside Nothing hardware.old) (shown_beside Nothing hardware.new) }
    ensures foreign { is_of_hardware event.now ≡ false → IsForeign result (shown_beside Nothing hardware.old) (shown_beside Nothing hardware.new) }
    ensures invariants { HardwareInvariant hardware.new }
    ensures counted { hardware.new.board.events ≤ hardware.old.board.events + 1 }
{
    match event {
        Event::Read { .. } | Event::Write { .. } => untranslated(hardware, event),
        Event::ReadTranslated { .. } | Event::WriteTranslated { .. } => translated(hardware, event),
        Event::ReadThroughCache { .. } | Event::WriteThroughCache { .. } => {
            through_cache(hardware, event)
        }
        Event::Ask { .. }
        | Event::Forge { .. }
        | Event::Deliver { .. }
        | Event::Drop { .. }
        | Event::Repeat { .. } => message(hardware, event),
        Event::Plug { .. }
        | Event::Reset { .. }
        | Event::Commit { .. }
        | Event::Fetch
        | Event::Timeout
        | Event::Poke { .. }
        | Event::Peek { .. } => other(hardware, event),
        Event::Medium { .. } | Event::Queue { .. } | Event::Step { .. } | Event::Status { .. } =>
            of_block(hardware, event),
        _ => Answer::NotOfHardware,
    }
}

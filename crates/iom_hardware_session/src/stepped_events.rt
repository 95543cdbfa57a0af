// What devices and hardware do, and what the processor stores and loads, where a walk makes one load an event.
ghost use Rattle.std.specs.Prelude.{◌≡◌, ◌+◌, ◌<◌, ◌≤◌, ◌^◌, false};
ghost use Rattle.iom_board.specs.BoardParts.{board_parts};
ghost use Rattle.iom_hardware.specs.Inside.{inside};
ghost use Rattle.iom_hardware.specs.Invariant.{HardwareInvariant};
ghost use Rattle.iom_hardware_script.specs.Grammar.{IsOfHardware, is_of_hardware};
ghost use Rattle.iom_hardware_session.specs.Beside.{AreSoundBeside};
ghost use Rattle.iom_hardware_session.specs.Events.{IsUntranslated, IsTranslated, IsThroughCache, IsMessage, IsOther, IsOfBlock, IsForeign};
ghost use Rattle.iom_hardware_session.specs.EventsBeside.{EffectBeside, LoadsBeside};
ghost use Rattle.iom_hardware_session.specs.Shown.{shown_beside};
ghost use Rattle.iom_hardware_session.specs.declared.beside.Beside.TheVariants.{UnderWay};
ghost use Rattle.iom_stepped_hardware.specs.Beside.{AreBesideHardware};
ghost use Rattle.iom_virtio_blk.specs.MemoryDisks.{disk_state};

use crate::answer::Answer;
use iom_base::{AccessKind, DeviceId};
use iom_board::Sender;
use iom_hardware::Hardware;
use iom_machine::Event;
use iom_stepped_board as stepped_board;
use iom_stepped_hardware as stepped;
use iom_stepped_ways::scene_law;
use iom_virtio_blk::MemoryDisk;
use iom_walks::Walks;

/// A device asks for an access at an address that the IOMMU translates: its request begins.
fn untranslated(hardware: &mut Hardware<MemoryDisk>, walks: &mut Walks, event: &Event) -> Answer
    requires event { IsUntranslated event.now }
    requires invariants { HardwareInvariant hardware.old }
    requires beside { AreBesideHardware (board_parts hardware.old.board) (inside disk_state hardware.old).blocks walks.old }
    requires count { hardware.old.board.events + 1 < 2 ^ 64 }
    ensures effect { EffectBeside event.now result (shown_beside (UnderWay walks.old) hardware.old) walks.old
        (shown_beside (UnderWay walks.new) hardware.new) walks.new }
    ensures invariants { HardwareInvariant hardware.new }
    ensures beside { AreBesideHardware (board_parts hardware.new.board) (inside disk_state hardware.new).blocks walks.new }
    ensures counted { hardware.new.board.events ≤ hardware.old.board.events + 1 }
{
    match event {
        Event::Read {
            device,
            address,
            len,
        } => Answer::Begun(stepped::begin(
            hardware,
            walks,
            *device,
            *address,
            *len,
            AccessKind::Read,
            &[],
        )),
        Event::Write {
            device,
            address,
            bytes,
        } => Answer::Begun(stepped::begin(
            hardware,
            walks,
            *device,
            *address,
            bytes.as_slice().len() as u64,
            AccessKind::Write,
            bytes.as_slice(),
        )),
        _ => Answer::NotOfHardware,
    }
}

/// A device asks for an access at an address that it says is translated. Its request that is under way has one of its eight places.
fn translated(hardware: &mut Hardware<MemoryDisk>, walks: &Walks, event: &Event) -> Answer
    requires event { IsTranslated event.now }
    requires invariants { HardwareInvariant hardware.old }
    requires beside { AreBesideHardware (board_parts hardware.old.board) (inside disk_state hardware.old).blocks walks.now }
    requires count { hardware.old.board.events + 1 < 2 ^ 64 }
    ensures effect { EffectBeside event.now result (shown_beside (UnderWay walks.now) hardware.old) walks.now
        (shown_beside (UnderWay walks.now) hardware.new) walks.now }
    ensures invariants { HardwareInvariant hardware.new }
    ensures beside { AreBesideHardware (board_parts hardware.new.board) (inside disk_state hardware.new).blocks walks.now }
    ensures counted { hardware.new.board.events ≤ hardware.old.board.events + 1 }
{
    let board = &mut hardware.board;
    stepped::laws::events_stay_beside();
    match event {
        Event::ReadTranslated {
            device,
            address,
            len,
        } => Answer::Replied(stepped_board::translated(
            board,
            walks,
            *device,
            *address,
            *len,
            AccessKind::Read,
            &[],
        )),
        Event::WriteTranslated {
            device,
            address,
            bytes,
        } => Answer::Replied(stepped_board::translated(
            board,
            walks,
            *device,
            *address,
            bytes.as_slice().len() as u64,
            AccessKind::Write,
            bytes.as_slice(),
        )),
        _ => Answer::NotOfHardware,
    }
}

/// A device asks for an access through its own cache. Its request that is under way has one of its eight places.
fn through_cache(hardware: &mut Hardware<MemoryDisk>, walks: &Walks, event: &Event) -> Answer
    requires event { IsThroughCache event.now }
    requires invariants { HardwareInvariant hardware.old }
    requires beside { AreBesideHardware (board_parts hardware.old.board) (inside disk_state hardware.old).blocks walks.now }
    requires count { hardware.old.board.events + 1 < 2 ^ 64 }
    ensures effect { EffectBeside event.now result (shown_beside (UnderWay walks.now) hardware.old) walks.now
        (shown_beside (UnderWay walks.now) hardware.new) walks.now }
    ensures invariants { HardwareInvariant hardware.new }
    ensures beside { AreBesideHardware (board_parts hardware.new.board) (inside disk_state hardware.new).blocks walks.now }
    ensures counted { hardware.new.board.events ≤ hardware.old.board.events + 1 }
{
    let board = &mut hardware.board;
    stepped::laws::events_stay_beside();
    match event {
        Event::ReadThroughCache {
            device,
            address,
            len,
        } => Answer::ThroughCache(stepped_board::through_cache(
            board,
            walks,
            Sender::Own,
            *device,
            *address,
            *len,
            AccessKind::Read,
            &[],
        )),
        Event::WriteThroughCache {
            device,
            address,
            bytes,
        } => Answer::ThroughCache(stepped_board::through_cache(
            board,
            walks,
            Sender::Own,
            *device,
            *address,
            bytes.as_slice().len() as u64,
            AccessKind::Write,
            bytes.as_slice(),
        )),
        _ => Answer::NotOfHardware,
    }
}

/// A message is sent, arrives, is lost or repeated.
fn message(hardware: &mut Hardware<MemoryDisk>, walks: &Walks, event: &Event) -> Answer
    requires event { IsMessage event.now }
    requires invariants { HardwareInvariant hardware.old }
    requires beside { AreBesideHardware (board_parts hardware.old.board) (inside disk_state hardware.old).blocks walks.now }
    requires count { hardware.old.board.events + 1 < 2 ^ 64 }
    ensures effect { EffectBeside event.now result (shown_beside (UnderWay walks.now) hardware.old) walks.now
        (shown_beside (UnderWay walks.now) hardware.new) walks.now }
    ensures invariants { HardwareInvariant hardware.new }
    ensures beside { AreBesideHardware (board_parts hardware.new.board) (inside disk_state hardware.new).blocks walks.now }
    ensures counted { hardware.new.board.events ≤ hardware.old.board.events + 1 }
{
    stepped::laws::events_stay_beside();
    stepped_board::laws::events_stay_beside();
    match event {
        Event::Ask { device, page } => Answer::Sent(hardware.board.ask(*device, *page)),
        Event::Forge { device, serial } => Answer::Sent(hardware.board.forge(*device, *serial)),
        Event::Deliver { place } => Answer::Delivered(hardware.deliver(*place)),
        Event::Drop { place } => Answer::Dropped(hardware.board.drop_message(*place)),
        Event::Repeat { place } => Answer::Repeated(hardware.board.repeat(*place)),
        _ => Answer::NotOfHardware,
    }
}

/// A device is plugged in, reset, or makes an access; the IOMMU takes a command, or gives a fence up; the processor
/// stores or loads.
fn other(hardware: &mut Hardware<MemoryDisk>, walks: &mut Walks, event: &Event) -> Answer
    requires event { IsOther event.now }
    requires invariants { HardwareInvariant hardware.old }
    requires beside { AreBesideHardware (board_parts hardware.old.board) (inside disk_state hardware.old).blocks walks.old }
    requires count { hardware.old.board.events + 1 < 2 ^ 64 }
    ensures effect { EffectBeside event.now result (shown_beside (UnderWay walks.old) hardware.old) walks.old
        (shown_beside (UnderWay walks.new) hardware.new) walks.new }
    ensures invariants { HardwareInvariant hardware.new }
    ensures beside { AreBesideHardware (board_parts hardware.new.board) (inside disk_state hardware.new).blocks walks.new }
    ensures counted { hardware.new.board.events ≤ hardware.old.board.events + 1 }
{
    stepped::laws::events_stay_beside();
    stepped_board::laws::events_stay_beside();
    match event {
        Event::Plug { device, new } => {
            Answer::Plugged(stepped::plug(hardware, walks, *device, *new))
        }
        Event::Reset { device } => Answer::Reset(stepped::reset(hardware, walks, *device)),
        Event::Commit { device } => Answer::Committed(stepped::commit(hardware, walks, *device)),
        Event::Fetch => Answer::Fetched(stepped::fetch(hardware, walks)),
        Event::Timeout => Answer::TimedOut(hardware.board.timeout()),
        Event::Poke { address, bytes } => {
            Answer::Stored(hardware.board.store(*address, bytes.as_slice()))
        }
        Event::Peek { address, len } => {
            Answer::Loaded(hardware.board.load(*address, *len).map(|_| ()))
        }
        _ => Answer::NotOfHardware,
    }
}

/// A block device gets a disk, its queue, takes a step, or tells its status.
fn of_block(hardware: &mut Hardware<MemoryDisk>, walks: &mut Walks, event: &Event) -> Answer
    requires event { IsOfBlock event.now }
    requires invariants { HardwareInvariant hardware.old }
    requires beside { AreBesideHardware (board_parts hardware.old.board) (inside disk_state hardware.old).blocks walks.old }
    requires count { hardware.old.board.events + 1 < 2 ^ 64 }
    ensures effect { EffectBeside event.now result (shown_beside (UnderWay walks.old) hardware.old) walks.old
        (shown_beside (UnderWay walks.new) hardware.new) walks.new }
    ensures invariants { HardwareInvariant hardware.new }
    ensures beside { AreBesideHardware (board_parts hardware.new.board) (inside disk_state hardware.new).blocks walks.new }
    ensures counted { hardware.new.board.events ≤ hardware.old.board.events + 1 }
{
    stepped::laws::events_stay_beside();
    match event {
        Event::Medium { device, disk } => Answer::TookDisk(hardware.medium(*device, *disk)),
        Event::Queue {
            device,
            size,
            descriptors,
            available,
            used,
        } => Answer::QueueSet(stepped::queue(
            hardware,
            walks,
            *device,
            *size,
            *descriptors,
            *available,
            *used,
        )),
        Event::Step { device } => Answer::StepOutcome(stepped::step(hardware, walks, *device)),
        Event::Status { device } => Answer::Status(hardware.status(*device)),
        _ => Answer::NotOfHardware,
    }
}

/// What devices, hardware or the processor do; an event that is none of theirs does nothing.
fn happen(hardware: &mut Hardware<MemoryDisk>, walks: &mut Walks, event: &Event) -> Answer
    requires invariants { HardwareInvariant hardware.old }
    requires beside { AreBesideHardware (board_parts hardware.old.board) (inside disk_state hardware.old).blocks walks.old }
    requires count { hardware.old.board.events + 1 < 2 ^ 64 }
    ensures effect { IsOfHardware event.now
        → EffectBeside event.now result (shown_beside (UnderWay walks.old) hardware.old) walks.old
        (shown_beside (UnderWay walks.new) hardware.new) walks.new }
    ensures foreign { is_of_hardware event.now ≡ false
        → IsForeign result (shown_beside (UnderWay walks.old) hardware.old) (shown_beside (UnderWay walks.new) hardware.new) }
    ensures invariants { HardwareInvariant hardware.new }
    ensures beside { AreBesideHardware (board_parts hardware.new.board) (inside disk_state hardware.new).blocks walks.new }
    ensures counted { hardware.new.board.events ≤ hardware.old.board.events + 1 }
{
    match event {
        Event::Read { .. } | Event::Write { .. } => untranslated(hardware, walks, event),
        Event::ReadTranslated { .. } | Event::WriteTranslated { .. } => {
            translated(hardware, walks, event)
        }
        Event::ReadThroughCache { .. } | Event::WriteThroughCache { .. } => {
            through_cache(hardware, walks, event)
        }
        Event::Ask { .. }
        | Event::Forge { .. }
        | Event::Deliver { .. }
        | Event::Drop { .. }
        | Event::Repeat { .. } => message(hardware, walks, event),
        Event::Plug { .. }
        | Event::Reset { .. }
        | Event::Commit { .. }
        | Event::Fetch
        | Event::Timeout
        | Event::Poke { .. }
        | Event::Peek { .. } => other(hardware, walks, event),
        Event::Medium { .. } | Event::Queue { .. } | Event::Step { .. } | Event::Status { .. } =>
            of_block(hardware, walks, event),
        _ => Answer::NotOfHardware,
    }
}

/// The same; what is under way stays sound.
pub(crate) fn event(hardware: &mut Hardware<MemoryDisk>, walks: &mut Walks, event: &Event) -> Answer
    requires invariants { HardwareInvariant hardware.old }
    requires sound { AreSoundBeside (board_parts hardware.old.board) (inside disk_state hardware.old).blocks walks.old }
    requires count { hardware.old.board.events + 1 < 2 ^ 64 }
    ensures effect { IsOfHardware event.now
        → EffectBeside event.now result (shown_beside (UnderWay walks.old) hardware.old) walks.old
        (shown_beside (UnderWay walks.new) hardware.new) walks.new }
    ensures foreign { is_of_hardware event.now ≡ false
        → IsForeign result (shown_beside (UnderWay walks.old) hardware.old) (shown_beside (UnderWay walks.new) hardware.new) }
    ensures invariants { HardwareInvariant hardware.new }
    ensures sound { AreSoundBeside (board_parts hardware.new.board) (inside disk_state hardware.new).blocks walks.new }
    ensures counted { hardware.new.board.events ≤ hardware.old.board.events + 1 }
{
    scene_law();
    let answer = happen(hardware, walks, event);
    walks.facts();
    answer
}

/// The next load of the device's request is made.
pub(crate) fn load(
    hardware: &mut Hardware<MemoryDisk>,
    walks: &mut Walks,
    device: DeviceId,
) -> Answer
    requires invariants { HardwareInvariant hardware.old }
    requires sound { AreSoundBeside (board_parts hardware.old.board) (inside disk_state hardware.old).blocks walks.old }
    requires count { hardware.old.board.events + 1 < 2 ^ 64 }
    ensures effect { LoadsBeside device result (shown_beside (UnderWay walks.old) hardware.old) walks.old
        (shown_beside (UnderWay walks.new) hardware.new) walks.new }
    ensures invariants { HardwareInvariant hardware.new }
    ensures sound { AreSoundBeside (board_parts hardware.new.board) (inside disk_state hardware.new).blocks walks.new }
    ensures counted { hardware.new.board.events ≤ hardware.old.board.events + 1 }
{
    scene_law();
    let load = stepped::load(hardware, walks, device);
    walks.facts();
    Answer::WalkLoad(load)
}

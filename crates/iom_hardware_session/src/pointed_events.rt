// What devices and hardware do, and what the processor stores and loads, where a walk may begin at a cached pointer, or knows
// leaves of 64 KiB.
ghost use Rattle.std.specs.Prelude.{◌≡◌, ◌↔◌, ◌+◌, ◌<◌, ◌≤◌, ◌^◌, false, IfNone, IfSome, IsTrue};
ghost use Rattle.iom_hardware.specs.Inside.{inside};
ghost use Rattle.iom_hardware.specs.Blocks.{BlocksUnchanged};
ghost use Rattle.iom_board.specs.BoardParts.{board_parts, disks_at_hand};
ghost use Rattle.iom_hardware.specs.Invariant.{HardwareInvariant};
ghost use Rattle.iom_hardware_script.specs.Grammar.{IsOfHardware, is_of_hardware};
ghost use Rattle.iom_hardware_session.specs.Answered.{fetch_in};
ghost use Rattle.iom_hardware_session.specs.Events.{IsForeign};
ghost use Rattle.iom_hardware_session.specs.EventsPointed.{AsksFor, EffectPointed, GoesAhead, IsOfPlugged, IsQuestionServed, IsRequestOf, IsServed, left_by, page_asked, request_for};
ghost use Rattle.iom_hardware_session.specs.Shown.{shown_beside};
ghost use Rattle.iom_hardware_session.specs.declared.beside.Beside.TheVariants as beside;
ghost use Rattle.iom_machine.specs.declared.event.Event.TheVariants.{Deliver};
ghost use Rattle.iom_stepped_requests.specs.declared.request.Request.{Request};
ghost use Rattle.iom_virtio_blk.specs.MemoryDisks.{disk_state};

use crate::answer::Answer;
use crate::whole_events;
use iom_base::{AccessKind, DeviceId, MAX_IN_FLIGHT, PAGE_SIZE, Span};
use iom_board::Board;
use iom_fabric::Message;
use iom_hardware::Hardware;
use iom_iommu::Fetched;
use iom_machine::Event;
use iom_pointed_board::{context_of, walk_ahead};
use iom_pointers::{Features, Pointers};
use iom_stepped_requests::Request;
use iom_stepped_walk::Asked;
use iom_virtio_blk::MemoryDisk;

/// Whether a request of the device for so many bytes from the address on is served.
fn is_served(hardware: &Board, device: DeviceId, address: u64, len: u64) -> bool
    ensures { IsTrue result ↔ IsServed hardware.now device address len }
{
    match hardware.kind_of(device) {
        Some(kind) if kind.sends_untranslated() && Span::new(address, len).is_some() => {
            hardware.iommu.in_flight(device) < MAX_IN_FLIGHT
        }
        _ => false,
    }
}

/// Whether a question of the device is served.
fn is_question_served(hardware: &Board, device: DeviceId) -> bool
    ensures { IsTrue result ↔ IsQuestionServed hardware.now device }
{
    match context_of(hardware, device) {
        Some(context) => context.en_ats && hardware.kind_of(device).is_some(),
        None => false,
    }
}

fn request_for(device: DeviceId, address: u64, kind: AccessKind) -> Request
    ensures { result ≡ request_for device address kind }
{
    Request {
        device,
        asked: Asked { address, kind },
    }
}

/// The page that a message asks for, where it is a question.
fn page_asked(message: Message) -> Option<u64>
    ensures value { result ≡ page_asked message }
    ensures fits { IfSome result (λ page. page < 2 ^ 52) }
{
    match message {
        Message::Ask { page, .. } => Some(page.number()),
        Message::Answer { .. } | Message::InvReq { .. } | Message::InvDone { .. } => None,
    }
}

/// The request of a question of the device for this page, if it is one.
fn question_of(hardware: &Board, device: DeviceId, page: Option<u64>) -> Option<Request>
    requires { IfSome page (λ number. number < 2 ^ 52) }
    ensures some { IfSome result (AsksFor hardware.now device page) }
    ensures plugged { IfSome result (IsOfPlugged hardware.now) }
    ensures none { IfNone result ((request : Request) → ¬ AsksFor hardware.now device page request) }
{
    let number = page?;
    if !is_question_served(hardware, device) {
        return None;
    }
    Some(request_for(device, number * PAGE_SIZE, AccessKind::Read))
}

/// The request of a question that arrives from the place.
fn asked_at(hardware: &Board, place: u64) -> Option<Request>
    ensures some { IfSome result (IsRequestOf hardware.now (Deliver place)) }
    ensures plugged { IfSome result (IsOfPlugged hardware.now) }
    ensures none { IfNone result ((request : Request) → ¬ IsRequestOf hardware.now (Deliver place) request) }
{
    let place = usize::try_from(place).ok()?;
    match hardware.messages().get(place) {
        Some(on) => question_of(hardware, on.device, page_asked(on.message)),
        None => None,
    }
}

/// The request that the event serves, if it serves one that may walk.
fn request_of(hardware: &Board, event: &Event) -> Option<Request>
    ensures some { IfSome result (IsRequestOf hardware.now event.now) }
    ensures plugged { IfSome result (IsOfPlugged hardware.now) }
    ensures none { IfNone result ((request : Request) → ¬ IsRequestOf hardware.now event.now request) }
{
    match event {
        Event::Read {
            device,
            address,
            len,
        } if is_served(hardware, *device, *address, *len) => {
            Some(request_for(*device, *address, AccessKind::Read))
        }
        Event::Write {
            device,
            address,
            bytes,
        } if is_served(hardware, *device, *address, bytes.as_slice().len() as u64) => {
            Some(request_for(*device, *address, AccessKind::Write))
        }
        Event::Deliver { place } => asked_at(hardware, *place),
        _ => None,
    }
}

/// The event's request is walked ahead, if it serves one.
fn go_ahead(
    hardware: &mut Hardware<MemoryDisk>,
    features: Features,
    pointers: &mut Pointers,
    event: &Event,
)
    requires invariants { HardwareInvariant hardware.old }
    ensures ahead { GoesAhead features event.now hardware.old.board pointers.old hardware.new.board pointers.new }
    ensures disks { disks_at_hand hardware.new.board ≡ disks_at_hand hardware.old.board }
    ensures blocks { BlocksUnchanged (inside disk_state hardware.old) (inside disk_state hardware.new) }
    ensures invariants { HardwareInvariant hardware.new }
    ensures events { hardware.new.board.events ≡ hardware.old.board.events }
{
    if let Some(request) = request_of(&hardware.board, event) {
        walk_ahead(&mut hardware.board, features, pointers, request);
    }
}

/// What a fetch takes out of the pointers, by its answer.
fn forget(pointers: &mut Pointers, answer: &Answer)
    ensures { pointers.new ≡ left_by (fetch_in answer.now) pointers.old }
{
    if let Answer::Fetched(Fetched::Did(command)) = answer {
        pointers.forget(command);
    }
}

/// What devices, hardware or the processor do; an event that is none of theirs does nothing.
pub(crate) fn event(
    hardware: &mut Hardware<MemoryDisk>,
    features: Features,
    pointers: &mut Pointers,
    event: &Event,
) -> Answer
    requires invariants { HardwareInvariant hardware.old }
    requires count { hardware.old.board.events + 1 < 2 ^ 64 }
    ensures effect { IsOfHardware event.now
        → EffectPointed features event.now result (shown_beside (beside.Pointers features pointers.old) hardware.old) pointers.old
        (shown_beside (beside.Pointers features pointers.new) hardware.new) pointers.new }
    ensures foreign { is_of_hardware event.now ≡ false
        → IsForeign result (shown_beside (beside.Pointers features pointers.old) hardware.old) (shown_beside (beside.Pointers features pointers.new) hardware.new) }
    ensures invariants { HardwareInvariant hardware.new }
    ensures counted { hardware.new.board.events ≤ hardware.old.board.events + 1 }
{
    go_ahead(hardware, features, pointers, event);
    let answer = whole_events::event(hardware, event);
    forget(pointers, &answer);
    answer
}

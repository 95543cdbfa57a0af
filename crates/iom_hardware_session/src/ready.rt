// Whether a request of a device would be accepted now (IOMMU specification, section 2.3), found without a trace.
ghost use Rattle.std.specs.Prelude.{◌≡◌, true, Some, IfSome, IfNone};
ghost use Rattle.iom_base.specs.Rights.{allows};
ghost use Rattle.iom_board.specs.BoardParts.{board_parts};
ghost use Rattle.iom_hardware_session.specs.EventsPointed.{request_for};
ghost use Rattle.iom_hardware_session.specs.Ready.{address_of, found_by_walk, looked_space, ContextFinds, FindsFrame, FindsInstead, FindsBy, FirstFinds, IsUnready, RequestFinds, StagesFind};
ghost use Rattle.iom_hardware_session.specs.ReadyPointed.{LeadsAstray, LeadsInstead, LeadsToFrame, found_from};

use crate::answer::{Found, Wrong};
use iom_base::{AccessKind, DeviceId, PAGE_SIZE, Rights};
use iom_board::Board;
use iom_device_dir::{Context, FirstStage, SecondStage};
use iom_phys_mem::Memory;
use iom_pointed_board::{Start, cached_translation, context_of, found_from_root, start_of};
use iom_pointers::Pointers;
use iom_registers::DirectoryMode;
use iom_stage_walk::{WalkFault, Walked, walk_first, walk_second};
use iom_stepped_requests::Request;
use iom_stepped_walk::Asked;
use iom_tlb::{Space, Translation};

impl Found {
    /// A walk that ended so.
    fn of(ended: Result<Walked, WalkFault>) -> Found
        ensures { result ≡ found_by_walk ended }
    {
        match ended {
            Ok(walked) => Found::by_walk(u64::from(walked.frame)),
            Err(fault) => Found::Fault(fault.cause),
        }
    }
}

/// The address space in which a page is looked up that the context's device was granted. None where no stage translates; nor in both
/// stages: there the page is a guest physical one, and the cache goes by pages of the guest's own addresses.
fn space_of(context: &Context) -> Option<Space>
    ensures { result ≡ looked_space context.now.first_stage context.now.second_stage context.now }
{
    let pscid = context.pscid.number();
    let gscid = context.gscid;
    match (context.first_stage, context.second_stage) {
        (FirstStage::Tables { .. }, SecondStage::Bare) => Some(Space::First { pscid }),
        (FirstStage::Bare, SecondStage::Tables { .. }) => Some(Space::Second { gscid }),
        (FirstStage::Bare, SecondStage::Bare)
        | (FirstStage::Tables { .. }, SecondStage::Tables { .. }) => None,
    }
}

/// The address of a page. No page that is granted is so high that it has none.
fn address_of(page: u64) -> u64
    ensures { result ≡ address_of page }
{
    page.saturating_mul(PAGE_SIZE)
}

/// What a request finds by a first stage; where that is Bare the page is that of memory.
fn first_finds(memory: &Memory, stage: FirstStage, page: u64, kind: AccessKind) -> Found
    ensures { FirstFinds memory.now stage page kind result }
{
    match stage {
        FirstStage::Bare => Found::by_walk(page),
        FirstStage::Tables { size, root } => {
            Found::of(walk_first(memory, size, root.number(), address_of(page), kind))
        }
    }
}

/// What it finds by the walk of the context's stages. In both stages the page is a guest physical one, and the second stage alone is
/// walked.
fn stages_find(memory: &Memory, context: &Context, page: u64, kind: AccessKind) -> Found
    ensures { StagesFind memory.now context.now.first_stage context.now.second_stage page kind result }
{
    match context.second_stage {
        SecondStage::Bare => first_finds(memory, context.first_stage, page, kind),
        SecondStage::Tables { size, root } => {
            Found::of(walk_second(memory, size, root.number(), address_of(page), kind))
        }
    }
}

/// What it finds by the device's context: what is cached in the address space of its one stage, or else what the walk does.
fn context_finds(hardware: &Board, found: Option<Context>, page: u64, kind: AccessKind) -> Found
    ensures { ContextFinds (board_parts hardware.now) found page kind result }
{
    let Some(context) = found else {
        return Found::NoContext;
    };
    if let Some(space) = space_of(&context) {
        if let Some(cached) = cached_translation(hardware.iommu.translations(), space, page, kind) {
            return Found::Cached {
                space,
                frame: cached.frame,
            };
        }
    }
    stages_find(&hardware.memory, &context, page, kind)
}

/// What a request of the device for an access of the kind at the page finds now by hardware's own walk.
fn request_finds(hardware: &Board, device: DeviceId, page: u64, kind: AccessKind) -> Found
    ensures { RequestFinds (board_parts hardware.now) device page kind result }
{
    match hardware.iommu.registers().directory_mode() {
        DirectoryMode::Bare => Found::by_walk(page),
        DirectoryMode::Off
        | DirectoryMode::OneLevel
        | DirectoryMode::TwoLevels
        | DirectoryMode::ThreeLevels => {
            context_finds(hardware, context_of(hardware, device), page, kind)
        }
    }
}

/// The request of the device for such an access at the page's first byte.
fn request_at(device: DeviceId, page: u64, kind: AccessKind) -> Request
    ensures { result ≡ request_for device (address_of page) kind }
{
    Request {
        device,
        asked: Asked {
            address: address_of(page),
            kind,
        },
    }
}

/// What it finds, where walks know leaves of 64 KiB, or don't.
fn finds_by(hardware: &Board, napot: bool, device: DeviceId, page: u64, kind: AccessKind) -> Found
    ensures { FindsBy napot (board_parts hardware.now) device page kind result }
{
    if !napot {
        return request_finds(hardware, device, page, kind);
    }
    match found_from_root(hardware, request_at(device, page, kind)) {
        Some(led) => Found::by_walk(u64::from(led.frame)),
        None => request_finds(hardware, device, page, kind),
    }
}

/// What it finds where that isn't the frame.
fn found_instead(
    hardware: &Board,
    napot: bool,
    device: DeviceId,
    page: u64,
    frame: u32,
    kind: AccessKind,
) -> Option<Found>
    ensures some { IfSome result (FindsInstead napot (board_parts hardware.now) device page frame kind) }
    ensures none { IfNone result (FindsFrame napot (board_parts hardware.now) device page frame kind) }
{
    let found = finds_by(hardware, napot, device, page, kind);
    if found.frame() == Some(u64::from(frame)) {
        return None;
    }
    Some(found)
}

/// What it finds where that isn't the frame, though the right allows the access.
fn found_against(
    hardware: &Board,
    napot: bool,
    device: DeviceId,
    page: u64,
    frame: u32,
    rights: Rights,
    kind: AccessKind,
) -> Option<Found>
    ensures some { IfSome result (λ found. (allows rights kind ≡ true) × FindsInstead napot (board_parts hardware.now) device page frame kind found) }
    ensures none { IfNone result (allows rights kind ≡ true → FindsFrame napot (board_parts hardware.now) device page frame kind) }
{
    if !rights.allows(kind) {
        return None;
    }
    found_instead(hardware, napot, device, page, frame, kind)
}

/// What a request at the page finds, where it isn't the frame with the right: a read, and then a write, as far as the right allows
/// them.
pub(crate) fn unreadiness(
    hardware: &Board,
    napot: bool,
    device: DeviceId,
    page: u64,
    frame: u32,
    rights: Rights,
) -> Option<Wrong>
    ensures some { IfSome result (IsUnready napot (board_parts hardware.now) device page frame rights) }
    ensures none { IfNone result ((kind : AccessKind) → allows rights kind ≡ true → FindsFrame napot (board_parts hardware.now) device page frame kind) }
{
    let reads = found_against(
        hardware,
        napot,
        device,
        page,
        frame,
        rights,
        AccessKind::Read,
    );
    if let Some(found) = reads {
        return Some(Wrong::NotReady(found));
    }
    let writes = found_against(
        hardware,
        napot,
        device,
        page,
        frame,
        rights,
        AccessKind::Write,
    );
    if let Some(found) = writes {
        return Some(Wrong::NotReady(found));
    }
    None
}

/// What a walk finds that led to this translation: from the root, or from a cached pointer.
fn found_from(start: Start, translation: Translation) -> Found
    ensures { result ≡ found_from start translation }
{
    if start.is_root {
        return Found::by_walk(u64::from(translation.frame));
    }
    Found::Pointed {
        space: start.space,
        frame: translation.frame,
    }
}

/// What a request finds that is walked ahead, where that isn't the frame.
fn led_instead(
    hardware: &Board,
    napot: bool,
    pointers: &Pointers,
    device: DeviceId,
    page: u64,
    frame: u32,
    kind: AccessKind,
) -> Option<Found>
    ensures some { IfSome result (LeadsInstead napot (board_parts hardware.now) pointers.now device page frame kind) }
    ensures none { IfNone result (LeadsToFrame napot (board_parts hardware.now) pointers.now device page frame kind) }
{
    // Of each key one pointer is cached, so a walk begins in one way alone.
    pointers.facts();
    let start = start_of(hardware, napot, pointers, request_at(device, page, kind))?;
    let translation = start.found?;
    if translation.frame == frame {
        return None;
    }
    Some(found_from(start, translation))
}

/// What it finds from there where that isn't the frame, though the right allows the access.
fn led_against(
    hardware: &Board,
    napot: bool,
    pointers: &Pointers,
    device: DeviceId,
    page: u64,
    frame: u32,
    rights: Rights,
    kind: AccessKind,
) -> Option<Found>
    ensures some { IfSome result (λ found. (allows rights kind ≡ true) × LeadsInstead napot (board_parts hardware.now) pointers.now device page frame kind found) }
    ensures none { IfNone result (allows rights kind ≡ true → LeadsToFrame napot (board_parts hardware.now) pointers.now device page frame kind) }
{
    if !rights.allows(kind) {
        return None;
    }
    led_instead(hardware, napot, pointers, device, page, frame, kind)
}

/// What a request at the page finds that is walked ahead, where it isn't the frame with the right: a read, and then a write, as
/// far as the right allows them.
pub(crate) fn unreadiness_ahead(
    hardware: &Board,
    napot: bool,
    pointers: &Pointers,
    device: DeviceId,
    page: u64,
    frame: u32,
    rights: Rights,
) -> Option<Wrong>
    ensures some { IfSome result (LeadsAstray napot (board_parts hardware.now) pointers.now device page frame rights) }
    ensures none { IfNone result ((kind : AccessKind) → allows rights kind ≡ true
        → LeadsToFrame napot (board_parts hardware.now) pointers.now device page frame kind) }
{
    let reads = led_against(
        hardware,
        napot,
        pointers,
        device,
        page,
        frame,
        rights,
        AccessKind::Read,
    );
    if let Some(found) = reads {
        return Some(Wrong::NotReady(found));
    }
    let writes = led_against(
        hardware,
        napot,
        pointers,
        device,
        page,
        frame,
        rights,
        AccessKind::Write,
    );
    if let Some(found) = writes {
        return Some(Wrong::NotReady(found));
    }
    None
}

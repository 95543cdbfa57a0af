// What is drawn, whatever came before.

ghost use Rattle.std.specs.Prelude.{◌<◌};

use crate::call::{Act, Call};
use crate::devices::{device_for, new_device};
use crate::draw::Draw;
use crate::frames::{FIRST_FRAME, FRAMES};
use crate::knows::Knows;
use crate::run::DISKS;
use iom_base::{DeviceId, GrantRights, Mode, NewDevice, Size};

/// A page that no mode has.
const PAGE_TOO_HIGH: u64 = 1 << 35;

/// Where in a page a queue's descriptors stand.
pub(crate) const DESCRIPTORS: u64 = 0x100;

/// Valid, readable, writable, for users, accessed and dirty: a leaf that lets everything through (Privileged
/// Architecture, "Addressing and Memory Protection").
pub(crate) const OPEN_LEAF: u64 = 0b1101_0111;

/// The same, but for reading alone.
const READ_LEAF: u64 = 0b0101_0011;

/// How often of 200 each thing happens.
static OFTEN: [(u64, Act); 32] = [
    (20, Act::Grant),
    (14, Act::Release),
    (24, Act::Fetch),
    (8, Act::Poll),
    (4, Act::Faults),
    (9, Act::Read),
    (9, Act::Write),
    (2, Act::ReadTranslated),
    (2, Act::WriteTranslated),
    (4, Act::ReadThroughCache),
    (4, Act::WriteThroughCache),
    (20, Act::Commit),
    (2, Act::Drop),
    (2, Act::Repeat),
    (2, Act::Forge),
    (6, Act::Ask),
    (14, Act::Deliver),
    (10, Act::Poke),
    (2, Act::Peek),
    (2, Act::Free),
    (2, Act::Quarantine),
    (2, Act::Reset),
    (1, Act::Restart),
    (1, Act::Timeout),
    (4, Act::Revive),
    (4, Act::Detach),
    (1, Act::Plug),
    (2, Act::Medium),
    (5, Act::Attach),
    (3, Act::Queue),
    (2, Act::Status),
    (13, Act::Step),
];

static MODES: [Mode; 6] = [
    Mode::First(Size::Sv39),
    Mode::First(Size::Sv48),
    Mode::Second(Size::Sv39),
    Mode::Second(Size::Sv48),
    Mode::Both(Size::Sv39),
    Mode::Both(Size::Sv48),
];

/// What is plugged in late.
static LATE: [NewDevice; 8] = [
    NewDevice::Raw,
    NewDevice::Raw,
    NewDevice::Raw,
    NewDevice::Raw,
    NewDevice::Ats,
    NewDevice::Block { disk: 0 },
    NewDevice::Block { disk: 1 },
    NewDevice::CachedBlock { disk: 99 },
];

static SIZES: [u64; 8] = [4, 4, 4, 4, 4, 3, 0, 8];

/// What of a run draws depend on.
#[derive(Clone, Copy)]
pub(crate) struct Seen {
    pub(crate) wide: DeviceId,
    /// How many messages are under way.
    pub(crate) messages: u64,
    /// How many requests to invalidate there were.
    pub(crate) requests: u64,
}

pub(crate) fn shown_of(knows: &Knows) -> Seen {
    Seen {
        wide: knows.wide,
        messages: knows.messages.len() as u64,
        requests: knows.requests,
    }
}

/// What happens.
pub(crate) fn act(draw: &mut Draw) -> Act {
    let mut left = draw.below(200);
    for (often, act) in OFTEN.iter() {
        if left < *often {
            return *act;
        }
        left -= *often;
    }
    Act::Fetch
}

/// A page that may be granted, and seldom another.
fn page(draw: &mut Draw) -> u64 {
    match draw.below(160) {
        0 => PAGE_TOO_HIGH,
        1..=4 => 8,
        other => other % 8,
    }
}

/// One of the frames that are granted, and seldom another.
pub(crate) fn frame(draw: &mut Draw) -> u64 {
    match draw.below(32) {
        0 => 60 + draw.below(8),
        other => FIRST_FRAME + other % FRAMES,
    }
}

/// Where in a page an access begins: mostly where tables, descriptors and rings stand.
fn offset(draw: &mut Draw, act: Act) -> u64 {
    let word = 8 * draw.below(8);
    match draw.below(8) {
        0 if act == Act::Queue => DESCRIPTORS + 1,
        _ if act == Act::Queue => DESCRIPTORS,
        0 | 1 => word,
        2 | 3 => DESCRIPTORS + word,
        4 => 0x200,
        5 if word == 0 => 4090,
        _ => 8 * draw.below(512),
    }
}

/// How many bytes, mostly a word.
fn len(draw: &mut Draw, act: Act) -> u64 {
    match draw.below(24) {
        _ if act == Act::Poke => 8,
        0 => 0,
        1 => 4096,
        2 => 1 + draw.below(4096),
        3 => 4097,
        4..=8 => 1 + draw.below(16),
        _ => 8,
    }
}

/// An entry of a guest's table, or anything.
fn word(draw: &mut Draw) -> u64 {
    let page = draw.below(9);
    match draw.below(5) {
        0 => 1,
        1 => page << 10 | READ_LEAF,
        2 | 3 => page << 10 | OPEN_LEAF,
        _ => draw.next(),
    }
}

/// A place among the messages under way, mostly one of the first or the last.
fn place(draw: &mut Draw, messages: u64) -> u64 {
    match draw.below(8) {
        0 => draw.below(70),
        1..=3 => messages.saturating_sub(1),
        _ => draw.below(3),
    }
}

/// The act, with all else drawn.
pub(crate) fn call_of(draw: &mut Draw, act: Act, shown: Seen) -> Call {
    let device = device_for(draw, act, shown.wide);
    Call {
        act,
        device,
        page: page(draw),
        frame: frame(draw),
        offset: offset(draw, act),
        len: len(draw, act),
        word: word(draw),
        rights: if draw.one_in(4) {
            GrantRights::ReadOnly
        } else {
            GrantRights::ReadWrite
        },
        mode: MODES[draw.below(6) as usize],
        ats: new_device(device).kind().has_cache() != draw.one_in(8),
        new: LATE[draw.below(8) as usize],
        disk: draw.below(DISKS + 2),
        place: place(draw, shown.messages),
        serial: shown.requests.wrapping_sub(draw.below(3)),
        size: SIZES[draw.below(8) as usize],
    }
}

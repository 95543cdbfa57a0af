// The devices of a run, and how often each is drawn.

use crate::call::Act;
use crate::draw::Draw;
use iom_base::{DeviceId, NewDevice};

/// The device of each kind.
pub(crate) const RAW: DeviceId = 1;

pub(crate) const ATS: DeviceId = 2;

pub(crate) const BLK: DeviceId = 3;

pub(crate) const ABLK: DeviceId = 4;

/// A raw device that is attached and holds nothing, in runs that want one.
pub(crate) const SPARE: DeviceId = 5;

/// No device has this id.
const NOBODY: DeviceId = 9;

/// Stands for the device that the directory can't name, whose id depends on the run.
pub(crate) const WIDE: DeviceId = 10;

/// The first of the eleven devices that take up frames by their tables, in runs that have them.
pub(crate) const SQUAT: DeviceId = 16;

/// Who does any of the rest.
static ALL: [DeviceId; 32] = [
    RAW, RAW, RAW, RAW, RAW, RAW, ATS, ATS, ATS, ATS, ATS, ATS, ATS, ATS, BLK, BLK, BLK, BLK, BLK,
    BLK, BLK, BLK, ABLK, ABLK, ABLK, ABLK, ABLK, ABLK, ABLK, ABLK, NOBODY, WIDE,
];

/// Who sends untranslated requests.
static PLAIN: [DeviceId; 32] = [
    RAW, RAW, RAW, RAW, RAW, RAW, RAW, RAW, RAW, RAW, RAW, RAW, RAW, ATS, ATS, ATS, ATS, ATS, ATS,
    ATS, ATS, ATS, ATS, ATS, ATS, BLK, BLK, ABLK, NOBODY, NOBODY, WIDE, WIDE,
];

/// Who sends requests that say that they are translated.
static FORGING: [DeviceId; 32] = [
    RAW, RAW, RAW, RAW, RAW, RAW, RAW, RAW, RAW, RAW, RAW, RAW, RAW, RAW, RAW, RAW, RAW, RAW, RAW,
    RAW, RAW, RAW, RAW, RAW, ATS, ATS, BLK, ABLK, NOBODY, NOBODY, WIDE, WIDE,
];

/// Who sends requests through a cache, and asks.
static CACHING: [DeviceId; 32] = [
    ATS, ATS, ATS, ATS, ATS, ATS, ATS, ATS, ATS, ATS, ATS, ATS, ATS, ATS, ATS, ATS, ATS, ATS, ATS,
    ATS, ATS, ATS, ATS, RAW, RAW, RAW, RAW, BLK, ABLK, NOBODY, NOBODY, WIDE,
];

/// Who takes steps.
static BLOCKS: [DeviceId; 32] = [
    BLK, BLK, BLK, BLK, BLK, BLK, BLK, BLK, BLK, BLK, BLK, BLK, BLK, BLK, ABLK, ABLK, ABLK, ABLK,
    ABLK, ABLK, ABLK, ABLK, ABLK, ABLK, ABLK, ABLK, ABLK, ABLK, RAW, ATS, NOBODY, WIDE,
];

/// Who is plugged in late.
static LATE: [DeviceId; 32] = [
    SPARE, SPARE, 0x20, 0x21, 0x22, 0x23, RAW, ABLK, SPARE, SPARE, 0x20, 0x21, 0x22, 0x23, RAW,
    ABLK, SPARE, SPARE, 0x20, 0x21, 0x22, 0x23, RAW, ABLK, SPARE, SPARE, 0x20, 0x21, 0x22, 0x23,
    RAW, ABLK,
];

/// Who is detached: a third are those that take up frames.
static LEAVING: [DeviceId; 32] = [
    16, 17, 18, 19, 20, 21, 22, 23, 24, 25, 26, ATS, ATS, ATS, BLK, BLK, BLK, BLK, BLK, BLK, BLK,
    BLK, ABLK, ABLK, ABLK, ABLK, ABLK, ABLK, ABLK, ABLK, NOBODY, WIDE,
];

/// The device that does this, with the id of the one that the directory can't name.
pub(crate) fn device_for(draw: &mut Draw, act: Act, wide: DeviceId) -> DeviceId {
    let at = draw.below(32) as usize;
    let table = match act {
        Act::Read | Act::Write => &PLAIN,
        Act::ReadTranslated | Act::WriteTranslated | Act::Forge => &FORGING,
        Act::ReadThroughCache | Act::WriteThroughCache | Act::Ask => &CACHING,
        Act::Step | Act::Queue | Act::Status | Act::Medium => &BLOCKS,
        Act::Plug => &LATE,
        Act::Detach => &LEAVING,
        _ => &ALL,
    };
    let id = table[at];
    if id == WIDE { wide } else { id }
}

/// What is plugged in with this id at first.
pub(crate) fn new_device(id: DeviceId) -> NewDevice {
    match id {
        BLK => NewDevice::Block { disk: 0 },
        ABLK => NewDevice::CachedBlock { disk: 1 },
        ATS => NewDevice::Ats,
        SQUAT..=26 => NewDevice::Ats,
        _ => NewDevice::Raw,
    }
}

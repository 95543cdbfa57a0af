pub(crate) const DDTP: u64 = 16;

pub(crate) const CQB: u64 = 24;

pub(crate) const CQH: u64 = 32;

pub(crate) const CQT: u64 = 36;

pub(crate) const FQB: u64 = 40;

pub(crate) const FQH: u64 = 48;

pub(crate) const FQT: u64 = 52;

pub(crate) const CQCSR: u64 = 72;

pub(crate) const FQCSR: u64 = 76;

pub(crate) const IPSR: u64 = 84;

/// A queue of 256 entries in the frame 63.
pub(crate) const BASE_VALUE: u64 = 0xfc07;

/// The address of that queue.
pub(crate) const RING: u64 = 0x3f000;

/// The address of a fault queue in the frame 62.
pub(crate) const RECORDS: u64 = 0x3e000;

/// How many frames the memory of a test has.
pub(crate) const FRAMES: u32 = 64;

/// The device that makes requests.
pub(crate) const DEVICE: u32 = 5;

/// The width of the register at an offset.
pub(crate) fn width_at(offset: u64) -> u32 {
    if offset == CQB || offset == DDTP || offset == FQB {
        8
    } else {
        4
    }
}

/// The words of a fence that stores 1 at 0x5000.
pub(crate) const FENCE: (u64, u64) = (0x0000_0001_0000_0402, 0x1400);

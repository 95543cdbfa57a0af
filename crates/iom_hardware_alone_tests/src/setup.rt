use iom_command_queue::Command;
use iom_iommu::Fetched;
use std::process::Abort;

pub(crate) const DDTP: u64 = 16;

pub(crate) const CQB: u64 = 24;

pub(crate) const CQT: u64 = 36;

pub(crate) const FQB: u64 = 40;

pub(crate) const CQCSR: u64 = 72;

pub(crate) const FQCSR: u64 = 76;

/// A queue of 256 entries in the frame 63, and its address.
pub(crate) const BASE_VALUE: u64 = 0xfc07;

pub(crate) const RING: u64 = 0x3f000;

/// How many frames the memory of a test has.
pub(crate) const FRAMES: u32 = 64;

/// The device that makes requests.
pub(crate) const DEVICE: u32 = 5;

/// A directory of one level in the frame 16.
pub(crate) const ONE_LEVEL: u64 = 0x4002;

/// The address of the device's context in the frame 16.
pub(crate) const CONTEXT: u64 = 0x100a0;

/// The entry of the pages 0 to 0x1ff in the table of the middle level.
pub(crate) const MIDDLE: u64 = 0x12000;

/// The leaf of the page 3.
pub(crate) const LEAF: u64 = 0x13018;

/// The directory. The device's first stage has its root in the frame 17, and leads 0x3010 to 0x20010. Its PSCID is 1.
pub(crate) static WORDS: [(u64, u64); 7] = [
    (CONTEXT, 1),
    (CONTEXT + 8, 0),
    (CONTEXT + 16, 0x1000),
    (CONTEXT + 24, 0x8000_0000_0000_0011),
    (0x11000, 0x4801),
    (MIDDLE, 0x4c01),
    (LEAF, 0x80d7),
];

/// The words of a fence that stores 1 at 0x5000, of one that stores nothing, of IOTINVAL.VMA of the pages 3 and 0 of PSCID 1, and of
/// ATS.INVAL of the page 3 of the device.
pub(crate) const FENCE: (u64, u64) = (0x0000_0001_0000_0402, 0x1400);

pub(crate) const PLAIN_FENCE: (u64, u64) = (2, 0);

pub(crate) const VMA: (u64, u64) = (0x0000_0001_0000_1401, 0xc00);

pub(crate) const VMA_PAGE_0: (u64, u64) = (0x0000_0001_0000_1401, 0);

pub(crate) const INVALIDATE: (u64, u64) = (0x0000_0502_0000_0004, 0x3000);

/// The width of the register at an offset.
pub(crate) fn width_at(offset: u64) -> u32 {
    if offset == CQB || offset == DDTP || offset == FQB {
        8
    } else {
        4
    }
}

/// What a fetch answers that does no command.
#[derive(Clone, Copy)]
pub(crate) enum Answer {
    Waiting,
    Empty,
    Stopped,
}

/// A fetch that does no command answers so.
pub(crate) fn fetched_as(answer: Answer) -> Fetched {
    match answer {
        Answer::Waiting => Fetched::Waiting,
        Answer::Empty => Fetched::Empty,
        Answer::Stopped => Fetched::Stopped,
    }
}

/// The command with these two words, which is one, is done.
pub(crate) fn did(rt: &impl Abort, (first, second): (u64, u64)) -> Fetched {
    let mut bytes = [0; 16];
    bytes[..8].copy_from_slice(&first.to_le_bytes());
    bytes[8..].copy_from_slice(&second.to_le_bytes());
    let command = Command::decode(&bytes);
    Fetched::Did(command.expect(rt, "a command"))
}

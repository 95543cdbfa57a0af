/// A directory of one level in the frame 16.
pub(crate) const ONE_LEVEL: u64 = 0x4002;

/// A directory of three levels, whose root is in the frame 48, the next one in 52, and contexts in 16.
pub(crate) const THREE_LEVELS: u64 = 0xc004;

/// The address of the device's context in the frame 16.
pub(crate) const CONTEXT: u64 = 0x100a0;

/// The leaf of the page 3.
pub(crate) const LEAF: u64 = 0x13018;

/// The directories. The device's first stage has its root in the frame 17, and leads 0x3010 to 0x20010. Its PSCID
/// is 1.
pub(crate) static WORDS: [(u64, u64); 9] = [
    (CONTEXT, 1),
    (CONTEXT + 8, 0),
    (CONTEXT + 16, 0x1000),
    (CONTEXT + 24, 0x8000_0000_0000_0011),
    (0x11000, 0x4801),
    (0x12000, 0x4c01),
    (LEAF, 0x80d7),
    (0x30000, 0xd001),
    (0x34000, 0x4001),
];

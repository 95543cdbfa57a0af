// A directory, page tables and a queue by their words.

/// How many frames the memory of a test has.
pub(crate) const FRAMES: u32 = 64;

/// The block device.
pub(crate) const DEVICE: u32 = 5;

/// The register of the directory, and a directory of one level in the frame 16.
pub(crate) const DDTP: u64 = 16;

pub(crate) const ONE_LEVEL: u64 = 0x4002;

/// The address of the device's context in the frame 16.
pub(crate) const CONTEXT: u64 = 0x100a0;

/// The leaf of the page 3.
pub(crate) const LEAF: u64 = 0x1_3018;

/// Where the page 3 of the device is in memory: the frame 32.
pub(crate) const PAGE_3: u64 = 0x2_0000;

/// The directory. The device's first stage has its root in the frame 17, and leads the page 3 to the frame 32. There is a
/// request in that page: a header, a sector that the device reads, and a status that it writes. It says OUT, to the sector 0.
/// One entry is available, the chain that begins at the descriptor 0.
pub(crate) static WORDS: [(u64, u64); 17] = [
    (CONTEXT, 1),
    (CONTEXT + 8, 0),
    (CONTEXT + 16, 0x1000),
    (CONTEXT + 24, 0x8000_0000_0000_0011),
    (0x1_1000, 0x4801),
    (0x1_2000, 0x4c01),
    (LEAF, 0x80d7),
    (PAGE_3, 0x3300),
    (PAGE_3 + 0x8, 0x0001_0001_0000_0010),
    (PAGE_3 + 0x10, 0x3400),
    (PAGE_3 + 0x18, 0x0002_0001_0000_0200),
    (PAGE_3 + 0x20, 0x3310),
    (PAGE_3 + 0x28, 0x0000_0002_0000_0001),
    (PAGE_3 + 0x100, 0x0000_0000_0001_0000),
    (PAGE_3 + 0x300, 1),
    (PAGE_3 + 0x310, 0xff),
    (PAGE_3 + 0x400, 0x6f6c_6c65_68),
];

/// Where the queue of four entries lies: descriptors, available ring, used ring.
pub(crate) const QUEUE: (u64, u64, u64, u64) = (4, 0x3000, 0x3100, 0x3200);

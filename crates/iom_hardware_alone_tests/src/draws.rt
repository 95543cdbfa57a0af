// What happens next in a drawn list.
ghost use Rattle.std.specs.Prelude.{◌<◌};

use crate::setup::{CONTEXT, DEVICE, FENCE, PLAIN_FENCE, VMA, VMA_PAGE_0, WORDS};

/// Beside `DEVICE`, whose tables are of the first stage: a device with tables of the second, one with both, and one with neither.
pub(crate) const SECOND: u32 = 6;

pub(crate) const BOTH: u32 = 7;

pub(crate) const BARE: u32 = 9;

/// A device whose id is too wide for a directory of one level, and one that is never plugged in.
pub(crate) const TOO_WIDE: u32 = 0x85;

const MISSING: u32 = 8;

/// Who asks: mostly a device with tables.
static ASKERS: [u32; 16] = [
    DEVICE, DEVICE, DEVICE, DEVICE, SECOND, SECOND, SECOND, SECOND, BOTH, BOTH, BOTH, BOTH, BOTH,
    BARE, TOO_WIDE, MISSING,
];

/// The pages that are asked for: mostly such as have a leaf. Those from 0x200 to 0x3ff are in a leaf of 2 MiB, of which memory has
/// not all frames. The last three are in no table, and the very last is canonical in none.
static PAGES: [u64; 16] = [
    3,
    3,
    3,
    3,
    4,
    4,
    4,
    5,
    6,
    0x205,
    0x220,
    0x220,
    0x250,
    0x400,
    0x3ff_ffff,
    0xf_ffff_ffff,
];

/// The words of contexts beside those of the setup: EN_ATS of the device's own, and the contexts of the other devices.
pub(crate) static CONTEXTS: [(u64, u64); 12] = [
    (CONTEXT, 3),
    (CONTEXT + 0x20, 1),
    (CONTEXT + 0x28, 0x8000_7000_0000_0014),
    (CONTEXT + 0x30, 0),
    (CONTEXT + 0x38, 0),
    (CONTEXT + 0x40, 3),
    (CONTEXT + 0x48, 0x8000_8000_0000_0014),
    (CONTEXT + 0x50, 0x2000),
    (CONTEXT + 0x58, 0x8000_0000_0000_0011),
    (CONTEXT + 0x80, 3),
    (CONTEXT + 0x88, 0),
    (CONTEXT + 0x98, 0),
];

/// The entries of tables beside those of the setup: more leaves of the first stage, and the second stage with its root in the
/// frames 20 to 23. In that the pages of the first stage's tables and of its leaves are the frames of the same number.
pub(crate) static TABLES: [(u64, u64); 15] = [
    (0x12008, 0xd7),
    (0x13020, 0x84d7),
    (0x13028, 0x8853),
    (0x13030, 0x88d3),
    (0x14000, 0x6001),
    (0x18000, 0x6401),
    (0x18008, 0xd7),
    (0x19018, 0x8cd7),
    (0x19020, 0x90d3),
    (0x19088, 0x44d7),
    (0x19090, 0x48d7),
    (0x19098, 0x4cd7),
    (0x19100, 0x80d7),
    (0x19108, 0x84d7),
    (0x19110, 0x8853),
];

/// Invalidations of translations and contexts, and fences: beside those of the setup IOTINVAL.VMA of all, IOTINVAL.GVMA of all, of the
/// guest 7 and of its page 3, IODIR.INVAL_DDT of each device with tables and of all, and a fence that waits for reads and writes.
static COMMANDS: [(u64, u64); 14] = [
    VMA,
    VMA_PAGE_0,
    (1, 0),
    (0x81, 0),
    (0x0000_7002_0000_0081, 0),
    (0x0000_7002_0000_0481, 0xc00),
    (0x0000_0502_0000_0003, 0),
    (0x0000_0602_0000_0003, 0),
    (0x0000_0702_0000_0003, 0),
    (3, 0),
    (3, 0),
    FENCE,
    PLAIN_FENCE,
    (0x3002, 0),
];

/// What a device asks for: these bytes to be written, or as many to be read.
#[derive(Clone, Copy)]
pub(crate) struct Wish {
    pub(crate) id: u32,
    pub(crate) address: u64,
    pub(crate) is_write: bool,
    len: usize,
    bytes: [u8; 8],
    ghost few: { len < 9 },
}

impl Wish {
    /// The bytes to be written.
    pub(crate) fn bytes(&self) -> &[u8] {
        &self.bytes[..self.len]
    }
}

#[derive(Clone, Copy)]
pub(crate) enum Event {
    /// The processor stores a word.
    Store(u64, u64),
    Request(Wish),
    /// The device says that the address is one of memory.
    Translated(Wish),
    /// The oldest access of the device is made.
    Commit(u32),
    /// The command with these two words is put into the queue, and the first that waits is fetched; or that alone.
    Command((u64, u64)),
    Fetch,
    Reset(u32),
    /// What `ddtp` holds from now on.
    Directory(u64),
}

/// Numbers that look random: Marsaglia's generator by three shifts.
#[derive(Drop)]
pub(crate) struct Draw {
    state: u64,
}

impl Draw {
    pub(crate) fn new(seed: u64) -> Draw {
        // The factor is odd, so the state is not 0, which the shifts would leave.
        Draw {
            state: seed.wrapping_mul(0x9e37_79b9_7f4a_7c15),
        }
    }

    fn next(&mut self) -> u64 {
        self.state ^= self.state << 13;
        self.state ^= self.state >> 7;
        self.state ^= self.state << 17;
        self.state
    }

    fn below(&mut self, limit: u64) -> u64
        requires { 0 < limit }
        ensures { result < limit }
    {
        (self.next() >> 20) % limit
    }

    fn asker(&mut self) -> u32 {
        ASKERS[self.below(16) as usize]
    }

    /// A word that stands in memory at first, and its address.
    fn place(&mut self) -> (u64, u64) {
        match self.below(8) {
            0 => CONTEXTS[self.below(12) as usize],
            1 | 2 => WORDS[self.below(7) as usize],
            _ => TABLES[self.below(15) as usize],
        }
    }

    /// What is stored where this word stood at first: mostly it, else nothing, a leaf, a pointer to a table, one of the two that
    /// leads out of memory, or anything.
    fn word(&mut self, first: u64) -> u64 {
        match self.below(20) {
            0..=11 => first,
            12 => 0,
            13 => (32 + self.below(16)) << 10 | 0x53,
            14 => (32 + self.below(16)) << 10 | 0xd7,
            15 => 0xd7,
            16 => (64 + self.below(8)) << 10 | 0xd7,
            17 => (16 + self.below(10)) << 10 | 1,
            18 => (64 + self.below(8)) << 10 | 1,
            _ => self.next(),
        }
    }

    fn store(&mut self) -> Event {
        let (address, first) = self.place();
        Event::Store(address, self.word(first))
    }

    /// Where in a page: at times so near its end that the bytes may leave it.
    fn offset(&mut self) -> u64
        ensures { result < 4096 }
    {
        if self.below(8) == 0 {
            4088 + self.below(8)
        } else {
            self.below(4088)
        }
    }

    /// An access to the page, which is below 2 ^ 52.
    fn wish(&mut self, id: u32, page: u64) -> Wish {
        Wish {
            id,
            address: page << 12 | self.offset(),
            is_write: self.below(2) == 0,
            len: self.below(8) as usize + 1,
            bytes: self.next().to_le_bytes(),
        }
    }

    fn request(&mut self) -> Event {
        let id = self.asker();
        let page = PAGES[self.below(16) as usize];
        Event::Request(self.wish(id, page))
    }

    /// Of a page of which memory has a frame, or not.
    fn translated(&mut self) -> Event {
        let id = self.asker();
        let page = 32 + self.below(40);
        Event::Translated(self.wish(id, page))
    }

    fn command(&mut self) -> Event {
        Event::Command(COMMANDS[self.below(14) as usize])
    }

    /// A directory of one level in the frame 16, seldom none.
    fn directory(&mut self) -> Event {
        Event::Directory(if self.below(4) == 0 { 0 } else { 0x4002 })
    }

    pub(crate) fn event(&mut self) -> Event {
        match self.below(64) {
            0..=11 => self.store(),
            12..=38 => self.request(),
            39 | 40 => self.translated(),
            41..=53 => Event::Commit(self.asker()),
            54..=59 => self.command(),
            60 | 61 => Event::Fetch,
            62 => Event::Reset(self.asker()),
            _ => self.directory(),
        }
    }
}

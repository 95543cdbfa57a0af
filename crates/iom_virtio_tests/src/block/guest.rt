// A driver in a guest, which lays out its requests anew each time, remembers what it wrote, and reads it back.

ghost use Rattle.std.specs.Prelude.{◌<◌};

use crate::block::bench::Bench;
use crate::expect::expect;
use crate::shown::Seen;
use std::alloc::Global;
use std::process::Abort;

/// The descriptors of the queue: the table is at 0, the rings are at 0x100 and 0x200.
const SIZE: u16 = 16;

/// Where the header, the status and the data of a request lie.
const HEADER: u16 = 0x800;

const STATUS: u16 = 0x810;

const DATA: u16 = 0x1000;

/// The types of requests (virtio 1.2, section 5.2.6).
const IN: u8 = 0;

const OUT: u8 = 1;

const FLUSH: u8 = 4;

/// Numbers that look random: a linear congruential generator.
#[derive(Drop)]
struct Draw {
    state: u64,
}

impl Draw {
    fn below(&mut self, limit: u16) -> u16
        requires { 0 < limit }
        ensures { result < limit }
    {
        self.state = self
            .state
            .wrapping_mul(6364136223846793005)
            .wrapping_add(1442695040888963407);
        ((self.state >> 33) % u64::from(limit)) as u16
    }
}

/// A piece of memory that a descriptor names.
#[derive(Clone, Copy)]
struct Buffer {
    address: u16,
    len: u16,
    is_writable: bool,
}

#[derive(Drop)]
struct Guest {
    bench: Box<Bench>,
    draw: Draw,
    /// How many requests were made since the queue was set.
    requests: u16,
    /// The byte with which each sector begins. Each further byte is one more.
    beginnings: [u8; 4],
}

impl Guest {
    fn poke(&mut self, rt: &impl Abort, at: u16, bytes: &[u8]) {
        self.bench.memory.poke(rt, at, bytes);
    }

    /// Cuts a buffer in two, of which one may be empty.
    fn cut(&mut self, buffer: Buffer) -> [Buffer; 2] {
        let first = self.draw.below(buffer.len.saturating_add(1));
        [
            Buffer {
                len: first,
                ..buffer
            },
            Buffer {
                address: buffer.address.wrapping_add(first),
                len: buffer.len.wrapping_sub(first),
                ..buffer
            },
        ]
    }

    /// Writes a descriptor of the chain that begins at this head, the fifth of which is the last.
    fn describes(&mut self, rt: &impl Abort, head: u16, place: u16, buffer: Buffer) {
        let index = head.wrapping_add(place) % SIZE;
        let next = index.wrapping_add(1) % SIZE;
        let flags = u8::from(place != 4) + 2 * u8::from(buffer.is_writable);
        self.bench
            .memory
            .poke_descriptor(rt, index, buffer.address, buffer.len, flags, next);
    }

    /// Writes two descriptors, of a buffer that is cut in two.
    fn describes_cut(&mut self, rt: &impl Abort, head: u16, place: u16, buffer: Buffer) {
        let [first, second] = self.cut(buffer);
        self.describes(rt, head, place, first);
        self.describes(rt, head, place.wrapping_add(1), second);
    }

    /// Writes the chain of a request with so much data, and tells its head.
    fn lays_out(&mut self, rt: &impl Abort, is_writable: bool, len: u16) -> u16 {
        let head = self.draw.below(SIZE);
        let header = Buffer {
            address: HEADER,
            len: 16,
            is_writable: false,
        };
        let data = Buffer {
            address: DATA,
            len,
            is_writable,
        };
        let status = Buffer {
            address: STATUS,
            len: 1,
            is_writable: true,
        };
        self.describes_cut(rt, head, 0, header);
        self.describes_cut(rt, head, 2, data);
        self.describes(rt, head, 4, status);
        head
    }

    /// Lays out a request with so much data, and makes it available. Its head is told.
    fn requests(&mut self, rt: &impl Abort, kind: u8, sector: u8, len: u16) -> u16 {
        self.bench.memory.put(HEADER, kind);
        self.bench.memory.put(HEADER + 8, sector);
        self.bench.memory.put(STATUS, 255);
        let head = self.lays_out(rt, kind == IN, len);
        let entry = 0x104 + 2 * (self.requests % SIZE);
        self.bench.memory.poke_half(rt, entry, head);
        self.requests = self.requests.wrapping_add(1);
        self.bench.memory.poke_half(rt, 0x102, self.requests);
        head
    }

    /// The request is served: its status, its used element and the used index are as they should be.
    fn is_served(&mut self, rt: &impl Abort, head: u16, written: u16) {
        self.bench
            .ends(rt, Seen::Finished(head, u32::from(written)));
        self.bench.memory.expect_byte(rt, STATUS, 0);
        let place = 0x204 + 8 * (self.requests.wrapping_sub(1) % SIZE);
        self.bench
            .expect_used(rt, place, head, written, self.requests);
    }

    /// Puts what a sector holds at this place of the data.
    fn fill(&mut self, place: u16, beginning: u8) {
        let from = DATA + 512 * (place % 4);
        for n in 0..512u16 {
            let byte = beginning.wrapping_add((n % 256) as u8);
            self.bench.memory.put(from + n, byte);
        }
    }

    /// Whether what a sector holds is at this place of the data.
    fn is_there(&self, place: u16, beginning: u8) -> bool {
        let from = DATA + 512 * (place % 4);
        for n in 0..512u16 {
            let byte = beginning.wrapping_add((n % 256) as u8);
            if self.bench.memory.byte(from + n) != byte {
                return false;
            }
        }
        true
    }

    /// Writes sectors from this one on.
    fn writes(&mut self, rt: &impl Abort, sector: u8, count: u16) {
        for place in 0..count {
            let beginning = self.draw.below(256) as u8;
            let written = usize::from(sector) + usize::from(place);
            self.beginnings[written % 4] = beginning;
            self.fill(place, beginning);
        }
        let head = self.requests(rt, OUT, sector, count.wrapping_mul(512));
        self.is_served(rt, head, 1);
    }

    /// Reads sectors from this one on: they are as they were written last.
    fn reads(&mut self, rt: &impl Abort, sector: u8, count: u16) {
        let len = count.wrapping_mul(512);
        let head = self.requests(rt, IN, sector, len);
        self.is_served(rt, head, len.wrapping_add(1));
        for place in 0..count {
            let read = usize::from(sector) + usize::from(place);
            expect(rt, self.is_there(place, self.beginnings[read % 4]));
        }
    }

    /// A drawn request.
    fn asks(&mut self, rt: &impl Abort) {
        let sector = self.draw.below(4);
        let count = self.draw.below(4 - sector) + 1;
        match self.draw.below(9) {
            0..=3 => self.writes(rt, sector as u8, count),
            4..=7 => self.reads(rt, sector as u8, count),
            _ => {
                let head = self.requests(rt, FLUSH, 0, 0);
                self.is_served(rt, head, 1);
            }
        }
    }

    /// Resets the device and sets its queue, with rings that have nothing.
    fn begins_anew(&mut self, rt: &impl Abort) {
        self.bench.sets_queue(rt, u64::from(SIZE));
        self.poke(rt, 0x100, &[0; 4]);
        self.poke(rt, HEADER, &[0; 16]);
        self.requests = 0;
    }

    /// Changes a byte of the table, of a ring or of a header.
    fn spoils(&mut self, rt: &impl Abort) {
        let place = self.draw.below(8);
        let (from, len) = PLACES[usize::from(place)];
        let at = from.wrapping_add(self.draw.below(len.max(1)));
        let kind = self.draw.below(3);
        let limit = LIMITS[usize::from(kind)];
        let byte = self.draw.below(limit.max(1)) as u8;
        self.poke(rt, at, &[byte]);
    }

    /// Changes a byte, and lets the device take a step. One that is down by then is set up anew.
    fn spoils_a_step(&mut self, rt: &impl Abort) {
        self.spoils(rt);
        if self.bench.turn() == Seen::Down {
            self.begins_anew(rt);
        }
    }
}

/// Where a byte is spoilt, from where on and how many there are: everywhere, the available idx, the ring, the header,
/// and most often the table.
static PLACES: [(u16, u16); 8] = [
    (0, 0x300),
    (0x102, 1),
    (0x104, 32),
    (0x104, 32),
    (HEADER, 16),
    (0, 256),
    (0, 256),
    (0, 256),
];

/// Below which number it is then.
static LIMITS: [u16; 3] = [256, 4, 32];

// A guest that has asked for nothing yet.
fn begins(rt: &impl Abort, alloc: Global, seed: u64) -> Box<Guest> {
    let bench = Bench::new(rt, alloc, u64::from(SIZE), 0);
    let guest = Guest {
        bench,
        draw: Draw { state: seed },
        requests: 0,
        beginnings: [0; 4],
    };
    Box::new(alloc, guest).expect(rt, "memory for the guest")
}

// A thousand requests for each of twenty seeds: what is read is what was written last.
#[test]
fn what_was_written_is_read(rt: HostRuntime) {
    for seed in 0..20 {
        let mut guest = begins(&rt, rt.alloc(), seed);
        for sector in 0..4 {
            guest.writes(&rt, sector, 1);
        }
        for _ in 0..1000 {
            guest.asks(&rt);
        }
    }
}

// A driver that changes rings, descriptors and headers between any two steps is served or refused; once it
// resets the device and is a good one, it is served as if nothing had been.
#[test]
fn a_hostile_driver_is_outlived(rt: HostRuntime) {
    for seed in 0..20 {
        let mut guest = begins(&rt, rt.alloc(), seed);
        for _ in 0..4000 {
            guest.spoils_a_step(&rt);
        }
        guest.begins_anew(&rt);
        guest.writes(&rt, 0, 4);
        for _ in 0..20 {
            guest.asks(&rt);
        }
    }
}

ghost use Rattle.iom_virtqueue.specs.Layouts.{IsLayout};

use crate::block::disk::FailingDisk;
use crate::expect::expect;
use crate::memory::Memory;
use crate::shown::Seen;
use iom_virtio_blk::{Blk, OFFERED_FEATURES, Reply, Step as Stepped, WantedAccess};
use iom_virtqueue::{Layout, Want};
use std::alloc::Global;
use std::process::Abort;

/// What a test does or asks for.
#[derive(Clone, Copy)]
pub(crate) enum Step<'a> {
    /// A request of this type for this sector is put, and begun: its header and data, 16 and so many times 256 bytes from
    /// 0x1000 on, and its status at 0x1800.
    Request(u8, u8, u8),
    /// It ends with this status.
    Finishes(u8),
    /// A descriptor is written: its index, address, length and flags, and what follows it.
    Describe(u16, u16, u16, u8, u16),
    /// Bytes are written.
    Poke(u16, &'a [u8]),
    /// One turn for each.
    Turns(&'a [Seen]),
    /// Turns until one makes no access: this one.
    Ends(Seen),
    /// The device status.
    Status(u8),
    /// Bytes that stand in memory.
    Bytes(u16, &'a [u8]),
}

/// A device, and the memory that it reaches.
#[derive(Drop)]
pub(crate) struct Bench {
    blk: Blk<FailingDisk>,
    pub(crate) memory: Memory,
}

impl Bench {
    /// A device that was just plugged, whose disk fails at this call.
    fn plugged(rt: &impl Abort, alloc: Global, fails_at: u64) -> Box<Bench> {
        let mut blk = Blk::new();
        blk.insert(FailingDisk::new(fails_at));
        let memory = Memory::new();
        Box::new(alloc, Bench { blk, memory }).expect(rt, "memory for the bench")
    }

    /// A device that works, with a queue of so many descriptors: its table at 0, its rings at 0x100 and 0x200.
    /// Its disk fails at this call.
    pub(crate) fn new(rt: &impl Abort, alloc: Global, size: u64, fails_at: u64) -> Box<Bench> {
        let mut bench = Bench::plugged(rt, alloc, fails_at);
        bench.turns(rt, Seen::Idle);
        bench.sets_queue(rt, size);
        bench
    }

    /// A device that works, with a queue of 256 descriptors: its table at 0, its rings at 0x1000 and 0x1300.
    pub(crate) fn largest(rt: &impl Abort, alloc: Global) -> Box<Bench> {
        let mut bench = Bench::plugged(rt, alloc, 0);
        expect(rt, bench.blk.negotiate(OFFERED_FEATURES));
        bench.works(rt, 256, 0x1000, 0x1300);
        bench
    }

    /// The driver resets the device, and sets its queue.
    pub(crate) fn sets_queue(&mut self, rt: &impl Abort, size: u64) {
        self.blk.reset();
        self.expect_status(rt, 0);
        expect(rt, self.blk.negotiate(OFFERED_FEATURES));
        self.expect_status(rt, 11);
        self.works(rt, size, 0x100, 0x200);
        self.expect_status(rt, 15);
    }

    fn works(&mut self, rt: &impl Abort, size: u64, available: u64, used: u64) {
        match Layout::new(size, 0, available, used) {
            Some(layout) => expect(rt, sets(&mut self.blk, layout)),
            None => expect(rt, false),
        }
    }

    /// The element at this place of the used ring, and the used index.
    pub(crate) fn expect_used(
        &self,
        rt: &impl Abort,
        place: u16,
        head: u16,
        written: u16,
        idx: u16,
    ) {
        self.memory.expect_half(rt, place, head);
        self.memory.expect_half(rt, place.wrapping_add(2), 0);
        self.memory.expect_half(rt, place.wrapping_add(4), written);
        self.memory.expect_half(rt, place.wrapping_add(6), 0);
        self.memory.expect_half(rt, 0x202, idx);
    }

    pub(crate) fn expect_status(&self, rt: &impl Abort, expected: u8) {
        expect(rt, self.blk.status() == expected);
    }

    // The access is made, which the device waits for where it lies in memory.
    fn makes(&mut self, wanted: WantedAccess) -> Seen {
        match wanted {
            WantedAccess::Small(Want::Read { address, len }) => {
                match self.memory.load(address, len) {
                    Some(bytes) => {
                        self.blk.made(1, bytes);
                        Seen::Read(address, len)
                    }
                    None => Seen::Outside(address),
                }
            }
            WantedAccess::Small(Want::Write { address, bytes }) => {
                let is_stored = self.memory.store(address, &bytes);
                self.wrote(is_stored, address, bytes.len() as u16)
            }
            WantedAccess::OfSector { address, from, len } => {
                let bytes = self.blk.sector_part(from, len);
                let is_stored = self.memory.store(address, bytes);
                self.wrote(is_stored, address, len)
            }
            WantedAccess::Small(Want::Nothing) => Seen::Outside(0),
        }
    }

    fn wrote(&mut self, is_stored: bool, address: u64, len: u16) -> Seen {
        if !is_stored {
            return Seen::Outside(address);
        }
        self.blk.made(1, &[]);
        Seen::Wrote(address, len)
    }

    /// A step, with the access that it wants made at once.
    pub(crate) fn turn(&mut self) -> Seen {
        match self.blk.step() {
            Stepped::Wants(wanted) => {
                self.blk.replied(reply(&wanted));
                self.makes(wanted)
            }
            Stepped::Idle => Seen::Idle,
            Stepped::Waiting => Seen::Waiting,
            Stepped::Down => Seen::Down,
            Stepped::Chain(fault) => Seen::Chain(fault),
            Stepped::Finished { head, len } => Seen::Finished(head, len),
        }
    }

    /// The next turn is this one.
    pub(crate) fn turns(&mut self, rt: &impl Abort, expected: Seen) {
        expect(rt, self.turn() == expected);
    }

    /// The next turn reads.
    pub(crate) fn reads(&mut self, rt: &impl Abort) {
        let is_read = matches!(self.turn(), Seen::Read(_, _));
        expect(rt, is_read);
    }

    /// One turn for each of these.
    fn turns_all(&mut self, rt: &impl Abort, expected: &[Seen]) {
        for shown in expected.iter() {
            self.turns(rt, *shown);
        }
    }

    /// Takes turns until one makes no access: this one.
    pub(crate) fn ends(&mut self, rt: &impl Abort, expected: Seen) {
        for _ in 0..1024 {
            let shown = self.turn();
            if !shown.is_access() {
                return expect(rt, shown == expected);
            }
        }
        expect(rt, false);
    }

    fn request(&mut self, rt: &impl Abort, kind: u8, sector: u8, len: u8) {
        self.memory.poke_descriptor(rt, 0, 0x1000, 16, 1, 1);
        self.memory.poke_descriptor(rt, 1, 0x1800, 1, 2, 0);
        self.memory.put(0x9, len);
        self.memory.put(0x102, 1);
        self.memory.put(0x1000, kind);
        self.memory.put(0x1008, sector);
        self.turns_all(rt, &BEGINS);
    }

    fn finishes(&mut self, rt: &impl Abort, status: u8) {
        self.turns_all(rt, &ENDS);
        self.memory.expect_byte(rt, 0x1800, status);
    }

    fn takes(&mut self, rt: &impl Abort, step: Step) {
        match step {
            Step::Request(kind, sector, len) => self.request(rt, kind, sector, len),
            Step::Finishes(status) => self.finishes(rt, status),
            Step::Describe(index, address, len, flags, next) => self
                .memory
                .poke_descriptor(rt, index, address, len, flags, next),
            Step::Poke(at, bytes) => self.memory.poke(rt, at, bytes),
            Step::Turns(shown) => self.turns_all(rt, shown),
            Step::Ends(shown) => self.ends(rt, shown),
            Step::Status(status) => self.expect_status(rt, status),
            Step::Bytes(at, bytes) => self.memory.expect(rt, at, bytes),
        }
    }

    /// Takes the steps, one after another.
    pub(crate) fn follow(&mut self, rt: &impl Abort, steps: &[Step]) {
        for step in steps.iter() {
            self.takes(rt, *step);
        }
    }
}

// The device has a queue, and works.
fn sets(blk: &mut Blk<FailingDisk>, layout: Layout) -> bool
    requires { IsLayout layout }
{
    blk.set_queue(layout)
}

/// Index and ring entry, the two descriptors and the header.
static BEGINS: [Seen; 5] = [
    Seen::Read(0x102, 2),
    Seen::Read(0x104, 2),
    Seen::Read(0x0, 16),
    Seen::Read(0x10, 16),
    Seen::Read(0x1000, 16),
];

/// The status, the used element and the used index.
static ENDS: [Seen; 4] = [
    Seen::Wrote(0x1800, 1),
    Seen::Wrote(0x204, 8),
    Seen::Wrote(0x202, 2),
    Seen::Finished(0, 1),
];

// An access outside memory is refused.
fn reply(wanted: &WantedAccess) -> Reply {
    let address = match wanted {
        WantedAccess::Small(Want::Read { address, len: _ }) => *address,
        WantedAccess::Small(Want::Write { address, bytes: _ }) => *address,
        WantedAccess::OfSector {
            address,
            from: _,
            len: _,
        } => *address,
        WantedAccess::Small(Want::Nothing) => 0,
    };
    if address > 7680 {
        Reply::Fault
    } else {
        Reply::Accepted(1)
    }
}

// Requests whose walks make one load an event, beside what the IOMMU does in one (IOMMU specification, section 2.3).
use crate::bench::INVALIDATE;
use crate::directories::{LEAF, ONE_LEVEL, WORDS};
use crate::expect::expect;
use crate::setup::{BASE_VALUE, CQB, CQCSR, CQT, DDTP, DEVICE, FENCE, FRAMES, RING};
use iom_base::{AccessKind, Cause};
use iom_iommu::{Begun, Fetched, Iommu, Load, Reply};
use iom_phys_mem::{Bytes, Memory};
use iom_registers::Mmio;
use iom_tlb::Ioatc;
use iom_walks::Walks;
use std::alloc::Global;
use std::process::Abort;

/// What happens, and what is answered.
#[derive(Clone, Copy)]
enum Step<'a> {
    /// A word is stored.
    Store(u64, u64),
    /// The device asks for a read of one byte, or for a write of these.
    Begin(u64, &'a [u8], Begun),
    /// So many times the same, each accepted at once.
    Each(u32, u64),
    /// Its next load.
    Load(Load),
    /// A translated request of it, for a read of one byte.
    Translated(u64, Reply),
    /// The command that waits next, by its two words, is done.
    Does(u32, (u64, u64)),
    /// The oldest access is made, in this frame.
    MadeIn(u32),
    /// What is under way is given up.
    GiveUp,
}

#[derive(Drop)]
struct Bench {
    memory: Memory,
    iommu: Iommu<Ioatc>,
    walks: Walks,
}

impl Bench {
    /// The device is added, its directory has one level, and the command queue is on.
    fn new(rt: &impl Abort, alloc: Global) -> Box<Bench> {
        let cache = Ioatc::new(alloc).expect(rt, "memory for the cache");
        let mut memory = Memory::new(alloc, FRAMES).expect(rt, "memory for the frames");
        for (address, word) in WORDS.iter() {
            expect(rt, memory.store_u64(*address, *word).is_some());
        }
        let mut iommu = Iommu::new(alloc, FRAMES, cache).expect(rt, "memory for the IOMMU");
        let mut walks = Walks::new(alloc).expect(rt, "memory for the rows");
        expect(rt, iommu.add(DEVICE));
        expect(rt, walks.add(DEVICE));
        expect(rt, iommu.write(DDTP, 8, ONE_LEVEL).is_ok());
        expect(rt, iommu.write(CQB, 8, BASE_VALUE).is_ok());
        expect(rt, iommu.write(CQCSR, 4, 1).is_ok());
        let bench = Bench {
            memory,
            iommu,
            walks,
        };
        Box::new(alloc, bench).expect(rt, "memory for the bench")
    }

    fn begin(&mut self, rt: &impl Abort, address: u64, bytes: &[u8]) -> Begun {
        assert!(rt; self.memory.frames() == self.iommu.frames());
        assert!(rt; self.iommu.is_added(DEVICE));
        assert!(rt; self.walks.is_added(DEVICE));
        assert!(rt; self.iommu.so_far() < u64::MAX);
        let (len, kind) = if bytes.is_empty() {
            (1, AccessKind::Read)
        } else {
            (bytes.len() as u64, AccessKind::Write)
        };
        self.iommu.begin(
            &mut self.memory,
            &mut self.walks,
            DEVICE,
            address,
            len,
            kind,
            bytes,
        )
    }

    fn begin_each(&mut self, rt: &impl Abort, times: u32, address: u64) {
        for _ in 0..times {
            let begun = self.begin(rt, address, b"");
            expect(rt, matches!(begun, Begun::Answered(Reply::Accepted(_))));
        }
    }

    fn load(&mut self, rt: &impl Abort) -> Load {
        assert!(rt; self.memory.frames() == self.iommu.frames());
        assert!(rt; self.iommu.is_added(DEVICE));
        assert!(rt; self.iommu.in_flight(DEVICE) < 8);
        assert!(rt; self.iommu.so_far() < u64::MAX);
        self.iommu.load(&mut self.memory, &mut self.walks, DEVICE)
    }

    fn translated(&mut self, rt: &impl Abort, address: u64) -> Reply {
        assert!(rt; self.memory.frames() == self.iommu.frames());
        assert!(rt; self.iommu.is_added(DEVICE));
        assert!(rt; self.iommu.so_far() < u64::MAX);
        self.iommu.translated_beside(
            &mut self.memory,
            &self.walks,
            DEVICE,
            address,
            1,
            AccessKind::Read,
            b"",
        )
    }

    /// The command is stored in this entry of the queue, and fetched.
    fn fetch(&mut self, rt: &impl Abort, index: u32, (first, second): (u64, u64)) -> Fetched {
        let place = RING + 16 * u64::from(index);
        expect(rt, self.memory.store_u64(place, first).is_some());
        expect(rt, self.memory.store_u64(place + 8, second).is_some());
        let tail = u64::from(index).wrapping_add(1);
        expect(rt, self.iommu.write(CQT, 4, tail).is_ok());
        assert!(rt; self.memory.frames() == self.iommu.frames());
        assert!(rt; self.iommu.slots().last() < u64::MAX);
        self.iommu.fetch_beside(&mut self.memory, &mut self.walks)
    }

    fn made_in(&mut self, rt: &impl Abort) -> Option<u32> {
        assert!(rt; self.memory.frames() == self.iommu.frames());
        assert!(rt; self.iommu.is_added(DEVICE));
        let made = self.iommu.commit(&mut self.memory, DEVICE);
        made.map(|made| made.frame)
    }

    fn takes(&mut self, rt: &impl Abort, step: Step) {
        match step {
            Step::Store(address, word) => {
                expect(rt, self.memory.store_u64(address, word).is_some());
            }
            Step::Begin(address, bytes, begun) => {
                expect(rt, self.begin(rt, address, bytes) == begun);
            }
            Step::Each(times, address) => self.begin_each(rt, times, address),
            Step::Load(load) => expect(rt, self.load(rt) == load),
            Step::Translated(address, reply) => expect(rt, self.translated(rt, address) == reply),
            Step::Does(index, words) => {
                let fetched = self.fetch(rt, index, words);
                expect(rt, matches!(fetched, Fetched::Did(_)));
            }
            Step::MadeIn(frame) => expect(rt, self.made_in(rt) == Some(frame)),
            Step::GiveUp => self.walks.give_up(DEVICE),
        }
    }
}

fn follow(rt: &impl Abort, alloc: Global, steps: &[Step]) {
    let mut bench = Bench::new(rt, alloc);
    for step in steps.iter() {
        bench.takes(rt, *step);
    }
}

/// The context is one load, and each of the three tables another. While it is under way a second one is kept out; the
/// next one needs no load. A page that is not valid ends its walk with a fault.
static LOADS: [Step; 14] = [
    Step::Load(Load::Nothing),
    Step::Begin(0x3fff, b"\x11\x22", Begun::Answered(Reply::BadSpan)),
    Step::Begin(0x3010, b"\x11", Begun::Walking),
    Step::Begin(0x3010, b"", Begun::Occupied),
    Step::Load(Load::Loaded),
    Step::Load(Load::Loaded),
    Step::Load(Load::Loaded),
    Step::Load(Load::Ended(Reply::Accepted(1))),
    Step::Load(Load::Nothing),
    Step::MadeIn(32),
    Step::Begin(0x3010, b"", Begun::Answered(Reply::Accepted(2))),
    Step::Begin(0x4000, b"", Begun::Walking),
    Step::Load(Load::Loaded),
    Step::Load(Load::Loaded),
];

/// The rest of these: an invalidation begins the walk anew, at the directory, and a fence doesn't. What is given up
/// isn't answered.
static ANEW: [Step; 15] = [
    Step::Begin(0x3010, b"", Begun::Walking),
    Step::Load(Load::Loaded),
    Step::Load(Load::Loaded),
    Step::Store(LEAF, 0x84d7),
    Step::Does(0, FENCE),
    Step::Does(1, (0x401, 0x1000)),
    Step::Load(Load::Loaded),
    Step::Load(Load::Loaded),
    Step::Load(Load::Loaded),
    Step::Load(Load::Ended(Reply::Accepted(1))),
    Step::MadeIn(33),
    Step::Begin(0x4000, b"", Begun::Walking),
    Step::GiveUp,
    Step::Load(Load::Nothing),
    Step::Does(2, INVALIDATE),
];

/// A walk is one of the eight.
static EIGHT: [Step; 11] = [
    Step::Begin(0x3010, b"", Begun::Walking),
    Step::Load(Load::Loaded),
    Step::Load(Load::Loaded),
    Step::Load(Load::Loaded),
    Step::Load(Load::Ended(Reply::Accepted(1))),
    Step::Each(6, 0x3010),
    Step::Begin(0x4000, b"", Begun::Walking),
    Step::Begin(0x3010, b"", Begun::Answered(Reply::Busy)),
    Step::Translated(0x3010, Reply::Busy),
    Step::Load(Load::Loaded),
    Step::Load(Load::Loaded),
];

/// The last load of the walk that is one of the eight.
static REFUSED: [Step; 4] = [
    Step::Begin(0x4000, b"", Begun::Walking),
    Step::Load(Load::Loaded),
    Step::Load(Load::Loaded),
    Step::Load(Load::Loaded),
];

#[test]
fn a_request_makes_one_load_an_event(rt: HostRuntime) {
    follow(&rt, rt.alloc(), &LOADS);
    follow(&rt, rt.alloc(), &EIGHT);
    let mut bench = Bench::new(&rt, rt.alloc());
    for step in REFUSED.iter() {
        bench.takes(&rt, *step);
    }
    let end = Load::Ended(Reply::Fault(Cause::ReadPageFault));
    bench.takes(&rt, Step::Load(end));
}

#[test]
fn an_invalidation_begins_requests_anew(rt: HostRuntime) {
    follow(&rt, rt.alloc(), &ANEW);
}

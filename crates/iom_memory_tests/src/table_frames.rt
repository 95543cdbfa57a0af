ghost use Rattle.std.specs.Prelude.{◌≡◌, length};

use crate::expect::expect;
use iom_base::{Owner, Rights};
use iom_ledger::Ledger;
use iom_phys_mem::{Bytes, Memory};
use iom_table_frames::TableFrames;
use std::alloc::Global;
use std::process::Abort;

/// How many frames a bench has.
const FRAMES: u32 = 64;

const ONE: Owner = Owner::OneDevice(1);

const TWO: Owner = Owner::OneDevice(2);

/// A memory with no table in it yet, and the ledger of its frames.
#[derive(Drop)]
struct Bench {
    memory: Memory,
    ledger: Ledger,
    tables: TableFrames,
    ghost marked: { length tables ≡ length memory },
}

/// A call, or a look at a word of memory, and what it answers.
#[derive(Clone, Copy)]
enum Step {
    /// The frame is granted to device 1.
    Grant(u32),
    IsReserved(u32, bool),
    HighestFree(u32, Option<u32>, Option<u32>),
    CountFree(u32),
    Take(Owner, Option<u32>, Option<u32>),
    /// So many frames are left, of which each is taken, the highest first.
    TakeEach(u32),
    TakeFour(Owner, Option<u32>),
    GiveBack(Owner),
    /// The first word of the frame.
    Load(u64, u64),
    Store(u64, u64),
}

impl Bench {
    /// Boxed: of what a test owns in place each later proof would carry every part.
    fn new(rt: &impl Abort, alloc: Global) -> Box<Bench> {
        let bench = Bench {
            memory: Memory::new(alloc, FRAMES).expect(rt, "memory for the frames"),
            tables: TableFrames::new(alloc, FRAMES).expect(rt, "memory for the tables"),
            ledger: Ledger::new(alloc, FRAMES).expect(rt, "memory for the ledger"),
        };
        Box::new(alloc, bench).expect(rt, "memory for the bench")
    }

    fn grant(&mut self, frame: u32) -> bool {
        self.ledger.is_vacant(1, 3) && self.ledger.grant(1, 3, frame, Rights::R).is_ok()
    }

    fn highest_free(&self, limit: u32, named: Option<u32>) -> Option<u32> {
        if limit > self.memory.frames() {
            return None;
        }
        self.tables.highest_free(&self.ledger, limit, named)
    }

    fn has_free(&self, count: u32, named: Option<u32>) -> bool {
        let _frames = self.memory.frames();
        self.tables.has_free(&self.ledger, count, named)
    }

    fn count_free(&self) -> u32 {
        let _frames = self.memory.frames();
        self.tables.count_free(&self.ledger)
    }

    fn take(&mut self, owner: Owner, named: Option<u32>) -> Option<u32> {
        self.tables
            .take(&mut self.memory, &self.ledger, owner, named)
    }

    fn take_four(&mut self, owner: Owner) -> Option<u32> {
        self.tables.take_four(&mut self.memory, &self.ledger, owner)
    }

    fn load(&self, frame: u64) -> Option<u64> {
        self.memory.load_u64(frame.checked_mul(4096)?)
    }

    fn store(&mut self, frame: u64, value: u64) -> Option<()> {
        self.memory.store_u64(frame.checked_mul(4096)?, value)
    }

    /// Whether the step is done, or answered so.
    fn effect(&mut self, step: Step) -> bool {
        match step {
            Step::Grant(frame) => self.grant(frame),
            Step::IsReserved(frame, is) => self.tables.is_reserved(frame) == is,
            Step::HighestFree(limit, named, highest) => self.highest_free(limit, named) == highest,
            Step::CountFree(count) => self.count_free() == count,
            Step::Take(owner, named, taken) => self.take(owner, named) == taken,
            Step::TakeEach(left) => self.takes_each(left),
            Step::TakeFour(owner, taken) => self.take_four(owner) == taken,
            Step::GiveBack(owner) => {
                self.tables.give_back(&mut self.memory, owner);
                true
            }
            Step::Load(frame, word) => self.load(frame) == Some(word),
            Step::Store(frame, word) => self.store(frame, word).is_some(),
        }
    }

    /// So many frames are left, and one less where one of them is named. The highest of them is taken.
    fn takes_one(&mut self, left: u32) -> bool {
        let has_as_many = self.has_free(left, None)
            && !self.has_free(left.saturating_add(1), None)
            && !self.has_free(left, Some(0));
        has_as_many && self.take(Owner::System, None) == Some(left.saturating_sub(1))
    }

    fn takes_each(&mut self, left: u32) -> bool {
        for left in (1..left.saturating_add(1)).rev() {
            if !self.takes_one(left) {
                return false;
            }
        }
        true
    }
}

/// A bench that took the steps, one after another.
fn after(rt: &impl Abort, alloc: Global, steps: &[Step]) -> Box<Bench> {
    let mut bench = Bench::new(rt, alloc);
    for step in steps.iter() {
        expect(rt, bench.effect(*step));
    }
    bench
}

fn follow(rt: &impl Abort, alloc: Global, steps: &[Step]) {
    let _bench = after(rt, alloc, steps);
}

/// With 64 frames and one grant of frame 59, tables come from 58 down, and never lie on a fixed frame. Each is
/// zero when it is taken, and what its owner gives back is taken again.
static HIGHEST: [Step; 19] = [
    Step::IsReserved(59, false),
    Step::IsReserved(60, true),
    Step::IsReserved(63, true),
    Step::IsReserved(64, false),
    Step::CountFree(60),
    Step::Grant(59),
    Step::CountFree(59),
    Step::HighestFree(64, None, Some(58)),
    Step::HighestFree(1, Some(0), None),
    Step::Store(58, 7),
    Step::Take(ONE, Some(58), Some(57)),
    Step::Take(TWO, None, Some(58)),
    Step::Load(58, 0),
    Step::Store(57, 7),
    Step::GiveBack(ONE),
    Step::Load(57, 0),
    Step::IsReserved(58, true),
    Step::IsReserved(57, false),
    Step::Take(ONE, None, Some(57)),
];

/// Of 64 frames 4 are fixed, so 60 can be taken.
static ALL: [Step; 2] = [Step::TakeEach(60), Step::Take(Owner::System, None, None)];

/// Of 64 frames 60 to 63 are fixed, and device 1 holds 58: the highest four that are free are 52 to 55. They are
/// zero when they are taken.
static FOUR: [Step; 11] = [
    Step::Grant(58),
    Step::Store(55, 7),
    Step::TakeFour(ONE, Some(52)),
    Step::Load(55, 0),
    Step::IsReserved(52, true),
    Step::IsReserved(53, true),
    Step::IsReserved(54, true),
    Step::IsReserved(55, true),
    Step::IsReserved(51, false),
    Step::IsReserved(56, false),
    Step::TakeFour(ONE, Some(48)),
];

#[test]
fn the_highest_free_frames_are_taken(rt: HostRuntime) {
    follow(&rt, rt.alloc(), &HIGHEST);
    follow(&rt, rt.alloc(), &ALL);
    follow(&rt, rt.alloc(), &FOUR);
}

/// Whether the two are the same once each took its steps.
fn are_same(rt: &impl Abort, alloc: Global, one: &[Step], other: &[Step]) -> bool {
    let one = after(rt, alloc, one);
    let other = after(rt, alloc, other);
    one.tables.is_same(&other.tables)
}

// Table frames are equal where each frame has the same owner.
#[test]
fn owners_are_compared(rt: HostRuntime) {
    let taken = Step::Take(ONE, None, Some(59));
    let given_back = [taken, Step::GiveBack(ONE)];
    expect(&rt, are_same(&rt, rt.alloc(), &[], &given_back));
    expect(&rt, !are_same(&rt, rt.alloc(), &[taken], &given_back));
}

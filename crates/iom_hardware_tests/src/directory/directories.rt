ghost use Rattle.std.specs.Prelude.{◌<◌, ◌^◌, ◌≢◌};
ghost use Rattle.iom_registers.specs.declared.directory.DirectoryMode.TheVariants.{Bare};

use crate::expect::expect;
use iom_base::{Cause, DeviceId};
use iom_device_dir::{FirstStage, locate};
use iom_phys_mem::{Bytes, Memory};
use iom_registers::{DirectoryMode, DirectoryPointer};
use std::alloc::Global;
use std::process::Abort;
use std::test::Fail;

// A memory of 64 frames, boxed: of what a test owns in place each later proof would carry every part.
fn memory_of_64(alloc: Global) -> Result<Box<Memory>, Fail> {
    let memory = Memory::new(alloc, 64)?;
    Ok(Box::new(alloc, memory)?)
}

fn store(rt: &impl Abort, memory: &mut Memory, address: u64, word: u64) {
    expect(rt, memory.store_u64(address, word) == Some(()));
}

// A context of a first stage with its root in this page.
fn store_context(rt: &impl Abort, memory: &mut Memory, address: u64, root: u64)
    requires address { address < 2 ^ 32 }
    requires root { root < 2 ^ 44 }
{
    store(rt, memory, address, 1);
    store(rt, memory, address + 16, 0x1000);
    store(rt, memory, address + 24, 0x8000_0000_0000_0000 + root);
}

// The root of the first stage that the directory gives the device, by this mode and in this page.
fn root_of(memory: &Memory, mode: DirectoryMode, ppn: u64, id: DeviceId) -> Result<u64, Cause>
    requires mode { mode ≢ Bare }
    requires ppn { ppn < 2 ^ 44 }
{
    match locate(memory, DirectoryPointer { mode, ppn }, id)?.first_stage {
        FirstStage::Bare => Ok(0),
        FirstStage::Tables { root, .. } => Ok(root.number()),
    }
}

/// What is stored, and where the paths of ids end then.
#[derive(Clone, Copy)]
enum Step {
    Store(u64, u64),
    /// A context of a first stage at the address, with its root in this page.
    Context(u64, u64),
    /// A context of each id of 7 bits, with its root in a page of its own.
    EachContext,
    EachEnds,
    /// By a mode and in a page the path of the id ends so: at a context with this root, or with this cause.
    Ends(DirectoryMode, u64, DeviceId, Result<u64, Cause>),
}

fn ends(
    memory: &Memory,
    mode: DirectoryMode,
    ppn: u64,
    id: DeviceId,
    want: Result<u64, Cause>,
) -> bool {
    match mode {
        DirectoryMode::Bare => false,
        _ => root_of(memory, mode, ppn % (1 << 44), id) == want,
    }
}

fn store_each(rt: &impl Abort, memory: &mut Memory) {
    for id in 0..128u32 {
        let root = 1000 + u64::from(id);
        store_context(rt, memory, 0x3_c000 + 32 * u64::from(id), root);
    }
}

fn end_each(rt: &impl Abort, memory: &Memory) {
    for id in 0..128u32 {
        let root = Ok(1000 + u64::from(id));
        expect(rt, ends(memory, DirectoryMode::OneLevel, 60, id, root));
    }
}

fn effect(rt: &impl Abort, memory: &mut Memory, step: Step) {
    match step {
        Step::Store(address, word) => store(rt, memory, address, word),
        Step::Context(address, root) => {
            store_context(rt, memory, address % (1 << 32), root % (1 << 44));
        }
        Step::EachContext => store_each(rt, memory),
        Step::EachEnds => end_each(rt, memory),
        Step::Ends(mode, ppn, id, want) => expect(rt, ends(memory, mode, ppn, id, want)),
    }
}

fn takes(rt: &impl Abort, memory: &mut Memory, steps: &[Step]) {
    for step in steps.iter() {
        effect(rt, memory, *step);
    }
}

// A memory of 64 frames takes the steps.
fn follow(rt: &impl Abort, alloc: Global, steps: &[Step]) {
    match memory_of_64(alloc) {
        Ok(mut memory) => takes(rt, &mut memory, steps),
        Err(_) => panic!(rt; "out of memory"),
    }
}

const ONE: DirectoryMode = DirectoryMode::OneLevel;

const TWO: DirectoryMode = DirectoryMode::TwoLevels;

const THREE: DirectoryMode = DirectoryMode::ThreeLevels;

const NOT_VALID: Result<u64, Cause> = Err(Cause::DirectoryEntryNotValid);

const DISALLOWED: Result<u64, Cause> = Err(Cause::TransactionTypeDisallowed);

const MISCONFIGURED: Result<u64, Cause> = Err(Cause::DirectoryEntryMisconfigured);

const OUTSIDE: Result<u64, Cause> = Err(Cause::DirectoryLoadFault);

/// One level: ids have 7 bits. Each has its own context, and an id that is wider has none: not that of its lower
/// bits.
static ONE_LEVEL: [Step; 9] = [
    Step::EachContext,
    Step::EachEnds,
    Step::Ends(ONE, 60, 0x80, DISALLOWED),
    Step::Ends(ONE, 60, 0x81, DISALLOWED),
    Step::Ends(ONE, 60, 0x100, DISALLOWED),
    Step::Ends(ONE, 60, 0x8000, DISALLOWED),
    Step::Ends(ONE, 60, 0x1_0001, DISALLOWED),
    Step::Ends(ONE, 60, 0xff_ffff, DISALLOWED),
    Step::Ends(ONE, 60, u32::MAX, DISALLOWED),
];

/// Two levels: ids have 16 bits, and DDI[1] is bits 15:7. Ids 0001ff, 00ff81 and 00ffff have contexts.
static TWO_LEVELS: [Step; 12] = [
    Step::Store(0x3_c000 + 8 * 3, (58 << 10) + 1),
    Step::Store(0x3_c000 + 8 * 511, (57 << 10) + 1),
    Step::Context(0x3_a000 + 32 * 127, 1),
    Step::Context(0x3_9000 + 32, 2),
    Step::Context(0x3_9000 + 32 * 127, 3),
    Step::Ends(TWO, 60, 0x1ff, Ok(1)),
    Step::Ends(TWO, 60, 0xff81, Ok(2)),
    Step::Ends(TWO, 60, 0xffff, Ok(3)),
    Step::Ends(TWO, 60, 0x1fe, NOT_VALID),
    Step::Ends(TWO, 60, 0x7f, NOT_VALID),
    Step::Ends(TWO, 60, 0x1_01ff, DISALLOWED),
    Step::Ends(TWO, 60, 0x100_ffff, DISALLOWED),
];

/// Three levels: ids have 24 bits, and DDI[2] is bits 23:16. Of ffffff the indices are 255, 511, 127; of 018080
/// they are 1, 257, 0. Its own index at each level: the same numbers in another order lead elsewhere.
static THREE_LEVELS: [Step; 12] = [
    Step::Store(0x3_c000 + 8 * 255, (58 << 10) + 1),
    Step::Store(0x3_a000 + 8 * 511, (57 << 10) + 1),
    Step::Context(0x3_9000 + 32 * 127, 4089),
    Step::Store(0x3_c000 + 8, (56 << 10) + 1),
    Step::Store(0x3_8000 + 8 * 257, (55 << 10) + 1),
    Step::Context(0x3_7000, 5),
    Step::Ends(THREE, 60, 0xff_ffff, Ok(4089)),
    Step::Ends(THREE, 60, 0x01_8080, Ok(5)),
    Step::Ends(THREE, 60, 0x01_8081, NOT_VALID),
    Step::Ends(THREE, 60, 0x01_0081, NOT_VALID),
    Step::Ends(THREE, 60, 0x101_8080, DISALLOWED),
    Step::Ends(THREE, 60, u32::MAX, DISALLOWED),
];

/// Off: whatever is in memory. A root outside memory. A context with a reserved bit.
static AT_THE_ROOT: [Step; 6] = [
    Step::Context(0x3_c000, 1),
    Step::Ends(DirectoryMode::Off, 60, 0, Err(Cause::AllInboundDisallowed)),
    Step::Ends(ONE, 64, 0, OUTSIDE),
    Step::Ends(THREE, 0xfff_ffff_ffff, 0, OUTSIDE),
    Step::Store(0x3_c010, 0x1001),
    Step::Ends(ONE, 60, 0, MISCONFIGURED),
];

/// An entry that names a page outside memory; one with a reserved bit; one that isn't valid.
static AT_AN_ENTRY: [Step; 11] = [
    Step::Context(0x3_c000, 1),
    Step::Store(0x3_b000, (60 << 10) + 1),
    Step::Ends(TWO, 59, 0, Ok(1)),
    Step::Store(0x3_b000, (64 << 10) + 1),
    Step::Ends(TWO, 59, 0, OUTSIDE),
    Step::Store(0x3_b000, (60 << 10) + 3),
    Step::Ends(TWO, 59, 0, MISCONFIGURED),
    Step::Store(0x3_b000, (60 << 10) + 2),
    Step::Ends(TWO, 59, 0, NOT_VALID),
    Step::Store(0x3_b000, (1 << 54) + (60 << 10) + 1),
    Step::Ends(TWO, 59, 0, MISCONFIGURED),
];

#[test]
fn directories_lead_to_contexts(rt: HostRuntime) {
    follow(&rt, rt.alloc(), &ONE_LEVEL);
    follow(&rt, rt.alloc(), &TWO_LEVELS);
    follow(&rt, rt.alloc(), &THREE_LEVELS);
    follow(&rt, rt.alloc(), &AT_THE_ROOT);
    follow(&rt, rt.alloc(), &AT_AN_ENTRY);
}

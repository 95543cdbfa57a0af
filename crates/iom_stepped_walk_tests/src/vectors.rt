// Translations that independent implementations confirmed, an emulated processor's page walk and an emulated RISC-V IOMMU:
// the same cases as in the data of `iom_worked`, two dozen of them, each made load by load.
ghost use Rattle.std.specs.Prelude.{◌≢◌};
ghost use Rattle.iom_registers.specs.declared.directory.DirectoryMode.TheVariants.{Bare};

use crate::expect::expect;
use iom_base::{AccessKind, Cause, DeviceId, PAGE_SIZE, Ppn};
use iom_device_dir::{Context, FirstStage, SecondStage};
use iom_phys_mem::{Bytes, Memory};
use iom_registers::{DirectoryMode, DirectoryPointer};
use iom_stage_walk::{WalkFault, Walked};
use iom_stepped_walk::{DirectoryWalk, Locating, Progress, TableWalk};
use std::alloc::Global;
use std::process::Abort;

/// The answer that is wanted: the physical address of the access, or a cause and the fourth word of its record.
#[derive(Clone, Copy)]
enum Want {
    At(u64),
    Fault(u16, u64),
}

/// A translation.
#[derive(Clone, Copy)]
struct Case {
    mode: DirectoryMode,
    root: u64,
    device: DeviceId,
    address: u64,
    kind: AccessKind,
    want: Want,
}

/// The context that is found for the device, load by load.
fn located(rt: &impl Abort, memory: &Memory, case: Case) -> Result<Context, Cause> {
    let root = Ppn::new(case.root).expect(rt, "44 bits");
    if case.mode == DirectoryMode::Bare {
        panic!(rt; "a walk of no directory");
    }
    let ddtp = DirectoryPointer {
        mode: case.mode,
        ppn: root.number(),
    };
    let mut locating = DirectoryWalk::begin(ddtp, case.device);
    for _load in 0..4 {
        match locating {
            Locating::GoesOn(walk) => locating = walk.load(memory),
            Locating::Ended(found) => return found,
        }
    }
    panic!(rt; "more than three loads in the directory")
}

/// Where the walk begins in tables, by the stages of the context.
fn begun(rt: &impl Abort, context: Context, case: Case) -> Progress {
    let (address, kind) = (case.address, case.kind);
    match (context.first_stage, context.second_stage) {
        (FirstStage::Bare, SecondStage::Bare) => panic!(rt; "a walk of no stage"),
        (FirstStage::Tables { size, root }, SecondStage::Bare) => {
            TableWalk::begin_first(size, root, address, kind)
        }
        (FirstStage::Bare, SecondStage::Tables { size, root }) => {
            let root = Ppn::new(root.number()).expect(rt, "44 bits");
            TableWalk::begin_second(size, root, address, kind)
        }
        (
            FirstStage::Tables { size, root },
            SecondStage::Tables {
                size: second_size,
                root: second,
            },
        ) => {
            let second = Ppn::new(second.number()).expect(rt, "44 bits");
            TableWalk::begin_both(size, root, second_size, second, address, kind)
        }
    }
}

/// How the walk ends, load by load.
fn ended(rt: &impl Abort, memory: &Memory, begun: Progress) -> Result<Walked, WalkFault> {
    let mut progress = begun;
    for _load in 0..25 {
        match progress {
            Progress::GoesOn(walk) => progress = walk.load(memory),
            Progress::Ended(answer) => return answer,
        }
    }
    panic!(rt; "more than 24 loads of tables")
}

/// What is wanted of a fault: its cause, and the guest physical address but for bits 1:0, in whose place bit 0 is set where
/// the walk's own read failed (IOMMU specification, section 3.2).
fn is_told(fault: WalkFault, code: u16, word: u64) -> bool {
    fault.cause.code() == code && fault.gpa / 4 * 4 + u64::from(fault.implicit) == word
}

fn is_wanted(answer: Result<Walked, WalkFault>, case: Case) -> bool {
    match (answer, case.want) {
        (Ok(walked), Want::At(place)) => {
            PAGE_SIZE * u64::from(walked.frame) + case.address % PAGE_SIZE == place
        }
        (Err(fault), Want::Fault(code, word)) => is_told(fault, code, word),
        _ => false,
    }
}

fn store(rt: &impl Abort, memory: &mut Memory, words: &[(u64, u64)]) {
    for (address, word) in words.iter() {
        expect(rt, memory.store_u64(*address, *word).is_some());
    }
}

/// The case is answered so, in a memory of 2,048 frames with these words and zero else.
fn is_answered(rt: &impl Abort, alloc: Global, case: Case, words: &[(u64, u64)]) {
    let mut memory = Memory::new(alloc, 2048).expect(rt, "memory for the frames");
    store(rt, &mut memory, words);
    let is_right = match located(rt, &memory, case) {
        Ok(context) => is_wanted(ended(rt, &memory, begun(rt, context, case)), case),
        Err(cause) => match case.want {
            Want::At(_) => false,
            Want::Fault(code, word) => cause.code() == code && word == 0,
        },
    };
    expect(rt, is_right);
}

/// A first stage, Sv39 and Sv48.
#[test]
fn first_walks_answer_load_by_load(rt: HostRuntime) {
    // first: leaf flags, level 0: VRWXU-A-
    is_answered(
        &rt,
        rt.alloc(),
        Case {
            mode: DirectoryMode::OneLevel,
            root: 0x10,
            device: 0x10,
            address: 0x3010,
            kind: AccessKind::Read,
            want: Want::At(0x20010),
        },
        &[
            (0x10200, 0x1),
            (0x10208, 0x0),
            (0x10210, 0x1000),
            (0x10218, 0x8000000000000011),
            (0x11000, 0x4801),
            (0x12000, 0x4c01),
            (0x13018, 0x805f),
        ],
    );
    // first: leaf flags, level 0: VRW-----
    is_answered(
        &rt,
        rt.alloc(),
        Case {
            mode: DirectoryMode::OneLevel,
            root: 0x10,
            device: 0x10,
            address: 0x3010,
            kind: AccessKind::Write,
            want: Want::Fault(15, 0x0),
        },
        &[
            (0x10200, 0x1),
            (0x10208, 0x0),
            (0x10210, 0x1000),
            (0x10218, 0x8000000000000011),
            (0x11000, 0x4801),
            (0x12000, 0x4c01),
            (0x13018, 0x8007),
        ],
    );
    // first: leaf flags, level 1: VR--U-A-
    is_answered(
        &rt,
        rt.alloc(),
        Case {
            mode: DirectoryMode::OneLevel,
            root: 0x10,
            device: 0x10,
            address: 0x203010,
            kind: AccessKind::Read,
            want: Want::At(0x203010),
        },
        &[
            (0x10200, 0x1),
            (0x10208, 0x0),
            (0x10210, 0x1000),
            (0x10218, 0x8000000000000011),
            (0x11000, 0x4801),
            (0x12008, 0x80053),
        ],
    );
    // first: misaligned superpage: level 1 ppn bit 1
    is_answered(
        &rt,
        rt.alloc(),
        Case {
            mode: DirectoryMode::OneLevel,
            root: 0x10,
            device: 0x10,
            address: 0x203010,
            kind: AccessKind::Write,
            want: Want::Fault(15, 0x0),
        },
        &[
            (0x10200, 0x1),
            (0x10208, 0x0),
            (0x10210, 0x1000),
            (0x10218, 0x8000000000000011),
            (0x11000, 0x4801),
            (0x12008, 0x808d7),
        ],
    );
    // first: outside memory: level 1 table
    is_answered(
        &rt,
        rt.alloc(),
        Case {
            mode: DirectoryMode::OneLevel,
            root: 0x10,
            device: 0x10,
            address: 0x3010,
            kind: AccessKind::Read,
            want: Want::Fault(5, 0x0),
        },
        &[
            (0x10200, 0x1),
            (0x10208, 0x0),
            (0x10210, 0x1000),
            (0x10218, 0x8000000000000011),
            (0x11000, 0x240001),
            (0x12000, 0x4c01),
            (0x13018, 0x80d7),
        ],
    );
    // first: hole: level 2
    is_answered(
        &rt,
        rt.alloc(),
        Case {
            mode: DirectoryMode::OneLevel,
            root: 0x10,
            device: 0x10,
            address: 0x3010,
            kind: AccessKind::Read,
            want: Want::Fault(13, 0x0),
        },
        &[
            (0x10200, 0x1),
            (0x10208, 0x0),
            (0x10210, 0x1000),
            (0x10218, 0x8000000000000011),
            (0x11000, 0x0),
            (0x12000, 0x4c01),
            (0x13018, 0x80d7),
        ],
    );
    // first48: path: leaf at level 0, 0.0.0.3, VRW-U-AD
    is_answered(
        &rt,
        rt.alloc(),
        Case {
            mode: DirectoryMode::OneLevel,
            root: 0x10,
            device: 0x10,
            address: 0x3010,
            kind: AccessKind::Write,
            want: Want::At(0x23010),
        },
        &[
            (0x400000, 0x100401),
            (0x401000, 0x100801),
            (0x402000, 0x100c01),
            (0x403018, 0x8cd7),
            (0x10200, 0x1),
            (0x10208, 0x0),
            (0x10210, 0x1000),
            (0x10218, 0x9000000000000400),
        ],
    );
    // first48: pointer at the last level: V-------
    is_answered(
        &rt,
        rt.alloc(),
        Case {
            mode: DirectoryMode::OneLevel,
            root: 0x10,
            device: 0x10,
            address: 0x3010,
            kind: AccessKind::Read,
            want: Want::Fault(13, 0x0),
        },
        &[
            (0x400000, 0x100401),
            (0x401000, 0x100801),
            (0x402000, 0x100c01),
            (0x403018, 0x8c01),
            (0x10200, 0x1),
            (0x10208, 0x0),
            (0x10210, 0x1000),
            (0x10218, 0x9000000000000400),
        ],
    );
}

/// A second stage, Sv39x4 and Sv48x4.
#[test]
fn second_walks_answer_load_by_load(rt: HostRuntime) {
    // second: leaf flags, level 0: VRW-U-A-
    is_answered(
        &rt,
        rt.alloc(),
        Case {
            mode: DirectoryMode::OneLevel,
            root: 0x10,
            device: 0x10,
            address: 0x3010,
            kind: AccessKind::Read,
            want: Want::At(0x20010),
        },
        &[
            (0x10200, 0x1),
            (0x10208, 0x8000100000000030),
            (0x10210, 0x1000),
            (0x10218, 0x0),
            (0x30000, 0xd001),
            (0x34000, 0xd401),
            (0x35018, 0x8057),
        ],
    );
    // second: misaligned superpage: level 1 ppn bit 1
    is_answered(
        &rt,
        rt.alloc(),
        Case {
            mode: DirectoryMode::OneLevel,
            root: 0x10,
            device: 0x10,
            address: 0x203010,
            kind: AccessKind::Read,
            want: Want::Fault(21, 0x203010),
        },
        &[
            (0x10200, 0x1),
            (0x10208, 0x8000100000000030),
            (0x10210, 0x1000),
            (0x10218, 0x0),
            (0x30000, 0xd001),
            (0x34008, 0x808d7),
        ],
    );
    // second: address: 0x20000000000
    is_answered(
        &rt,
        rt.alloc(),
        Case {
            mode: DirectoryMode::OneLevel,
            root: 0x10,
            device: 0x10,
            address: 0x20000000000,
            kind: AccessKind::Read,
            want: Want::Fault(21, 0x20000000000),
        },
        &[
            (0x10200, 0x1),
            (0x10208, 0x8000100000000030),
            (0x10210, 0x1000),
            (0x10218, 0x0),
            (0x30000, 0xd001),
            (0x34000, 0xd401),
            (0x35000, 0x80d7),
        ],
    );
    // second48: root index: 511 among its neighbours
    is_answered(
        &rt,
        rt.alloc(),
        Case {
            mode: DirectoryMode::OneLevel,
            root: 0x10,
            device: 0x10,
            address: 0xff8040403010,
            kind: AccessKind::Write,
            want: Want::At(0x23010),
        },
        &[
            (0x400ff8, 0x101001),
            (0x404008, 0x101401),
            (0x405010, 0x101801),
            (0x406018, 0x8cd7),
            (0x401ff8, 0x101c01),
            (0x407008, 0x102001),
            (0x408010, 0x102401),
            (0x409018, 0xa4d7),
            (0x402ff8, 0x102801),
            (0x40a008, 0x102c01),
            (0x40b010, 0x103001),
            (0x40c018, 0xa8d7),
            (0x10200, 0x1),
            (0x10208, 0x9000100000000400),
            (0x10210, 0x1000),
            (0x10218, 0x0),
        ],
    );
}

/// Both stages, of the same size and of different ones.
#[test]
fn both_walks_answer_load_by_load(rt: HostRuntime) {
    // both: first leaf flags: VR--U-A-
    is_answered(
        &rt,
        rt.alloc(),
        Case {
            mode: DirectoryMode::OneLevel,
            root: 0x10,
            device: 0x10,
            address: 0x3010,
            kind: AccessKind::Read,
            want: Want::At(0x20010),
        },
        &[
            (0x10200, 0x1),
            (0x10208, 0x8000100000000030),
            (0x10210, 0x1000),
            (0x10218, 0x8000000000000000),
            (0x40000, 0x401),
            (0x41000, 0x801),
            (0x42018, 0x2453),
            (0x30000, 0xd001),
            (0x34000, 0xd401),
            (0x35000, 0x100d7),
            (0x35008, 0x104d7),
            (0x35010, 0x108d7),
            (0x35048, 0x80d7),
        ],
    );
    // both: second leaf flags of the guest tables: --------
    is_answered(
        &rt,
        rt.alloc(),
        Case {
            mode: DirectoryMode::OneLevel,
            root: 0x10,
            device: 0x10,
            address: 0x3010,
            kind: AccessKind::Read,
            want: Want::Fault(21, 0x1),
        },
        &[
            (0x10200, 0x1),
            (0x10208, 0x8000100000000030),
            (0x10210, 0x1000),
            (0x10218, 0x8000000000000000),
            (0x40000, 0x401),
            (0x41000, 0x801),
            (0x42018, 0x24d7),
            (0x30000, 0xd001),
            (0x34000, 0xd401),
            (0x35000, 0x10000),
            (0x35008, 0x10400),
            (0x35010, 0x10800),
            (0x35048, 0x80d7),
        ],
    );
    // both: guest page missing: level 1 table
    is_answered(
        &rt,
        rt.alloc(),
        Case {
            mode: DirectoryMode::OneLevel,
            root: 0x10,
            device: 0x10,
            address: 0x3010,
            kind: AccessKind::Read,
            want: Want::Fault(21, 0x1001),
        },
        &[
            (0x10200, 0x1),
            (0x10208, 0x8000100000000030),
            (0x10210, 0x1000),
            (0x10218, 0x8000000000000000),
            (0x40000, 0x401),
            (0x41000, 0x801),
            (0x42018, 0x24d7),
            (0x30000, 0xd001),
            (0x34000, 0xd401),
            (0x35000, 0x100d7),
            (0x35010, 0x108d7),
            (0x35048, 0x80d7),
        ],
    );
    // both: superpage: first 1 GiB, second 4 KiB
    is_answered(
        &rt,
        rt.alloc(),
        Case {
            mode: DirectoryMode::OneLevel,
            root: 0x10,
            device: 0x10,
            address: 0x9010,
            kind: AccessKind::Read,
            want: Want::At(0x20010),
        },
        &[
            (0x10200, 0x1),
            (0x10208, 0x8000100000000030),
            (0x10210, 0x1000),
            (0x10218, 0x8000000000000000),
            (0x40000, 0xd7),
            (0x30000, 0xd001),
            (0x34000, 0xd401),
            (0x35000, 0x100d7),
            (0x35008, 0x104d7),
            (0x35010, 0x108d7),
            (0x35048, 0x80d7),
        ],
    );
    // both: rights: first VR--U-A- second VR--U-A-
    is_answered(
        &rt,
        rt.alloc(),
        Case {
            mode: DirectoryMode::OneLevel,
            root: 0x10,
            device: 0x10,
            address: 0x3010,
            kind: AccessKind::Read,
            want: Want::At(0x20010),
        },
        &[
            (0x10200, 0x1),
            (0x10208, 0x8000100000000030),
            (0x10210, 0x1000),
            (0x10218, 0x8000000000000000),
            (0x40000, 0x401),
            (0x41000, 0x801),
            (0x42018, 0x2453),
            (0x30000, 0xd001),
            (0x34000, 0xd401),
            (0x35000, 0x100d7),
            (0x35008, 0x104d7),
            (0x35010, 0x108d7),
            (0x35048, 0x8053),
        ],
    );
    // both 48/48x4: path: levels first 0, final 0, tables 1
    is_answered(
        &rt,
        rt.alloc(),
        Case {
            mode: DirectoryMode::OneLevel,
            root: 0x10,
            device: 0x10,
            address: 0xffff800000000800,
            kind: AccessKind::Read,
            want: Want::At(0x23800),
        },
        &[
            (0x404800, 0x181401),
            (0x405000, 0x201801),
            (0x406000, 0x281c01),
            (0x407000, 0x7fe0400820d7),
            (0x400000, 0x102001),
            (0x408000, 0x102401),
            (0x409010, 0x1000d7),
            (0x409018, 0x1000d7),
            (0x409020, 0x1000d7),
            (0x409028, 0x1000d7),
            (0x401ff8, 0x102801),
            (0x40a020, 0x102c01),
            (0x40b008, 0x103001),
            (0x40c040, 0x8cd7),
            (0x10200, 0x1),
            (0x10208, 0x9000100000000400),
            (0x10210, 0x1000),
            (0x10218, 0x9000000000000404),
        ],
    );
    // both 39/48x4: entry addresses: 0.0.0, table of level 2 missing
    is_answered(
        &rt,
        rt.alloc(),
        Case {
            mode: DirectoryMode::OneLevel,
            root: 0x10,
            device: 0x10,
            address: 0x10,
            kind: AccessKind::Read,
            want: Want::Fault(21, 0x3fffffffff001),
        },
        &[
            (0x404000, 0xffdffffffc01),
            (0x405000, 0xffbffffffc01),
            (0x406000, 0x120100814d7),
            (0x403ff0, 0x101c01),
            (0x407ff8, 0x102001),
            (0x408ff8, 0x102401),
            (0x409ff8, 0x1014d7),
            (0x403fe8, 0x102801),
            (0x40aff8, 0x102c01),
            (0x40bff8, 0x103001),
            (0x40cff8, 0x1018d7),
            (0x400048, 0x103401),
            (0x40d008, 0x103801),
            (0x40e008, 0x103c01),
            (0x40f028, 0x80d7),
            (0x10200, 0x1),
            (0x10208, 0x9000100000000400),
            (0x10210, 0x1000),
            (0x10218, 0x8000003fffffffff),
        ],
    );
    // both 48/39x4: first-stage superpage: level 1 ppn bit 4 turned
    is_answered(
        &rt,
        rt.alloc(),
        Case {
            mode: DirectoryMode::OneLevel,
            root: 0x10,
            device: 0x10,
            address: 0xffff8080bfc05010,
            kind: AccessKind::Read,
            want: Want::Fault(13, 0x0),
        },
        &[
            (0x404808, 0x401),
            (0x405010, 0x801),
            (0x406ff0, 0x900840d7),
            (0x400000, 0x102001),
            (0x408000, 0x102401),
            (0x409000, 0x1010d7),
            (0x409008, 0x1014d7),
            (0x409010, 0x1018d7),
            (0x409018, 0x101cd7),
            (0x400048, 0x102801),
            (0x40a008, 0x102c01),
            (0x40b028, 0x80d7),
            (0x10200, 0x1),
            (0x10208, 0x8000100000000400),
            (0x10210, 0x1000),
            (0x10218, 0x9000000000000000),
        ],
    );
}

/// Directories of one level, two and three.
#[test]
fn directory_walks_answer_load_by_load(rt: HostRuntime) {
    // directory: 1LVL width: id 000080
    is_answered(
        &rt,
        rt.alloc(),
        Case {
            mode: DirectoryMode::OneLevel,
            root: 0x10,
            device: 0x80,
            address: 0x3010,
            kind: AccessKind::Read,
            want: Want::Fault(260, 0x0),
        },
        &[
            (0x10000, 0x1),
            (0x10008, 0x0),
            (0x10010, 0x1000),
            (0x10018, 0x8000000000000011),
            (0x11000, 0x4801),
            (0x12000, 0x4c01),
            (0x13018, 0x80d7),
        ],
    );
    // directory: 2LVL: id 000010 there
    is_answered(
        &rt,
        rt.alloc(),
        Case {
            mode: DirectoryMode::TwoLevels,
            root: 0x10,
            device: 0x10,
            address: 0x3010,
            kind: AccessKind::Read,
            want: Want::At(0x20010),
        },
        &[
            (0x10000, 0x5401),
            (0x15200, 0x1),
            (0x15208, 0x0),
            (0x15210, 0x1000),
            (0x15218, 0x8000000000000011),
            (0x11000, 0x4801),
            (0x12000, 0x4c01),
            (0x13018, 0x80d7),
        ],
    );
    // directory: 3LVL: id 000010 there
    is_answered(
        &rt,
        rt.alloc(),
        Case {
            mode: DirectoryMode::ThreeLevels,
            root: 0x10,
            device: 0x10,
            address: 0x3010,
            kind: AccessKind::Read,
            want: Want::At(0x20010),
        },
        &[
            (0x10000, 0x5001),
            (0x14000, 0x5401),
            (0x15200, 0x1),
            (0x15208, 0x0),
            (0x15210, 0x1000),
            (0x15218, 0x8000000000000011),
            (0x11000, 0x4801),
            (0x12000, 0x4c01),
            (0x13018, 0x80d7),
        ],
    );
    // directory: 3LVL: id 000010 lower entry V=0
    is_answered(
        &rt,
        rt.alloc(),
        Case {
            mode: DirectoryMode::ThreeLevels,
            root: 0x10,
            device: 0x10,
            address: 0x3010,
            kind: AccessKind::Read,
            want: Want::Fault(258, 0x0),
        },
        &[
            (0x10000, 0x5001),
            (0x14000, 0x5400),
            (0x15200, 0x1),
            (0x15208, 0x0),
            (0x15210, 0x1000),
            (0x15218, 0x8000000000000011),
            (0x11000, 0x4801),
            (0x12000, 0x4c01),
            (0x13018, 0x80d7),
        ],
    );
    // directory: 3LVL: id 000010 lower entry outside
    is_answered(
        &rt,
        rt.alloc(),
        Case {
            mode: DirectoryMode::ThreeLevels,
            root: 0x10,
            device: 0x10,
            address: 0x3010,
            kind: AccessKind::Read,
            want: Want::Fault(257, 0x0),
        },
        &[
            (0x10000, 0x5001),
            (0x14000, 0x240001),
            (0x15200, 0x1),
            (0x15208, 0x0),
            (0x15210, 0x1000),
            (0x15218, 0x8000000000000011),
            (0x11000, 0x4801),
            (0x12000, 0x4c01),
            (0x13018, 0x80d7),
        ],
    );
}

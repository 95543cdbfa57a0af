use crate::block::bench::Bench;
use crate::shown::Seen;
use iom_virtqueue::ChainFault;
use std::process::Abort;

/// A chain in which a fault stands.
struct Case {
    /// The descriptor at index 2, of a buffer at 0x1000 of so many bytes: its flags and what follows it.
    len: u32,
    flags: u8,
    next: u16,
    /// The available idx, and the first entry of the ring.
    idx: u16,
    entry: u16,
    /// What is named, after so many accesses.
    fault: ChainFault,
    accesses: u16,
}

/// A descriptor that names itself.
const LOOPED: Case = Case {
    len: 16,
    flags: 1,
    next: 2,
    idx: 1,
    entry: 2,
    fault: ChainFault::Loop,
    accesses: 3,
};

static CASES: [Case; 8] = [
    LOOPED,
    Case {
        idx: 5,
        fault: ChainFault::BadIndex,
        accesses: 1,
        ..LOOPED
    },
    Case {
        entry: 4,
        fault: ChainFault::BadIndex,
        accesses: 2,
        ..LOOPED
    },
    Case {
        next: 4,
        fault: ChainFault::BadIndex,
        ..LOOPED
    },
    Case {
        flags: 4,
        next: 0,
        fault: ChainFault::Indirect,
        ..LOOPED
    },
    Case {
        len: 0x10_0001,
        flags: 0,
        next: 0,
        fault: ChainFault::TooLong,
        ..LOOPED
    },
    Case {
        flags: 0,
        next: 0,
        fault: ChainFault::Short,
        ..LOOPED
    },
    // Index 1 follows, which is readable.
    Case {
        flags: 3,
        next: 1,
        fault: ChainFault::Order,
        accesses: 4,
        ..LOOPED
    },
];

fn puts(rt: &impl Abort, bench: &mut Bench, case: &Case) {
    bench.memory.poke_descriptor(rt, 1, 0x1000, 16, 0, 0);
    bench
        .memory
        .poke_descriptor(rt, 2, 0x1000, 0, case.flags, case.next);
    bench.memory.poke(rt, 0x28, &case.len.to_le_bytes());
    bench.memory.poke_half(rt, 0x102, case.idx);
    bench.memory.poke_half(rt, 0x104, case.entry);
}

// So many accesses are made before the fault is named. Then the device is down, and the used ring as it was.
fn names(rt: &impl Abort, bench: &mut Bench, fault: ChainFault, accesses: u16) {
    for _ in 0..accesses {
        bench.reads(rt);
    }
    bench.turns(rt, Seen::Chain(fault));
    bench.expect_status(rt, 79);
    bench.turns(rt, Seen::Down);
    bench.memory.expect_half(rt, 0x202, 0);
}

// The first fault that stands in a chain is named before anything else is read.
#[test]
fn faults_have_names(rt: HostRuntime) {
    for case in CASES.iter() {
        let mut bench = Bench::new(&rt, rt.alloc(), 4, 0);
        puts(&rt, &mut bench, case);
        names(&rt, &mut bench, case.fault, case.accesses);
    }
}

use crate::bench::{Run, Start, Step, follow};
use crate::expect::expect;
use iom_driver::Driver;
use iom_phys_mem::MemError;
use iom_registers::Register;
use std::alloc::Global;
use std::process::Abort;

/// What a start writes.
static RUNS: [Run; 3] = [
    // A start writes ddtp, cqb, cqcsr, fqb and fqcsr, in this order, and nothing else.
    (
        "five registers are written in order",
        Start::Usual,
        &[Step::Writes(&[
            None,
            Some(Register::Ddtp),
            Some(Register::Cqb),
            Some(Register::Cqcsr),
            Some(Register::Fqb),
            Some(Register::Fqcsr),
        ])],
    ),
    // With 64 frames and one level the directory's root is page 60, the queue of 256 commands fills page 63, and
    // that of 128 fault records page 62; both are on.
    (
        "the registers name the fixed frames",
        Start::Usual,
        &[
            Step::Register(Register::Ddtp, 0xf002),
            Step::Register(Register::Cqb, 0xfc07),
            Step::Register(Register::Cqcsr, 0x10001),
            Step::Register(Register::Fqb, 0xf806),
            Step::Register(Register::Fqcsr, 0x10001),
        ],
    ),
    // The completion word and the root of the directory are zero, and no ticket waits.
    (
        "nothing waits after a start",
        Start::Usual,
        &[
            Step::Words(0x3d000, &[0]),
            Step::Words(0x3c000, &[0]),
            Step::Register(Register::Cqh, 0),
            Step::Register(Register::Cqt, 0),
            Step::Pending(0),
        ],
    ),
];

// Each step is answered as its run says.
#[test]
fn a_start_writes_registers(rt: HostRuntime) {
    follow(&rt, rt.alloc(), &RUNS);
}

fn is_bad(rt: &impl Abort, alloc: Global, frames: u32, levels: u8) {
    let made = Driver::new(alloc, frames, levels);
    expect(rt, matches!(made, Err(MemError::BadSize)));
}

// Sizes that there aren't.
#[test]
fn bad_sizes_are_told(rt: HostRuntime) {
    is_bad(&rt, rt.alloc(), 63, 1);
    is_bad(&rt, rt.alloc(), 4097, 1);
    is_bad(&rt, rt.alloc(), 64, 0);
    is_bad(&rt, rt.alloc(), 64, 4);
}

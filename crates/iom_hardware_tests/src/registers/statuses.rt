use crate::expect::expect;
use crate::registers::steps::{Step, follow, take};
use iom_registers::Registers;
use std::process::Abort;

// An illegal command, on with interrupts: the interrupt is 1 again at once where it is cleared before the
// bit, and stays where it isn't cleared.
static ILLEGAL: [(Step, u64, u64); 11] = [
    (Step::Write(24, 0xfc07), 24, 0xfc07),
    (Step::Write(72, 3), 72, 0x0001_0003),
    (Step::Write(36, 1), 36, 1),
    (Step::CmdIll, 72, 0x0001_0403),
    (Step::Look, 32, 0),
    (Step::Look, 84, 1),
    (Step::Write(84, 3), 84, 1),
    (Step::Write(72, 0x403), 72, 0x0001_0003),
    (Step::Look, 84, 1),
    (Step::Write(84, 2), 84, 1),
    (Step::Write(84, 1), 84, 0),
];

// Each of the other bits of cqcsr the same, and that a write of 1 clears its bit alone.
static ERRORS: [(Step, u64, u64); 18] = [
    (Step::Write(72, 3), 72, 0x0001_0003),
    (Step::Cqmf, 84, 1),
    (Step::Write(84, 1), 84, 1),
    (Step::CmdTo, 72, 0x0001_0303),
    (Step::Write(72, 0x103), 72, 0x0001_0203),
    (Step::Write(84, 1), 84, 1),
    (Step::FenceWIp, 72, 0x0001_0a03),
    (Step::Write(72, 0x203), 72, 0x0001_0803),
    (Step::Write(84, 1), 84, 1),
    (Step::Cqmf, 72, 0x0001_0903),
    (Step::Write(72, 0x803), 72, 0x0001_0103),
    (Step::CmdIll, 72, 0x0001_0503),
    (Step::CmdTo, 72, 0x0001_0703),
    (Step::FenceWIp, 72, 0x0001_0f03),
    (Step::Write(72, 0x403), 72, 0x0001_0b03),
    (Step::Write(72, 3), 72, 0x0001_0b03),
    (Step::Write(72, 0xf03), 72, 0x0001_0003),
    (Step::Write(84, 1), 84, 0),
];

// Without interrupts the bits alone are set, and cip where interrupts are enabled then. Turned off, the bits
// stay, and a write of 1 clears them; turned on, all are cleared.
static QUIET: [(Step, u64, u64); 14] = [
    (Step::Write(72, 1), 72, 0x0001_0001),
    (Step::CmdTo, 72, 0x0001_0201),
    (Step::FenceWIp, 72, 0x0001_0a01),
    (Step::Look, 84, 0),
    (Step::Write(72, 0), 72, 0xa00),
    (Step::Write(72, 0x200), 72, 0x800),
    (Step::Look, 84, 0),
    (Step::Write(72, 2), 72, 0x802),
    (Step::Look, 84, 1),
    (Step::Cqmf, 72, 0x902),
    (Step::CmdIll, 72, 0xd02),
    (Step::CmdTo, 72, 0xf02),
    (Step::Write(72, 1), 72, 0x0001_0001),
    (Step::Look, 84, 1),
];

// The fault queue in the same way. A record sets fip where fie is 1, and it isn't 1 again once cleared.
static FAULTS: [(Step, u64, u64); 22] = [
    (Step::Write(76, 1), 76, 0x0001_0001),
    (Step::RecordWritten, 84, 0),
    (Step::Write(76, 3), 76, 0x0001_0003),
    (Step::Look, 84, 0),
    (Step::RecordWritten, 84, 2),
    (Step::Write(84, 1), 84, 2),
    (Step::Write(84, 2), 84, 0),
    (Step::Fqof, 76, 0x0001_0203),
    (Step::Write(84, 3), 84, 2),
    (Step::Fqmf, 76, 0x0001_0303),
    (Step::Write(76, 0x203), 76, 0x0001_0103),
    (Step::Write(84, 3), 84, 2),
    (Step::Write(76, 0x103), 76, 0x0001_0003),
    (Step::Write(84, 3), 84, 0),
    (Step::Write(76, 1), 76, 0x0001_0001),
    (Step::Fqmf, 76, 0x0001_0101),
    (Step::Fqof, 84, 0),
    (Step::Write(76, 0), 76, 0x300),
    (Step::Write(76, 0x100), 76, 0x200),
    (Step::Fqmf, 76, 0x300),
    (Step::Write(76, 1), 76, 0x0001_0001),
    (Step::Look, 72, 0),
];

#[test]
fn bits_and_interrupts(rt: HostRuntime) {
    follow(&rt, &ILLEGAL);
    follow(&rt, &ERRORS);
    follow(&rt, &QUIET);
    follow(&rt, &FAULTS);
}

/// After each step, whether the command queue is on and whether it is processed, whether the fault queue is on and
/// whether it is marked.
static STOPS: [(Step, [bool; 4]); 6] = [
    (Step::Look, [false, false, false, false]),
    (Step::Write(72, 1), [true, true, false, false]),
    (Step::Write(76, 1), [true, true, true, false]),
    (Step::FenceWIp, [true, true, true, false]),
    (Step::CmdTo, [true, false, true, false]),
    (Step::Fqof, [true, false, true, true]),
];

fn are_on(rt: &impl Abort, registers: &Registers, expected: &[bool; 4]) {
    let shown = [
        registers.is_command_queue_on(),
        registers.is_processing_commands(),
        registers.is_fault_queue_on(),
        registers.is_fault_queue_marked(),
    ];
    expect(rt, shown == *expected);
}

// Commands are processed while the queue is on and none of its errors is set.
#[test]
fn errors_stop_the_queue(rt: HostRuntime) {
    let mut registers = Registers::new();
    for (step, expected) in STOPS.iter() {
        take(&mut registers, *step);
        are_on(&rt, &registers, expected);
    }
}

use crate::bench::{Answer, Bench, Step, follow};
use crate::expect::expect;
use crate::setup::{BASE_VALUE, CQCSR, CQH, CQT, DDTP, DEVICE, IPSR};
use iom_iommu::Reply;
use iom_registers::{RegFault, Registers};
use std::process::Abort;

/// A fence that stores 1 at 0x10000, as 4 bytes.
static STORES: [Step; 9] = [
    Step::TurnOn(BASE_VALUE),
    Step::Store(0x10000, u64::MAX),
    Step::Put(0, (0x0000_0001_0000_0402, 0x4000)),
    Step::Write(CQT, 1),
    Step::Effect((0x0000_0001_0000_0402, 0x4000)),
    Step::Register(CQH, 1),
    Step::Register(CQCSR, 0x0001_0003),
    Step::Register(IPSR, 0),
    Step::Word(0x10000, 0xffff_ffff_0000_0001),
];

/// A command, and cqcsr once it stopped the queue: a fence that stores at 0x40000, which is outside, sets cqmf; of the
/// others each sets cmd_ill.
static STOPS: [((u64, u64), u64); 5] = [
    ((0x0000_0001_0000_0402, 0x0001_0000), 0x0001_0103),
    // Opcode 5 is none.
    ((5, 0), 0x0001_0403),
    // IOFENCE has no func3 of 1.
    ((0x82, 0), 0x0001_0403),
    // Bit 14 of a fence is reserved.
    ((0x4002, 0), 0x0001_0403),
    // IOTINVAL.GVMA with PSCV.
    ((0x0000_0001_0000_0081, 0), 0x0001_0403),
];

fn stops(rt: &impl Abort, bench: &mut Bench, command: (u64, u64), cqcsr: u64) {
    let steps = [
        Step::TurnOn(BASE_VALUE),
        Step::Store(0x10000, u64::MAX),
        Step::Put(0, command),
        Step::Write(CQT, 1),
        Step::Fetch(Answer::Stopped),
        Step::Register(CQH, 0),
        Step::Register(CQCSR, cqcsr),
        Step::Register(IPSR, 1),
        Step::Word(0x10000, u64::MAX),
    ];
    bench.follow(rt, &steps);
}

// Each command, from a fresh start.
#[test]
fn a_command_stops_the_queue(rt: HostRuntime) {
    for (command, cqcsr) in STOPS.iter() {
        let mut bench = Bench::at_power_on(&rt, rt.alloc());
        stops(&rt, &mut bench, *command, *cqcsr);
    }
}

/// Commands that store nothing: IOTINVAL.VMA of the page 3 of PSCID 1, IOTINVAL.GVMA of GSCID 1, IODIR.INVAL_DDT of the
/// device 2, and ATS.INVAL of its page 3.
const VMA: (u64, u64) = (0x0000_0001_0000_1401, 0xc00);

const GVMA: (u64, u64) = (0x0000_1002_0000_0081, 0);

const DDT: (u64, u64) = (0x0000_0202_0000_0003, 0);

const ATS: (u64, u64) = (0x0000_0202_0000_0004, 0x3000);

/// They are done one after the other, also while an access is in flight, and then none waits.
static OTHERS: [Step; 19] = [
    Step::TurnOn(BASE_VALUE),
    Step::Write(DDTP, 1),
    Step::Ask(DEVICE, 0x3000, b"", Reply::Accepted(1)),
    Step::Put(0, VMA),
    Step::Put(1, GVMA),
    Step::Put(2, DDT),
    Step::Put(3, ATS),
    Step::Write(CQT, 4),
    Step::Effect(VMA),
    Step::Register(CQH, 1),
    Step::Effect(GVMA),
    Step::Register(CQH, 2),
    Step::Effect(DDT),
    Step::Register(CQH, 3),
    Step::Effect(ATS),
    Step::Register(CQH, 4),
    Step::Fetch(Answer::Empty),
    Step::Register(CQH, 4),
    Step::Register(CQCSR, 0x0001_0003),
];

// An access of software is answered so, and the registers are as at power-on.
fn is_refused(rt: &impl Abort, bench: &mut Bench, offset: u64, fault: RegFault) {
    let written = bench.write_as(offset, 4, BASE_VALUE);
    expect(rt, written == Err(fault));
    expect(rt, bench.registers() == Registers::new());
}

// A refused access changes nothing, and the registers are those of the table.
#[test]
fn registers_are_reached(rt: HostRuntime) {
    let mut bench = Bench::at_power_on(&rt, rt.alloc());
    expect(&rt, bench.read_as(0, 8) == Ok(0x0000_0020_1206_0610));
    is_refused(&rt, &mut bench, 24, RegFault::BadWidth);
    is_refused(&rt, &mut bench, 28, RegFault::BadOffset);
    expect(&rt, bench.write_as(24, 8, BASE_VALUE).is_ok());
    expect(&rt, bench.read_as(24, 8) == Ok(BASE_VALUE));
    expect(&rt, bench.registers().command_base() == 0x3f000);
}

#[test]
fn commands_are_done(rt: HostRuntime) {
    follow(&rt, rt.alloc(), &[], &STORES);
    follow(&rt, rt.alloc(), &[], &OTHERS);
}

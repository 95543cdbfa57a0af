use crate::bench::{Answer, Bench, Step, follow};
use crate::expect::expect;
use crate::setup::{BASE_VALUE, CQCSR, CQH, CQT, FENCE};
use iom_registers::Registers;

/// Opcode 5 stops the queue, and this bit of cqcsr says why. Nothing is fetched and no word is stored, whatever
/// stands at the head, until a 1 is written to that bit; then the command at the head is done.
static ILLEGAL: [Step; 12] = [
    Step::TurnOn(BASE_VALUE),
    Step::Put(0, (5, 0)),
    Step::Write(CQT, 1),
    Step::Fetch(Answer::Stopped),
    Step::Put(0, FENCE),
    Step::Unchanged(Answer::Stopped),
    Step::Write(CQCSR, 3),
    Step::Fetch(Answer::Stopped),
    Step::Write(CQCSR, 3 | 0x400),
    Step::Register(CQCSR, 0x0001_0003),
    Step::Effect(FENCE),
    Step::Word(0x5000, 1),
];

/// The same where a fence's word has no place.
static NO_PLACE: [Step; 12] = [
    Step::TurnOn(BASE_VALUE),
    Step::Put(0, (0x0000_0001_0000_0402, 0x1_0000)),
    Step::Write(CQT, 1),
    Step::Fetch(Answer::Stopped),
    Step::Put(0, FENCE),
    Step::Unchanged(Answer::Stopped),
    Step::Write(CQCSR, 3),
    Step::Fetch(Answer::Stopped),
    Step::Write(CQCSR, 3 | 0x100),
    Step::Register(CQCSR, 0x0001_0003),
    Step::Effect(FENCE),
    Step::Word(0x5000, 1),
];

// At power-on the queue is off: nothing is fetched, and no register changes.
#[test]
fn a_queue_at_power_on_is_stopped(rt: HostRuntime) {
    let mut bench = Bench::at_power_on(&rt, rt.alloc());
    bench.follow(&rt, &[Step::Fetch(Answer::Stopped)]);
    expect(&rt, bench.registers() == Registers::new());
}

/// While the queue is off nothing is fetched. Turned on, it begins at its first entry.
static OFF: [Step; 10] = [
    Step::TurnOn(BASE_VALUE),
    Step::PutEach(2, FENCE),
    Step::Write(CQT, 2),
    Step::Effect(FENCE),
    Step::Write(CQCSR, 2),
    Step::Fetch(Answer::Stopped),
    Step::Register(CQH, 1),
    Step::Write(CQCSR, 3),
    Step::Register(CQH, 0),
    Step::Effect(FENCE),
];

#[test]
fn a_queue_is_stopped(rt: HostRuntime) {
    follow(&rt, rt.alloc(), &[], &ILLEGAL);
    follow(&rt, rt.alloc(), &[], &NO_PLACE);
    follow(&rt, rt.alloc(), &[], &OFF);
}

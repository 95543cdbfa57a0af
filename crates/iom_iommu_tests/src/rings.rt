use crate::bench::{Answer, Step, follow};
use crate::setup::{CQCSR, CQH, CQT, IPSR, RING};

/// IODIR.INVAL_DDT of all devices.
const ALL: (u64, u64) = (3, 0);

/// In a queue of four entries the entry after the last is the first.
static ROUND: [Step; 22] = [
    Step::TurnOn(0xfc01),
    Step::PutEach(4, ALL),
    Step::Write(CQT, 3),
    Step::EachEffect(3, ALL),
    Step::Fetch(Answer::Empty),
    Step::Register(CQH, 3),
    Step::Write(CQT, 2),
    Step::EachEffect(3, ALL),
    Step::Fetch(Answer::Empty),
    Step::Register(CQH, 2),
    Step::Write(CQT, 1),
    Step::EachEffect(3, ALL),
    Step::Fetch(Answer::Empty),
    Step::Register(CQH, 1),
    Step::Write(CQT, 0),
    Step::EachEffect(3, ALL),
    Step::Fetch(Answer::Empty),
    Step::Register(CQH, 0),
    Step::Write(CQT, 3),
    Step::EachEffect(3, ALL),
    Step::Fetch(Answer::Empty),
    Step::Register(CQH, 3),
];

/// A queue of 512 entries in the last frame: those behind memory can't be loaded.
static LEAVES: [Step; 9] = [
    Step::TurnOn(0xfc08),
    Step::PutEach(256, ALL),
    Step::Outside(RING + 0x1000, 3),
    Step::Write(CQT, 300),
    Step::EachEffect(256, ALL),
    Step::Fetch(Answer::Stopped),
    Step::Register(CQH, 256),
    Step::Register(CQCSR, 0x0001_0103),
    Step::Register(IPSR, 1),
];

/// A queue that lies outside memory as a whole. That it is empty is seen without a load.
static OUTSIDE: [Step; 6] = [
    Step::TurnOn(0x1_0007),
    Step::Fetch(Answer::Empty),
    Step::Write(CQT, 1),
    Step::Fetch(Answer::Stopped),
    Step::Register(CQH, 0),
    Step::Register(CQCSR, 0x0001_0103),
];

#[test]
fn rings_lie_anywhere(rt: HostRuntime) {
    follow(&rt, rt.alloc(), &[], &ROUND);
    follow(&rt, rt.alloc(), &[], &LEAVES);
    follow(&rt, rt.alloc(), &[], &OUTSIDE);
}

use crate::bench::{Answer, Step, follow};
use crate::setup::{BASE_VALUE, CQCSR, CQH, CQT, DDTP, DEVICE, IPSR};
use iom_iommu::Reply;

/// A fence with WSI sets fence_w_ip when it is done, which stops nothing; writes of 1 clear it and the
/// interrupt.
static RAISES: [Step; 16] = [
    Step::TurnOn(BASE_VALUE),
    Step::Write(DDTP, 1),
    Step::Ask(DEVICE, 0x3000, b"", Reply::Accepted(1)),
    Step::Put(0, (0x802, 0)),
    Step::Put(1, (2, 0)),
    Step::Write(CQT, 2),
    Step::Effect((0x802, 0)),
    Step::Register(CQCSR, 0x0001_0803),
    Step::Register(IPSR, 1),
    Step::Effect((2, 0)),
    Step::Register(CQH, 2),
    Step::Write(CQCSR, 0x803),
    Step::Register(CQCSR, 0x0001_0003),
    Step::Register(IPSR, 1),
    Step::Write(IPSR, 1),
    Step::Register(IPSR, 0),
];

/// Without cie a done fence sets its bit, and no interrupt is pending.
static QUIET: [Step; 7] = [
    Step::TurnOn(BASE_VALUE),
    Step::Write(CQCSR, 1),
    Step::Put(0, (0x802, 0)),
    Step::Write(CQT, 1),
    Step::Effect((0x802, 0)),
    Step::Register(CQCSR, 0x0001_0801),
    Step::Register(IPSR, 0),
];

/// Fences that store 7 at 0x5000, without PR (bit 12) and PW (bit 13), with the one, the other, and both. One with PR
/// waits while a read is in flight, and changes nothing that software sees; then it is done. One without it doesn't
/// wait.
static PLAIN: [Step; 9] = [
    Step::TurnOn(BASE_VALUE),
    Step::Put(0, (0x0000_0007_0000_0402, 0x1400)),
    Step::Write(DDTP, 1),
    Step::Ask(DEVICE, 0x3000, b"", Reply::Accepted(1)),
    Step::Write(CQT, 1),
    Step::Effect((0x0000_0007_0000_0402, 0x1400)),
    Step::Word(0x5000, 7),
    Step::Register(CQH, 1),
    Step::Fetch(Answer::Empty),
];

static WITH_PR: [Step; 11] = [
    Step::TurnOn(BASE_VALUE),
    Step::Put(0, (0x0000_0007_0000_1402, 0x1400)),
    Step::Write(DDTP, 1),
    Step::Ask(DEVICE, 0x3000, b"", Reply::Accepted(1)),
    Step::Write(CQT, 1),
    Step::Unchanged(Answer::Waiting),
    Step::Commit,
    Step::Effect((0x0000_0007_0000_1402, 0x1400)),
    Step::Word(0x5000, 7),
    Step::Register(CQH, 1),
    Step::Fetch(Answer::Empty),
];

static WITH_PW: [Step; 9] = [
    Step::TurnOn(BASE_VALUE),
    Step::Put(0, (0x0000_0007_0000_2402, 0x1400)),
    Step::Write(DDTP, 1),
    Step::Ask(DEVICE, 0x3000, b"", Reply::Accepted(1)),
    Step::Write(CQT, 1),
    Step::Effect((0x0000_0007_0000_2402, 0x1400)),
    Step::Word(0x5000, 7),
    Step::Register(CQH, 1),
    Step::Fetch(Answer::Empty),
];

static WITH_BOTH: [Step; 11] = [
    Step::TurnOn(BASE_VALUE),
    Step::Put(0, (0x0000_0007_0000_3402, 0x1400)),
    Step::Write(DDTP, 1),
    Step::Ask(DEVICE, 0x3000, b"", Reply::Accepted(1)),
    Step::Write(CQT, 1),
    Step::Unchanged(Answer::Waiting),
    Step::Commit,
    Step::Effect((0x0000_0007_0000_3402, 0x1400)),
    Step::Word(0x5000, 7),
    Step::Register(CQH, 1),
    Step::Fetch(Answer::Empty),
];

/// A fence that can't be done since its word has no place waits first.
static NO_PLACE: [Step; 10] = [
    Step::TurnOn(BASE_VALUE),
    Step::Put(0, (0x0000_0001_0000_1402, 0x1_0000)),
    Step::Write(DDTP, 1),
    Step::Ask(DEVICE, 0x3000, b"", Reply::Accepted(1)),
    Step::Write(CQT, 1),
    Step::Fetch(Answer::Waiting),
    Step::Register(CQCSR, 0x0001_0003),
    Step::Commit,
    Step::Fetch(Answer::Stopped),
    Step::Register(CQCSR, 0x0001_0103),
];

#[test]
fn fences_interrupt_and_wait(rt: HostRuntime) {
    follow(&rt, rt.alloc(), &[], &RAISES);
    follow(&rt, rt.alloc(), &[], &QUIET);
    follow(&rt, rt.alloc(), &[], &PLAIN);
    follow(&rt, rt.alloc(), &[], &WITH_PR);
    follow(&rt, rt.alloc(), &[], &WITH_PW);
    follow(&rt, rt.alloc(), &[], &WITH_BOTH);
    follow(&rt, rt.alloc(), &[], &NO_PLACE);
}

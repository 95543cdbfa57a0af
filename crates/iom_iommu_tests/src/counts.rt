// Which accesses a fence waits for.
use crate::bench::{Answer, Bench, Step, follow};
use crate::expect::expect;
use crate::setup::{BASE_VALUE, CQCSR, CQT, DDTP, DEVICE};
use iom_iommu::Reply;

/// A fence with PR.
const WITH_PR: (u64, u64) = (0x1002, 0);

/// A fence with PW.
const WITH_PW: (u64, u64) = (0x2002, 0);

/// A fence doesn't wait for what was accepted after its first fetch. The next one counts anew.
static LATER: [Step; 15] = [
    Step::TurnOn(BASE_VALUE),
    Step::PutEach(2, WITH_PR),
    Step::Write(CQT, 2),
    Step::Write(DDTP, 1),
    Step::Ask(DEVICE, 0x3000, b"", Reply::Accepted(1)),
    Step::Fetch(Answer::Waiting),
    Step::Ask(DEVICE, 0x3000, b"", Reply::Accepted(2)),
    Step::Fetch(Answer::Waiting),
    Step::Counts(2, 2),
    Step::Commit,
    Step::Counts(2, 1),
    Step::Effect(WITH_PR),
    Step::Fetch(Answer::Waiting),
    Step::Commit,
    Step::Effect(WITH_PR),
];

/// Turned off and on, the queue begins at its first entry, and the fence there counts anew.
static GIVEN_UP: [Step; 13] = [
    Step::TurnOn(BASE_VALUE),
    Step::PutEach(2, WITH_PR),
    Step::Write(CQT, 2),
    Step::Write(DDTP, 1),
    Step::Ask(DEVICE, 0x3000, b"", Reply::Accepted(1)),
    Step::Fetch(Answer::Waiting),
    Step::Ask(DEVICE, 0x3000, b"", Reply::Accepted(2)),
    Step::Write(CQCSR, 2),
    Step::Write(CQCSR, 3),
    Step::Commit,
    Step::Fetch(Answer::Waiting),
    Step::Commit,
    Step::Effect(WITH_PR),
];

/// PR waits for reads alone.
static READS: [Step; 8] = [
    Step::TurnOn(BASE_VALUE),
    Step::Put(0, WITH_PW),
    Step::Put(1, WITH_PR),
    Step::Write(CQT, 2),
    Step::Write(DDTP, 1),
    Step::Ask(DEVICE, 0x3000, b"", Reply::Accepted(1)),
    Step::Effect(WITH_PW),
    Step::Fetch(Answer::Waiting),
];

/// PW waits for writes alone.
static WRITES: [Step; 8] = [
    Step::TurnOn(BASE_VALUE),
    Step::Put(0, WITH_PR),
    Step::Put(1, WITH_PW),
    Step::Write(CQT, 2),
    Step::Write(DDTP, 1),
    Step::Ask(DEVICE, 0x3000, b"\xaa", Reply::Accepted(1)),
    Step::Effect(WITH_PR),
    Step::Fetch(Answer::Waiting),
];

#[test]
fn fences_wait_for_accesses(rt: HostRuntime) {
    follow(&rt, rt.alloc(), &[], &LATER);
    follow(&rt, rt.alloc(), &[], &GIVEN_UP);
    follow(&rt, rt.alloc(), &[], &READS);
    follow(&rt, rt.alloc(), &[], &WRITES);
}

#[test]
fn a_device_makes_iommus_differ(rt: HostRuntime) {
    let one = Bench::at_power_on(&rt, rt.alloc());
    let mut other = Bench::at_power_on(&rt, rt.alloc());
    expect(&rt, one.is_same(&other));
    other.follow(&rt, &[Step::Add(DEVICE)]);
    expect(&rt, !one.is_same(&other));
}

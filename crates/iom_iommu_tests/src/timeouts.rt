// A fence that waits for invalidation requests is given up (IOMMU specification, section 3.1.4, and chapter 5, cmd_to).
//
// A fence that was given up: `cmd_to` is set and the interrupt pending, no request is open, the head stays at the
// fence, and its word isn't stored.
use crate::bench::{Answer, INVALIDATE, Step, follow};
use crate::setup::{BASE_VALUE, CQCSR, CQH, CQT, DDTP, DEVICE, FENCE, IPSR};
use iom_iommu::Reply;

/// A fence that stores 1 at 0x5000, with PR.
const FENCE_WITH_PR: (u64, u64) = (0x0000_0001_0000_1402, 0x1400);

/// A fence that waits for requests is given up once. Nothing is fetched then, and a second timeout has no effect.
static ONCE: [Step; 23] = [
    Step::TurnOn(BASE_VALUE),
    Step::PutEach(2, INVALIDATE),
    Step::Put(2, FENCE),
    Step::Write(CQT, 3),
    Step::Write(DDTP, 1),
    Step::OpensEach(2),
    Step::Fetch(Answer::Waiting),
    Step::Timeout,
    Step::Register(CQCSR, 0x0001_0203),
    Step::Register(IPSR, 1),
    Step::Register(CQH, 2),
    Step::Word(0x5000, 0),
    Step::Open(0),
    Step::Done(DEVICE, 1, false),
    Step::Fetch(Answer::Stopped),
    Step::NoTimeout,
    Step::Fetch(Answer::Stopped),
    Step::Register(CQCSR, 0x0001_0203),
    Step::Register(IPSR, 1),
    Step::Register(CQH, 2),
    Step::Word(0x5000, 0),
    Step::Open(0),
    Step::Done(DEVICE, 1, false),
];

/// A fence that no fetch has found yet doesn't wait, though a request is open.
static NOT_FETCHED: [Step; 10] = [
    Step::TurnOn(BASE_VALUE),
    Step::PutEach(1, INVALIDATE),
    Step::Put(1, FENCE),
    Step::Write(CQT, 2),
    Step::Write(DDTP, 1),
    Step::NoTimeout,
    Step::Opens(1),
    Step::NoTimeout,
    Step::Fetch(Answer::Waiting),
    Step::Timeout,
];

/// A fence whose requests were all completed since its last fetch is not given up: the next fetch does it.
static COMPLETED: [Step; 13] = [
    Step::TurnOn(BASE_VALUE),
    Step::PutEach(2, INVALIDATE),
    Step::Put(2, FENCE),
    Step::Write(CQT, 3),
    Step::Write(DDTP, 1),
    Step::OpensEach(2),
    Step::Fetch(Answer::Waiting),
    Step::Done(DEVICE, 1, true),
    Step::Done(DEVICE, 2, true),
    Step::NoTimeout,
    Step::Effect(FENCE),
    Step::Word(0x5000, 1),
    Step::Register(CQH, 3),
];

/// A fence that waits for accesses alone is not given up.
static ACCESSES: [Step; 15] = [
    Step::TurnOn(BASE_VALUE),
    Step::PutEach(2, INVALIDATE),
    Step::Put(2, FENCE_WITH_PR),
    Step::Write(CQT, 3),
    Step::Write(DDTP, 1),
    Step::OpensEach(2),
    Step::Fetch(Answer::Waiting),
    Step::Ask(DEVICE, 0x3000, b"", Reply::Accepted(1)),
    Step::Done(DEVICE, 1, true),
    Step::Done(DEVICE, 2, true),
    Step::Fetch(Answer::Waiting),
    Step::NoTimeout,
    Step::Commit,
    Step::Effect(FENCE_WITH_PR),
    Step::Word(0x5000, 1),
];

/// An ATS.INVAL that waits for one of 32 requests is not given up.
static REQUEST: [Step; 11] = [
    Step::TurnOn(BASE_VALUE),
    Step::PutEach(32, INVALIDATE),
    Step::Put(32, INVALIDATE),
    Step::Write(CQT, 33),
    Step::Write(DDTP, 1),
    Step::OpensEach(32),
    Step::Fetch(Answer::Waiting),
    Step::NoTimeout,
    Step::Open(32),
    Step::Done(DEVICE, 7, true),
    Step::Opens(33),
];

/// Turned off and on, the queue begins at its first entry, and the numbers go on: the fence waits and is given up
/// again.
static AGAIN: [Step; 24] = [
    Step::TurnOn(BASE_VALUE),
    Step::PutEach(2, INVALIDATE),
    Step::Put(2, FENCE),
    Step::Write(CQT, 3),
    Step::Write(DDTP, 1),
    Step::OpensEach(2),
    Step::Fetch(Answer::Waiting),
    Step::Timeout,
    Step::Write(CQCSR, 2),
    Step::Register(CQCSR, 0x202),
    Step::Write(CQCSR, 3),
    Step::Register(CQCSR, 0x0001_0003),
    Step::Opens(3),
    Step::Opens(4),
    Step::NoTimeout,
    Step::Fetch(Answer::Waiting),
    Step::Done(DEVICE, 3, true),
    Step::Timeout,
    Step::Register(CQCSR, 0x0001_0203),
    Step::Register(IPSR, 1),
    Step::Register(CQH, 2),
    Step::Word(0x5000, 0),
    Step::Open(0),
    Step::Done(DEVICE, 1, false),
];

/// A 1 written to `cmd_to` clears it. The fence at the head is fetched again, and done, since no request is open.
static CLEARED: [Step; 14] = [
    Step::TurnOn(BASE_VALUE),
    Step::PutEach(2, INVALIDATE),
    Step::Put(2, FENCE),
    Step::Write(CQT, 3),
    Step::Write(DDTP, 1),
    Step::OpensEach(2),
    Step::Fetch(Answer::Waiting),
    Step::Timeout,
    Step::Write(CQCSR, 0x203),
    Step::Register(CQCSR, 0x0001_0003),
    Step::Effect(FENCE),
    Step::Word(0x5000, 1),
    Step::Register(CQH, 3),
    Step::NoTimeout,
];

/// While the queue is off no fence waits.
static OFF: [Step; 12] = [
    Step::TurnOn(BASE_VALUE),
    Step::PutEach(2, INVALIDATE),
    Step::Put(2, FENCE),
    Step::Write(CQT, 3),
    Step::Write(DDTP, 1),
    Step::OpensEach(2),
    Step::Fetch(Answer::Waiting),
    Step::Write(CQCSR, 2),
    Step::NoTimeout,
    Step::Write(CQCSR, 3),
    Step::NoTimeout,
    Step::Opens(3),
];

#[test]
fn fences_are_given_up(rt: HostRuntime) {
    follow(&rt, rt.alloc(), &[], &ONCE);
    follow(&rt, rt.alloc(), &[], &NOT_FETCHED);
    follow(&rt, rt.alloc(), &[], &COMPLETED);
    follow(&rt, rt.alloc(), &[], &ACCESSES);
    follow(&rt, rt.alloc(), &[], &REQUEST);
    follow(&rt, rt.alloc(), &[], &AGAIN);
    follow(&rt, rt.alloc(), &[], &CLEARED);
    follow(&rt, rt.alloc(), &[], &OFF);
}

// Invalidation requests to devices: the slots that they take, and fences that wait for them (IOMMU specification,
// section 3.1.4).
use crate::bench::{Answer, INVALIDATE, Step, follow};
use crate::setup::{BASE_VALUE, CQCSR, CQH, CQT, DDTP, DEVICE};
use iom_iommu::Reply;

/// With 32 requests open the next one waits, until the device that was asked completes one of them by its number.
static FULL: [Step; 17] = [
    Step::TurnOn(BASE_VALUE),
    Step::PutEach(33, INVALIDATE),
    Step::Put(33, (2, 0)),
    Step::Write(CQT, 34),
    Step::Write(DDTP, 1),
    Step::OpensEach(32),
    Step::Fetch(Answer::Waiting),
    Step::Last(32),
    Step::Done(DEVICE + 1, 1, false),
    Step::Done(DEVICE, 33, false),
    Step::Fetch(Answer::Waiting),
    Step::Last(32),
    Step::Register(CQH, 32),
    Step::Done(DEVICE, 7, true),
    Step::Done(DEVICE, 7, false),
    Step::Opens(33),
    Step::Register(CQH, 33),
];

/// A fence waits for each open request, also one without PR and PW.
static EACH: [Step; 14] = [
    Step::TurnOn(BASE_VALUE),
    Step::PutEach(2, INVALIDATE),
    Step::Put(2, (2, 0)),
    Step::Write(CQT, 3),
    Step::Write(DDTP, 1),
    Step::OpensEach(2),
    Step::Fetch(Answer::Waiting),
    Step::Last(2),
    Step::Done(DEVICE, 2, true),
    Step::Fetch(Answer::Waiting),
    Step::Last(2),
    Step::Done(DEVICE, 1, true),
    Step::Effect((2, 0)),
    Step::Last(2),
];

/// An access that is accepted while a request is open is waited for, though the fence was fetched before it; one that
/// is accepted once the fence found none open isn't.
static COUNTS: [Step; 17] = [
    Step::TurnOn(BASE_VALUE),
    Step::PutEach(1, INVALIDATE),
    Step::Put(1, (0x1002, 0)),
    Step::Write(CQT, 2),
    Step::Write(DDTP, 1),
    Step::Opens(1),
    Step::Fetch(Answer::Waiting),
    Step::Last(1),
    Step::Ask(DEVICE, 0x3000, b"", Reply::Accepted(1)),
    Step::Done(DEVICE, 1, true),
    Step::Fetch(Answer::Waiting),
    Step::Last(1),
    Step::Ask(DEVICE, 0x3000, b"", Reply::Accepted(2)),
    Step::Fetch(Answer::Waiting),
    Step::Last(1),
    Step::Commit,
    Step::Effect((0x1002, 0)),
];

/// Turned off and on, the queue has no open request, and the numbers go on.
static OFF: [Step; 16] = [
    Step::TurnOn(BASE_VALUE),
    Step::PutEach(1, INVALIDATE),
    Step::Put(1, (2, 0)),
    Step::Write(CQT, 2),
    Step::Write(DDTP, 1),
    Step::Opens(1),
    Step::Fetch(Answer::Waiting),
    Step::Last(1),
    Step::Write(CQCSR, 2),
    Step::Write(CQCSR, 3),
    Step::Done(DEVICE, 1, false),
    Step::Opens(2),
    Step::Fetch(Answer::Waiting),
    Step::Last(2),
    Step::Done(DEVICE, 2, true),
    Step::Effect((2, 0)),
];

#[test]
fn requests_are_waited_for(rt: HostRuntime) {
    follow(&rt, rt.alloc(), &[], &FULL);
    follow(&rt, rt.alloc(), &[], &EACH);
    follow(&rt, rt.alloc(), &[], &COUNTS);
    follow(&rt, rt.alloc(), &[], &OFF);
}

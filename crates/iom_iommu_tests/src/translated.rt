// Translated requests of a device, by addresses of memory, and the records of those that are refused (IOMMU
// specification, sections 2.3 and 3.2).
use crate::bench::{Step, follow};
use crate::directories::{CONTEXT, ONE_LEVEL, WORDS};
use crate::setup::{BASE_VALUE, DDTP, FQB, FQCSR, FQT};
use iom_base::{AccessKind, Cause};
use iom_iommu::Reply;

/// The address is that of memory, though the page 3 is translated to the frame 32.
static SERVED: [Step; 11] = [
    Step::TurnOn(BASE_VALUE),
    Step::Write(DDTP, ONE_LEVEL),
    Step::Store(CONTEXT, 3),
    Step::Write(FQB, 0xf806),
    Step::Write(FQCSR, 1),
    Step::Translated(0x3010, b"", Reply::Accepted(1)),
    Step::Translated(0x3_f018, b"\xaa", Reply::Accepted(2)),
    Step::Made(3, 16, AccessKind::Read),
    Step::Made(63, 24, AccessKind::Write),
    Step::Translated(0x3fff, b"\xaa\xbb", Reply::BadSpan),
    Step::Register(FQT, 0),
];

/// A context with EN_ATS clear.
static NO_ATS: [Step; 8] = [
    Step::TurnOn(BASE_VALUE),
    Step::Write(DDTP, ONE_LEVEL),
    Step::Store(CONTEXT, 1),
    Step::Write(FQB, 0xf806),
    Step::Write(FQCSR, 1),
    Step::Translated(0x3010, b"", Reply::Fault(Cause::TransactionTypeDisallowed)),
    Step::Register(FQT, 1),
    Step::Record(0, [0x0000_0518_0000_0104, 0, 0x3010, 0]),
];

/// The modes Bare and Off.
static BARE: [Step; 8] = [
    Step::TurnOn(BASE_VALUE),
    Step::Write(DDTP, 1),
    Step::Store(CONTEXT, 3),
    Step::Write(FQB, 0xf806),
    Step::Write(FQCSR, 1),
    Step::Translated(0x3010, b"", Reply::Fault(Cause::TransactionTypeDisallowed)),
    Step::Register(FQT, 1),
    Step::Record(0, [0x0000_0518_0000_0104, 0, 0x3010, 0]),
];

static OFF: [Step; 8] = [
    Step::TurnOn(BASE_VALUE),
    Step::Write(DDTP, 0),
    Step::Store(CONTEXT, 3),
    Step::Write(FQB, 0xf806),
    Step::Write(FQCSR, 1),
    Step::Translated(0x3010, b"", Reply::Fault(Cause::AllInboundDisallowed)),
    Step::Register(FQT, 1),
    Step::Record(0, [0x0000_0518_0000_0100, 0, 0x3010, 0]),
];

/// A write of an address outside memory.
static OUTSIDE: [Step; 8] = [
    Step::TurnOn(BASE_VALUE),
    Step::Write(DDTP, ONE_LEVEL),
    Step::Store(CONTEXT, 3),
    Step::Write(FQB, 0xf806),
    Step::Write(FQCSR, 1),
    Step::Translated(0x4_0000, b"\xaa", Reply::Fault(Cause::WriteAccessFault)),
    Step::Register(FQT, 1),
    Step::Record(0, [0x0000_051c_0000_0007, 0, 0x4_0000, 0]),
];

#[test]
fn translated_requests_are_answered(rt: HostRuntime) {
    follow(&rt, rt.alloc(), &WORDS, &SERVED);
    follow(&rt, rt.alloc(), &WORDS, &NO_ATS);
    follow(&rt, rt.alloc(), &WORDS, &BARE);
    follow(&rt, rt.alloc(), &WORDS, &OFF);
    follow(&rt, rt.alloc(), &WORDS, &OUTSIDE);
}

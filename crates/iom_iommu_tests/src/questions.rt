// Questions of a device for the translations of pages, and the records of those that are refused (IOMMU specification,
// sections 2.3 and 3.2).
use crate::bench::{Step, follow};
use crate::directories::{CONTEXT, LEAF, ONE_LEVEL, WORDS};
use crate::setup::{BASE_VALUE, DDTP, DEVICE, FQB, FQCSR, FQT};
use iom_base::{Cause, Rights};
use iom_fabric::Translation;
use iom_iommu::Reply;

/// The leaf of the frame 33, to be read.
const READ_ONLY: u64 = 0x8453;

/// A context with EN_ATS clear.
static NO_ATS: [Step; 8] = [
    Step::TurnOn(BASE_VALUE),
    Step::Write(DDTP, ONE_LEVEL),
    Step::Store(CONTEXT, 1),
    Step::Write(FQB, 0xf806),
    Step::Write(FQCSR, 1),
    Step::Question(3, Translation::Refused(Cause::TransactionTypeDisallowed)),
    Step::Register(FQT, 1),
    Step::Record(0, [0x0000_0520_0000_0104, 0, 0x3000, 0]),
];

/// The modes Bare and Off.
static BARE: [Step; 8] = [
    Step::TurnOn(BASE_VALUE),
    Step::Write(DDTP, 1),
    Step::Store(CONTEXT, 3),
    Step::Write(FQB, 0xf806),
    Step::Write(FQCSR, 1),
    Step::Question(3, Translation::Refused(Cause::TransactionTypeDisallowed)),
    Step::Register(FQT, 1),
    Step::Record(0, [0x0000_0520_0000_0104, 0, 0x3000, 0]),
];

static OFF: [Step; 8] = [
    Step::TurnOn(BASE_VALUE),
    Step::Write(DDTP, 0),
    Step::Store(CONTEXT, 3),
    Step::Write(FQB, 0xf806),
    Step::Write(FQCSR, 1),
    Step::Question(3, Translation::Refused(Cause::AllInboundDisallowed)),
    Step::Register(FQT, 1),
    Step::Record(0, [0x0000_0520_0000_0100, 0, 0x3000, 0]),
];

/// No context.
static NO_CONTEXT: [Step; 8] = [
    Step::TurnOn(BASE_VALUE),
    Step::Write(DDTP, ONE_LEVEL),
    Step::Store(CONTEXT, 0),
    Step::Write(FQB, 0xf806),
    Step::Write(FQCSR, 1),
    Step::Question(3, Translation::Refused(Cause::DirectoryEntryNotValid)),
    Step::Register(FQT, 1),
    Step::Record(0, [0x0000_0520_0000_0102, 0, 0x3000, 0]),
];

/// A page that is there is told with its frame and right, and stays cached; one that isn't leaves no record.
static ANSWERED: [Step; 15] = [
    Step::TurnOn(BASE_VALUE),
    Step::Write(DDTP, ONE_LEVEL),
    Step::Store(CONTEXT, 3),
    Step::Write(FQB, 0xf806),
    Step::Write(FQCSR, 1),
    Step::Tells(3, 32, Rights::RW),
    Step::Store(LEAF, READ_ONLY),
    Step::Tells(3, 32, Rights::RW),
    Step::Question(4, Translation::Refused(Cause::ReadPageFault)),
    Step::Register(FQT, 0),
    Step::Store(LEAF + 8, READ_ONLY),
    Step::Tells(4, 33, Rights::R),
    Step::GoesTo(0x4010, b"", 33),
    Step::Ask(DEVICE, 0x4010, b"\xaa", Reply::Fault(Cause::WritePageFault)),
    Step::Tells(4, 33, Rights::R),
];

/// Where both stages are Bare a page is its own frame, where memory has one: the last is 63.
static NO_STAGE: [Step; 10] = [
    Step::TurnOn(BASE_VALUE),
    Step::Write(DDTP, ONE_LEVEL),
    Step::Store(CONTEXT, 3),
    Step::Write(FQB, 0xf806),
    Step::Write(FQCSR, 1),
    Step::Store(CONTEXT + 24, 0),
    Step::Tells(63, 63, Rights::RW),
    Step::Question(64, Translation::Refused(Cause::ReadAccessFault)),
    Step::Register(FQT, 1),
    Step::Record(0, [0x0000_0520_0000_0005, 0, 0x4_0000, 0]),
];

#[test]
fn questions_are_answered(rt: HostRuntime) {
    follow(&rt, rt.alloc(), &WORDS, &NO_ATS);
    follow(&rt, rt.alloc(), &WORDS, &BARE);
    follow(&rt, rt.alloc(), &WORDS, &OFF);
    follow(&rt, rt.alloc(), &WORDS, &NO_CONTEXT);
    follow(&rt, rt.alloc(), &WORDS, &ANSWERED);
    follow(&rt, rt.alloc(), &WORDS, &NO_STAGE);
}

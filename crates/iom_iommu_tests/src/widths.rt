// The width of an id is asked before its context is looked for, also where one is cached (IOMMU specification, section
// 2.3.1, "Process to locate the Device-context").
//
// Three devices have one context, that of the directories: their ids differ in DDI[1] and DDI[2] alone. The fault queue
// has 128 places in the frame 62.
use crate::bench::{Step, follow};
use crate::directories::{CONTEXT, ONE_LEVEL, THREE_LEVELS, WORDS};
use crate::setup::{BASE_VALUE, DDTP, DEVICE, FQB, FQCSR, FQT};
use iom_base::Cause;
use iom_iommu::Reply;

/// An id with DDI[1] 1, for which one level is too few, and one with DDI[2] 1, for which two are.
const SIXTEEN_BITS: u32 = 0x85;

const MORE_BITS: u32 = 0x1_0005;

/// A directory of two levels: the lower ones of the three.
const TWO_LEVELS: u64 = 0xd003;

const TOO_WIDE: Reply = Reply::Fault(Cause::TransactionTypeDisallowed);

/// The contexts of all three are cached. With fewer levels those whose id is too wide are refused, whether theirs was the
/// context that was used last or another, and a record says so; the narrow id is served by its cached context. With
/// three levels again all are.
static FEWER_LEVELS: [Step; 24] = [
    Step::TurnOn(BASE_VALUE),
    Step::Add(SIXTEEN_BITS),
    Step::Add(MORE_BITS),
    // The entries that lead the wide ids where they lead the narrow one.
    Step::Store(0x34008, 0x4001),
    Step::Store(0x30008, 0xd001),
    Step::Write(DDTP, THREE_LEVELS),
    Step::Write(FQB, 0xf806),
    Step::Write(FQCSR, 1),
    Step::Ask(DEVICE, 0x3010, b"", Reply::Accepted(1)),
    Step::Ask(MORE_BITS, 0x3010, b"", Reply::Accepted(1)),
    Step::Ask(SIXTEEN_BITS, 0x3010, b"", Reply::Accepted(1)),
    Step::Store(CONTEXT, 0),
    Step::Write(DDTP, ONE_LEVEL),
    Step::Ask(SIXTEEN_BITS, 0x3010, b"", TOO_WIDE),
    Step::Record(0, [0x0000_8508_0000_0104, 0, 0x3010, 0]),
    Step::Ask(DEVICE, 0x3010, b"", Reply::Accepted(2)),
    Step::Ask(SIXTEEN_BITS, 0x3010, b"", TOO_WIDE),
    Step::Write(DDTP, TWO_LEVELS),
    Step::Ask(SIXTEEN_BITS, 0x3010, b"", Reply::Accepted(2)),
    Step::Ask(MORE_BITS, 0x3010, b"", TOO_WIDE),
    Step::Record(2, [0x0100_0508_0000_0104, 0, 0x3010, 0]),
    Step::Register(FQT, 3),
    Step::Write(DDTP, THREE_LEVELS),
    Step::Ask(MORE_BITS, 0x3010, b"", Reply::Accepted(2)),
];

#[test]
fn the_width_is_asked_first(rt: HostRuntime) {
    follow(&rt, rt.alloc(), &WORDS, &FEWER_LEVELS);
}

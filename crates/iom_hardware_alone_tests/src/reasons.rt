// Why requests are refused, beside the answers that they are given. Each reason is worked out by hand from the words of the
// setup.
use crate::machine::{Act, run};
use crate::setup::{CONTEXT, DDTP, DEVICE, ONE_LEVEL, WORDS};
use iom_base::{AccessKind, Cause, NewDevice};
use iom_board::Sender;
use iom_fault_reasons::{ContextSource, WhyFault, WhyTranslated};
use iom_iommu::Reply;
use iom_stage_walk::WalkFault;
use iom_stepped_walk::{EntryLoad, Flaw, Table};

/// A device whose context isn't valid, and one whose id has eight bits.
const STRANGER: u32 = 0x45;

const TOO_WIDE: u32 = 0x85;

/// The mode Bare in `ddtp`.
const BARE: u64 = 1;

/// A read of the page 4, which has no leaf: its entry is the one behind that of the page 3.
fn no_leaf(source: ContextSource) -> WhyFault {
    WhyFault::StopsAt {
        source,
        load: EntryLoad {
            table: Table::FirstStage { level: 0 },
            index: 4,
            address: 0x13020,
        },
        flaw: Flaw::Invalid,
        fault: WalkFault {
            cause: Cause::ReadPageFault,
            gpa: 0,
            implicit: false,
        },
    }
}

fn asks(address: u64, why: WhyFault) -> Act<'static> {
    Act::Why(DEVICE, address, AccessKind::Read, why)
}

fn refused(address: u64, cause: Cause) -> Act<'static> {
    Act::Request(Sender::Own, DEVICE, address, b"", Ok(Reply::Fault(cause)))
}

#[test]
fn an_entry_of_the_tables_is_the_reason(rt: HostRuntime) {
    let reached = WhyFault::Reaches {
        source: ContextSource::Directory,
        frame: 32,
    };
    let acts = [
        Act::Plug(DEVICE, NewDevice::Raw, Ok(())),
        asks(0x4010, WhyFault::DirectoryOff),
        refused(0x4010, Cause::AllInboundDisallowed),
        Act::Write(DDTP, ONE_LEVEL),
        asks(0x3010, reached),
        asks(0x4010, no_leaf(ContextSource::Directory)),
        refused(0x4010, Cause::ReadPageFault),
        // the context is cached now: the directory's own counts no more
        Act::Store(CONTEXT, 0),
        asks(0x4010, no_leaf(ContextSource::Cache)),
        refused(0x4010, Cause::ReadPageFault),
    ];
    run(&rt, rt.alloc(), &WORDS, &acts);
}

#[test]
fn the_directory_or_memory_is_the_reason(rt: HostRuntime) {
    // the 32 bytes of the context with this index, in the frame 16
    let invalid = WhyFault::NoContext {
        load: EntryLoad {
            table: Table::Contexts,
            index: 0x45,
            address: 0x108a0,
        },
        cause: Cause::DirectoryEntryNotValid,
    };
    let read = AccessKind::Read;
    let acts = [
        Act::Plug(DEVICE, NewDevice::Raw, Ok(())),
        Act::Write(DDTP, ONE_LEVEL),
        Act::Why(STRANGER, 0x3010, read, invalid),
        Act::Why(TOO_WIDE, 0x3010, read, WhyFault::IdTooWide),
        Act::Write(DDTP, BARE),
        asks(0x5008, WhyFault::Untranslated { frame: 5 }),
        // the first byte outside 64 frames
        asks(0x40000, WhyFault::OutsideMemory),
        refused(0x40000, Cause::ReadAccessFault),
    ];
    run(&rt, rt.alloc(), &WORDS, &acts);
}

#[test]
fn en_ats_is_the_reason_of_a_translated_request(rt: HostRuntime) {
    let disallowed = Ok(Reply::Fault(Cause::TransactionTypeDisallowed));
    let lacks = WhyTranslated::LacksAts(ContextSource::Directory);
    let acts = [
        Act::Plug(DEVICE, NewDevice::Raw, Ok(())),
        Act::WhyTranslated(DEVICE, 0x5008, WhyTranslated::DirectoryOff),
        Act::Write(DDTP, BARE),
        Act::WhyTranslated(DEVICE, 0x5008, WhyTranslated::DirectoryBare),
        Act::Translated(DEVICE, 0x5008, b"", disallowed),
        Act::Write(DDTP, ONE_LEVEL),
        Act::WhyTranslated(DEVICE, 0x5008, lacks),
        // EN_ATS is set
        Act::Store(CONTEXT, 3),
        Act::WhyTranslated(DEVICE, 0x5008, WhyTranslated::Passes { frame: 5 }),
        Act::WhyTranslated(DEVICE, 0x40000, WhyTranslated::OutsideMemory),
        Act::Translated(DEVICE, 0x5008, b"", Ok(Reply::Accepted(1))),
    ];
    run(&rt, rt.alloc(), &WORDS, &acts);
}

// Where walks in worked tables stop. What is expected is worked out by hand from the Privileged Architecture, sections
// 12.3.2, 15.5 and 15.5.1, and the IOMMU specification, sections 2.1 and 2.3.1: which entry is loaded last, and from where.
ghost use Rattle.std.specs.Prelude.{◌≢◌};
ghost use Rattle.iom_registers.specs.declared.directory.DirectoryMode.TheVariants.{Bare};

use crate::expect::expect;
use iom_base::{AccessKind, Cause, DeviceId, Ppn, Rights, Size};
use iom_phys_mem::{Bytes, Memory};
use iom_registers::{DirectoryMode, DirectoryPointer};
use iom_stage_walk::{WalkFault, Walked};
use iom_stepped_walk::{EntryLoad, Flaw, Table};
use iom_walk_stops::{DirectoryEnd, Stages, TablesEnd, end_of_directory, end_of_tables};
use std::alloc::Global;
use std::process::Abort;

/// V, R, W, U, A and D: the flags of a leaf that a device may read and write.
const LEAF: u64 = 0xd7;

/// V, R, U and A: those of one that it may read.
const READ_ONLY: u64 = 0x53;

/// V: those of a pointer, and of an entry of the directory.
const POINTER: u64 = 1;

/// The lowest bit of the page number in an entry, of a table or of the directory: bit 10.
const PAGE_NUMBER: u64 = 1024;

/// An address, and the word that stands there.
type Word = (u64, u64);

/// A memory of 64 frames that has these words.
fn with_words(rt: &impl Abort, alloc: Global, words: &[Word]) -> Memory {
    let mut memory = Memory::new(alloc, 64).expect(rt, "memory for the frames");
    for (address, word) in words.iter() {
        expect(rt, memory.store_u64(*address, *word).is_some());
    }
    memory
}

fn page(rt: &impl Abort, number: u64) -> Ppn {
    Ppn::new(number).expect(rt, "44 bits")
}

/// A first stage, Sv39, whose root is the frame 1.
fn first(rt: &impl Abort) -> Stages {
    Stages::First {
        size: Size::Sv39,
        root: page(rt, 1),
    }
}

/// Where a walk of it for this access ends, in a memory that has these words.
fn ends(
    rt: &impl Abort,
    alloc: Global,
    words: &[Word],
    address: u64,
    kind: AccessKind,
    wanted: TablesEnd,
) {
    let memory = with_words(rt, alloc, words);
    let end = end_of_tables(&memory, first(rt), address, kind);
    expect(rt, end == wanted);
}

fn stops_at(table: Table, index: u16, address: u64, flaw: Flaw, cause: Cause) -> TablesEnd {
    TablesEnd::StopsAt {
        load: EntryLoad {
            table,
            index,
            address,
        },
        flaw,
        fault: WalkFault {
            cause,
            gpa: 0,
            implicit: false,
        },
    }
}

/// The tables of page 5 but for its leaf: the frames 1, 2 and 3.
const UPPER: [Word; 2] = [
    (0x1000, 2 * PAGE_NUMBER + POINTER),
    (0x2000, 3 * PAGE_NUMBER + POINTER),
];

#[test]
fn a_first_stage_stops_at_an_entry_of_each_level(rt: HostRuntime) {
    let read = AccessKind::Read;
    let level = |level: u32| Table::FirstStage { level };
    // nothing stands in the root: bits 38:30 of the address are 0
    let wanted = stops_at(level(2), 0, 0x1000, Flaw::Invalid, Cause::ReadPageFault);
    ends(&rt, rt.alloc(), &[], 0x5008, read, wanted);
    // bits 29:21 are 0 too
    let wanted = stops_at(level(1), 0, 0x2000, Flaw::Invalid, Cause::ReadPageFault);
    ends(&rt, rt.alloc(), &[UPPER[0]], 0x5008, read, wanted);
    // bits 20:12 are 5
    let wanted = stops_at(level(0), 5, 0x3028, Flaw::Invalid, Cause::ReadPageFault);
    ends(&rt, rt.alloc(), &UPPER, 0x5008, read, wanted);
}

#[test]
fn a_first_stage_stops_for_each_flaw(rt: HostRuntime) {
    let read = AccessKind::Read;
    let write = AccessKind::Write;
    let last = Table::FirstStage { level: 0 };
    let middle = Table::FirstStage { level: 1 };
    // the table lies in the first frame outside memory
    let words = [(0x1000, 0x40 * PAGE_NUMBER + POINTER)];
    let wanted = stops_at(
        middle,
        0,
        0x40000,
        Flaw::OutsideMemory,
        Cause::ReadAccessFault,
    );
    ends(&rt, rt.alloc(), &words, 0x5008, read, wanted);
    // a superpage of 512 pages that begins at page 0x201
    let words = [UPPER[0], (0x2000, 0x201 * PAGE_NUMBER + LEAF)];
    let wanted = stops_at(middle, 0, 0x2000, Flaw::Misaligned, Cause::ReadPageFault);
    ends(&rt, rt.alloc(), &words, 0x5008, read, wanted);
    // a table below level 0
    let words = [UPPER[0], UPPER[1], (0x3028, 4 * PAGE_NUMBER + POINTER)];
    let wanted = stops_at(last, 5, 0x3028, Flaw::NamesNoTable, Cause::ReadPageFault);
    ends(&rt, rt.alloc(), &words, 0x5008, read, wanted);
    // a write where reads alone are allowed
    let words = [UPPER[0], UPPER[1], (0x3028, 4 * PAGE_NUMBER + READ_ONLY)];
    let wanted = stops_at(last, 5, 0x3028, Flaw::Forbids, Cause::WritePageFault);
    ends(&rt, rt.alloc(), &words, 0x5008, write, wanted);
    // a page outside memory
    let words = [UPPER[0], UPPER[1], (0x3028, 0x40 * PAGE_NUMBER + LEAF)];
    let wanted = stops_at(last, 5, 0x3028, Flaw::NamesNoPage, Cause::WriteAccessFault);
    ends(&rt, rt.alloc(), &words, 0x5008, write, wanted);
}

#[test]
fn a_first_stage_reaches_or_loads_nothing(rt: HostRuntime) {
    let words = [UPPER[0], UPPER[1], (0x3028, 0x10 * PAGE_NUMBER + LEAF)];
    let walked = Walked {
        frame: 0x10,
        rights: Rights::RW,
        level: 0,
        guest_frames: [None; 4],
    };
    let read = AccessKind::Read;
    ends(
        &rt,
        rt.alloc(),
        &words,
        0x5008,
        read,
        TablesEnd::Reaches(walked),
    );
    // bit 38 isn't as those above
    let fault = WalkFault {
        cause: Cause::ReadPageFault,
        gpa: 0,
        implicit: false,
    };
    ends(
        &rt,
        rt.alloc(),
        &words,
        1 << 38,
        read,
        TablesEnd::StopsUnread(fault),
    );
}

/// Both stages, Sv39 and Sv39x4, whose roots are the guest physical page 0 and the frame 8.
fn both(rt: &impl Abort) -> Stages {
    Stages::Both {
        first_size: Size::Sv39,
        first: page(rt, 0),
        second_size: Size::Sv39,
        second: page(rt, 8),
    }
}

/// The second stage's leaves of the guest's tables in its pages 0 to 2, and of its page 3, which may be read, and the
/// guest's tables in the frames 0x20 to 0x22.
const GUEST: [Word; 9] = [
    (0x8000, 12 * PAGE_NUMBER + POINTER),
    (0xc000, 13 * PAGE_NUMBER + POINTER),
    (0xd000, 0x20 * PAGE_NUMBER + LEAF),
    (0xd008, 0x21 * PAGE_NUMBER + LEAF),
    (0xd010, 0x22 * PAGE_NUMBER + LEAF),
    (0xd018, 0x30 * PAGE_NUMBER + READ_ONLY),
    (0x20000, 1 * PAGE_NUMBER + POINTER),
    (0x21000, 2 * PAGE_NUMBER + POINTER),
    (0x22000, 3 * PAGE_NUMBER + LEAF),
];

/// Where a write to page 0 ends where this word stands in place of its own.
fn ends_both(rt: &impl Abort, alloc: Global, instead: Word, wanted: TablesEnd) {
    let mut memory = with_words(rt, alloc, &GUEST);
    let (address, word) = instead;
    expect(rt, memory.store_u64(address, word).is_some());
    let end = end_of_tables(&memory, both(rt), 0, AccessKind::Write);
    expect(rt, end == wanted);
}

fn guest_stops_at(load: EntryLoad, flaw: Flaw, gpa: u64, implicit: bool) -> TablesEnd {
    TablesEnd::StopsAt {
        load,
        flaw,
        fault: WalkFault {
            cause: Cause::WriteGuestPageFault,
            gpa,
            implicit,
        },
    }
}

fn second_stage(level: u32, index: u16, address: u64) -> EntryLoad {
    EntryLoad {
        table: Table::SecondStage { level },
        index,
        address,
    }
}

#[test]
fn both_stages_stop_in_the_second_or_in_a_guests_table(rt: HostRuntime) {
    // the guest's own root has no entry, which lies in the frame 0x20
    let table = Table::GuestTable { level: 2 };
    let wanted = stops_at(table, 0, 0x20000, Flaw::Invalid, Cause::WritePageFault);
    ends_both(&rt, rt.alloc(), (0x20000, 0), wanted);
    // the second stage has no leaf for the guest's second table, in its page 1
    let wanted = guest_stops_at(second_stage(0, 1, 0xd008), Flaw::Invalid, 0x1000, true);
    ends_both(&rt, rt.alloc(), (0xd008, 0), wanted);
    // the guest's tables give page 3, which may be read alone
    let wanted = guest_stops_at(second_stage(0, 3, 0xd018), Flaw::Forbids, 0x3000, false);
    ends_both(
        &rt,
        rt.alloc(),
        (0xd018, 0x30 * PAGE_NUMBER + READ_ONLY),
        wanted,
    );
}

#[test]
fn a_guests_root_lies_beyond_the_second_stage(rt: HostRuntime) {
    let memory = with_words(&rt, rt.alloc(), &GUEST);
    // Sv39x4 translates addresses of 41 bits, and this page begins at 2^41
    let stages = Stages::Both {
        first_size: Size::Sv39,
        first: page(&rt, 1 << 29),
        second_size: Size::Sv39,
        second: page(&rt, 8),
    };
    let end = end_of_tables(&memory, stages, 0, AccessKind::Write);
    let fault = WalkFault {
        cause: Cause::WriteGuestPageFault,
        gpa: 1 << 41,
        implicit: true,
    };
    expect(&rt, end == TablesEnd::LacksGuestRoot(fault));
    // of an address that isn't canonical that isn't asked
    let end = end_of_tables(&memory, stages, 1 << 38, AccessKind::Write);
    let fault = WalkFault {
        cause: Cause::WritePageFault,
        gpa: 0,
        implicit: false,
    };
    expect(&rt, end == TablesEnd::StopsUnread(fault));
}

#[test]
fn a_second_stage_stops_in_its_wide_root(rt: HostRuntime) {
    let memory = with_words(&rt, rt.alloc(), &[]);
    let stages = Stages::Second {
        size: Size::Sv39,
        root: page(&rt, 8),
    };
    // bits 40:30 of the address are 600: the entry is in the second frame of the root
    let end = end_of_tables(&memory, stages, 0x96_0000_3000, AccessKind::Write);
    let wanted = guest_stops_at(
        second_stage(2, 600, 0x92c0),
        Flaw::Invalid,
        0x96_0000_3000,
        false,
    );
    expect(&rt, end == wanted);
}

/// Where the walk to the context of the device ends, in a memory that has these words, by a root in the frame 1.
fn locates(
    rt: &impl Abort,
    alloc: Global,
    words: &[Word],
    mode: DirectoryMode,
    id: DeviceId,
    wanted: DirectoryEnd,
)
    requires { mode ≢ Bare }
{
    let memory = with_words(rt, alloc, words);
    let end = end_of_directory(&memory, DirectoryPointer { mode, ppn: 1 }, id);
    expect(rt, end == wanted);
}

fn no_context(table: Table, index: u16, address: u64, cause: Cause) -> DirectoryEnd {
    DirectoryEnd::StopsAt {
        load: EntryLoad {
            table,
            index,
            address,
        },
        cause,
    }
}

#[test]
fn a_directory_stops_at_an_entry_or_at_the_context(rt: HostRuntime) {
    let mode = DirectoryMode::ThreeLevels;
    // DDI[2] is 1, DDI[1] is 4 and DDI[0] is 3
    let id = 0x1_0203;
    let table = Table::Directory { level: 2 };
    let wanted = no_context(table, 1, 0x1008, Cause::DirectoryEntryNotValid);
    locates(&rt, rt.alloc(), &[], mode, id, wanted);
    let upper = (0x1008, 2 * PAGE_NUMBER + POINTER);
    let table = Table::Directory { level: 1 };
    let wanted = no_context(table, 4, 0x2020, Cause::DirectoryEntryNotValid);
    locates(&rt, rt.alloc(), &[upper], mode, id, wanted);
    // a reserved bit is set
    let wanted = no_context(table, 4, 0x2020, Cause::DirectoryEntryMisconfigured);
    locates(
        &rt,
        rt.alloc(),
        &[upper, (0x2020, 3 * PAGE_NUMBER + 3)],
        mode,
        id,
        wanted,
    );
    // the context, of 32 bytes, isn't valid
    let wanted = no_context(Table::Contexts, 3, 0x3060, Cause::DirectoryEntryNotValid);
    locates(
        &rt,
        rt.alloc(),
        &[upper, (0x2020, 3 * PAGE_NUMBER + POINTER)],
        mode,
        id,
        wanted,
    );
    // it lies outside memory
    let wanted = no_context(Table::Contexts, 3, 0x40060, Cause::DirectoryLoadFault);
    locates(
        &rt,
        rt.alloc(),
        &[upper, (0x2020, 0x40 * PAGE_NUMBER + POINTER)],
        mode,
        id,
        wanted,
    );
}

#[test]
fn a_directory_stops_before_its_first_load(rt: HostRuntime) {
    let wanted = DirectoryEnd::StopsUnread(Cause::TransactionTypeDisallowed);
    locates(&rt, rt.alloc(), &[], DirectoryMode::OneLevel, 0x80, wanted);
    let wanted = DirectoryEnd::StopsUnread(Cause::AllInboundDisallowed);
    locates(&rt, rt.alloc(), &[], DirectoryMode::Off, 0x80, wanted);
}

use crate::expect::expect;
use bitflags::Flags;
use iom_base::{AccessKind, Cause, Ppn, Rights, Size};
use iom_phys_mem::{Bytes, Memory};
use iom_stage_walk::{
    Entry, Pte, PteFlags, WalkFault, Walked, entry_at, laws, walk_both, walk_first, walk_second,
};
use std::alloc::Global;
use std::process::Abort;

/// What a walk answers.
#[derive(Clone, Copy)]
enum Answer {
    /// A frame is reached, with rights, by a leaf of 4 KiB.
    At(u32, Rights),
    /// The same by a leaf with so many levels below it.
    AtLeaf(u32, Rights, u8),
    /// By the guest's tables in the frames 0x40, 0x41 and 0x42, and in a fourth where there are four.
    AtByGuest(u32, Rights, Option<u32>),
    /// By a guest's leaf of 2 MiB, in its tables in the frames 0x40 and 0x41.
    AtByGuestLeaf(u32, Rights),
    Fault(Cause),
    /// A fault of the second stage, at a guest physical address, which is a guest table's or not.
    Guest(Cause, u64, bool),
}

/// What is stored, and the answers of walks then. Tables of one stage alone have the size that the test names.
#[derive(Clone, Copy)]
enum Step {
    Put(u64, u64),
    /// The entry of a table's frame at an index.
    EntryAt(u64, u16, Entry),
    /// A read at the address, by the tables with this root.
    Read(u64, u64, Answer),
    Write(u64, u64, Answer),
    /// A read by the second stage whose root is in the frames from 0x30 on.
    SecondRead(u64, Answer),
    SecondWrite(u64, Answer),
    /// A write at the address by the guest's tables in its page 0, and by that second stage, each of its size.
    Both(Size, Size, u64, Answer),
}

type Walk = Result<Walked, WalkFault>;

fn reached(frame: u32, rights: Rights, level: u8, guest_frames: [Option<u32>; 4]) -> Walk {
    Ok(Walked {
        frame,
        rights,
        level,
        guest_frames,
    })
}

fn refused(cause: Cause, gpa: u64, implicit: bool) -> Walk {
    Err(WalkFault {
        cause,
        gpa,
        implicit,
    })
}

fn is_answered(rt: &impl Abort, shown: Walk, answer: Answer) {
    let wanted = match answer {
        Answer::At(frame, rights) => reached(frame, rights, 0, [None; 4]),
        Answer::AtLeaf(frame, rights, level) => reached(frame, rights, level, [None; 4]),
        Answer::AtByGuest(frame, rights, last) => {
            reached(frame, rights, 0, [Some(0x40), Some(0x41), Some(0x42), last])
        }
        Answer::AtByGuestLeaf(frame, rights) => {
            reached(frame, rights, 1, [Some(0x40), Some(0x41), None, None])
        }
        Answer::Fault(cause) => refused(cause, 0, false),
        Answer::Guest(cause, gpa, implicit) => refused(cause, gpa, implicit),
    };
    expect(rt, shown == wanted);
}

fn first(
    rt: &impl Abort,
    memory: &Memory,
    size: Size,
    root: u64,
    address: u64,
    kind: AccessKind,
    answer: Answer,
) {
    is_answered(rt, walk_first(memory, size, root, address, kind), answer);
}

fn second(
    rt: &impl Abort,
    memory: &Memory,
    size: Size,
    address: u64,
    kind: AccessKind,
    answer: Answer,
) {
    is_answered(rt, walk_second(memory, size, 0x30, address, kind), answer);
}

fn both(
    rt: &impl Abort,
    memory: &Memory,
    first_size: Size,
    second_size: Size,
    address: u64,
    answer: Answer,
) {
    let root = Ppn::new(0).expect(rt, "44 bits");
    let kind = AccessKind::Write;
    let shown = walk_both(memory, first_size, root, second_size, 0x30, address, kind);
    is_answered(rt, shown, answer);
}

fn effect(rt: &impl Abort, memory: &mut Memory, size: Size, step: Step) {
    match step {
        Step::Put(address, word) => expect(rt, memory.store_u64(address, word).is_some()),
        Step::EntryAt(frame, index, entry) => {
            expect(rt, entry_at(memory, frame, index) == entry);
        }
        Step::Read(root, address, answer) => {
            first(rt, memory, size, root, address, AccessKind::Read, answer);
        }
        Step::Write(root, address, answer) => {
            first(rt, memory, size, root, address, AccessKind::Write, answer);
        }
        Step::SecondRead(address, answer) => {
            second(rt, memory, size, address, AccessKind::Read, answer);
        }
        Step::SecondWrite(address, answer) => {
            second(rt, memory, size, address, AccessKind::Write, answer);
        }
        Step::Both(first_size, second_size, address, answer) => {
            both(rt, memory, first_size, second_size, address, answer);
        }
    }
}

fn takes(rt: &impl Abort, memory: &mut Memory, size: Size, steps: &[Step]) {
    for step in steps.iter() {
        effect(rt, memory, size, *step);
    }
}

/// A memory of so many frames takes the steps.
fn follow(rt: &impl Abort, alloc: Global, frames: u32, size: Size, steps: &[Step]) {
    let mut memory = Memory::new(alloc, frames).expect(rt, "memory for the frames");
    takes(rt, &mut memory, size, steps);
}

/// The bits of an entry's flags.
static FLAGS: [(PteFlags, u8); 8] = [
    (PteFlags::V, 0x01),
    (PteFlags::R, 0x02),
    (PteFlags::W, 0x04),
    (PteFlags::X, 0x08),
    (PteFlags::U, 0x10),
    (PteFlags::G, 0x20),
    (PteFlags::A, 0x40),
    (PteFlags::D, 0x80),
];

// Bits 7:0 are D A G U X W R V.
#[test]
fn flags_have_their_bits(rt: HostRuntime) {
    for (flag, bits) in FLAGS.iter() {
        expect(&rt, flag.bits() == *bits);
    }
}

/// Words with their page numbers, flags and what they are, worked out by hand: the page number begins at bit 10.
static ENTRIES: [(u64, u32, u8, Entry); 6] = [
    (0xe801, 58, 0x01, Entry::Pointer(58)),
    (0x1453, 5, 0x53, Entry::Leaf(5, Rights::R)),
    (0x14d7, 5, 0xd7, Entry::Leaf(5, Rights::RW)),
    (0x1457, 5, 0x57, Entry::Leaf(5, Rights::R)),
    (0x1452, 5, 0x52, Entry::Invalid),
    (0x1411, 5, 0x11, Entry::Invalid),
];

fn has_fields(rt: &impl Abort, word: u64, page: u64, software: u64, reserved: u64) {
    let pte = Pte::decode(word);
    expect(rt, pte.ppn() == page);
    expect(rt, u64::from(pte.software()) == software);
    expect(rt, u64::from(pte.reserved()) == reserved);
    expect(rt, pte.encode() == word);
}

fn is_entry(rt: &impl Abort, word: u64, page: u32, bits: u8, entry: &Entry) {
    let flags = PteFlags::from_bits_retain(bits);
    let pte = Pte::decode(word);
    expect(rt, pte.flags() == flags);
    expect(rt, pte.entry() == *entry);
    expect(rt, Pte::new(flags, page).encode() == word);
}

#[test]
fn the_bits_of_an_entry_are_its_fields(rt: HostRuntime) {
    for (word, page, bits, entry) in ENTRIES.iter() {
        has_fields(&rt, *word, u64::from(*page), 0, 0);
        is_entry(&rt, *word, *page, *bits, entry);
    }
    has_fields(&rt, 0xffc0_0000_0000_0300, 0, 3, 0x3ff);
}

/// A device's tables after `grant 000001 3 5 rw`, as a dump of memory showed them: root, middle and last table in
/// frames 59, 58 and 57, and at 0x39018 the bytes d7 14 00 00 00 00 00 00. The page is reached until it is released.
static GRANTED: [Step; 8] = [
    Step::Put(0x3_b000, 0xe801),
    Step::Put(0x3_a000, 0xe401),
    Step::Put(0x3_9018, 0x14d7),
    Step::EntryAt(59, 0, Entry::Pointer(58)),
    Step::Read(59, 0x3ffc, Answer::At(5, Rights::RW)),
    Step::Write(59, 0x3ffc, Answer::At(5, Rights::RW)),
    Step::Put(0x3_9018, 0),
    Step::Read(59, 0x3ffc, Answer::Fault(Cause::ReadPageFault)),
];

#[test]
fn a_granted_page_is_reached_until_it_is_released(rt: HostRuntime) {
    follow(&rt, rt.alloc(), 64, Size::Sv39, &GRANTED);
}

/// `grant 000001 67108863 5 r` besides: the last page of the lower half has tables in frames 56 and 55.
static LAST_PAGE: [Step; 10] = [
    Step::Put(0x3_b000, 0xe801),
    Step::Put(0x3_a000, 0xe401),
    Step::Put(0x3_9018, 0x14d7),
    Step::Put(0x3_b7f8, 0xe001),
    Step::Put(0x3_8ff8, 0xdc01),
    Step::Put(0x3_7ff8, 0x1453),
    Step::Read(59, 0x3f_ffff_f000, Answer::At(5, Rights::R)),
    Step::Write(59, 0x3f_ffff_f000, Answer::Fault(Cause::WritePageFault)),
    Step::Read(59, 0x40_0000_0000, Answer::Fault(Cause::ReadPageFault)),
    Step::Read(
        59,
        0xffff_ffff_ffff_f000,
        Answer::Fault(Cause::ReadPageFault),
    ),
];

#[test]
fn the_last_granted_page_may_be_read(rt: HostRuntime) {
    follow(&rt, rt.alloc(), 64, Size::Sv39, &LAST_PAGE);
}

/// Tables of four levels, in frames 59, 58, 57 and 56: the root has nine bits of the address from bit 39 on. Of its
/// entries 5 and 261 the second is that of the same address with bit 47 set, and bits 63:48 have to be as that one. A
/// pointer in the last table leads nowhere.
static FOUR_LEVELS: [Step; 13] = [
    Step::Put(0x3_b028, 0xe801),
    Step::Put(0x3_a038, 0xe401),
    Step::Put(0x3_9058, 0xe001),
    Step::Put(0x3_8068, 0x14d7),
    Step::Read(59, 0x281_c160_dff8, Answer::At(5, Rights::RW)),
    Step::Write(59, 0x281_c160_dff8, Answer::At(5, Rights::RW)),
    Step::Read(
        59,
        0xffff_0281_c160_dff8,
        Answer::Fault(Cause::ReadPageFault),
    ),
    Step::Put(0x3_b828, 0xe801),
    Step::Read(59, 0xffff_8281_c160_dff8, Answer::At(5, Rights::RW)),
    Step::Read(59, 0x8281_c160_dff8, Answer::Fault(Cause::ReadPageFault)),
    Step::Read(
        59,
        0xfffe_8281_c160_dff8,
        Answer::Fault(Cause::ReadPageFault),
    ),
    Step::Put(0x3_8068, 0x1401),
    Step::Write(59, 0x281_c160_dff8, Answer::Fault(Cause::WritePageFault)),
];

#[test]
fn an_address_of_four_levels_has_48_bits(rt: HostRuntime) {
    follow(&rt, rt.alloc(), 64, Size::Sv48, &FOUR_LEVELS);
}

/// The root 1: entry 0 is a leaf of 1 GiB at page 0, entry 1 leads to the table 2, whose entry 3 is one of 2 MiB at
/// 1,024. A superpage's frame is its page number with the low bits of the address in place of its own.
static SUPERPAGES: [Step; 15] = [
    Step::Put(0x1000, 0xd7),
    Step::Put(0x1008, 0x801),
    Step::Put(0x2018, 0x10_00d7),
    Step::Read(1, 0, Answer::AtLeaf(0, Rights::RW, 2)),
    Step::Read(1, 0x3e_8000, Answer::AtLeaf(1_000, Rights::RW, 2)),
    Step::Read(1, 0x7f_f000, Answer::AtLeaf(2_047, Rights::RW, 2)),
    Step::Read(1, 0x80_0000, Answer::Fault(Cause::ReadAccessFault)),
    Step::Read(1, 0x3fff_f000, Answer::Fault(Cause::ReadAccessFault)),
    Step::Read(1, 0x405f_f000, Answer::Fault(Cause::ReadPageFault)),
    Step::Read(1, 0x4060_0000, Answer::AtLeaf(1_024, Rights::RW, 1)),
    Step::Read(1, 0x4070_0000, Answer::AtLeaf(1_280, Rights::RW, 1)),
    Step::Read(1, 0x407f_f000, Answer::AtLeaf(1_535, Rights::RW, 1)),
    Step::Read(1, 0x4080_0000, Answer::Fault(Cause::ReadPageFault)),
    Step::Put(0x2018, 0x10_04d7),
    Step::Read(1, 0x4060_0000, Answer::Fault(Cause::ReadPageFault)),
];

#[test]
fn a_superpage_has_a_frame_for_each_page(rt: HostRuntime) {
    follow(&rt, rt.alloc(), 2048, Size::Sv39, &SUPERPAGES);
}

/// A leaf in the root of four levels is one of 512 GiB, at a multiple of 2^27 pages: 0, and 2^27, where there is no
/// memory. Half of that isn't aligned.
static LARGEST: [Step; 8] = [
    Step::Put(0x1000, 0xd7),
    Step::Read(1, 0, Answer::AtLeaf(0, Rights::RW, 3)),
    Step::Read(1, 0x3_fff8, Answer::AtLeaf(63, Rights::RW, 3)),
    Step::Read(1, 0x7f_ffff_fff8, Answer::Fault(Cause::ReadAccessFault)),
    Step::Put(0x1008, 0x20_0000_00d7),
    Step::Read(1, 0x80_0000_0000, Answer::Fault(Cause::ReadAccessFault)),
    Step::Put(0x1008, 0x10_0000_00d7),
    Step::Read(1, 0x80_0000_0000, Answer::Fault(Cause::ReadPageFault)),
];

#[test]
fn a_superpage_of_the_root_is_aligned(rt: HostRuntime) {
    follow(&rt, rt.alloc(), 64, Size::Sv48, &LARGEST);
}

/// A root outside memory is an access fault, where the address isn't refused before.
static OUTSIDE: [Step; 3] = [
    Step::Read(64, 0, Answer::Fault(Cause::ReadAccessFault)),
    Step::Write(u64::MAX, 0, Answer::Fault(Cause::WriteAccessFault)),
    Step::Write(64, 0x40_0000_0000, Answer::Fault(Cause::WritePageFault)),
];

#[test]
fn a_root_outside_memory_is_an_access_fault(rt: HostRuntime) {
    follow(&rt, rt.alloc(), 64, Size::Sv39, &OUTSIDE);
}

/// As an emulated processor and an emulated IOMMU answer: of a root of four frames from page 0x30 on, entry
/// 1,024 stands in the third, and an address of 42 bits is refused, whatever is mapped below. At the end a leaf of 2 MiB.
static UPPER: [Step; 10] = [
    Step::Put(0x3_2000, 0xd001),
    Step::Put(0x3_4000, 0xd401),
    Step::Put(0x3_5018, 0x80d7),
    Step::SecondWrite(0x100_0000_3010, Answer::At(0x20, Rights::RW)),
    Step::Put(0x3_2000, 0),
    Step::Put(0x3_0000, 0xd001),
    Step::SecondRead(0x3010, Answer::At(0x20, Rights::RW)),
    Step::SecondRead(
        0x200_0000_3010,
        Answer::Guest(Cause::ReadGuestPageFault, 0x200_0000_3010, false),
    ),
    Step::Put(0x3_4000, 0xd7),
    Step::SecondRead(0x3010, Answer::AtLeaf(3, Rights::RW, 1)),
];

#[test]
fn a_second_stage_translates_41_bits(rt: HostRuntime) {
    follow(&rt, rt.alloc(), 64, Size::Sv39, &UPPER);
}

/// As they answer too, of four levels: the entries 511, 512 and 2,047 of the root stand at the end of its first frame,
/// at the beginning of its second and at the end of its fourth, and an address of 51 bits is refused.
static WIDER: [Step; 11] = [
    Step::Put(0x3_0ff8, 0xd001),
    Step::Put(0x3_4008, 0xd401),
    Step::Put(0x3_5010, 0xd801),
    Step::Put(0x3_6018, 0x80d7),
    Step::SecondWrite(0xff80_4040_3010, Answer::At(0x20, Rights::RW)),
    Step::SecondRead(
        0x1_0000_4040_3010,
        Answer::Guest(Cause::ReadGuestPageFault, 0x1_0000_4040_3010, false),
    ),
    Step::Put(0x3_1000, 0xd001),
    Step::SecondRead(0x1_0000_4040_3010, Answer::At(0x20, Rights::RW)),
    Step::Put(0x3_3ff8, 0xd001),
    Step::SecondRead(0x3_ff80_4040_3010, Answer::At(0x20, Rights::RW)),
    Step::SecondWrite(
        0x5_0000_4040_3010,
        Answer::Guest(Cause::WriteGuestPageFault, 0x5_0000_4040_3010, false),
    ),
];

#[test]
fn a_second_stage_of_four_levels_translates_50_bits(rt: HostRuntime) {
    follow(&rt, rt.alloc(), 64, Size::Sv48, &WIDER);
}

/// The guest's tables are its pages 0, 1 and 2, and lead the page 3 to its page 9. The second stage has the four in
/// frames 0x40, 0x41, 0x42 and 0x20. As they answer too. At the end the guest has a leaf of 2 MiB, which leads the page 3 to
/// its page 3.
static BOTH: [Step; 18] = [
    Step::Put(0x4_0000, 0x401),
    Step::Put(0x4_1000, 0x801),
    Step::Put(0x4_2018, 0x24d7),
    Step::Put(0x3_0000, 0xd001),
    Step::Put(0x3_4000, 0xd401),
    Step::Put(0x3_5000, 0x1_00d7),
    Step::Put(0x3_5008, 0x1_04d7),
    Step::Put(0x3_5010, 0x1_08d7),
    Step::Put(0x3_5048, 0x80d7),
    Step::Both(
        Size::Sv39,
        Size::Sv39,
        0x3010,
        Answer::AtByGuest(0x20, Rights::RW, None),
    ),
    Step::Put(0x3_5010, 0),
    Step::Both(
        Size::Sv39,
        Size::Sv39,
        0x3010,
        Answer::Guest(Cause::WriteGuestPageFault, 0x2018, true),
    ),
    Step::Put(0x3_5010, 0x1_08d7),
    Step::Put(0x3_5048, 0),
    Step::Both(
        Size::Sv39,
        Size::Sv39,
        0x3010,
        Answer::Guest(Cause::WriteGuestPageFault, 0x9010, false),
    ),
    Step::Put(0x4_1000, 0xd7),
    Step::Put(0x3_5018, 0x80d7),
    Step::Both(
        Size::Sv39,
        Size::Sv39,
        0x3010,
        Answer::AtByGuestLeaf(0x20, Rights::RW),
    ),
];

#[test]
fn both_stages_lead_to_a_frame(rt: HostRuntime) {
    follow(&rt, rt.alloc(), 128, Size::Sv39, &BOTH);
}

/// A guest's tables of four levels, its pages 0 to 3 in frames 0x40 to 0x43, lead to its page 0x24_0205, through a
/// second stage of three. As they answer too.
static FOUR_OVER_THREE: [Step; 16] = [
    Step::Put(0x4_0028, 0x401),
    Step::Put(0x4_1038, 0x801),
    Step::Put(0x4_2058, 0xc01),
    Step::Put(0x4_3068, 0x9008_14d7),
    Step::Put(0x3_0000, 0xd001),
    Step::Put(0x3_4000, 0xd401),
    Step::Put(0x3_5000, 0x1_00d7),
    Step::Put(0x3_5008, 0x1_04d7),
    Step::Put(0x3_5010, 0x1_08d7),
    Step::Put(0x3_5018, 0x1_0cd7),
    Step::Put(0x3_0048, 0xd801),
    Step::Put(0x3_6008, 0xdc01),
    Step::Put(0x3_7028, 0x80d7),
    Step::Both(
        Size::Sv48,
        Size::Sv39,
        0x281_c160_d010,
        Answer::AtByGuest(0x20, Rights::RW, Some(0x43)),
    ),
    Step::Put(0x3_5018, 0),
    Step::Both(
        Size::Sv48,
        Size::Sv39,
        0x281_c160_d010,
        Answer::Guest(Cause::WriteGuestPageFault, 0x3068, true),
    ),
];

/// A guest's tables of three levels, in frames 0x40 to 0x42, lead to its page 0x4804_0205, through a second stage of
/// four. As they answer too.
static THREE_OVER_FOUR: [Step; 16] = [
    Step::Put(0x4_0038, 0x401),
    Step::Put(0x4_1058, 0x801),
    Step::Put(0x4_2068, 0x120_1008_14d7),
    Step::Put(0x3_0000, 0xd001),
    Step::Put(0x3_4000, 0xd401),
    Step::Put(0x3_5000, 0xd801),
    Step::Put(0x3_6000, 0x1_00d7),
    Step::Put(0x3_6008, 0x1_04d7),
    Step::Put(0x3_6010, 0x1_08d7),
    Step::Put(0x3_0048, 0xdc01),
    Step::Put(0x3_7008, 0xe001),
    Step::Put(0x3_8008, 0xe401),
    Step::Put(0x3_9028, 0x80d7),
    Step::Both(
        Size::Sv39,
        Size::Sv48,
        0x1_c160_d010,
        Answer::AtByGuest(0x20, Rights::RW, None),
    ),
    Step::Put(0x3_9028, 0),
    Step::Both(
        Size::Sv39,
        Size::Sv48,
        0x1_c160_d010,
        Answer::Guest(Cause::WriteGuestPageFault, 0x480_4020_5010, false),
    ),
];

#[test]
fn each_stage_has_its_own_size(rt: HostRuntime) {
    follow(&rt, rt.alloc(), 128, Size::Sv48, &FOUR_OVER_THREE);
    follow(&rt, rt.alloc(), 128, Size::Sv39, &THREE_OVER_FOUR);
}

#[test]
fn the_laws_can_be_called(_rt: HostRuntime) {
    laws::one_leaf();
    laws::one_end();
    laws::writes_as_reads();
    laws::same_path();
    laws::one_leaf_second();
    laws::one_end_second();
    laws::writes_as_reads_second();
    laws::same_path_second();
    laws::one_leaf_both();
    laws::one_end_both();
    laws::writes_as_reads_both();
    laws::guest_frames_are_led();
    laws::faults_are_reported();
}

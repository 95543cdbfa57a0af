use crate::expect::expect;
use bitflags::Flags;
use iom_base::{AccessKind, Cause, Mode, Rights, Sequence, Size, Span, Spare};
use std::alloc::{AllocError, Global};
use std::fmt::Display;
use std::process::Abort;
use std::test::Fail;

#[test]
fn rights_allow_what_they_name(rt: HostRuntime) {
    expect(&rt, Rights::R.allows(AccessKind::Read));
    expect(&rt, !Rights::R.allows(AccessKind::Write));
    expect(&rt, Rights::RW.allows(AccessKind::Read));
    expect(&rt, Rights::RW.allows(AccessKind::Write));
}

// Sets of bits that are never granted: no bit, and the write bit alone, since no page is write-only.
#[test]
fn other_bits_allow_nothing(rt: HostRuntime) {
    for bits in [0, 2] {
        let rights = Rights::from_bits_retain(bits);
        expect(&rt, !rights.allows(AccessKind::Read));
        expect(&rt, !rights.allows(AccessKind::Write));
    }
}

/// Levels of nine bits each: a page has 27 bits in three and 36 in four, of which the highest is 0 in the lower half.
/// Each level below the root is a table that may be missing.
static SIZES: [(Size, usize, u64, u32); 2] = [
    (Size::Sv39, 3, 67_108_864, 2),
    (Size::Sv48, 4, 34_359_738_368, 3),
];

#[test]
fn sizes_have_their_limits(rt: HostRuntime) {
    for (size, levels, pages, tables) in SIZES.iter() {
        expect(&rt, size.levels() == *levels);
        expect(&rt, size.page_limit() == *pages);
        expect(&rt, size.table_limit() == *tables);
    }
}

static MODES: [(Mode, Size, bool); 3] = [
    (Mode::First(Size::Sv48), Size::Sv48, false),
    (Mode::Second(Size::Sv39), Size::Sv39, false),
    (Mode::Both(Size::Sv48), Size::Sv48, true),
];

#[test]
fn modes_have_their_size(rt: HostRuntime) {
    for (mode, size, is_both) in MODES.iter() {
        expect(&rt, mode.size() == *size);
        expect(&rt, mode.is_both() == *is_both);
    }
}

/// The numbers are those of the standard's table of causes.
static CAUSES: [(Cause, u32, &str); 11] = [
    (Cause::ReadAccessFault, 5, "5"),
    (Cause::WriteAccessFault, 7, "7"),
    (Cause::ReadPageFault, 13, "13"),
    (Cause::WritePageFault, 15, "15"),
    (Cause::ReadGuestPageFault, 21, "21"),
    (Cause::WriteGuestPageFault, 23, "23"),
    (Cause::AllInboundDisallowed, 256, "256"),
    (Cause::DirectoryLoadFault, 257, "257"),
    (Cause::DirectoryEntryNotValid, 258, "258"),
    (Cause::DirectoryEntryMisconfigured, 259, "259"),
    (Cause::TransactionTypeDisallowed, 260, "260"),
];

#[test]
fn causes_have_their_numbers(rt: HostRuntime) {
    for (cause, code, text) in CAUSES.iter() {
        expect(&rt, u32::from(cause.code()) == *code);
        prints(&rt, rt.alloc(), cause, text);
    }
}

#[test]
fn faults_go_by_the_kind_of_access(rt: HostRuntime) {
    expect(&rt, Cause::access_fault(AccessKind::Read).code() == 5);
    expect(&rt, Cause::access_fault(AccessKind::Write).code() == 7);
    expect(&rt, Cause::page_fault(AccessKind::Read).code() == 13);
    expect(&rt, Cause::page_fault(AccessKind::Write).code() == 15);
    expect(&rt, Cause::guest_page_fault(AccessKind::Read).code() == 21);
    expect(&rt, Cause::guest_page_fault(AccessKind::Write).code() == 23);
}

#[test]
fn rights_print_as_letters(rt: HostRuntime) {
    prints(&rt, rt.alloc(), &Rights::R, "r");
    prints(&rt, rt.alloc(), &Rights::RW, "rw");
}

/// An address, a length, and the page, the offset and the length of the span.
static SPANS: [(u64, u64, Option<(u64, u16, u16)>); 17] = [
    (0, 1, Some((0, 0, 1))),
    (0, 4096, Some((0, 0, 4096))),
    (4095, 1, Some((0, 4095, 1))),
    (4096, 8, Some((1, 0, 8))),
    (0x1234_5678, 0x988, Some((0x12345, 0x678, 0x988))),
    (u64::MAX - 7, 8, Some((u64::MAX / 4096, 4088, 8))),
    (u64::MAX, 1, Some((u64::MAX / 4096, 4095, 1))),
    // no byte, or more than a page
    (0, 0, None),
    (u64::MAX, 0, None),
    (0, 4097, None),
    (0, u64::MAX, None),
    // one byte past the end of the page, where the sum wraps too
    (1, 4096, None),
    (4095, 2, None),
    (0x1234_5678, 0x989, None),
    (u64::MAX - 7, 9, None),
    (u64::MAX, 2, None),
    (u64::MAX, u64::MAX, None),
];

#[test]
fn spans_stay_in_their_page(rt: HostRuntime) {
    for (address, len, want) in SPANS.iter() {
        let span = Span::new(*address, *len);
        let shown = span.map(|span| (span.page, span.offset, span.len));
        expect(&rt, shown == *want);
    }
}

// The value is written as this text. A refused allocation is passed over, once: the second try has memory.
pub(crate) fn prints<T: Display>(rt: &impl Abort, alloc: Global, value: &T, want: &str) {
    let first = format!(in alloc; "{value}");
    let text = match first {
        Ok(text) => Ok(text),
        Err(AllocError) => format!(in alloc; "{value}"),
    };
    let text = text.expect(rt, "memory for a text");
    expect(rt, text.as_str() == want);
}

fn holds(rt: &impl Abort, values: &Sequence<u8>, wanted: &[u8]) {
    expect(rt, values.as_slice() == wanted);
}

// What is pushed at the end, at the front, and written in place.
fn pushed(alloc: Global) -> Result<Sequence<u8>, AllocError> {
    let mut values = Sequence::with_capacity(alloc, 3)?;
    values.push(5u8)?;
    values.push(6)?;
    values.push_front(4)?;
    *values.item_mut(1) = 9;
    Ok(values)
}

// A value is popped at the front.
fn pops(rt: &impl Abort, values: &mut Sequence<u8>) {
    holds(rt, values, &[4, 9, 6]);
    if !values.as_slice().is_empty() {
        expect(rt, values.pop_front() == 4);
    }
    holds(rt, values, &[9, 6]);
}

#[test]
fn a_sequence_keeps_its_order(rt: HostRuntime) {
    let mut values = pushed(rt.alloc()).expect(&rt, "memory for three");
    pops(&rt, &mut values);
}

#[test]
fn a_new_sequence_is_empty(rt: HostRuntime) {
    holds(&rt, &Sequence::new(rt.alloc()), &[]);
}

#[test]
fn spare_memory_holds_what_is_copied(rt: HostRuntime) -> Result<(), Fail> {
    let mut spare = Spare::new(rt.alloc());
    let first = spare.copy_of(rt.alloc(), &[1, 2, 3])?;
    holds(&rt, &first, &[1, 2, 3]);
    spare.put_back(first);
    holds(&rt, &spare.copy_of(rt.alloc(), &[4])?, &[4]);
    holds(&rt, &spare.copy_of(rt.alloc(), &[])?, &[]);
    Ok(())
}

#[test]
fn a_sequence_is_a_vector(rt: HostRuntime) -> Result<(), Fail> {
    let two = Sequence::from_vec(vec![in rt.alloc(); 7u8; 2]?);
    holds(&rt, &two, &[7, 7]);
    Ok(())
}

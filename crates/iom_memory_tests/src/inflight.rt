use crate::expect::expect;
use iom_base::AccessKind;
use iom_inflight::InFlight;
use std::alloc::Global;
use std::process::Abort;

/// What is done to the accesses in flight, and what is seen of them.
#[derive(Clone, Copy)]
enum Step<'a> {
    /// A device is added, or was before.
    Add(u32, bool),
    /// The device's write of the bytes at the address, or its read of one byte, is accepted on the frame 5, under this
    /// number, or isn't.
    Accept(u32, u64, &'a [u8], Option<u64>),
    /// Of the device's oldest access the frame, the offset and the length.
    Oldest(u32, Option<(u32, u16, u16)>),
    Count(u32, usize),
    Accepted(u32, u64),
    CountAll(usize),
    SoFar(u64),
    /// Whether of the accesses up to this number none of the kind is in flight.
    Drained(u64, AccessKind, bool),
}

fn accept(
    rt: &impl Abort,
    flights: &mut InFlight,
    device: u32,
    address: u64,
    bytes: &[u8],
) -> Option<u64> {
    let is_added = flights.is_added(device);
    assert!(rt; is_added);
    let has_room = flights.so_far() < u64::MAX;
    assert!(rt; has_room);
    let is_short = bytes.len() <= 8 && address % 4096 <= 4088;
    assert!(rt; is_short);
    if bytes.is_empty() {
        flights.accept_read(device, address, 1, 5)
    } else {
        flights.accept_write(device, address, bytes, 5)
    }
}

fn oldest_place(flights: &InFlight, device: u32) -> Option<(u32, u16, u16)> {
    let oldest = flights.oldest(device)?;
    Some((oldest.frame, oldest.offset, oldest.len))
}

fn effect(rt: &impl Abort, flights: &mut InFlight, step: Step) -> bool {
    match step {
        Step::Add(device, is_new) => flights.add(device) == is_new,
        Step::Accept(device, address, bytes, number) => {
            accept(rt, flights, device, address, bytes) == number
        }
        Step::Oldest(device, place) => oldest_place(flights, device) == place,
        Step::Count(device, count) => flights.count(device) == count,
        Step::Accepted(device, count) => flights.accepted(device) == count,
        Step::CountAll(count) => flights.count_all() == count,
        Step::SoFar(count) => flights.so_far() == count,
        Step::Drained(number, kind, is) => flights.drained(number, kind) == is,
    }
}

fn follow(rt: &impl Abort, alloc: Global, steps: &[Step]) {
    let mut flights = InFlight::new(alloc).expect(rt, "memory for the accesses");
    for step in steps.iter() {
        expect(rt, effect(rt, &mut flights, *step));
    }
}

/// The accesses of two devices are numbered apart, and come out in their order.
static ORDER: [Step; 13] = [
    Step::Add(7, true),
    Step::Add(9, true),
    Step::Add(7, false),
    Step::Oldest(7, None),
    Step::Accept(7, 0x3010, b"\xaa\xbb", Some(1)),
    Step::Accept(9, 0x4000, b"", Some(1)),
    Step::Accept(7, 0x3000, b"\xcc", Some(2)),
    Step::Count(7, 2),
    Step::SoFar(3),
    Step::Oldest(7, Some((5, 16, 2))),
    Step::Drained(1, AccessKind::Read, true),
    Step::Drained(2, AccessKind::Read, false),
    Step::Drained(1, AccessKind::Write, false),
];

#[test]
fn accesses_have_their_order(rt: HostRuntime) {
    follow(&rt, rt.alloc(), &ORDER);
}

/// Eight accesses of a device are in flight at most.
static NINTH: [Step; 14] = [
    Step::Add(7, true),
    Step::Accept(7, 0, b"", Some(1)),
    Step::Accept(7, 1, b"", Some(2)),
    Step::Accept(7, 2, b"", Some(3)),
    Step::Accept(7, 3, b"", Some(4)),
    Step::Accept(7, 4, b"", Some(5)),
    Step::Accept(7, 5, b"", Some(6)),
    Step::Accept(7, 6, b"", Some(7)),
    Step::Accept(7, 7, b"", Some(8)),
    Step::Accept(7, 8, b"", None),
    Step::Accept(7, 8, b"\xcc", None),
    Step::Count(7, 8),
    Step::Accepted(7, 8),
    Step::CountAll(8),
];

#[test]
fn a_ninth_access_is_refused(rt: HostRuntime) {
    follow(&rt, rt.alloc(), &NINTH);
}

/// A write of the bytes by one device is in flight.
fn with_write(rt: &impl Abort, alloc: Global, bytes: &[u8]) -> InFlight {
    let mut flights = InFlight::new(alloc).expect(rt, "memory for the accesses");
    flights.add(7);
    expect(rt, accept(rt, &mut flights, 7, 0x3000, bytes) == Some(1));
    flights
}

#[test]
fn equal_accesses_are_the_same(rt: HostRuntime) {
    let flights = with_write(&rt, rt.alloc(), b"\xcc");
    let equal = with_write(&rt, rt.alloc(), b"\xcc");
    expect(&rt, flights.is_same(&equal));
    let other = with_write(&rt, rt.alloc(), b"\xcd");
    expect(&rt, !flights.is_same(&other));
}

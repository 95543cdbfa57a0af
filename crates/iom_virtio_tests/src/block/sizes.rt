// The smallest queue and the largest, the longest chain, and a disk that fails at each of its calls.

use crate::block::bench::{Bench, Step};
use crate::shown::Seen;
use iom_virtqueue::ChainFault;
use std::process::Abort;

static SHORT: [Step; 4] = [
    Step::Poke(0x8, &[16]),
    Step::Poke(0x102, &[1]),
    Step::Turns(&[
        Seen::Read(0x102, 2),
        Seen::Read(0x104, 2),
        Seen::Read(0x0, 16),
        Seen::Chain(ChainFault::Short),
        Seen::Down,
    ]),
    Step::Status(15 + 64),
];

// A queue of one descriptor has no room for a header and a status.
#[test]
fn one_descriptor_is_too_short(rt: HostRuntime) {
    let mut bench = Bench::new(&rt, rt.alloc(), 1, 0);
    bench.follow(&rt, &SHORT);
}

// A chain of all descriptors: the header, 254 buffers of an IN of one sector, every other of which is empty, and
// the status. The last two are as long as what is left of the sector: 127 buffers of four bytes are 508.
fn puts_longest(rt: &impl Abort, bench: &mut Bench) {
    bench.memory.poke_descriptor(rt, 0, 0x1b10, 16, 1, 1);
    for place in 0..254u16 {
        let len = if place % 2 == 0 || place == 253 { 4 } else { 0 };
        let at = 0x1b40 + 2 * (place + place % 2);
        bench
            .memory
            .poke_descriptor(rt, place + 1, at, len, 3, place + 2);
    }
    bench.memory.poke_descriptor(rt, 255, 0x1b20, 1, 2, 0);
}

/// The status, the used idx and the used element, once all was read and written.
static LONGEST: [Step; 5] = [
    Step::Poke(0x1b20, &[255]),
    Step::Poke(0x1002, &[1]),
    Step::Ends(Seen::Finished(0, 513)),
    Step::Bytes(0x1b20, &[0]),
    Step::Bytes(0x1302, &[1, 0, 0, 0, 0, 0, 1, 2, 0, 0]),
];

// A queue of 256 descriptors, all in one chain. The table is at 0, the rings are at 0x1000 and 0x1300.
#[test]
fn the_longest_chain_is_served(rt: HostRuntime) {
    let mut bench = Bench::largest(&rt, rt.alloc());
    puts_longest(&rt, &mut bench);
    bench.follow(&rt, &LONGEST);
}

/// A call at which the disk fails, the status of the OUT, that of the IN and how many bytes are written for it, and
/// which bytes the four sectors of data then have. Sevens are written, and nines stand there before the IN.
static CALLS: [(u64, u8, u8, u32, [u8; 4]); 8] = [
    (1, 1, 0, 2049, [0, 0, 0, 0]),
    (2, 1, 0, 2049, [7, 0, 0, 0]),
    (3, 1, 0, 2049, [7, 7, 0, 0]),
    (4, 1, 0, 2049, [7, 7, 7, 0]),
    (5, 0, 1, 1, [9, 9, 9, 9]),
    (6, 0, 1, 513, [7, 9, 9, 9]),
    (7, 0, 1, 1025, [7, 7, 9, 9]),
    (8, 0, 1, 1537, [7, 7, 7, 9]),
];

/// A request of four sectors: header at 0x800, status at 0x810, data at 0x1000.
static OUT: [Step; 5] = [
    Step::Describe(0, 0x800, 16, 1, 1),
    Step::Describe(1, 0x1000, 2048, 1, 2),
    Step::Describe(2, 0x810, 1, 2, 0),
    Step::Poke(0x800, &[1]),
    Step::Poke(0x102, &[1]),
];

static IN: [Step; 3] = [
    Step::Describe(1, 0x1000, 2048, 3, 2),
    Step::Poke(0x800, &[0]),
    Step::Poke(0x102, &[2]),
];

// The request is served, where the data has this byte everywhere.
fn serves(
    rt: &impl Abort,
    bench: &mut Bench,
    request: &[Step],
    byte: u8,
    status: u8,
    written: u32,
) {
    for n in 0..2048u16 {
        bench.memory.put(0x1000 + n, byte);
    }
    bench.follow(rt, request);
    bench.ends(rt, Seen::Finished(0, written));
    bench.memory.expect_byte(rt, 0x810, status);
}

// Each sector of the data begins and ends with this byte of it.
fn expect_data(rt: &impl Abort, bench: &Bench, bytes: &[u8; 4]) {
    let mut at = 0x1000u16;
    for byte in bytes.iter() {
        bench.memory.expect_byte(rt, at, *byte);
        bench.memory.expect_byte(rt, at.wrapping_add(511), *byte);
        at = at.wrapping_add(512);
    }
}

// The disk is called four times by an OUT, and four times by the IN that follows. The request in which it
// fails ends IOERR; the sectors before that call are done. (After an OUT that failed at its k-th sector the
// IN is read by the calls that follow, of which none fails.)
#[test]
fn a_disk_fails_at_each_call(rt: HostRuntime) {
    for (call, wrote, read, written, bytes) in CALLS.iter() {
        let mut bench = Bench::new(&rt, rt.alloc(), 4, *call);
        serves(&rt, &mut bench, &OUT, 7, *wrote, 1);
        serves(&rt, &mut bench, &IN, 9, *read, *written);
        expect_data(&rt, &bench, bytes);
    }
}

use crate::expect::expect;
use crate::queue::bench::Bench;
use crate::shown::Seen;
use iom_virtqueue::{ChainFault, Layout};
use std::process::Abort;

// A queue has a power of two of descriptors, from 1 to 256.
#[test]
fn sizes_are_powers_of_two(rt: HostRuntime) {
    for size in 0..600u64 {
        let is_size = size.count_ones() == 1 && size <= 256;
        expect(&rt, Layout::new(size, 0, 0, 0).is_some() == is_size);
    }
}

/// Where the parts of a queue may lie, and where not: none may lie off its alignment.
static PLACES: [(u64, u64, u64, bool); 4] = [
    (16, 0x1002, 0x1404, true),
    (8, 0x1000, 0x1400, false),
    (0, 0x1001, 0x1400, false),
    (0, 0x1000, 0x1402, false),
];

// No part may lie off its alignment.
#[test]
fn parts_are_aligned(rt: HostRuntime) {
    for (table, available, used, is_layout) in PLACES.iter() {
        let layout = Layout::new(4, *table, *available, *used);
        expect(&rt, layout.is_some() == *is_layout);
    }
}

// One request: nothing is new at first, and then the entry of this number is used.
fn serves(rt: &impl Abort, bench: &mut Bench, idx: u16, slot: u16) {
    let slot = u64::from(slot);
    bench.turns(rt, Seen::Read(0x1002, 2));
    bench.memory.poke_half(rt, 0x1002, idx);
    bench.turns(rt, Seen::Read(0x1002, 2));
    bench.turns(rt, Seen::Read(0x1004 + 2 * slot, 2));
    bench.turns(rt, Seen::Read(0x0, 16));
    bench.turns(rt, Seen::Read(0x10, 16));
    bench.finishes(rt, 1);
    bench.turns(rt, Seen::Wrote(0x1404 + 8 * slot, 8));
    bench.turns(rt, Seen::Wrote(0x1402, 2));
    bench.memory.expect_half(rt, 0x1402, idx);
}

fn puts_two(rt: &impl Abort, bench: &mut Bench) {
    bench.memory.poke_descriptor(rt, 0, 0x1000, 16, 1, 1);
    bench.memory.poke_descriptor(rt, 1, 0x1800, 1, 2, 0);
}

// More requests than an idx can count, of queues of two descriptors and of 256: each ring entry is used in its turn.
#[test]
fn rings_and_indices_go_round(rt: HostRuntime) {
    for size in [2u16, 256] {
        let mut bench = Bench::new(&rt, rt.alloc(), u64::from(size));
        puts_two(&rt, &mut bench);
        for number in 0..65_540u32 {
            let slot = (number % 256) as u16 & size.wrapping_sub(1);
            serves(&rt, &mut bench, ((number + 1) % 65536) as u16, slot);
        }
    }
}

/// The size of a queue, the avail idx, and what comes of it.
static AHEAD: [(u64, u16, Seen); 4] = [
    (1, 1, Seen::Read(0x1002, 2)),
    (1, 2, Seen::Chain(ChainFault::BadIndex)),
    (4, 4, Seen::Read(0x1002, 2)),
    (4, 5, Seen::Chain(ChainFault::BadIndex)),
];

// The avail idx may be as far ahead as the queue is large, and not one farther.
#[test]
fn an_index_too_far_ahead_is_a_fault(rt: HostRuntime) {
    for (size, idx, shown) in AHEAD.iter() {
        let mut bench = Bench::new(&rt, rt.alloc(), *size);
        bench.memory.poke_half(&rt, 0x1002, *idx);
        bench.turns(&rt, *shown);
    }
}

// All descriptors of a queue of 256 in one chain, with a status at its end. Its first buffer has a MiB and so many bytes
// more.
fn puts_all(rt: &impl Abort, bench: &mut Bench, more: u8) {
    for index in 0..255u16 {
        bench.memory.poke_descriptor(rt, index, 0, 0, 1, index + 1);
    }
    bench.memory.poke(rt, 0x8, &[more, 0, 16, 0]);
    bench.memory.poke_descriptor(rt, 255, 0, 1, 2, 0);
    bench.memory.poke_half(rt, 0x1002, 1);
    bench.turns(rt, Seen::Read(0x1002, 2));
    bench.turns(rt, Seen::Read(0x1004, 2));
}

fn reads_all(rt: &impl Abort, bench: &mut Bench) {
    for index in 0..256 {
        bench.turns(rt, Seen::Read(16 * index, 16));
    }
    bench.finishes(rt, 1);
}

// A chain of all 256 descriptors is read whole, with readable bytes up to the limit.
#[test]
fn a_chain_may_have_all_descriptors(rt: HostRuntime) {
    let mut bench = Bench::new(&rt, rt.alloc(), 256);
    puts_all(&rt, &mut bench, 0);
    reads_all(&rt, &mut bench);
}

// With one byte more it is too long.
#[test]
fn a_chain_may_be_too_long(rt: HostRuntime) {
    let mut bench = Bench::new(&rt, rt.alloc(), 256);
    puts_all(&rt, &mut bench, 1);
    bench.turns(&rt, Seen::Chain(ChainFault::TooLong));
    bench.turns(&rt, Seen::Idle);
}

use crate::expect::expect;
use iom_virtqueue::{Descriptor, Layout, Link, Phase, Queue, Want, piece_of};
use std::process::Abort;

const EMPTY: Link = Link {
    index: 0,
    descriptor: Descriptor {
        address: 7,
        len: 0,
        flags: 0,
        next: 0,
    },
};

/// Buffers of which some are empty, one crosses a page, and one wraps.
static LINKS: [Link; 5] = [
    EMPTY,
    Link {
        index: 0,
        descriptor: Descriptor {
            address: 0xfff,
            len: 3,
            flags: 0,
            next: 0,
        },
    },
    EMPTY,
    Link {
        index: 0,
        descriptor: Descriptor {
            address: u64::MAX - 7,
            len: 16,
            flags: 0,
            next: 0,
        },
    },
    EMPTY,
];

/// Which byte, how many at most, and the piece that begins there.
static PIECES: [(u64, u32, u64, u32); 6] = [
    (0, 512, 0xfff, 1),
    (1, 512, 0x1000, 2),
    (1, 1, 0x1000, 1),
    (3, 512, u64::MAX - 7, 8),
    (11, 512, 0, 8),
    (18, 512, 7, 1),
];

fn is_piece(n: u64, most: u32, address: u64, len: u32) -> bool {
    match piece_of(&LINKS, n, most) {
        Some(piece) => piece.address == address && piece.len == len,
        None => false,
    }
}

// Pieces are cut at the end of a buffer and of a page. Empty buffers are passed over, and addresses wrap.
#[test]
fn pieces_are_cut(rt: HostRuntime) {
    for (n, most, address, len) in PIECES.iter() {
        expect(&rt, is_piece(*n, *most, *address, *len));
    }
    expect(&rt, piece_of(&LINKS, 19, 512).is_none());
    expect(&rt, piece_of(&[], 0, 512).is_none());
}

// A read is wanted at this address.
fn wants(rt: &impl Abort, queue: &Queue, expected: u64) {
    match queue.next() {
        Want::Read { address, len: _ } => expect(rt, address == expected),
        _ => expect(rt, false),
    }
}

// A read is wanted at this address, which gives 1.
fn reads_one(rt: &impl Abort, queue: &mut Queue, expected: u64) {
    wants(rt, queue, expected);
    if let Want::Read { address: _, len: 2 } = queue.next() {
        expect(rt, queue.took(&[1, 0]).is_ok());
    }
}

// The rings may lie anywhere: their addresses wrap too.
#[test]
fn rings_wrap(rt: HostRuntime) {
    let top = u64::MAX - 15;
    let mut queue = Queue::new(Layout::new(4, top, u64::MAX - 1, 4).expect(&rt, "a layout"));
    reads_one(&rt, &mut queue, 0);
    reads_one(&rt, &mut queue, 2);
    let is_table = queue.phase() == Phase::Table(1);
    expect(&rt, is_table);
    wants(&rt, &queue, 0);
}

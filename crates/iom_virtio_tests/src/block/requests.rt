use crate::block::bench::{Bench, Step};
use crate::shown::Seen;

/// A call at which the disk fails, or 0, and what is done then.
static RUNS: [(u64, &[Step]); 10] = [
    // A disk fails at the second of two sectors: the request ends IOERR, with one byte written. The same head again ends
    // OK, and an IN then reads what was written.
    (
        2,
        &[
            Step::Request(1, 0, 4),
            Step::Turns(&[Seen::Read(0x1010, 512), Seen::Read(0x1210, 512)]),
            Step::Finishes(1),
            Step::Bytes(0x200, &[0, 0, 1, 0, 0, 0, 0, 0, 1, 0, 0, 0]),
            Step::Poke(0x1010, &[0xab]),
            Step::Poke(0x102, &[2]),
            Step::Turns(&[
                Seen::Read(0x102, 2),
                Seen::Read(0x106, 2),
                Seen::Read(0x0, 16),
                Seen::Read(0x10, 16),
                Seen::Read(0x1000, 16),
                Seen::Read(0x1010, 512),
                Seen::Read(0x1210, 512),
                Seen::Wrote(0x1800, 1),
                Seen::Wrote(0x20c, 8),
                Seen::Wrote(0x202, 2),
                Seen::Finished(0, 1),
            ]),
            Step::Bytes(0x1800, &[0]),
            Step::Describe(0, 0x1000, 16, 1, 1),
            Step::Describe(1, 0x1800, 513, 2, 0),
            Step::Poke(0x1000, &[0]),
            Step::Poke(0x102, &[3]),
            Step::Turns(&[
                Seen::Read(0x102, 2),
                Seen::Read(0x108, 2),
                Seen::Read(0x0, 16),
                Seen::Read(0x10, 16),
                Seen::Read(0x1000, 16),
                Seen::Wrote(0x1800, 512),
                Seen::Wrote(0x1a00, 1),
                Seen::Wrote(0x214, 8),
                Seen::Wrote(0x202, 2),
                Seen::Finished(0, 513),
                Seen::Read(0x102, 2),
                Seen::Idle,
            ]),
            Step::Bytes(0x1800, &[0xab]),
            Step::Bytes(0x1a00, &[0]),
        ],
    ),
    // It fails at no call. At its first call the second sector isn't read any more; at a third call there is none that
    // could fail.
    (
        0,
        &[
            Step::Request(1, 0, 4),
            Step::Turns(&[Seen::Read(0x1010, 512), Seen::Read(0x1210, 512)]),
            Step::Finishes(0),
        ],
    ),
    (
        1,
        &[
            Step::Request(1, 0, 4),
            Step::Turns(&[Seen::Read(0x1010, 512)]),
            Step::Finishes(1),
        ],
    ),
    (
        3,
        &[
            Step::Request(1, 0, 4),
            Step::Turns(&[Seen::Read(0x1010, 512), Seen::Read(0x1210, 512)]),
            Step::Finishes(0),
        ],
    ),
    // Data that ends in the middle of a sector, and a sector past the disk's end, with data and without: the status of
    // each, and no data is read.
    (0, &[Step::Request(1, 0, 3), Step::Finishes(1)]),
    (0, &[Step::Request(1, 3, 4), Step::Finishes(1)]),
    (0, &[Step::Request(1, 4, 0), Step::Finishes(0)]),
    (0, &[Step::Request(1, 5, 0), Step::Finishes(1)]),
    // A flush, and a type that isn't known.
    (0, &[Step::Request(4, 0, 0), Step::Finishes(0)]),
    (0, &[Step::Request(5, 0, 4), Step::Finishes(2)]),
];

// Each access of a request, and its status, for each reason that it has.
#[test]
fn requests_end_for_their_reasons(rt: HostRuntime) {
    for (call, steps) in RUNS.iter() {
        let mut bench = Bench::new(&rt, rt.alloc(), 4, *call);
        bench.follow(&rt, steps);
    }
}

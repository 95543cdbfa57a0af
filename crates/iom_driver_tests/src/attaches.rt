use crate::bench::{FIRST, OK, Run, Start, Step, follow};

/// What an attach writes.
static RUNS: [Run; 2] = [
    // With one level the context of id 1 stands in the directory's root, page 0x3c; the tables' root is page 0x3b.
    (
        "a context in the root",
        Start::Usual,
        &[
            Step::Plug(1, OK),
            Step::Attach(1, FIRST, OK),
            Step::Words(0x3c020, &[1, 0, 0x1000, 8 << 60 | 0x3b]),
        ],
    ),
    // With three levels the path of the highest id lacks two pages, 0xffb and 0xffa, and the tables' root is page
    // 0xff9.
    (
        "a context two pages below",
        Start::Sized(4096, 3),
        &[
            Step::Plug(0xff_ffff, OK),
            Step::Attach(0xff_ffff, FIRST, OK),
            Step::Words(0xff_c7f8, &[0x3fec01]),
            Step::Words(0xff_bff8, &[0x3fe801]),
            Step::Words(0xff_afe0, &[1, 0, 0x1000, 8 << 60 | 0xff9]),
        ],
    ),
];

// Each step is answered as its run says.
#[test]
fn contexts_are_written(rt: HostRuntime) {
    follow(&rt, rt.alloc(), &RUNS);
}

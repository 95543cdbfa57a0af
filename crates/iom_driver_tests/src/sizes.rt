use crate::bench::{FIRST, OK, Run, Start, Step, follow};
use iom_base::{Mode, Refusal, Size};

/// The modes, with tables of four levels.
const FIRST_48: Mode = Mode::First(Size::Sv48);

const SECOND_48: Mode = Mode::Second(Size::Sv48);

const BOTH_48: Mode = Mode::Both(Size::Sv48);

/// Of devices with tables of four levels.
static RUNS: [Run; 5] = [
    // Mode 9 stands in each context where three levels have mode 8; the roots are as large.
    (
        "a first stage",
        Start::Usual,
        &[
            Step::Plug(1, OK),
            Step::Attach(1, FIRST_48, OK),
            Step::Words(0x3c020, &[1, 0, 0x1000, 9 << 60 | 0x3b]),
        ],
    ),
    (
        "a second stage",
        Start::Usual,
        &[
            Step::Plug(1, OK),
            Step::Attach(1, SECOND_48, OK),
            Step::Words(0x3c020, &[1, 0x9000_1000_0000_0038, 0, 0]),
        ],
    ),
    (
        "both stages",
        Start::Usual,
        &[
            Step::Plug(1, OK),
            Step::Attach(1, BOTH_48, OK),
            Step::Words(0x3c020, &[1, 0x9000_1000_0000_0038, 0x1000, 9 << 60]),
        ],
    ),
    // Each device has the limit of its own size. The tables of the last page of four levels are frames 57, 56 and 55:
    // entry 255 of root 58, and the last entry of each.
    (
        "the last page of each size",
        Start::Usual,
        &[
            Step::Plug(1, OK),
            Step::Plug(2, OK),
            Step::Attach(1, FIRST, OK),
            Step::Attach(2, FIRST_48, OK),
            Step::Grant(1, 1 << 26, 5, Err(Refusal::IovaOutOfRange)),
            Step::Grant(2, 1 << 35, 5, Err(Refusal::IovaOutOfRange)),
            Step::Grant(2, (1 << 35) - 1, 5, OK),
            Step::Words(0x3a7f8, &[57 << 10 | 1]),
            Step::Words(0x39ff8, &[56 << 10 | 1]),
            Step::Words(0x38ff8, &[55 << 10 | 1]),
            Step::Words(0x37ff8, &[0x14d7]),
            Step::Grant(1, (1 << 26) - 1, 5, OK),
            Step::Grant(2, 1 << 26, 6, OK),
        ],
    ),
    // After these grants frames 53 to 55 are free. A page beyond the first 512 GiB lacks three tables, for which two
    // frames besides its own are too few; one in them lacks two.
    (
        "three tables and two frames",
        Start::Usual,
        &[
            Step::Plug(1, OK),
            Step::Attach(1, FIRST_48, OK),
            Step::GrantEach(1, 0, 53),
            Step::Grant(1, 1 << 27, 53, Err(Refusal::NoFrames)),
            Step::Free(55, true),
            Step::Grant(1, 1 << 18, 53, OK),
            Step::Words(0x3a008, &[55 << 10 | 1]),
            Step::Words(0x37000, &[54 << 10 | 1]),
            Step::Words(0x36000, &[53 << 10 | 0xd7]),
        ],
    ),
];

// Each step is answered as its run says.
#[test]
fn sizes_are_kept_apart(rt: HostRuntime) {
    follow(&rt, rt.alloc(), &RUNS);
}

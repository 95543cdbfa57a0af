use crate::bench::{BOTH, FIRST, OK, Run, SECOND, Start, Step, follow};
use iom_base::Refusal;

/// Of devices with a second stage.
static RUNS: [Run; 8] = [
    // Four side by side: frames 56 to 59, the first of which the context of id 1 names, with Sv39x4 and GSCID 1; and
    // no first stage.
    (
        "a root of four frames",
        Start::Usual,
        &[
            Step::Plug(1, OK),
            Step::Attach(1, SECOND, OK),
            Step::Words(0x3c020, &[1, 0x8000_1000_0000_0038, 0, 0]),
            Step::Free(55, true),
            Step::Reserved(56, true),
            Step::Reserved(57, true),
            Step::Reserved(58, true),
            Step::Reserved(59, true),
        ],
    ),
    // In both stages the root of the first is guest page 0, and the number is the PSCID and the GSCID.
    (
        "a guest root at page 0",
        Start::Usual,
        &[
            Step::Plug(1, OK),
            Step::Attach(1, BOTH, OK),
            Step::Words(0x3c020, &[1, 0x8000_1000_0000_0038, 0x1000, 8 << 60]),
        ],
    ),
    // The tables of guest page 3 are frames 55 and 54, and the leaf is as that of a first stage.
    (
        "a grant of a guest page",
        Start::Usual,
        &[
            Step::Plug(1, OK),
            Step::Attach(1, SECOND, OK),
            Step::Grant(1, 3, 5, OK),
            Step::Words(0x38000, &[55 << 10 | 1]),
            Step::Words(0x37000, &[54 << 10 | 1]),
            Step::Words(0x36018, &[0x14d7]),
            Step::Grant(1, (1 << 26) - 1, 6, OK),
            Step::Words(0x387f8, &[53 << 10 | 1]),
        ],
    ),
    // A release is of GSCID 1 and guest page 3: IOTINVAL.GVMA; a detach of the whole guest.
    (
        "commands name the guest",
        Start::Usual,
        &[
            Step::Plug(2, OK),
            Step::Attach(2, SECOND, OK),
            Step::Grant(2, 3, 5, OK),
            Step::Release(2, 3, Ok(1)),
            Step::Words(
                0x3f000,
                &[
                    0x0000_1002_0000_0481,
                    0x0000_0000_0000_0c00,
                    0x0000_0001_0000_3402,
                ],
            ),
            Step::Complete(1),
            Step::Poll(1, 1, false),
            Step::Detach(2, Ok(2)),
            Step::Words(0x3f020, &[0x0000_0202_0000_0003]),
            Step::Words(0x3f030, &[0x0000_1002_0000_0081, 0, 0x0000_0002_0000_3402]),
        ],
    ),
    // The same in both stages.
    (
        "commands name the guest in both stages",
        Start::Usual,
        &[
            Step::Plug(2, OK),
            Step::Attach(2, BOTH, OK),
            Step::Grant(2, 3, 5, OK),
            Step::Release(2, 3, Ok(1)),
            Step::Words(
                0x3f000,
                &[
                    0x0000_1002_0000_0481,
                    0x0000_0000_0000_0c00,
                    0x0000_0001_0000_3402,
                ],
            ),
            Step::Complete(1),
            Step::Poll(1, 1, false),
            Step::Detach(2, Ok(2)),
            Step::Words(0x3f020, &[0x0000_0202_0000_0003]),
            Step::Words(0x3f030, &[0x0000_1002_0000_0081, 0, 0x0000_0002_0000_3402]),
        ],
    ),
    // All four are given back once the detach is confirmed, and not before.
    (
        "a root is given back whole",
        Start::Usual,
        &[
            Step::Plug(1, OK),
            Step::Attach(1, SECOND, OK),
            Step::Detach(1, Ok(1)),
            Step::Reserved(56, true),
            Step::Reserved(59, true),
            Step::Complete(1),
            Step::Poll(1, 1, false),
            Step::Free(56, true),
            Step::Free(57, true),
            Step::Free(58, true),
            Step::Free(59, true),
        ],
    ),
    // A directory of three levels, where device 1 took frames 55 to 59: after these grants frames 48 to 51 are free
    // side by side, and no other four, nor any frame above them.
    //
    // A device whose path lacks two pages takes 51 and 50 for them, and no run is left for its root; one whose path
    // lacks none takes the run.
    (
        "pages are taken before the root",
        Start::Sized(64, 3),
        &[
            Step::Plug(1, OK),
            Step::Attach(1, FIRST, OK),
            Step::Grant(1, 0, 0, OK),
            Step::Grant(1, 1, 4, OK),
            Step::Grant(1, 2, 8, OK),
            Step::Grant(1, 3, 12, OK),
            Step::Grant(1, 4, 16, OK),
            Step::Grant(1, 5, 20, OK),
            Step::Grant(1, 6, 24, OK),
            Step::Grant(1, 7, 28, OK),
            Step::Grant(1, 8, 32, OK),
            Step::Grant(1, 9, 36, OK),
            Step::Grant(1, 10, 40, OK),
            Step::Grant(1, 11, 44, OK),
            Step::GrantEach(1, 52, 55),
            Step::Plug(0x1_0000, OK),
            Step::Plug(2, OK),
            Step::Attach(0x1_0000, SECOND, Err(Refusal::NoFrames)),
            Step::Free(51, true),
            Step::Attach(2, BOTH, OK),
            Step::Reserved(48, true),
            Step::Reserved(51, true),
        ],
    ),
    // A directory of three levels, where device 1 took frames 55 to 59: after these grants frames 48 to 51 are free
    // side by side, and no other four, nor any frame above them.
    //
    // Three free frames side by side, and single ones, are no place for a root of a second stage; one of a first
    // stage has place.
    (
        "of an attach without a run",
        Start::Sized(64, 3),
        &[
            Step::Plug(1, OK),
            Step::Attach(1, FIRST, OK),
            Step::Grant(1, 0, 0, OK),
            Step::Grant(1, 1, 4, OK),
            Step::Grant(1, 2, 8, OK),
            Step::Grant(1, 3, 12, OK),
            Step::Grant(1, 4, 16, OK),
            Step::Grant(1, 5, 20, OK),
            Step::Grant(1, 6, 24, OK),
            Step::Grant(1, 7, 28, OK),
            Step::Grant(1, 8, 32, OK),
            Step::Grant(1, 9, 36, OK),
            Step::Grant(1, 10, 40, OK),
            Step::Grant(1, 11, 44, OK),
            Step::GrantEach(1, 52, 55),
            Step::Grant(1, 48, 48, OK),
            Step::Plug(2, OK),
            Step::Attach(2, SECOND, Err(Refusal::NoFrames)),
            Step::Attach(2, BOTH, Err(Refusal::NoFrames)),
            Step::Attach(2, FIRST, OK),
            Step::Reserved(51, true),
        ],
    ),
];

// Each step is answered as its run says.
#[test]
fn second_stages_are_written(rt: HostRuntime) {
    follow(&rt, rt.alloc(), &RUNS);
}

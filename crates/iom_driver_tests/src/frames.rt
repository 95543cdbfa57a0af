use crate::bench::{FIRST, OK, Run, Start, Step, follow};

/// Which frames are free, and which are reserved.
static RUNS: [Run; 3] = [
    // A frame is free before it is granted, and again once its release is confirmed.
    (
        "a frame is free once its release is confirmed",
        Start::Usual,
        &[
            Step::Plug(1, OK),
            Step::Attach(1, FIRST, OK),
            Step::Free(5, true),
            Step::CountFree(59),
            Step::Grant(1, 3, 5, OK),
            Step::Free(5, false),
            Step::CountFree(56),
            Step::Release(1, 3, Ok(1)),
            Step::Free(5, false),
            Step::Complete(1),
            Step::Free(5, false),
            Step::Poll(1, 1, false),
            Step::Free(5, true),
        ],
    ),
    // Tables and queues are reserved, and so not free; nor is a frame outside memory.
    (
        "reserved frames are not free",
        Start::Usual,
        &[
            Step::Free(59, true),
            Step::Plug(1, OK),
            Step::Attach(1, FIRST, OK),
            Step::Reserved(59, true),
            Step::Free(59, false),
            Step::Reserved(60, true),
            Step::Reserved(63, true),
            Step::Free(63, false),
            Step::Reserved(64, false),
            Step::Free(64, false),
        ],
    ),
    // The frame that is granted becomes no table, though it is the highest free one.
    (
        "the granted frame is passed over",
        Start::Usual,
        &[
            Step::Plug(1, OK),
            Step::Attach(1, FIRST, OK),
            Step::Grant(1, 3, 58, OK),
            Step::Reserved(58, false),
            Step::Reserved(57, true),
            Step::Reserved(56, true),
            Step::Free(55, true),
        ],
    ),
];

// Each step is answered as its run says.
#[test]
fn frames_are_told(rt: HostRuntime) {
    follow(&rt, rt.alloc(), &RUNS);
}

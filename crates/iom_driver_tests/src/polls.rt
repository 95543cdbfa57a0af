use crate::bench::{FIRST, OK, Run, Start, Step, follow};

/// What a poll confirms.
static RUNS: [Run; 3] = [
    // A poll confirms the tickets up to the completion word, once each.
    (
        "a poll confirms up to the word",
        Start::Usual,
        &[
            Step::Plug(1, OK),
            Step::Attach(1, FIRST, OK),
            Step::ReleaseEach(1, 0, 3),
            Step::Poll(0, 0, false),
            Step::Complete(1),
            Step::Poll(1, 1, false),
            Step::Poll(0, 0, false),
            Step::Complete(3),
            Step::Poll(2, 2, false),
            Step::Pending(0),
        ],
    ),
    // A word above the last ticket, or below the last that was confirmed, confirms no ticket that doesn't wait.
    (
        "a foreign word confirms no more",
        Start::Usual,
        &[
            Step::Plug(1, OK),
            Step::Attach(1, FIRST, OK),
            Step::ReleaseEach(1, 0, 3),
            Step::Complete(4_000_000_000),
            Step::Poll(1, 3, false),
            Step::Complete(0),
            Step::Poll(0, 0, false),
            Step::Pending(0),
        ],
    ),
    // A command that took too long is told beside.
    (
        "a timeout is told",
        Start::Usual,
        &[
            Step::Plug(1, OK),
            Step::Attach(1, FIRST, OK),
            Step::ReleaseEach(1, 0, 3),
            Step::Complete(2),
            Step::TimeOut,
            Step::Poll(1, 2, true),
        ],
    ),
];

// Each step is answered as its run says.
#[test]
fn polls_confirm(rt: HostRuntime) {
    follow(&rt, rt.alloc(), &RUNS);
}

// The numbers of fences, which are apart from those of tickets once the driver restarted.
use crate::bench::{FIRST, OK, Run, Start, Step, follow};

/// For which fence a ticket waits.
static RUNS: [Run; 3] = [
    // After a restart, whose two commands for the device and whose fence come first, the first ticket's fence has
    // number 2, and no other confirms it.
    (
        "a ticket after a restart has a later fence",
        Start::Usual,
        &[
            Step::Plug(1, OK),
            Step::Attach(1, FIRST, OK),
            Step::Restart(OK),
            Step::Words(0x3f020, &[0x0000_0001_0000_3402]),
            Step::Grant(1, 3, 5, OK),
            Step::Release(1, 3, Ok(1)),
            Step::Words(0x3f040, &[0x0000_0002_0000_3402]),
            Step::Complete(1),
            Step::Poll(0, 0, false),
            Step::Complete(2),
            Step::Poll(1, 1, false),
        ],
    ),
    // A ticket that waits when the driver restarts waits for the restart's fence, and no longer for its own.
    (
        "a waiting ticket waits for the restart",
        Start::Usual,
        &[
            Step::Plug(1, OK),
            Step::Attach(1, FIRST, OK),
            Step::Grant(1, 3, 5, OK),
            Step::Grant(1, 4, 6, OK),
            Step::Release(1, 3, Ok(1)),
            Step::Release(1, 4, Ok(2)),
            Step::Restart(OK),
            Step::Complete(2),
            Step::Poll(0, 0, false),
            Step::Complete(3),
            Step::Poll(1, 2, false),
            Step::Pending(0),
        ],
    ),
    // A detach after a restart stores the next number of a fence too, and the device has left once that is done.
    (
        "a device leaves by its fence",
        Start::Usual,
        &[
            Step::Plug(1, OK),
            Step::Attach(1, FIRST, OK),
            Step::Restart(OK),
            Step::Detach(1, Ok(1)),
            Step::Words(0x3f050, &[0x0000_0002_0000_3402]),
            Step::Complete(1),
            Step::Poll(0, 0, false),
            Step::Complete(2),
            Step::Poll(1, 1, false),
            Step::Attach(1, FIRST, OK),
        ],
    ),
];

// Each step is answered as its run says.
#[test]
fn tickets_have_their_fences(rt: HostRuntime) {
    follow(&rt, rt.alloc(), &RUNS);
}

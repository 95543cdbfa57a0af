use crate::bench::{FIRST, OK, Run, Start, Step, follow};
use iom_base::Refusal;

/// For which reason a call is refused.
static RUNS: [Run; 6] = [
    // Before the start a device may come, and everything else is refused for that reason first.
    (
        "before the start",
        Start::Off,
        &[
            Step::Attach(1, FIRST, Err(Refusal::NotStarted)),
            Step::Plug(1, OK),
            Step::Attach(1, FIRST, Err(Refusal::NotStarted)),
            Step::Grant(1, 3, 5, Err(Refusal::NotStarted)),
            Step::Release(1, 3, Err(Refusal::NotStarted)),
            Step::Detach(1, Err(Refusal::NotStarted)),
            Step::PollRefused(Refusal::NotStarted),
        ],
    ),
    // A device that is there already; and one too many.
    (
        "of a plug",
        Start::Usual,
        &[
            Step::Plug(0, OK),
            Step::Plug(1, OK),
            Step::Plug(2, OK),
            Step::Plug(3, OK),
            Step::Plug(4, OK),
            Step::Plug(5, OK),
            Step::Plug(6, OK),
            Step::Plug(7, OK),
            Step::Plug(8, OK),
            Step::Plug(9, OK),
            Step::Plug(10, OK),
            Step::Plug(11, OK),
            Step::Plug(12, OK),
            Step::Plug(13, OK),
            Step::Plug(14, OK),
            Step::Plug(15, OK),
            Step::Plug(15, Err(Refusal::AlreadyPlugged)),
            Step::Plug(16, Err(Refusal::TooManyDevices)),
        ],
    ),
    // A directory of one level names ids of 7 bits.
    (
        "of an attach",
        Start::Usual,
        &[
            Step::Attach(128, FIRST, Err(Refusal::NoSuchDevice)),
            Step::Plug(128, OK),
            Step::Attach(128, FIRST, Err(Refusal::IdTooWide)),
            Step::Plug(127, OK),
            Step::Attach(127, FIRST, OK),
            Step::Attach(127, FIRST, Err(Refusal::AlreadyAttached)),
        ],
    ),
    // Each reason comes before those below it.
    (
        "of a grant",
        Start::Usual,
        &[
            Step::Grant(1, (1 << 26), 64, Err(Refusal::NoSuchDevice)),
            Step::Plug(1, OK),
            Step::Grant(1, (1 << 26), 64, Err(Refusal::NotAttached)),
            Step::Attach(1, FIRST, OK),
            Step::Grant(1, (1 << 26), 64, Err(Refusal::FrameOutOfRange)),
            Step::Grant(1, (1 << 26), 60, Err(Refusal::FrameReserved)),
            Step::Grant(1, (1 << 26), 5, Err(Refusal::IovaOutOfRange)),
            Step::Grant(1, (1 << 26) - 1, 5, OK),
            Step::Grant(1, (1 << 26) - 1, 6, Err(Refusal::IovaBusy)),
            Step::Release(1, (1 << 26) - 1, Ok(1)),
            Step::Grant(1, (1 << 26) - 1, 6, Err(Refusal::IovaBusy)),
        ],
    ),
    // A grant that lacks two tables where one frame is free besides its own is refused, and one that lacks one is not.
    (
        "of a grant without frames",
        Start::Usual,
        &[
            Step::Plug(1, OK),
            Step::Attach(1, FIRST, OK),
            Step::GrantEach(1, 0, 54),
            Step::Free(56, true),
            Step::Grant(1, 54, 54, OK),
            Step::Grant(1, 1 << 18, 55, Err(Refusal::NoFrames)),
            Step::Grant(1, 512, 55, OK),
            Step::Reserved(56, true),
        ],
    ),
    // Of a device that isn't there, one that isn't attached, and a page that it doesn't hold.
    (
        "of a release",
        Start::Usual,
        &[
            Step::Release(1, 3, Err(Refusal::NoSuchDevice)),
            Step::Plug(1, OK),
            Step::Release(1, 3, Err(Refusal::NotAttached)),
            Step::Attach(1, FIRST, OK),
            Step::Release(1, 3, Err(Refusal::NotGranted)),
        ],
    ),
];

// Each step is answered as its run says.
#[test]
fn calls_have_their_refusals(rt: HostRuntime) {
    follow(&rt, rt.alloc(), &RUNS);
}

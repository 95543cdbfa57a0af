use crate::bench::{FIRST, OK, Run, Start, Step, follow};
use iom_base::Refusal;

/// What a detach writes and gives back.
static RUNS: [Run; 4] = [
    // The commands of a detach: IODIR.INVAL_DDT of id 2, IOTINVAL.VMA of the whole address space 1, and the fence of
    // ticket 1. The context's place is zero.
    (
        "a detach writes three commands",
        Start::Usual,
        &[
            Step::Plug(2, OK),
            Step::Attach(2, FIRST, OK),
            Step::Words(0x3c040, &[1]),
            Step::Detach(2, Ok(1)),
            Step::Words(0x3c040, &[0]),
            Step::Words(
                0x3f000,
                &[
                    0x0000_0202_0000_0003,
                    0,
                    0x0000_0001_0000_1001,
                    0,
                    0x0000_0001_0000_3402,
                ],
            ),
            Step::Pending(1),
        ],
    ),
    // What is held, and what lingers, keeps its device.
    (
        "a device with grants stays",
        Start::Usual,
        &[
            Step::Plug(1, OK),
            Step::Attach(1, FIRST, OK),
            Step::Grant(1, 3, 5, OK),
            Step::Detach(1, Err(Refusal::StillGranted)),
            Step::Release(1, 3, Ok(1)),
            Step::Detach(1, Err(Refusal::StillGranted)),
            Step::Complete(1),
            Step::Poll(1, 1, false),
            Step::Detach(1, Ok(2)),
        ],
    ),
    // A leaving device is neither attached nor detached; the poll that confirms its ticket gives its frames back.
    (
        "a device leaves until a poll",
        Start::Usual,
        &[
            Step::Plug(1, OK),
            Step::Attach(1, FIRST, OK),
            Step::Detach(1, Ok(1)),
            Step::Attach(1, FIRST, Err(Refusal::AlreadyAttached)),
            Step::Grant(1, 3, 5, Err(Refusal::NotAttached)),
            Step::Detach(1, Err(Refusal::NotAttached)),
            Step::Poll(0, 0, false),
            Step::Reserved(59, true),
            Step::Complete(1),
            Step::Poll(1, 1, false),
            Step::Free(59, true),
            Step::Attach(1, FIRST, OK),
        ],
    ),
    // The number of a leaving device is its own until then: the next device has number 2, and the third 1.
    (
        "a number is given back",
        Start::Usual,
        &[
            Step::Plug(1, OK),
            Step::Attach(1, FIRST, OK),
            Step::Plug(2, OK),
            Step::Plug(3, OK),
            Step::Detach(1, Ok(1)),
            Step::Attach(2, FIRST, OK),
            Step::Complete(1),
            Step::Poll(1, 1, false),
            Step::Attach(3, FIRST, OK),
            Step::Words(0x3c050, &[0x2000]),
            Step::Words(0x3c070, &[0x1000]),
        ],
    ),
];

// Each step is answered as its run says.
#[test]
fn devices_leave(rt: HostRuntime) {
    follow(&rt, rt.alloc(), &RUNS);
}

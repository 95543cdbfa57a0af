use crate::bench::{FIRST, OK, Run, Start, Step, follow};
use iom_base::Refusal;
use iom_registers::Register;

/// What grants and releases write.
static RUNS: [Run; 4] = [
    // The tables of the first page: the root is the highest free frame, and the two tables below it are the
    // next ones; the leaf has frame 5, and all of R, W, U, A and D.
    (
        "a grant writes tables",
        Start::Usual,
        &[
            Step::Plug(1, OK),
            Step::Attach(1, FIRST, OK),
            Step::Reserved(59, true),
            Step::Grant(1, 3, 5, OK),
            Step::Words(0x3b000, &[58 << 10 | 1]),
            Step::Words(0x3a000, &[57 << 10 | 1]),
            Step::Words(0x39018, &[0x14d7]),
        ],
    ),
    // The commands of a release: IOTINVAL.VMA of page 3 in address space 1, and the fence of ticket 1, which
    // stores at 0x3d000. The ring begins at 0x3f000, and the tail moves on behind each.
    (
        "a release writes two commands",
        Start::Usual,
        &[
            Step::Plug(1, OK),
            Step::Attach(1, FIRST, OK),
            Step::Grant(1, 3, 5, OK),
            Step::Release(1, 3, Ok(1)),
            Step::Words(
                0x3f000,
                &[
                    0x0000_0001_0000_1401,
                    0x0000_0000_0000_0c00,
                    0x0000_0001_0000_3402,
                    0x0000_0000_0000_f400,
                ],
            ),
            Step::Words(0x39018, &[0]),
            Step::Writes(&[
                Some(Register::Fqcsr),
                Some(Register::Cqt),
                Some(Register::Cqt),
            ]),
            Step::Register(Register::Cqt, 2),
            Step::Pending(1),
        ],
    ),
    // A device's commands name its own address space: the second that is attached has number 2.
    (
        "each device has its own number",
        Start::Usual,
        &[
            Step::Plug(9, OK),
            Step::Plug(4, OK),
            Step::Attach(9, FIRST, OK),
            Step::Attach(4, FIRST, OK),
            Step::Grant(4, 3, 5, OK),
            Step::Release(4, 3, Ok(1)),
            Step::Words(0x3f000, &[0x0000_0001_0000_2401]),
        ],
    ),
    // The ring holds 255 commands, so 127 releases: the next finds one place.
    (
        "a full ring refuses a release",
        Start::Usual,
        &[
            Step::Plug(1, OK),
            Step::Attach(1, FIRST, OK),
            Step::ReleaseEach(1, 0, 127),
            Step::Grant(1, 127, 5, OK),
            Step::Release(1, 127, Err(Refusal::QueueFull)),
            Step::Register(Register::Cqt, 254),
            Step::Pending(127),
        ],
    ),
];

// Each step is answered as its run says.
#[test]
fn pages_are_granted_and_released(rt: HostRuntime) {
    follow(&rt, rt.alloc(), &RUNS);
}

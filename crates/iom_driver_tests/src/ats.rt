use crate::bench::{BOTH, FIRST, OK, Run, SECOND, Start, Step, follow};
use iom_base::Refusal;
use iom_registers::Register;

/// With ATS.
static RUNS: [Run; 9] = [
    // V and EN_ATS; all else is as without ATS.
    (
        "a context with ats",
        Start::Usual,
        &[
            Step::PlugTrusted(2, OK),
            Step::AttachAts(2, FIRST, OK),
            Step::Words(0x3c040, &[3, 0, 0x1000, 8 << 60 | 0x3b]),
        ],
    ),
    // A trusted device may be attached without ATS, and is then as any other.
    (
        "a trusted device without ats",
        Start::Usual,
        &[
            Step::PlugTrusted(2, OK),
            Step::Attach(2, FIRST, OK),
            Step::Words(0x3c040, &[1]),
            Step::Grant(2, 3, 5, OK),
            Step::Release(2, 3, Ok(1)),
            Step::Words(0x3f010, &[0x0000_0001_0000_3402]),
            Step::Register(Register::Cqt, 2),
        ],
    ),
    // IOTINVAL.VMA of page 3 in address space 1, ATS.INVAL of page 3 of device 2, and the fence of ticket 1.
    (
        "a release asks the device",
        Start::Usual,
        &[
            Step::PlugTrusted(2, OK),
            Step::AttachAts(2, FIRST, OK),
            Step::Grant(2, 3, 5, OK),
            Step::Release(2, 3, Ok(1)),
            Step::Words(
                0x3f000,
                &[
                    0x0000_0001_0000_1401,
                    0x0000_0000_0000_0c00,
                    0x0000_0202_0000_0004,
                    0x0000_0000_0000_3000,
                    0x0000_0001_0000_3402,
                    0x0000_0000_0000_f400,
                ],
            ),
            Step::Writes(&[
                Some(Register::Fqcsr),
                Some(Register::Cqt),
                Some(Register::Cqt),
                Some(Register::Cqt),
            ]),
            Step::Register(Register::Cqt, 3),
            Step::Pending(1),
        ],
    ),
    // In the second stage alone the device drops the guest physical page.
    (
        "a device of a guest drops the page",
        Start::Usual,
        &[
            Step::PlugTrusted(2, OK),
            Step::AttachAts(2, SECOND, OK),
            Step::Grant(2, 3, 5, OK),
            Step::Release(2, 3, Ok(1)),
            Step::Words(
                0x3f000,
                &[
                    0x0000_1002_0000_0481,
                    0x0000_0000_0000_0c00,
                    0x0000_0202_0000_0004,
                    0x3000,
                    0x0000_0001_0000_3402,
                ],
            ),
        ],
    ),
    // In both stages it drops everything.
    (
        "a device of both stages drops everything",
        Start::Usual,
        &[
            Step::PlugTrusted(2, OK),
            Step::AttachAts(2, BOTH, OK),
            Step::Grant(2, 3, 5, OK),
            Step::Release(2, 3, Ok(1)),
            Step::Words(
                0x3f000,
                &[
                    0x0000_1002_0000_0481,
                    0x0000_0000_0000_0c00,
                    0x0000_0202_0000_0004,
                    0x800,
                    0x0000_0001_0000_3402,
                ],
            ),
        ],
    ),
    // A detach queues the same three commands as without ATS.
    (
        "a detach asks no device",
        Start::Usual,
        &[
            Step::PlugTrusted(2, OK),
            Step::AttachAts(2, FIRST, OK),
            Step::Detach(2, Ok(1)),
            Step::Words(0x3c040, &[0]),
            Step::Words(0x3f000, &[0x0000_0202_0000_0003]),
            Step::Words(0x3f010, &[0x0000_0001_0000_1001]),
            Step::Words(0x3f020, &[0x0000_0001_0000_3402]),
            Step::Register(Register::Cqt, 3),
        ],
    ),
    // A device that isn't trusted gets no ATS: after ids that are too wide, and before want of frames.
    (
        "of an attach with ats",
        Start::Usual,
        &[
            Step::Plug(1, OK),
            Step::Attach(1, FIRST, OK),
            Step::Plug(2, OK),
            Step::Plug(128, OK),
            Step::GrantEach(1, 0, 55),
            Step::Grant(1, 512, 55, OK),
            Step::AttachAts(128, FIRST, Err(Refusal::IdTooWide)),
            Step::AttachAts(1, FIRST, Err(Refusal::AlreadyAttached)),
            Step::AttachAts(2, FIRST, Err(Refusal::NotTrusted)),
            Step::Attach(2, FIRST, Err(Refusal::NoFrames)),
        ],
    ),
    // The ring holds 255 commands, so 84 releases leave three places, which the next one takes.
    (
        "a release takes the last three places",
        Start::Usual,
        &[
            Step::PlugTrusted(2, OK),
            Step::AttachAts(2, FIRST, OK),
            Step::ReleaseEach(2, 0, 84),
            Step::Grant(2, 84, 5, OK),
            Step::Register(Register::Cqt, 252),
            Step::Release(2, 84, Ok(85)),
            Step::Register(Register::Cqt, 255),
        ],
    ),
    // Two places are too few with ATS, and enough without.
    (
        "two places are too few",
        Start::Usual,
        &[
            Step::PlugTrusted(2, OK),
            Step::AttachAts(2, FIRST, OK),
            Step::Plug(1, OK),
            Step::Attach(1, FIRST, OK),
            Step::ReleaseEach(1, 0, 2),
            Step::Grant(1, 2, 6, OK),
            Step::ReleaseEach(2, 0, 83),
            Step::Grant(2, 83, 5, OK),
            Step::Register(Register::Cqt, 253),
            Step::Release(2, 83, Err(Refusal::QueueFull)),
            Step::Register(Register::Cqt, 253),
            Step::Release(1, 2, Ok(86)),
            Step::Register(Register::Cqt, 255),
        ],
    ),
];

// Each step is answered as its run says.
#[test]
fn ats_is_asked_for(rt: HostRuntime) {
    follow(&rt, rt.alloc(), &RUNS);
}

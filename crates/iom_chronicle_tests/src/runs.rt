// Small scenarios. The number of a line is the place of the act, from 1 on, with those of the setup before it.
use crate::machine::{Act, run};
use iom_base::NewDevice;

/// Device 1 with a first stage in the frame 60 and PSCID 5, and its page 3 on the frame 7.
static FIRST: [Act; 11] = [
    Act::Plug(1, NewDevice::Raw),
    Act::Write(24, 8, 0xfc07),
    Act::Write(72, 4, 1),
    Act::Write(16, 8, 0xf402),
    Act::Store(0x3d028, 0),
    Act::Store(0x3d030, 0x5000),
    Act::Store(0x3d038, 0x8000_0000_0000_003c),
    Act::Store(0x3d020, 1),
    Act::Store(0x3c000, 0xec01),
    Act::Store(0x3b000, 0xe801),
    Act::Store(0x3a018, 0x1cd7),
];

/// The words of IOTINVAL.VMA for the page 3 of PSCID 5.
const VMA: (u64, u64) = (0x0000_0001_0000_5401, 0xc00);

/// A translation is cached, dropped and cached again: it is there since the second time. Then its context is cached alone.
static CACHED_AGAIN: [Act; 28] = [
    Act::Granted(1, 3, 7),
    Act::Reads(1, 0x3000),
    Act::Makes(1, "walk to the entry at 0x3a018 stored at line 11"),
    Act::Way(1, 7, "cached translation of page 3 since line 13"),
    Act::Released(1, 1, 3, 7),
    Act::Store(0x3f000, VMA.0),
    Act::Store(0x3f008, VMA.1),
    Act::Write(36, 4, 1),
    Act::Fetch,
    Act::Way(1, 7, "entry at 0x3a018 since line 11"),
    Act::Reads(1, 0x3000),
    Act::Way(1, 7, "access in flight since line 22"),
    Act::Makes(
        1,
        "walk to the entry at 0x3a018 stored at line 11 under the context cached since line 13",
    ),
    Act::Way(1, 7, "cached translation of page 3 since line 22"),
    Act::Done(1),
    Act::Ended(1, 7, Some(26)),
    Act::Store(0x3d020, 0),
    Act::Store(0x3f010, VMA.0),
    Act::Store(0x3f018, VMA.1),
    Act::Write(36, 4, 2),
    Act::Fetch,
    Act::Way(
        1,
        7,
        "cached context, and the entry at 0x3a018 since line 13",
    ),
    Act::Used(
        60,
        "walks of 000001 read it as a table, by the context cached since line 13",
    ),
    Act::Used(63, "it is of the command queue"),
    Act::Used(61, "it is the root of the device directory"),
    Act::Unused(7),
    Act::Store(0x3c008, 0xf001),
    Act::NoWay(1, 20),
];

/// A device with a cache, in the same address space.
static SHARED: [Act; 21] = [
    Act::Plug(2, NewDevice::Ats),
    Act::Store(0x3d050, 0x5000),
    Act::Store(0x3d058, 0x8000_0000_0000_003c),
    Act::Store(0x3d040, 3),
    Act::Ask(2, 3),
    Act::Deliver(0),
    Act::Way(2, 7, "answer under way for page 3 since line 17"),
    Act::Deliver(0),
    Act::Way(2, 7, "device's cache of page 3 since line 19"),
    Act::Through(2, 0x3000),
    Act::Makes(
        2,
        "device's cache of page 3 since line 19, by the answer of line 17",
    ),
    Act::Way(1, 7, "cached translation of page 3 since line 17"),
    Act::Store(0x3d038, 0x8000_0000_0000_0039),
    Act::Store(0x3f000, VMA.0),
    Act::Store(0x3f008, VMA.1),
    Act::Write(36, 4, 1),
    Act::Fetch,
    Act::Way(
        1,
        7,
        "walks of 000002 in the same address space, entry at 0x3a018 since line 11",
    ),
    Act::Store(0x3d040, 0),
    Act::Way(
        1,
        7,
        "walks of 000002 in the same address space, cached context, and the entry at 0x3a018 since line 17",
    ),
    Act::Ended(1, 7, None),
];

/// What lets a device reach every frame.
static OPEN: [Act; 11] = [
    Act::Store(0x3d020, 3),
    Act::Way(1, 9, "EN_ATS of a device that forges since line 12"),
    Act::Forges(1, 0x9000),
    Act::Makes(1, "forged translated request, let through by EN_ATS"),
    Act::Way(1, 9, "EN_ATS of a device that forges since line 14"),
    Act::Store(0x3d038, 0),
    Act::Way(1, 9, "context with both stages Bare"),
    Act::Write(16, 8, 1),
    Act::Way(1, 9, "ddtp in mode Bare"),
    Act::Reads(1, 0x9000),
    Act::Makes(1, "ddtp in mode Bare"),
];

/// A device writes an entry by itself.
static OWN_TABLE: [Act; 7] = [
    Act::Store(0x3a020, 0xe8d7),
    Act::Writes(1, 0x4028, 0x24d7),
    Act::Makes(1, "walk to the entry at 0x3a020 stored at line 12"),
    Act::Reads(1, 0x5000),
    Act::Makes(
        1,
        "walk to the entry at 0x3a028 stored at line 14 under the context cached since line 13",
    ),
    Act::Reads(1, 0x5000),
    Act::Makes(1, "cached translation of page 5 since line 15"),
];

#[test]
fn the_chronicle_finds_why_and_since_when(rt: HostRuntime) {
    run(&rt, rt.alloc(), &FIRST, &CACHED_AGAIN);
    run(&rt, rt.alloc(), &FIRST, &SHARED);
    run(&rt, rt.alloc(), &FIRST, &OPEN);
    run(&rt, rt.alloc(), &FIRST, &OWN_TABLE);
}

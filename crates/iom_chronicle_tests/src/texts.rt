// Each text once.
use crate::expect::expect;
use iom_chronicle::{ContextPlace, Origin, ReadAs, Through, Use, WayFound};
use std::alloc::Global;
use std::process::Abort;

/// The ways, as "can read frame 7 by .." goes on.
static WAYS: [(WayFound, &str); 11] = [
    (
        WayFound::InFlight { since: 67 },
        "access in flight since line 67",
    ),
    (
        WayFound::DeviceCache { page: 3, since: 69 },
        "device's cache of page 3 since line 69",
    ),
    (
        WayFound::Answer { page: 3, since: 68 },
        "answer under way for page 3 since line 68",
    ),
    (
        WayFound::CachedTranslation { page: 3, since: 67 },
        "cached translation of page 3 since line 67",
    ),
    (
        WayFound::Entry {
            walker: None,
            context: ContextPlace::Stored,
            address: 0x3a018,
            since: 58,
        },
        "entry at 0x3a018 since line 58",
    ),
    (
        WayFound::Entry {
            walker: None,
            context: ContextPlace::Cached,
            address: 0x3a018,
            since: 60,
        },
        "cached context, and the entry at 0x3a018 since line 60",
    ),
    (
        WayFound::Entry {
            walker: Some(2),
            context: ContextPlace::Stored,
            address: 0x37018,
            since: 20,
        },
        "walks of 000002 in the same address space, entry at 0x37018 since line 20",
    ),
    (
        WayFound::Entry {
            walker: Some(2),
            context: ContextPlace::Cached,
            address: 0x37018,
            since: 14,
        },
        "walks of 000002 in the same address space, cached context, and the entry at 0x37018 since line 14",
    ),
    (WayFound::DirectoryBare, "ddtp in mode Bare"),
    (WayFound::StagesBare, "context with both stages Bare"),
    (
        WayFound::Forger { since: 67 },
        "EN_ATS of a device that forges since line 67",
    ),
];

/// The uses, as "wrong: .." goes on.
static USES: [(Use, &str); 6] = [
    (Use::CommandQueue, "it is of the command queue"),
    (
        Use::FaultQueue,
        "it is of the fault queue, or a queued fence stores there",
    ),
    (Use::DirectoryRoot, "it is the root of the device directory"),
    (Use::DirectoryPage, "it is a page of the device directory"),
    (
        Use::Table {
            walker: 1,
            cached_since: None,
        },
        "walks of 000001 read it as a table",
    ),
    (
        Use::Table {
            walker: 1,
            cached_since: Some(60),
        },
        "walks of 000001 read it as a table, by the context cached since line 60",
    ),
];

/// What is read, as "can write frame 58, which .." goes on.
static READS: [(ReadAs, &str); 3] = [
    (
        ReadAs::Table { walker: 1 },
        "walks of 000001 read as a table",
    ),
    (ReadAs::Directory, "hardware reads as its directory"),
    (ReadAs::CommandQueue, "hardware reads as its command queue"),
];

/// What let accesses through, as "violated: .., never granted: .." goes on.
static ORIGINS: [(Through, &str); 8] = [
    (Through::DirectoryBare, "ddtp in mode Bare"),
    (Through::StagesBare, "a context with both stages Bare"),
    (
        Through::CachedTranslation { page: 3, since: 67 },
        "cached translation of page 3 since line 67",
    ),
    (
        Through::DeviceCache {
            page: 3,
            since: 69,
            answered: 68,
        },
        "device's cache of page 3 since line 69, by the answer of line 68",
    ),
    (
        Through::Walk {
            address: 0x3a018,
            stored: 74,
            context_since: Some(73),
        },
        "walk to the entry at 0x3a018 stored at line 74 under the context cached since line 73",
    ),
    (
        Through::Walk {
            address: 0x37018,
            stored: 19,
            context_since: None,
        },
        "walk to the entry at 0x37018 stored at line 19",
    ),
    (
        Through::WalkEnded { line: 79 },
        "walk that ended at line 79",
    ),
    (
        Through::Forged,
        "forged translated request, let through by EN_ATS",
    ),
];

fn expect_way(rt: &impl Abort, alloc: Global, way: WayFound, text: &str) {
    let written = format!(in alloc; "{way}").expect(rt, "memory");
    expect(rt, written.as_str() == text);
}

fn expect_use(rt: &impl Abort, alloc: Global, using: Use, text: &str) {
    let written = format!(in alloc; "{using}").expect(rt, "memory");
    expect(rt, written.as_str() == text);
}

fn expect_read(rt: &impl Abort, alloc: Global, read: ReadAs, text: &str) {
    let written = format!(in alloc; "{read}").expect(rt, "memory");
    expect(rt, written.as_str() == text);
}

fn expect_origin(rt: &impl Abort, alloc: Global, through: Through, text: &str) {
    let origin = Origin { line: 1, through };
    let written = format!(in alloc; "{origin}").expect(rt, "memory");
    expect(rt, written.as_str() == text);
}

#[test]
fn each_text_is_as_the_program_prints_it(rt: HostRuntime) {
    for (way, text) in WAYS.iter() {
        expect_way(&rt, rt.alloc(), *way, text);
    }
    for (using, text) in USES.iter() {
        expect_use(&rt, rt.alloc(), *using, text);
    }
    for (read, text) in READS.iter() {
        expect_read(&rt, rt.alloc(), *read, text);
    }
    for (through, text) in ORIGINS.iter() {
        expect_origin(&rt, rt.alloc(), *through, text);
    }
}

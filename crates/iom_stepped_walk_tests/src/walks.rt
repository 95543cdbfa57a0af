// Requests that are under way in an IOMMU, one of each device, in worked tables. What is expected is worked out by hand
// from the IOMMU specification, sections 2.1, 2.3 and 2.8, and the Privileged Architecture, sections 12.3.2 and 15.5:
// which loads there are, what is kept of them, and what a fetch that begins requests anew leaves of that.
use crate::expect::expect;
use iom_base::{AccessKind, Cause, DeviceId, Rights, Span};
use iom_device_dir::DirCache;
use iom_phys_mem::{Bytes, Memory};
use iom_registers::{DirectoryMode, DirectoryPointer};
use iom_stepped_requests::{Answer, Request};
use iom_stepped_walk::Asked;
use iom_tlb::{PlainCache, Space, TransCache, Translation};
use iom_walks::{Answered, Began, Loaded, Walks};
use std::alloc::Global;
use std::process::Abort;

/// Device 2, in the directory page 4: V; no second stage; PSCID 7; Sv39, whose root is the frame 1. In its tables the leaf
/// of page 5 gives frame 9, to be read and written.
const ONE_STAGE: [(u64, u64); 7] = [
    (0x4040, 1),
    (0x4048, 0),
    (0x4050, 0x7000),
    (0x4058, 0x8000_0000_0000_0001),
    (0x1000, 0x801),
    (0x2000, 0xc01),
    (0x3028, 0x24d7),
];

/// Device 3 there: V; Sv39x4, whose root is the frames 16 to 19; PSCID 7; Sv39, whose root is guest page 1. The guest pages
/// 1 to 4 are the frames 22 to 25; in the guest's tables the leaf of page 5 gives guest page 4.
const BOTH_STAGES: [(u64, u64); 13] = [
    (0x4060, 1),
    (0x4068, 0x8000_9000_0000_0010),
    (0x4070, 0x7000),
    (0x4078, 0x8000_0000_0000_0001),
    (0x10000, 0x5001),
    (0x14000, 0x5401),
    (0x15008, 0x58d7),
    (0x15010, 0x5cd7),
    (0x15018, 0x60d7),
    (0x15020, 0x64d7),
    (0x16000, 0x801),
    (0x17000, 0xc01),
    (0x18028, 0x10d7),
];

/// The space and the page of device 2, and where they are translated to.
const SPACE: Space = Space::First { pscid: 7 };

const KEPT: Translation = Translation {
    frame: 9,
    rights: Rights::RW,
    order: 0,
};

fn directory(mode: DirectoryMode) -> DirectoryPointer {
    DirectoryPointer { mode, ppn: 4 }
}

/// An IOMMU as far as requests need it, with the devices 2 and 3.
#[derive(Drop)]
struct Bench {
    memory: Memory,
    contexts: DirCache,
    translations: PlainCache,
    walks: Walks,
}

impl Bench {
    fn new(rt: &impl Abort, alloc: Global) -> Bench {
        let mut memory = Memory::new(alloc, 64).expect(rt, "memory for the frames");
        for (address, word) in ONE_STAGE.iter() {
            expect(rt, memory.store_u64(*address, *word).is_some());
        }
        for (address, word) in BOTH_STAGES.iter() {
            expect(rt, memory.store_u64(*address, *word).is_some());
        }
        let mut walks = Walks::new(alloc).expect(rt, "memory for the rows");
        expect(rt, walks.add(2));
        expect(rt, walks.add(3));
        Bench {
            memory,
            contexts: DirCache::new(alloc).expect(rt, "memory for the contexts"),
            translations: PlainCache::new(alloc).expect(rt, "memory for the translations"),
            walks,
        }
    }

    /// The device writes these four bytes at the address.
    fn begin(&mut self, rt: &impl Abort, device: DeviceId, address: u64) -> Began {
        assert!(rt; self.walks.is_added(device));
        assert!(rt; !self.walks.is_walking(device));
        assert!(rt; Span::new(address, 4).is_some());
        self.walks.begin(
            directory(DirectoryMode::OneLevel),
            &mut self.contexts,
            &mut self.translations,
            device,
            address,
            4,
            AccessKind::Write,
            &[1, 2, 3, 4],
        )
    }

    fn load(&mut self, device: DeviceId) -> Loaded {
        self.walks.load(
            &self.memory,
            &mut self.contexts,
            &mut self.translations,
            device,
        )
    }

    /// So many loads of the device, each of which goes on.
    fn goes_on(&mut self, rt: &impl Abort, device: DeviceId, loads: u32) {
        for _ in 0..loads {
            expect(rt, self.load(device) == Loaded::GoesOn);
            expect(rt, self.walks.is_walking(device));
        }
    }

    /// The next load of the device ends its request so.
    fn ends(&mut self, rt: &impl Abort, device: DeviceId) -> Option<Answered> {
        let loaded = self.load(device);
        expect(rt, !self.walks.is_walking(device));
        expect(rt, self.load(device) == Loaded::Nothing);
        match loaded {
            Loaded::Ended(answered) => Some(answered),
            Loaded::Nothing | Loaded::GoesOn => None,
        }
    }
}

fn reaches(answered: Option<Answered>, wanted: u32) -> bool {
    match answered {
        Some(
            Answered {
                answer: Answer::Reaches(walked),
                ..
            },
        ) => walked.frame == wanted && walked.rights == Rights::RW,
        _ => false,
    }
}

fn faults_with(answered: Option<Answered>, cause: Cause) -> bool {
    match answered {
        Some(
            Answered {
                answer: Answer::Faults(fault),
                ..
            },
        ) => fault.cause == cause,
        _ => false,
    }
}

#[test]
fn a_request_ends_at_its_last_load(rt: HostRuntime) {
    let mut bench = Bench::new(&rt, rt.alloc());
    expect(&rt, bench.load(2) == Loaded::Nothing);
    expect(&rt, bench.begin(&rt, 2, 0x5008) == Began::Walking);
    expect(&rt, bench.walks.is_walking(2));
    // the context, and an entry of each of the two upper levels
    bench.goes_on(&rt, 2, 3);
    expect(&rt, bench.contexts.peek(2).is_some());
    expect(&rt, bench.translations.look(SPACE, 5).is_none());
    let answered = bench.ends(&rt, 2);
    expect(&rt, reaches(answered, 9));
    let asked = Asked {
        address: 0x5008,
        kind: AccessKind::Write,
    };
    expect(
        &rt,
        answered.map(|it| it.request) == Some(Request { device: 2, asked }),
    );
    expect(&rt, answered.map(|it| it.len) == Some(4));
    expect(&rt, bench.walks.bytes(2) == [1, 2, 3, 4].as_slice());
    expect(&rt, bench.translations.look(SPACE, 5) == Some(KEPT));
    // with what was kept the next one needs no load
    expect(
        &rt,
        bench.begin(&rt, 2, 0x5000) == Began::Served(Answer::Cached(KEPT)),
    );
    expect(&rt, !bench.walks.is_walking(2));
}

#[test]
fn a_request_in_both_stages_loads_each_entry_by_itself(rt: HostRuntime) {
    let mut bench = Bench::new(&rt, rt.alloc());
    expect(&rt, bench.begin(&rt, 3, 0x5008) == Began::Walking);
    // the context; for each of the guest's three tables three entries of the second stage and its own; two of the page's
    bench.goes_on(&rt, 3, 15);
    expect(&rt, reaches(bench.ends(&rt, 3), 25));
}

#[test]
fn a_fetch_begins_all_requests_anew(rt: HostRuntime) {
    let mut bench = Bench::new(&rt, rt.alloc());
    expect(&rt, bench.begin(&rt, 2, 0x5008) == Began::Walking);
    expect(&rt, bench.begin(&rt, 3, 0x5008) == Began::Walking);
    bench.goes_on(&rt, 2, 2);
    bench.goes_on(&rt, 3, 7);
    bench.translations.keep(SPACE, 5, KEPT);
    bench.walks.begin_anew(directory(DirectoryMode::OneLevel));
    // from the directory on, and in no cache, though each has what it would find there
    bench.goes_on(&rt, 2, 3);
    expect(&rt, reaches(bench.ends(&rt, 2), 9));
    bench.goes_on(&rt, 3, 15);
    expect(&rt, reaches(bench.ends(&rt, 3), 25));
}

#[test]
fn one_that_begins_anew_without_a_directory_ends_at_its_next_load(rt: HostRuntime) {
    let mut bench = Bench::new(&rt, rt.alloc());
    expect(&rt, bench.begin(&rt, 2, 0x5008) == Began::Walking);
    bench.goes_on(&rt, 2, 2);
    bench.walks.begin_anew(directory(DirectoryMode::Off));
    expect(&rt, bench.walks.is_walking(2));
    expect(
        &rt,
        faults_with(bench.ends(&rt, 2), Cause::AllInboundDisallowed),
    );
    // one that finds a directory again before that load walks it
    expect(&rt, bench.begin(&rt, 2, 0x6000) == Began::Walking);
    bench.walks.begin_anew(directory(DirectoryMode::Off));
    bench.walks.begin_anew(directory(DirectoryMode::OneLevel));
    bench.goes_on(&rt, 2, 3);
    expect(&rt, faults_with(bench.ends(&rt, 2), Cause::WritePageFault));
}

#[test]
fn a_request_that_is_given_up_is_gone_and_the_others_stay(rt: HostRuntime) {
    let mut bench = Bench::new(&rt, rt.alloc());
    expect(&rt, bench.begin(&rt, 2, 0x5008) == Began::Walking);
    expect(&rt, bench.begin(&rt, 3, 0x5008) == Began::Walking);
    bench.goes_on(&rt, 3, 15);
    bench.walks.give_up(2);
    expect(&rt, !bench.walks.is_walking(2));
    expect(&rt, bench.load(2) == Loaded::Nothing);
    expect(&rt, reaches(bench.ends(&rt, 3), 25));
}

#[test]
fn sixteen_devices_have_rows(rt: HostRuntime) {
    let mut walks = Walks::new(rt.alloc()).expect(&rt, "memory for the rows");
    for device in 0..16 {
        expect(&rt, walks.add(device));
    }
    expect(&rt, !walks.add(3));
    expect(&rt, !walks.add(16));
    expect(&rt, !walks.is_walking(16));
    walks.facts();
}

// Requests of a device over the caches, load by load, in worked tables. What is expected is worked out by hand from the
// IOMMU specification, sections 2.1, 2.3 and 2.8, and the Privileged Architecture, section 12.3.2: which loads there are,
// and what is kept of them.
use crate::expect::expect;
use iom_base::{AccessKind, Cause, DeviceId, Rights};
use iom_device_dir::Context;
use iom_phys_mem::{Bytes, Memory};
use iom_registers::{DirectoryMode, DirectoryPointer};
use iom_stepped_requests::{Answer, Kept, Request, Serving, begin};
use iom_stepped_walk::Asked;
use iom_tlb::{PlainCache, Space, TransCache, Translation};
use std::alloc::Global;
use std::process::Abort;

/// The context of device 2 in the directory page 4: V; no second stage; PSCID 7; Sv39, whose root is the frame 1. In its
/// tables the leaf of page 5 gives frame 9, to be read and written.
const WORDS: [(u64, u64); 7] = [
    (0x4040, 1),
    (0x4048, 0),
    (0x4050, 0x7000),
    (0x4058, 0x8000_0000_0000_0001),
    (0x1000, 0x801),
    (0x2000, 0xc01),
    (0x3028, 0x24d7),
];

/// The space and the page, and where they are translated to.
const SPACE: Space = Space::First { pscid: 7 };

const KEPT: Translation = Translation {
    frame: 9,
    rights: Rights::RW,
    order: 0,
};

fn worked(rt: &impl Abort, alloc: Global) -> Memory {
    let mut memory = Memory::new(alloc, 64).expect(rt, "memory for the frames");
    for (address, word) in WORDS.iter() {
        expect(rt, memory.store_u64(*address, *word).is_some());
    }
    memory
}

fn directory() -> DirectoryPointer {
    DirectoryPointer {
        mode: DirectoryMode::OneLevel,
        ppn: 4,
    }
}

fn asks(device: DeviceId, address: u64) -> Request {
    Request {
        device,
        asked: Asked {
            address,
            kind: AccessKind::Write,
        },
    }
}

/// A request whose loads are all made: its answer, how many they were, and the context that was kept.
#[derive(Clone, Copy)]
struct Made {
    answer: Option<Answer>,
    loads: u32,
    context: Option<Context>,
}

/// Makes all loads of a request. A translation that is to be kept is put into the cache.
fn all_loads(begun: Serving, memory: &Memory, cache: &mut PlainCache) -> Made {
    let mut serving = begun;
    let mut context = None;
    for loads in 0..27 {
        match serving {
            Serving::Served(answer) => {
                return Made {
                    answer: Some(answer),
                    loads,
                    context,
                };
            }
            Serving::GoesOn(walk) => {
                let loaded = walk.load(memory, cache);
                match loaded.kept {
                    Kept::Nothing => {}
                    Kept::Context { context: found, .. } => context = Some(found),
                    Kept::Translation {
                        space,
                        page,
                        translation,
                    } => cache.keep(space, page, translation),
                }
                serving = loaded.serving;
            }
        }
    }
    Made {
        answer: None,
        loads: 27,
        context,
    }
}

fn reaches_frame_nine(answer: Option<Answer>) -> bool {
    match answer {
        Some(Answer::Reaches(walked)) => walked.frame == 9 && walked.rights == Rights::RW,
        _ => false,
    }
}

fn faults_with(answer: Option<Answer>, cause: Cause) -> bool {
    match answer {
        Some(Answer::Faults(fault)) => fault.cause == cause,
        _ => false,
    }
}

#[test]
fn a_request_walks_once_and_then_finds_what_was_kept(rt: HostRuntime) {
    let memory = worked(&rt, rt.alloc());
    let mut cache = PlainCache::new(rt.alloc()).expect(&rt, "memory for the cache");
    let request = asks(2, 0x5008);
    // one load of the context, and one of an entry of each level
    let begun = begin(directory(), None, &mut cache, request);
    let first = all_loads(begun, &memory, &mut cache);
    expect(&rt, reaches_frame_nine(first.answer));
    expect(&rt, first.loads == 4);
    expect(&rt, first.context.is_some());
    expect(&rt, cache.look(SPACE, 5) == Some(KEPT));
    // with what was kept it needs none
    let begun = begin(directory(), first.context, &mut cache, request);
    expect(&rt, begun == Serving::Served(Answer::Cached(KEPT)));
    // without the context it is served at the load that finds it
    let begun = begin(directory(), None, &mut cache, request);
    let again = all_loads(begun, &memory, &mut cache);
    expect(&rt, again.answer == Some(Answer::Cached(KEPT)));
    expect(&rt, again.loads == 1);
}

#[test]
fn one_that_is_begun_anew_looks_in_no_cache(rt: HostRuntime) {
    let memory = worked(&rt, rt.alloc());
    let mut cache = PlainCache::new(rt.alloc()).expect(&rt, "memory for the cache");
    cache.keep(SPACE, 5, KEPT);
    let Serving::GoesOn(walk) = begin(directory(), None, &mut cache, asks(2, 0x5008)) else {
        return expect(&rt, false);
    };
    let anew = all_loads(walk.begun_anew(directory()), &memory, &mut cache);
    expect(&rt, reaches_frame_nine(anew.answer));
    expect(&rt, anew.loads == 4);
}

#[test]
fn a_context_is_kept_also_where_the_request_then_faults(rt: HostRuntime) {
    let memory = worked(&rt, rt.alloc());
    let mut cache = PlainCache::new(rt.alloc()).expect(&rt, "memory for the cache");
    // page 6 has no leaf
    let begun = begin(directory(), None, &mut cache, asks(2, 0x6000));
    let faulted = all_loads(begun, &memory, &mut cache);
    expect(&rt, faults_with(faulted.answer, Cause::WritePageFault));
    expect(&rt, faulted.loads == 4);
    expect(&rt, faulted.context.is_some());
    expect(&rt, cache.look(SPACE, 6).is_none());
    // the id 130 is too wide for one level, also where a context is cached for it
    let wide = begin(directory(), faulted.context, &mut cache, asks(130, 0x5008));
    let refused = all_loads(wide, &memory, &mut cache);
    expect(
        &rt,
        faults_with(refused.answer, Cause::TransactionTypeDisallowed),
    );
    expect(&rt, refused.loads == 0);
}

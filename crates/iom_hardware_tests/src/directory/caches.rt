use crate::expect::expect;
use iom_base::DeviceId;
use iom_device_dir::{Context, DirCache, FirstStage, Pscid, SecondStage};
use std::alloc::Global;
use std::process::Abort;

/// What is done to a cache, and what it answers: for each number from one up to another, the last excepted.
#[derive(Clone, Copy)]
enum Step {
    /// The context that tells this number is kept for the device of the same number.
    Keep(u16, u16),
    /// The device has it; and so they were looked at in order.
    Has(u16, u16),
    /// It has none.
    Lacks(u16, u16),
    DropOne(DeviceId),
    DropAll,
}

// A context that tells its number.
fn context(rt: &impl Abort, number: u16) -> Context {
    Context {
        en_ats: false,
        first_stage: FirstStage::Bare,
        second_stage: SecondStage::Bare,
        pscid: Pscid::new(1).expect(rt, "20 bits"),
        gscid: number,
    }
}

// Keeps each, and again where the first keep finds no memory.
fn keep_each(rt: &impl Abort, cache: &mut DirCache, first: u16, last: u16) {
    for number in first..last {
        let id = DeviceId::from(number);
        cache.keep(id, context(rt, number));
        if cache.look(id).is_none() {
            cache.keep(id, context(rt, number));
        }
    }
}

fn look_each(rt: &impl Abort, cache: &mut DirCache, first: u16, last: u16, are_there: bool) {
    for number in first..last {
        let found = cache.look(DeviceId::from(number));
        let shown = found.map(|context| context.gscid);
        expect(rt, shown == are_there.then_some(number));
    }
}

fn effect(rt: &impl Abort, cache: &mut DirCache, step: Step) {
    match step {
        Step::Keep(first, last) => keep_each(rt, cache, first, last),
        Step::Has(first, last) => look_each(rt, cache, first, last, true),
        Step::Lacks(first, last) => look_each(rt, cache, first, last, false),
        Step::DropOne(id) => cache.drop_one(id),
        Step::DropAll => cache.drop_all(),
    }
}

// A new cache takes the steps.
fn follow(rt: &impl Abort, alloc: Global, steps: &[Step]) {
    let mut cache = DirCache::new(alloc).expect(rt, "memory for the cache");
    for step in steps.iter() {
        effect(rt, &mut cache, *step);
    }
}

/// Sixteen are kept. A seventeenth takes out the one that was looked at the longest ago, and a look at one makes the next go
/// in its place.
static SIXTEEN: [Step; 10] = [
    Step::Keep(0, 16),
    Step::Has(0, 16),
    Step::Keep(16, 17),
    Step::Lacks(0, 1),
    Step::Has(1, 17),
    Step::Has(1, 2),
    Step::Keep(17, 18),
    Step::Lacks(2, 3),
    Step::Has(1, 2),
    Step::Has(3, 18),
];

/// A drop of one leaves the others, and a drop of all none.
static DROPS: [Step; 8] = [
    Step::Keep(1, 4),
    Step::DropOne(2),
    Step::Has(1, 2),
    Step::Lacks(2, 3),
    Step::Has(3, 4),
    Step::DropAll,
    Step::Lacks(1, 2),
    Step::Lacks(3, 4),
];

// Two caches differ where one was looked at in another order.
fn differ_by_order(rt: &impl Abort, alloc: Global) {
    let mut one = DirCache::new(alloc).expect(rt, "memory for the cache");
    let mut other = DirCache::new(alloc).expect(rt, "memory for the cache");
    keep_each(rt, &mut one, 1, 3);
    keep_each(rt, &mut other, 1, 3);
    expect(rt, one.is_same(&other));
    look_each(rt, &mut other, 1, 2, true);
    expect(rt, !one.is_same(&other));
}

#[test]
fn the_least_recently_used_goes(rt: HostRuntime) {
    follow(&rt, rt.alloc(), &SIXTEEN);
    follow(&rt, rt.alloc(), &DROPS);
    differ_by_order(&rt, rt.alloc());
}

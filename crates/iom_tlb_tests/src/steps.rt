// What is done to a cache, and what is seen of it. Tests are lists of steps: of what a test does in place each later proof
// would carry every part.
use crate::expect::expect;
use iom_base::Rights;
use iom_tlb::{Cover, PlainCache, Space, TransCache, Translation, WayCache};
use std::alloc::Global;
use std::process::Abort;

/// The host address space of most tests.
pub(crate) const HOST: Space = Space::First { pscid: 1 };

/// What is done to a cache, or what it answers.
#[derive(Clone, Copy)]
pub(crate) enum Step {
    /// The page of the address space is kept at the frame, with these rights.
    Keep(Space, u64, u32, Rights),
    /// It is found at the frame, with these rights, or isn't there.
    Look(Space, u64, Option<(u32, Rights)>),
    /// The pages that are so far apart, from the one of this number up to that of another, the last excepted: each is kept at
    /// the frame of its number, for reading and writing.
    KeepEach(Space, u64, u32, u32),
    /// Each is found there.
    FindEach(Space, u64, u32, u32),
    /// None is there.
    MissEach(Space, u64, u32, u32),
    Drop(Cover),
    /// One page, of one host address space or of every one.
    DropPage(Option<u32>, u64),
    DropAll,
}

fn at(frame: u32, rights: Rights) -> Translation {
    Translation {
        frame,
        rights,
        order: 0,
    }
}

/// Keeps; and again where the first keep finds no memory.
pub(crate) fn keep<C: TransCache>(cache: &mut C, space: Space, page: u64, kept: Translation) {
    cache.keep(space, page, kept);
    if cache.look(space, page) != Some(kept) {
        cache.keep(space, page, kept);
    }
}

fn keep_each<C: TransCache>(cache: &mut C, space: Space, apart: u64, from: u32, to: u32) {
    for number in from..to {
        let page = apart.wrapping_mul(u64::from(number));
        keep(cache, space, page, at(number, Rights::RW));
    }
}

fn drop_page<C: TransCache>(cache: &mut C, pscid: Option<u32>, page: u64) {
    let page = Some(page);
    cache.drop_where(&Cover::First { pscid, page });
}

/// Whether the page is found at the frame, with these rights, or isn't there.
fn looks<C: TransCache>(
    cache: &mut C,
    space: Space,
    page: u64,
    expected: Option<(u32, Rights)>,
) -> bool {
    match (cache.look(space, page), expected) {
        (Some(found), Some((frame, rights))) => found == at(frame, rights),
        (None, None) => true,
        _ => false,
    }
}

/// Whether each of the pages is there, at the frame of its number, or none of them.
fn looks_each<C: TransCache>(
    cache: &mut C,
    (space, apart): (Space, u64),
    (from, to): (u32, u32),
    are_there: bool,
) -> bool {
    for number in from..to {
        let page = apart.wrapping_mul(u64::from(number));
        let expected = are_there.then_some((number, Rights::RW));
        if !looks(cache, space, page, expected) {
            return false;
        }
    }
    true
}

/// Whether the step is done and answered so.
fn effect<C: TransCache>(cache: &mut C, step: &Step) -> bool {
    match *step {
        Step::Look(space, page, expected) => return looks(cache, space, page, expected),
        Step::FindEach(space, apart, from, to) => {
            return looks_each(cache, (space, apart), (from, to), true);
        }
        Step::MissEach(space, apart, from, to) => {
            return looks_each(cache, (space, apart), (from, to), false);
        }
        Step::Keep(space, page, frame, rights) => keep(cache, space, page, at(frame, rights)),
        Step::KeepEach(space, apart, from, to) => keep_each(cache, space, apart, from, to),
        Step::Drop(cover) => cache.drop_where(&cover),
        Step::DropPage(pscid, page) => drop_page(cache, pscid, page),
        Step::DropAll => cache.drop_all(),
    }
    true
}

/// The cache takes the steps, one after another.
pub(crate) fn follow<C: TransCache>(rt: &impl Abort, cache: &mut C, steps: &[Step]) {
    for step in steps.iter() {
        expect(rt, effect(cache, step));
    }
}

// A second call succeeds where the first was refused memory.
pub(crate) fn new_plain(rt: &impl Abort, alloc: Global) -> PlainCache {
    match PlainCache::new(alloc) {
        Ok(cache) => cache,
        Err(_) => PlainCache::new(alloc).expect(rt, "memory for the cache"),
    }
}

pub(crate) fn new_ways(rt: &impl Abort, alloc: Global) -> WayCache {
    match WayCache::new(alloc) {
        Ok(cache) => cache,
        Err(_) => WayCache::new(alloc).expect(rt, "memory for the cache"),
    }
}

/// Two caches of one kind are equal until a page is kept in one alone.
pub(crate) fn differ_by_a_page<C: TransCache>(rt: &impl Abort, one: &C, other: &mut C) {
    expect(rt, one.is_same(other));
    keep(other, HOST, 1, at(1, Rights::RW));
    expect(rt, !one.is_same(other));
}

/// A new cache without sets takes the steps.
pub(crate) fn in_plain(rt: &impl Abort, alloc: Global, steps: &[Step]) {
    let mut cache = new_plain(rt, alloc);
    follow(rt, &mut cache, steps);
}

/// A new cache of sets takes the steps.
pub(crate) fn in_ways(rt: &impl Abort, alloc: Global, steps: &[Step]) {
    let mut cache = new_ways(rt, alloc);
    follow(rt, &mut cache, steps);
}

use crate::one_translation::OneTranslation;
use crate::steps::{HOST, Step, differ_by_a_page, follow, in_plain, in_ways, new_plain, new_ways};
use iom_base::Rights;
use iom_tlb::Space;

/// 64 translations are kept, and one more takes out the one that was used least recently, and no other.
static SIXTY_FOUR: [Step; 5] = [
    Step::KeepEach(HOST, 1, 0, 64),
    Step::FindEach(HOST, 1, 0, 64),
    Step::KeepEach(HOST, 1, 64, 65),
    Step::MissEach(HOST, 1, 0, 1),
    Step::FindEach(HOST, 1, 1, 65),
];

/// A look makes its page recent: the next keep takes out the one that came after it.
static LOOKED_AT: [Step; 6] = [
    Step::KeepEach(HOST, 1, 0, 64),
    Step::FindEach(HOST, 1, 0, 1),
    Step::KeepEach(HOST, 1, 64, 65),
    Step::MissEach(HOST, 1, 1, 2),
    Step::FindEach(HOST, 1, 0, 1),
    Step::FindEach(HOST, 1, 2, 65),
];

/// A keep at a page that is there takes the place of its translation, and nothing goes out.
static REPLACED: [Step; 5] = [
    Step::KeepEach(HOST, 1, 0, 64),
    Step::Keep(HOST, 7, 100, Rights::R),
    Step::Look(HOST, 7, Some((100, Rights::R))),
    Step::FindEach(HOST, 1, 0, 7),
    Step::FindEach(HOST, 1, 8, 64),
];

#[test]
fn the_least_recently_used_goes(rt: HostRuntime) {
    in_plain(&rt, rt.alloc(), &SIXTY_FOUR);
    in_plain(&rt, rt.alloc(), &LOOKED_AT);
    in_plain(&rt, rt.alloc(), &REPLACED);
}

/// Keeps, looks and drops. The same number names a page of each address space.
static KEPT_AND_DROPPED: [Step; 8] = [
    Step::Look(HOST, 3, None),
    Step::Keep(HOST, 3, 3, Rights::RW),
    Step::Look(HOST, 3, Some((3, Rights::RW))),
    Step::Look(HOST, 4, None),
    Step::Look(Space::Second { gscid: 1 }, 3, None),
    Step::Look(Space::Both { gscid: 1, pscid: 1 }, 3, None),
    Step::DropAll,
    Step::Look(HOST, 3, None),
];

#[test]
fn a_page_makes_caches_differ(rt: HostRuntime) {
    let (plain, ways) = (new_plain(&rt, rt.alloc()), new_ways(&rt, rt.alloc()));
    differ_by_a_page(&rt, &plain, &mut new_plain(&rt, rt.alloc()));
    differ_by_a_page(&rt, &ways, &mut new_ways(&rt, rt.alloc()));
}

#[test]
fn each_cache_keeps_and_drops(rt: HostRuntime) {
    in_plain(&rt, rt.alloc(), &KEPT_AND_DROPPED);
    in_ways(&rt, rt.alloc(), &KEPT_AND_DROPPED);
    let mut one = OneTranslation::new();
    follow(&rt, &mut one, &KEPT_AND_DROPPED);
}

use crate::expect::expect;
use crate::steps::{HOST, Step, follow, in_plain, in_ways, new_ways};
use iom_base::Rights;
use iom_tlb::{Cover, Space, find_way};

/// The pages of a set are so far apart: pages 0, 64, 128 to 512 of one space are of set 0, which has eight ways. The ninth takes
/// the first's.
static NINTH: [Step; 3] = [
    Step::KeepEach(HOST, 64, 0, 9),
    Step::MissEach(HOST, 64, 0, 1),
    Step::FindEach(HOST, 64, 1, 9),
];

/// The other cache knows no sets.
static ALL_NINE: [Step; 2] = [
    Step::KeepEach(HOST, 64, 0, 9),
    Step::FindEach(HOST, 64, 0, 9),
];

#[test]
fn the_ninth_page_of_a_set_takes_the_way_of_the_first(rt: HostRuntime) {
    in_ways(&rt, rt.alloc(), &NINTH);
    in_plain(&rt, rt.alloc(), &ALL_NINE);
}

/// After a replacement the counter goes on by one, and after the eighth it is at the lowest way again.
static GOES_ROUND: [Step; 9] = [
    Step::KeepEach(HOST, 64, 0, 10),
    Step::MissEach(HOST, 64, 0, 2),
    Step::FindEach(HOST, 64, 2, 10),
    Step::KeepEach(HOST, 64, 10, 16),
    Step::MissEach(HOST, 64, 0, 8),
    Step::FindEach(HOST, 64, 8, 16),
    Step::KeepEach(HOST, 64, 16, 17),
    Step::MissEach(HOST, 64, 8, 9),
    Step::FindEach(HOST, 64, 9, 17),
];

/// A look changes nothing: it is the counter that says which way goes, and not what was used last.
static LOOKED_AT: [Step; 4] = [
    Step::KeepEach(HOST, 64, 0, 8),
    Step::FindEach(HOST, 64, 0, 1),
    Step::KeepEach(HOST, 64, 8, 9),
    Step::MissEach(HOST, 64, 0, 1),
];

/// A keep of a page that is there takes its place, in a full set too, and leaves the counter.
static REPLACED: [Step; 10] = [
    Step::KeepEach(HOST, 64, 0, 8),
    Step::Keep(HOST, 64 * 3, 100, Rights::R),
    Step::Look(HOST, 64 * 3, Some((100, Rights::R))),
    Step::FindEach(HOST, 64, 0, 3),
    Step::FindEach(HOST, 64, 4, 8),
    Step::KeepEach(HOST, 64, 8, 9),
    Step::MissEach(HOST, 64, 0, 1),
    Step::FindEach(HOST, 64, 1, 3),
    Step::FindEach(HOST, 64, 4, 9),
    Step::Look(HOST, 64 * 3, Some((100, Rights::R))),
];

#[test]
fn the_counter_says_which_way_goes(rt: HostRuntime) {
    in_ways(&rt, rt.alloc(), &GOES_ROUND);
    in_ways(&rt, rt.alloc(), &LOOKED_AT);
    in_ways(&rt, rt.alloc(), &REPLACED);
}

/// Drops after which nothing is left of the pages of a set that were kept first: of everything, of the address space, and of
/// the pages one by one.
static DROPS: [&[Step]; 3] = [
    &[Step::KeepEach(HOST, 64, 0, 9), Step::DropAll],
    &[
        Step::KeepEach(HOST, 64, 0, 9),
        Step::Drop(Cover::First {
            pscid: Some(1),
            page: None,
        }),
    ],
    &[
        Step::KeepEach(HOST, 64, 0, 9),
        Step::DropPage(Some(1), 64),
        Step::DropPage(Some(1), 64 * 2),
        Step::DropPage(Some(1), 64 * 3),
        Step::DropPage(Some(1), 64 * 4),
        Step::DropPage(None, 64 * 5),
        Step::DropPage(None, 64 * 6),
        Step::DropPage(None, 64 * 7),
        Step::DropPage(None, 64 * 8),
    ],
];

/// The counter had come to the second way: the set fills from its lowest way on, and then the second goes.
static COUNTS_ON: [Step; 7] = [
    Step::MissEach(HOST, 64, 1, 9),
    Step::KeepEach(HOST, 64, 10, 18),
    Step::FindEach(HOST, 64, 10, 18),
    Step::KeepEach(HOST, 64, 18, 19),
    Step::MissEach(HOST, 64, 11, 12),
    Step::FindEach(HOST, 64, 10, 11),
    Step::FindEach(HOST, 64, 12, 19),
];

#[test]
fn drops_leave_the_counter(rt: HostRuntime) {
    for drops in DROPS.iter() {
        let mut cache = new_ways(&rt, rt.alloc());
        follow(&rt, &mut cache, drops);
        follow(&rt, &mut cache, &COUNTS_ON);
    }
}

/// A drop of one page leaves the rest of its set, and the next new page takes the way that it left.
static ONE_PAGE: [Step; 8] = [
    Step::KeepEach(HOST, 64, 0, 8),
    Step::DropPage(Some(1), 64 * 2),
    Step::MissEach(HOST, 64, 2, 3),
    Step::FindEach(HOST, 64, 0, 2),
    Step::FindEach(HOST, 64, 3, 8),
    Step::KeepEach(HOST, 64, 8, 9),
    Step::FindEach(HOST, 64, 0, 2),
    Step::FindEach(HOST, 64, 3, 9),
];

const OTHER: Space = Space::First { pscid: 2 };

const GUEST: Space = Space::Second { gscid: 1 };

/// A drop of one page of every host address space takes out each, and nothing else of the set.
static ALL_SPACES: [Step; 9] = [
    Step::KeepEach(HOST, 64, 0, 2),
    Step::KeepEach(OTHER, 64, 0, 2),
    Step::KeepEach(GUEST, 64, 0, 2),
    Step::DropPage(None, 64),
    Step::FindEach(HOST, 64, 0, 1),
    Step::MissEach(HOST, 64, 1, 2),
    Step::FindEach(OTHER, 64, 0, 1),
    Step::MissEach(OTHER, 64, 1, 2),
    Step::FindEach(GUEST, 64, 0, 2),
];

#[test]
fn a_drop_of_one_page_empties_one_way(rt: HostRuntime) {
    in_ways(&rt, rt.alloc(), &ONE_PAGE);
    in_ways(&rt, rt.alloc(), &ALL_SPACES);
}

/// Address spaces of the three kinds with equal numbers, and such as differ in one number alone: each has its own
/// translation of page 3, and a drop of one leaves the others.
static SPACES: [Step; 25] = [
    Step::Keep(Space::First { pscid: 1 }, 3, 0, Rights::RW),
    Step::Keep(Space::Second { gscid: 1 }, 3, 1, Rights::RW),
    Step::Keep(Space::Both { gscid: 1, pscid: 1 }, 3, 2, Rights::RW),
    Step::Keep(Space::Both { gscid: 1, pscid: 0 }, 3, 3, Rights::RW),
    Step::Keep(Space::Both { gscid: 0, pscid: 1 }, 3, 4, Rights::RW),
    Step::Keep(Space::First { pscid: 0 }, 3, 5, Rights::RW),
    Step::Keep(Space::Second { gscid: 0 }, 3, 6, Rights::RW),
    Step::Keep(Space::Both { gscid: 0, pscid: 0 }, 3, 7, Rights::RW),
    Step::Look(Space::First { pscid: 1 }, 3, Some((0, Rights::RW))),
    Step::Look(Space::Second { gscid: 1 }, 3, Some((1, Rights::RW))),
    Step::Look(Space::Both { gscid: 1, pscid: 1 }, 3, Some((2, Rights::RW))),
    Step::Look(Space::Both { gscid: 1, pscid: 0 }, 3, Some((3, Rights::RW))),
    Step::Look(Space::Both { gscid: 0, pscid: 1 }, 3, Some((4, Rights::RW))),
    Step::Look(Space::First { pscid: 0 }, 3, Some((5, Rights::RW))),
    Step::Look(Space::Second { gscid: 0 }, 3, Some((6, Rights::RW))),
    Step::Look(Space::Both { gscid: 0, pscid: 0 }, 3, Some((7, Rights::RW))),
    Step::Drop(Cover::Both {
        gscid: Some(1),
        pscid: Some(1),
        page: Some(3),
    }),
    Step::Look(Space::First { pscid: 1 }, 3, Some((0, Rights::RW))),
    Step::Look(Space::Second { gscid: 1 }, 3, Some((1, Rights::RW))),
    Step::Look(Space::Both { gscid: 1, pscid: 1 }, 3, None),
    Step::Look(Space::Both { gscid: 1, pscid: 0 }, 3, Some((3, Rights::RW))),
    Step::Look(Space::Both { gscid: 0, pscid: 1 }, 3, Some((4, Rights::RW))),
    Step::Look(Space::First { pscid: 0 }, 3, Some((5, Rights::RW))),
    Step::Look(Space::Second { gscid: 0 }, 3, Some((6, Rights::RW))),
    Step::Look(Space::Both { gscid: 0, pscid: 0 }, 3, Some((7, Rights::RW))),
];

#[test]
fn address_spaces_do_not_meet(rt: HostRuntime) {
    in_ways(&rt, rt.alloc(), &SPACES);
}

/// 512 pages in a row fill all the ways; a page more takes the place of one, of its own set.
static ALL_WAYS: [Step; 7] = [
    Step::KeepEach(HOST, 1, 0, 512),
    Step::FindEach(HOST, 1, 0, 512),
    Step::KeepEach(HOST, 1, 517, 518),
    Step::MissEach(HOST, 1, 5, 6),
    Step::FindEach(HOST, 1, 6, 512),
    Step::Drop(Cover::First {
        pscid: None,
        page: None,
    }),
    Step::MissEach(HOST, 1, 0, 518),
];

#[test]
fn the_sets_have_512_pages(rt: HostRuntime) {
    in_ways(&rt, rt.alloc(), &ALL_WAYS);
}

/// Words of address spaces and pages of eight ways.
static WAYS: ([u64; 8], [u64; 8]) = (
    [7, 9, 9, 7, 9, 9, 0, u64::MAX],
    [4, 3, 4, 4, 4, 4, 0, u64::MAX],
);

/// Others, in which words agree in their lower or upper half.
static HALVES: ([u64; 8], [u64; 8]) = (
    [7, 9, 9, 7, 1 << 32, 9, 0, u64::MAX],
    [4, 3, 4, 4, 5, 4, 0, 0],
);

/// A space word and a page, and the lowest way that has both.
static LOWEST: [(u64, u64, Option<usize>); 5] = [
    (9, 4, Some(2)),
    (7, 4, Some(0)),
    (9, 3, Some(1)),
    (0, 0, Some(6)),
    (u64::MAX, u64::MAX, Some(7)),
];

/// No way has both, though ways have the one or the other; nor do words that agree in their lower or upper half.
static NO_WAY: [(u64, u64, Option<usize>); 4] = [
    (7, 3, None),
    (0, 5, None),
    (u64::MAX, 4, None),
    (9 + (1 << 32), 4, None),
];

fn are_found(ways: &([u64; 8], [u64; 8]), rows: &[(u64, u64, Option<usize>)]) -> bool {
    rows.iter().all(|(space, page, way)| find_way(&ways.0, &ways.1, *space, *page) == *way)
}

#[test]
fn the_lowest_way_is_found(rt: HostRuntime) {
    expect(&rt, are_found(&WAYS, &LOWEST));
    expect(&rt, are_found(&HALVES, &NO_WAY));
}

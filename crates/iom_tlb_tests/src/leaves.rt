// Translations that came from superpages' leaves: a command that names a page takes out all that came from the leaf of that
// page, and nothing beside it.
use crate::expect::expect;
use crate::invalidations::{Order, command_of};
use crate::steps::{keep, new_plain, new_ways};
use iom_base::Rights;
use iom_tlb::{Space, TransCache, Translation, invalidate};
use std::alloc::Global;
use std::process::Abort;

const HOST: Space = Space::First { pscid: 1 };

const OF_VM: Space = Space::Second { gscid: 1 };

const IN_VM: Space = Space::Both { gscid: 1, pscid: 1 };

/// A command, four pages of an address space, the orders of their leaves, and which of the pages stay: 1 for each.
type Row = (Order, Space, [u64; 4], [u16; 4], [u8; 4]);

/// A leaf of 2 MiB has 512 pages, one of 1 GiB 512 times as many, one of 64 KiB has 16: pages 0x200 to 0x3ff lie in one of
/// order 9, pages 0x40000 to 0x7ffff in one of order 18, pages 0x40 to 0x4f in one of order 4. Any page of a leaf names it. A
/// page that came from a leaf of 4 KiB stays, though it lies there.
#[rattlefmt::skip]
static ROWS: [Row; 14] = [
    (Order::Vma(None, Some(1), Some(0x200)), HOST, [0x201, 0x3ff, 0x400, 0x1ff], [9; 4], [0, 0, 1, 1]),
    (Order::Vma(None, None, Some(0x3ff)), HOST, [0x200, 0x280, 0x400, 0x1ff], [9; 4], [0, 0, 1, 1]),
    (Order::Vma(None, Some(1), Some(0x200)), HOST, [0x200, 0x201, 0x3ff, 0x240], [0, 0, 9, 0], [0, 1, 0, 1]),
    (Order::Vma(None, Some(1), Some(0x40000)), HOST, [0x40001, 0x7ffff, 0x80000, 0x3ffff], [18; 4], [0, 0, 1, 1]),
    (Order::Vma(None, Some(2), Some(0x200)), HOST, [0x200, 0x201, 0x3ff, 0x400], [9; 4], [1; 4]),
    (Order::Gvma(Some(1), Some(0x200)), OF_VM, [0x201, 0x3ff, 0x400, 0x1ff], [9; 4], [0, 0, 1, 1]),
    (Order::Gvma(Some(2), Some(0x200)), OF_VM, [0x201, 0x3ff, 0x400, 0x1ff], [9; 4], [1; 4]),
    (Order::Vma(Some(1), Some(1), Some(0x200)), IN_VM, [0x201, 0x3ff, 0x400, 0x1ff], [9; 4], [0, 0, 1, 1]),
    (Order::Vma(Some(1), None, Some(0x3ff)), IN_VM, [0x200, 0x201, 0x400, 0x1ff], [9, 0, 9, 9], [0, 1, 1, 1]),
    (Order::Vma(None, Some(1), Some(0x40)), HOST, [0x41, 0x4f, 0x50, 0x3f], [4; 4], [0, 0, 1, 1]),
    (Order::Vma(None, None, Some(0x4f)), HOST, [0x40, 0x48, 0x50, 0x5f], [4; 4], [0, 0, 1, 1]),
    (Order::Vma(None, Some(1), Some(0x45)), HOST, [0x40, 0x41, 0x4f, 0x4e], [4, 0, 4, 0], [0, 1, 0, 1]),
    (Order::Gvma(Some(1), Some(0x40)), OF_VM, [0x41, 0x4f, 0x50, 0x3f], [4; 4], [0, 0, 1, 1]),
    (Order::Vma(Some(1), None, Some(0x4f)), IN_VM, [0x40, 0x41, 0x4e, 0x50], [4, 0, 9, 4], [0, 1, 0, 1]),
];

fn from_leaf(order: u16) -> Translation {
    Translation {
        frame: 5,
        rights: Rights::RW,
        order,
    }
}

/// What a row's command leaves of its pages in a cache that was empty.
fn leaves<C: TransCache>(rt: &impl Abort, cache: &mut C, row: &Row) {
    for (page, order) in row.2.iter().zip(row.3.iter()) {
        keep(cache, row.1, *page, from_leaf(*order));
    }
    invalidate(cache, &command_of(rt, &row.0));
    for n in 0..4 {
        let expected = (row.4[n] == 1).then_some(from_leaf(row.3[n]));
        expect(rt, cache.look(row.1, row.2[n]) == expected);
    }
}

/// The same in either cache.
fn leaves_in_each(rt: &impl Abort, alloc: Global, row: &Row) {
    let mut plain = new_plain(rt, alloc);
    leaves(rt, &mut plain, row);
    let mut ways = new_ways(rt, alloc);
    leaves(rt, &mut ways, row);
}

#[test]
fn a_page_names_the_leaf_in_which_it_lies(rt: HostRuntime) {
    for row in ROWS.iter() {
        leaves_in_each(&rt, rt.alloc(), row);
    }
}

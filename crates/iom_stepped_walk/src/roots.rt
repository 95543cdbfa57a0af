// Where a walk of a stage begins.
ghost use Rattle.std.specs.Prelude.{◌≡◌, ◌<◌, ◌+◌, ◌*◌, ◌^◌, nat_lt};
ghost use Rattle.iom_base.specs.Sizes.{levels_of};
ghost use Rattle.iom_walk_loads.specs.Tables.{is_canonical};
ghost use Rattle.iom_stepped_walk.specs.Roots.{BeginsFirst, BeginsSecond};

use crate::place::Place;
use iom_base::{Ppn, Size};

/// The level of the root of tables of the size.
fn root_level(size: Size) -> u32
    ensures level { result + 1 ≡ levels_of size }
    ensures small { result < 4 }
{
    match size {
        Size::Sv39 => 2,
        Size::Sv48 => 3,
    }
}

/// Whether the highest bit of the address that a first stage translates equals all higher ones.
fn is_canonical(size: Size, address: u64) -> bool
    ensures { result ≡ is_canonical (levels_of size) address }
{
    let half = 1u64 << (9 * size.levels() + 11);
    address < half || u64::MAX - address < half
}

/// Whether all bits of the address above those that a second stage translates are zero.
fn is_guest_physical(size: Size, address: u64) -> bool
    ensures { result ≡ nat_lt address (2 ^ (9 * levels_of size + 14)) }
{
    address < 1u64 << (9 * size.levels() + 14)
}

/// Where a first stage begins to translate the address. None where that isn't canonical.
pub(crate) fn first_root(size: Size, root: Ppn, address: u64) -> Option<Place>
    ensures { BeginsFirst size root address result }
{
    if !is_canonical(size, address) {
        return None;
    }
    Some(Place {
        table: root,
        level: root_level(size),
        is_wide: false,
    })
}

/// Where a second stage begins to translate the guest physical address. None where it has too many bits.
pub(crate) fn second_root(size: Size, root: Ppn, address: u64) -> Option<Place>
    ensures { BeginsSecond size root address result }
{
    if !is_guest_physical(size, address) {
        return None;
    }
    Some(Place {
        table: root,
        level: root_level(size),
        is_wide: true,
    })
}

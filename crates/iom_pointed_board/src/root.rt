// The root of the tables that a request walks.
ghost use Rattle.std.specs.Prelude.{◌≡◌, ◌<◌, ◌+◌, ◌*◌, ◌^◌, nat_lt, Some, IfSome};
ghost use Rattle.iom_base.specs.Sizes.{levels_of};
ghost use Rattle.iom_board.specs.BoardParts.{board_parts};
ghost use Rattle.iom_iommu.specs.Stages.{space_through};
ghost use Rattle.iom_pointed_board.specs.Roots.{context_found, hand_in, root_of};
ghost use Rattle.iom_walk_loads.specs.Tables.{is_canonical};
ghost use Rattle.iom_walk_stops.specs.Stages.{stages_of};

use iom_base::{DeviceId, PAGE_SIZE, Ppn, Size};
use iom_board::Board;
use iom_device_dir::Context;
use iom_stepped_walk::TableInHand;
use iom_tlb::Space;
use iom_walk_stops::Stages;
use iom_way_survey::{cached_in, stored_in};

/// The context that a request of the device finds: the cached one, or the one in memory.
pub fn context_of(hardware: &Board, device: DeviceId) -> Option<Context>
    ensures { result ≡ context_found (board_parts hardware.now) device }
{
    match cached_in(hardware, device) {
        Some(context) => Some(context),
        None => stored_in(hardware, device),
    }
}

/// The level of the root of tables of the size.
fn root_level(size: Size) -> u32
    ensures level { result + 1 ≡ levels_of size }
    ensures small { result < 4 }
{
    match size {
        Size::Sv39 => 2,
        Size::Sv48 => 3,
    }
}

/// Whether the highest bit of the address that a first stage translates equals all higher ones.
fn is_canonical(size: Size, address: u64) -> bool
    ensures { result ≡ is_canonical (levels_of size) address }
{
    let half = 1u64 << (9 * size.levels() + 11);
    address < half || u64::MAX - address < half
}

/// Whether all bits of the address above those that a second stage translates are zero.
fn is_guest_physical(size: Size, address: u64) -> bool
    ensures { result ≡ nat_lt address (2 ^ (9 * levels_of size + 14)) }
{
    address < 1u64 << (9 * size.levels() + 14)
}

/// The table of a root of this size, for the page of an address.
fn root_hand(size: Size, table: Ppn, is_wide: bool, address: u64) -> TableInHand
    ensures hand { result ≡ hand_in table (levels_of size) is_wide address }
    ensures low { result.level < 4 }
{
    TableInHand {
        table,
        level: root_level(size),
        is_wide,
        page: address / PAGE_SIZE,
    }
}

/// The root's table, of the one stage that translates. None in both stages, and where the address has bits that the stage
/// doesn't translate.
pub(crate) fn root_of(stages: Stages, address: u64) -> Option<TableInHand>
    ensures root { result ≡ root_of stages address }
    ensures low { IfSome result (λ root. root.level < 4) }
{
    match stages {
        Stages::First { size, root } if is_canonical(size, address) => {
            Some(root_hand(size, root, false, address))
        }
        Stages::Second { size, root } if is_guest_physical(size, address) => {
            Some(root_hand(size, root, true, address))
        }
        Stages::First { .. } | Stages::Second { .. } | Stages::Both { .. } => None,
    }
}

/// The address space of the one stage that translates.
pub(crate) fn space_of(context: &Context, stages: Stages) -> Space
    ensures { stages_of context.now.first_stage context.now.second_stage ≡ Some stages
        → space_through context.now.first_stage context.now.second_stage context.now ≡ Some result }
{
    let pscid = context.pscid.number();
    let gscid = context.gscid;
    match stages {
        Stages::First { .. } => Space::First { pscid },
        Stages::Second { .. } => Space::Second { gscid },
        Stages::Both { .. } => Space::Both { gscid, pscid },
    }
}

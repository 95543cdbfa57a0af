// The contexts that a request of a device may find, and what the tables of a context lead to.
ghost use Rattle.std.specs.Prelude.{◌≡◌, ◌<◌, ◌≤◌, length, slice_get, Some};
ghost use Rattle.iom_board.specs.BoardParts.{board_parts};
ghost use Rattle.iom_iommu.specs.Stages.{space_through};
ghost use Rattle.iom_table_survey.specs.Reaches.{AddsReach};
ghost use Rattle.iom_table_survey.specs.Rows.{GrowsBy};
ghost use Rattle.iom_way_survey.specs.Found.{has_directory, cached_found, stored_found, space_of_context, HaveTableIn, HaveLeafIn, FoundTable, FoundLeaf, IsBeside};
ghost use Rattle.iom_way_survey.specs.Walking.{sought_by};

use crate::same::is_same;
use crate::walking::{located, sought_by};
use iom_base::DeviceId;
use iom_board::Board;
use iom_device::Device;
use iom_device_dir::{Context, FirstStage, SecondStage, fits_directory, locate};
use iom_phys_mem::Memory;
use iom_registers::{DirectoryMode, DirectoryPointer};
use iom_stepped_requests::Serving;
use iom_table_survey::{FrameRow, Reach, survey};
use iom_tlb::Space;

/// Whether there is a directory in this mode.
fn has_directory(mode: DirectoryMode) -> bool
    ensures { result ≡ has_directory mode }
{
    match mode {
        DirectoryMode::Off | DirectoryMode::Bare => false,
        DirectoryMode::OneLevel | DirectoryMode::TwoLevels | DirectoryMode::ThreeLevels => true,
    }
}

/// The device at a place.
pub(crate) fn device_at(hardware: &Board, place: usize) -> &Device
    requires { place < length hardware.now.devices.items }
    ensures { slice_get hardware.now.devices.items place ≡ Some result.now }
{
    match hardware.devices.get(place) {
        Some(device) => device,
        None => unreachable!(),
    }
}

/// The context that is cached for the device with the id, where a request finds it: where `ddtp` names a directory, and the id
/// isn't too wide for it (IOMMU specification, section 2.3).
pub fn cached_in(hardware: &Board, id: DeviceId) -> Option<Context>
    ensures { result ≡ cached_found (board_parts hardware.now) id }
{
    let mode = hardware.iommu.registers().directory_mode();
    if has_directory(mode) && fits_directory(mode, id) {
        return hardware.iommu.cached_context(id);
    }
    None
}

/// The context that the directory has for the device with the id, if a walk from `ddtp` finds one now (IOMMU specification,
/// section 2.3.1).
#[tactic(auto, unfolding(iom_device_dir::specs::Located::located_by_mode))]
pub fn stored_in(hardware: &Board, id: DeviceId) -> Option<Context>
    ensures { result ≡ stored_found (board_parts hardware.now) id }
{
    let registers = hardware.iommu.registers();
    let mode = registers.directory_mode();
    if !has_directory(mode) {
        return None;
    }
    let pointer = DirectoryPointer {
        mode,
        ppn: registers.directory_root(),
    };
    located(locate(&hardware.memory, pointer, id))
}

/// The context that the directory has for the device, where it isn't the one that is cached: that one is looked at anyway.
pub(crate) fn stored_beside(
    hardware: &Board,
    id: DeviceId,
    cached: Option<Context>,
) -> Option<Context>
    ensures { IsBeside cached (stored_found (board_parts hardware.now) id) result }
{
    let stored = stored_in(hardware, id);
    if is_same(stored, cached) {
        return None;
    }
    stored
}

/// The context to which the device's request comes, where it isn't the one that the directory has: that one is looked at
/// anyway.
pub(crate) fn sought_beside(
    hardware: &Board,
    serving: Option<Serving>,
    id: DeviceId,
) -> Option<Context>
    ensures { IsBeside (stored_found (board_parts hardware.now) id) (sought_by hardware.now.memory serving) result }
{
    let sought = sought_by(&hardware.memory, serving);
    if is_same(sought, stored_in(hardware, id)) {
        return None;
    }
    sought
}

/// The address space that the stages of the context translate. None where both are Bare.
pub(crate) fn space_of(context: &Context) -> Option<Space>
    ensures { result ≡ space_of_context context.now }
{
    let pscid = context.pscid.number();
    let gscid = context.gscid;
    match (context.first_stage, context.second_stage) {
        (FirstStage::Bare, SecondStage::Bare) => None,
        (FirstStage::Tables { .. }, SecondStage::Bare) => Some(Space::First { pscid }),
        (FirstStage::Bare, SecondStage::Tables { .. }) => Some(Space::Second { gscid }),
        (FirstStage::Tables { .. }, SecondStage::Tables { .. }) => {
            Some(Space::Both { gscid, pscid })
        }
    }
}

/// The tables that decide where the stages lead: of both stages those of the second; where walks know leaves of 64 KiB, or
/// don't.
pub(crate) fn survey_stages(
    memory: &Memory,
    napot: bool,
    first: FirstStage,
    second: SecondStage,
    tables: &mut FrameRow,
    reach: &mut Reach,
)
    requires { length memory.now ≤ 4096 }
    ensures tables { GrowsBy tables.old tables.new (HaveTableIn napot memory.now first second) }
    ensures leaves { AddsReach reach.old reach.new (HaveLeafIn napot memory.now first second) }
{
    match second {
        SecondStage::Tables { size, root } => {
            survey(
                memory,
                napot,
                root.number(),
                4,
                size.levels() as u32,
                tables,
                reach,
            );
        }
        SecondStage::Bare => {
            if let FirstStage::Tables { size, root } = first {
                survey(
                    memory,
                    napot,
                    root.number(),
                    1,
                    size.levels() as u32,
                    tables,
                    reach,
                );
            }
        }
    }
}

/// The tables of the context that was found, where its address space is this one.
pub(crate) fn survey_found(
    memory: &Memory,
    found: Option<Context>,
    space: Space,
    tables: &mut FrameRow,
    reach: &mut Reach,
)
    requires { length memory.now ≤ 4096 }
    ensures tables { GrowsBy tables.old tables.new (FoundTable memory.now space found) }
    ensures leaves { AddsReach reach.old reach.new (FoundLeaf memory.now space found) }
{
    if let Some(context) = found {
        if space_of(&context) == Some(space) {
            survey_stages(
                memory,
                false,
                context.first_stage,
                context.second_stage,
                tables,
                reach,
            );
        }
    }
}

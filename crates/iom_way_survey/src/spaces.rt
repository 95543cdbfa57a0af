// What is reached in an address space: by what is cached of it, and by the tables of each context that has it.
ghost use Rattle.std.specs.Prelude.{◌≡◌, ◌<◌, ◌≤◌, ℕ, length, slice_get, Some, option_map};
ghost use Rattle.iom_device.specs.declared.device.Device.{Device};
ghost use Rattle.iom_board.specs.BoardParts.{board_parts};
ghost use Rattle.iom_table_survey.specs.Reaches.{AddsReach};
ghost use Rattle.iom_table_survey.specs.Rows.{GrowsBy};
ghost use Rattle.iom_way_survey.specs.Found.{LookedUpTable, LookedUpLeaf, DeviceTable, DeviceLeaf, SpaceTable, SpaceLeaf, CachedLeadsTo, IsCachedIn, InSpace};
ghost use Rattle.iom_way_survey.specs.Surveys.{rows_in};
ghost use Rattle.iom_tlb.specs.declared.cached_page.CachedPage.{CachedPage};

use crate::contexts::{cached_in, device_at, sought_beside, stored_beside, survey_found};
use crate::walking::{serving_beside, survey_kept};
use iom_base::DeviceId;
use iom_board::Board;
use iom_table_survey::{FrameRow, Reach};
use iom_tlb::{CachedPage, Ioatc, PLACES, Space};
use iom_walks::Walks;

/// The translation that stands at a place, where it is of the space.
fn survey_page(page: Option<CachedPage>, space: Space, reach: &mut Reach)
    ensures { AddsReach reach.old reach.new (λ kind f. (own : CachedPage) × (page ≡ Some own) × CachedLeadsTo space own kind f) }
{
    if let Some(cached) = page {
        if cached.space == space {
            reach.insert(cached.translation.frame, cached.translation.rights);
        }
    }
}

/// All that the cache has of the space.
fn survey_translations(cache: &Ioatc, space: Space, reach: &mut Reach)
    ensures { AddsReach reach.old reach.new (IsCachedIn cache.now space) }
{
    cache.facts();
    for place in 0..PLACES {
        survey_page(cache.page_at(place), space, reach);
    }
}

/// The tables of the contexts that a request of the device may find, where these have the space.
fn survey_contexts(
    hardware: &Board,
    id: DeviceId,
    space: Space,
    tables: &mut FrameRow,
    reach: &mut Reach,
)
    requires { length hardware.now.memory ≤ 4096 }
    ensures tables { GrowsBy tables.old tables.new (LookedUpTable (board_parts hardware.now) space id) }
    ensures leaves { AddsReach reach.old reach.new (LookedUpLeaf (board_parts hardware.now) space id) }
{
    let cached = cached_in(hardware, id);
    survey_found(&hardware.memory, cached, space, tables, reach);
    let beside = stored_beside(hardware, id, cached);
    survey_found(&hardware.memory, beside, space, tables, reach);
}

/// All tables of the space by one device: those of its contexts that have the space, also of the one to which its request
/// comes; and those that its request walks, where its translation is kept there.
fn survey_device_tables(
    hardware: &Board,
    walks: Option<&Walks>,
    id: DeviceId,
    space: Space,
    tables: &mut FrameRow,
    reach: &mut Reach,
)
    requires { length hardware.now.memory ≤ 4096 }
    ensures tables { GrowsBy tables.old tables.new (DeviceTable (board_parts hardware.now) (rows_in (option_map (λ w. w.now) walks.entry)) space id) }
    ensures leaves { AddsReach reach.old reach.new (DeviceLeaf (board_parts hardware.now) (rows_in (option_map (λ w. w.now) walks.entry)) space id) }
{
    survey_contexts(hardware, id, space, tables, reach);
    let serving = serving_beside(walks, id);
    let sought = sought_beside(hardware, serving, id);
    survey_found(&hardware.memory, sought, space, tables, reach);
    survey_kept(&hardware.memory, serving, space, tables, reach);
}

/// The same of each device.
fn survey_all_tables(
    hardware: &Board,
    walks: Option<&Walks>,
    space: Space,
    tables: &mut FrameRow,
    reach: &mut Reach,
)
    requires { length hardware.now.memory ≤ 4096 }
    ensures tables { GrowsBy tables.old tables.new (SpaceTable (board_parts hardware.now) (rows_in (option_map (λ w. w.now) walks.entry)) space) }
    ensures leaves { AddsReach reach.old reach.new (SpaceLeaf (board_parts hardware.now) (rows_in (option_map (λ w. w.now) walks.entry)) space) }
{
    for place in 0..hardware.devices.len() {
        let device = device_at(hardware, place);
        survey_device_tables(hardware, walks, device.id, space, tables, reach);
    }
}

/// What is reached in the space, and the tables that are walked for it.
pub(crate) fn survey_space(
    hardware: &Board,
    walks: Option<&Walks>,
    space: Space,
    tables: &mut FrameRow,
    reach: &mut Reach,
)
    requires { length hardware.now.memory ≤ 4096 }
    ensures tables { GrowsBy tables.old tables.new (SpaceTable (board_parts hardware.now) (rows_in (option_map (λ w. w.now) walks.entry)) space) }
    ensures reached { AddsReach reach.old reach.new (InSpace (board_parts hardware.now) (rows_in (option_map (λ w. w.now) walks.entry)) space) }
{
    survey_translations(hardware.iommu.translations(), space, reach);
    survey_all_tables(hardware, walks, space, tables, reach);
}

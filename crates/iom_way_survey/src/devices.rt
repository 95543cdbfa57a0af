// All ways of a device.
ghost use Rattle.std.specs.Prelude.{◌≡◌, ◌<◌, ◌≤◌, ℕ, true, length, slice_get, Some, option_map};
ghost use Rattle.iom_board.specs.BoardParts.{board_parts};
ghost use Rattle.iom_inflight.specs.Flights.{waiting_at, row_of};
ghost use Rattle.iom_inflight.specs.declared.made.MadeAt.{MadeAt};
ghost use Rattle.iom_iommu.specs.Parts.{flights_of};
ghost use Rattle.iom_registers.specs.declared.directory.DirectoryMode.TheVariants.{Bare};
ghost use Rattle.iom_table_survey.specs.Reaches.{AddsReach};
ghost use Rattle.iom_table_survey.specs.Rows.{GrowsBy};
ghost use Rattle.iom_way_survey.specs.Found.{ByAts, ThroughSpace, TablesThrough, TablesFound, ThroughFound, TablesLookedUp, TablesOfDevice, IsThatAccess, IsInFlight, IsAccepted, LookedUpWay, WayOf};
ghost use Rattle.iom_way_survey.specs.Surveys.{rows_in};

use crate::contexts::{cached_in, sought_beside, space_of, stored_beside};
use crate::kept::survey_ats;
use crate::spaces::survey_space;
use crate::walking::{serving_beside, survey_let_through, survey_request};
use iom_base::MAX_IN_FLIGHT;
use iom_board::Board;
use iom_device::Device;
use iom_device_dir::Context;
use iom_inflight::MadeAt;
use iom_registers::DirectoryMode;
use iom_table_survey::{FrameRow, Reach};
use iom_tlb::Space;
use iom_walks::Walks;

/// By EN_ATS.
fn survey_by_ats(hardware: &Board, device: &Device, lets_ats: bool, reach: &mut Reach)
    ensures { AddsReach reach.old reach.new (ByAts hardware.now.fabric device.now lets_ats) }
{
    if lets_ats {
        survey_ats(hardware, device, reach);
    }
}

/// By the address space, and by having none.
fn survey_by_space(
    hardware: &Board,
    walks: Option<&Walks>,
    space: Option<Space>,
    tables: &mut FrameRow,
    reach: &mut Reach,
)
    requires { length hardware.now.memory ≤ 4096 }
    ensures tables { GrowsBy tables.old tables.new (TablesThrough (board_parts hardware.now) (rows_in (option_map (λ w. w.now) walks.entry)) space) }
    ensures reached { AddsReach reach.old reach.new (ThroughSpace (board_parts hardware.now) (rows_in (option_map (λ w. w.now) walks.entry)) space) }
{
    match space {
        Some(space) => survey_space(hardware, walks, space, tables, reach),
        None => reach.insert_all(),
    }
}

/// Through a context that was found.
fn survey_through(
    hardware: &Board,
    walks: Option<&Walks>,
    device: &Device,
    found: Option<Context>,
    tables: &mut FrameRow,
    reach: &mut Reach,
)
    requires { length hardware.now.memory ≤ 4096 }
    ensures tables { GrowsBy tables.old tables.new (TablesFound (board_parts hardware.now) (rows_in (option_map (λ w. w.now) walks.entry)) found) }
    ensures reached { AddsReach reach.old reach.new (ThroughFound (board_parts hardware.now) (rows_in (option_map (λ w. w.now) walks.entry)) device.now found) }
{
    if let Some(context) = found {
        survey_by_ats(hardware, device, context.en_ats, reach);
        survey_by_space(hardware, walks, space_of(&context), tables, reach);
    }
}

/// An access in flight.
fn survey_access(made: Option<MadeAt>, reach: &mut Reach)
    ensures { AddsReach reach.old reach.new (IsThatAccess made) }
{
    if let Some(access) = made {
        reach.insert_for(u64::from(access.frame), access.kind);
    }
}

/// The accesses in flight.
fn survey_flights(hardware: &Board, device: &Device, reach: &mut Reach)
    ensures { AddsReach reach.old reach.new (IsInFlight (board_parts hardware.now) device.now.id) }
{
    for place in 0..MAX_IN_FLIGHT {
        survey_access(hardware.iommu.waiting_at(device.id, place), reach);
    }
}

/// The accesses that were accepted, or are let through at a load to come.
fn survey_accepted(hardware: &Board, walks: Option<&Walks>, device: &Device, reach: &mut Reach)
    ensures { AddsReach reach.old reach.new (IsAccepted (board_parts hardware.now) (rows_in (option_map (λ w. w.now) walks.entry)) device.now.id) }
{
    survey_flights(hardware, device, reach);
    survey_let_through(walks, device.id, reach);
}

/// By mode Bare.
fn survey_bare(mode: DirectoryMode, reach: &mut Reach)
    ensures { AddsReach reach.old reach.new (λ kind f. mode ≡ Bare) }
{
    match mode {
        DirectoryMode::Bare => reach.insert_all(),
        DirectoryMode::Off
        | DirectoryMode::OneLevel
        | DirectoryMode::TwoLevels
        | DirectoryMode::ThreeLevels => {}
    }
}

/// By accesses that were accepted, by `ddtp`, and by the contexts that are looked up.
fn survey_looked_up(
    hardware: &Board,
    walks: Option<&Walks>,
    device: &Device,
    tables: &mut FrameRow,
    reach: &mut Reach,
)
    requires { length hardware.now.memory ≤ 4096 }
    ensures tables { GrowsBy tables.old tables.new (TablesLookedUp (board_parts hardware.now) (rows_in (option_map (λ w. w.now) walks.entry)) device.now.id) }
    ensures reached { AddsReach reach.old reach.new (LookedUpWay (board_parts hardware.now) (rows_in (option_map (λ w. w.now) walks.entry)) device.now) }
{
    survey_accepted(hardware, walks, device, reach);
    survey_bare(hardware.iommu.registers().directory_mode(), reach);
    let cached = cached_in(hardware, device.id);
    survey_through(hardware, walks, device, cached, tables, reach);
    let beside = stored_beside(hardware, device.id, cached);
    survey_through(hardware, walks, device, beside, tables, reach);
}

/// All ways of the device, and the tables of the contexts that have the address spaces of its own.
pub(crate) fn survey_device(
    hardware: &Board,
    walks: Option<&Walks>,
    device: &Device,
    tables: &mut FrameRow,
    reach: &mut Reach,
)
    requires { length hardware.now.memory ≤ 4096 }
    ensures tables { GrowsBy tables.old tables.new (TablesOfDevice (board_parts hardware.now) (rows_in (option_map (λ w. w.now) walks.entry)) device.now.id) }
    ensures reached { AddsReach reach.old reach.new (WayOf (board_parts hardware.now) (rows_in (option_map (λ w. w.now) walks.entry)) device.now) }
{
    survey_looked_up(hardware, walks, device, tables, reach);
    let serving = serving_beside(walks, device.id);
    let sought = sought_beside(hardware, serving, device.id);
    survey_through(hardware, walks, device, sought, tables, reach);
    survey_request(&hardware.memory, serving, tables, reach);
}

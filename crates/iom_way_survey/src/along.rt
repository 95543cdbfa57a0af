// What is reached by pointers to tables that hardware caches, and by leaves of 64 KiB, beside all else.
ghost use Rattle.std.specs.Prelude.{◌≡◌, ◌≤◌, ◌==◌, ℕ, Bool, true, false, length};
ghost use Rattle.iom_board.specs.BoardParts.{board_parts};
ghost use Rattle.iom_hardware_ways.specs.Scenes.{scene_of};
ghost use Rattle.iom_pointer_ways.specs.Scenes.{pointed_scene};
ghost use Rattle.iom_table_survey.specs.Reaches.{frames_by, AddsReach};
ghost use Rattle.iom_table_survey.specs.Rows.{row_has, GrowsBy};
ghost use Rattle.iom_way_survey.specs.Along.{HasSpace, SharesSpace, IsTableAlong, IsMappedAlong, IsReachedAlong, IsTableAlongSome, IsReachedAlongSome, IsTableBeside, IsReachedBeside, RowGrows, RowsGrow, LooksAlong, HasRowOfEach};
ghost use Rattle.iom_way_survey.specs.Surveys.{Surveys, InventsNone};

use crate::context_tables::look_from_all;
use crate::contexts::{cached_in, space_of, stored_in};
use crate::findings::{DeviceReach, Survey};
use iom_base::DeviceId;
use iom_board::Board;
use iom_device_dir::Context;
use iom_phys_mem::Memory;
use iom_pointer_ways::laws::pointer_law;
use iom_pointers::{Pointer, Pointers};
use iom_table_survey::{FrameRow, Reach, survey};
use iom_tlb::Space;

/// Whether the context that was found has the address space.
fn has_space(found: Option<Context>, space: Space) -> bool
    ensures yes { result ≡ true → HasSpace found space }
    ensures no { result ≡ false → ¬ HasSpace found space }
{
    match found {
        Some(context) => space_of(&context) == Some(space),
        None => false,
    }
}

/// Whether a device is plugged in with the id, of which a request may find a context that has the address space.
fn shares_space(hardware: &Board, id: DeviceId, space: Space) -> bool
    ensures yes { result ≡ true → SharesSpace (board_parts hardware.now) space id }
    ensures no { result ≡ false → ¬ SharesSpace (board_parts hardware.now) space id }
{
    if hardware.kind_of(id).is_none() {
        return false;
    }
    if has_space(cached_in(hardware, id), space) {
        return true;
    }
    has_space(stored_in(hardware, id), space)
}

/// The tables from the pointer's on, and what they lead to.
fn survey_along(
    memory: &Memory,
    napot: bool,
    pointer: Pointer,
    tables: &mut FrameRow,
    reach: &mut Reach,
)
    requires { length memory.now ≤ 4096 }
    ensures tables { GrowsBy tables.old tables.new (IsTableAlong napot memory.now pointer) }
    ensures leaves { AddsReach reach.old reach.new (IsMappedAlong napot memory.now pointer) }
{
    survey(
        memory,
        napot,
        pointer.table.number(),
        1,
        pointer.level + 1,
        tables,
        reach,
    );
}

/// The device of the row can reach what is reached there, where it has the address space.
fn widen_row(hardware: &Board, row: &mut DeviceReach, space: Space, reach: &Reach)
    ensures { RowGrows row.old row.new (λ kind f. (row_has (frames_by reach.now kind) f ≡ true) × SharesSpace (board_parts hardware.now) space row.old.id) }
{
    if shares_space(hardware, row.id, space) {
        row.reach.union(reach);
    }
}

/// So can each device that has a row.
pub(crate) fn widen_rows(hardware: &Board, rows: &mut [DeviceReach], space: Space, reach: &Reach)
    ensures { RowsGrow rows.old rows.new (λ id kind f. (row_has (frames_by reach.now kind) f ≡ true) × SharesSpace (board_parts hardware.now) space id) }
{
    for place in 0..rows.len() {
        widen_row(hardware, &mut rows[place], space, reach);
    }
}

/// Along one pointer.
fn look_along_one(
    hardware: &Board,
    napot: bool,
    pointer: Pointer,
    rows: &mut [DeviceReach],
    read: &mut FrameRow,
)
    requires { length hardware.now.memory ≤ 4096 }
    ensures rows { RowsGrow rows.old rows.new (IsReachedAlong napot (board_parts hardware.now) pointer) }
    ensures tables { GrowsBy read.old read.new (IsTableAlong napot hardware.now.memory pointer) }
{
    let mut reach = Reach::new();
    survey_along(&hardware.memory, napot, pointer, read, &mut reach);
    widen_rows(hardware, rows, pointer.space, &reach);
}

/// Along each of them.
fn look_along_all(
    hardware: &Board,
    napot: bool,
    pointers: &[Pointer],
    rows: &mut [DeviceReach],
    read: &mut FrameRow,
)
    requires { length hardware.now.memory ≤ 4096 }
    ensures rows { RowsGrow rows.old rows.new (IsReachedAlongSome napot (board_parts hardware.now) pointers.now) }
    ensures tables { GrowsBy read.old read.new (IsTableAlongSome napot hardware.now.memory pointers.now) }
{
    for place in 0..pointers.len() {
        look_along_one(hardware, napot, pointers[place], rows, read);
    }
}

/// From each context, where walks know leaves of 64 KiB, and along each pointer.
fn look_beside(
    hardware: &Board,
    napot: bool,
    pointers: &[Pointer],
    rows: &mut [DeviceReach],
    read: &mut FrameRow,
)
    requires { length hardware.now.memory ≤ 4096 }
    ensures rows { RowsGrow rows.old rows.new (IsReachedBeside napot (board_parts hardware.now) pointers.now) }
    ensures tables { GrowsBy read.old read.new (IsTableBeside napot (board_parts hardware.now) pointers.now) }
{
    look_from_all(hardware, napot, rows, read);
    look_along_all(hardware, napot, pointers, rows, read);
}

impl Survey {
    /// What is reached along these pointers, and where `napot` is set by leaves of 64 KiB, and the tables that are read: no
    /// such way is missed of a device that has a row, and none is invented.
    fn add_along(&mut self, hardware: &Board, napot: bool, pointers: &[Pointer])
        requires { length hardware.now.memory ≤ 4096 }
        ensures looks { LooksAlong napot (board_parts hardware.now) pointers.now self.old self.new }
        ensures rows { (trusted : ℕ → Bool) → HasRowOfEach (scene_of trusted (board_parts hardware.now)) self.old.devices.items
            → HasRowOfEach (pointed_scene napot trusted (board_parts hardware.now) pointers.now) self.new.devices.items }
        ensures missed { (trusted : ℕ → Bool) → HasRowOfEach (scene_of trusted (board_parts hardware.now)) self.old.devices.items
            → Surveys self.old (scene_of trusted (board_parts hardware.now))
            → Surveys self.new (pointed_scene napot trusted (board_parts hardware.now) pointers.now) }
        ensures invented { (trusted : ℕ → Bool) → InventsNone self.old (scene_of trusted (board_parts hardware.now))
            → InventsNone self.new (pointed_scene napot trusted (board_parts hardware.now) pointers.now) }
    {
        pointer_law();
        look_beside(hardware, napot, pointers, &mut self.devices, &mut self.read);
    }

    /// Looks also at what hardware has beside itself, behind a look at the hardware, whose walks are whole and know no
    /// leaves of 64 KiB. Each table from a cached pointer on is read, and what the tables lead to can be reached by each
    /// device of which a context has the pointer's address space. Where walks know leaves of 64 KiB (`napot`), the tables
    /// of each context are looked at again, with these.
    pub fn look_along(&mut self, hardware: &Board, napot: bool, pointers: &Pointers)
        requires size { length hardware.now.memory ≤ 4096 }
        ensures missed { (trusted : ℕ → Bool) → Surveys self.old (scene_of trusted (board_parts hardware.now))
            → Surveys self.new (pointed_scene napot trusted (board_parts hardware.now) pointers.now) }
        ensures invented { (trusted : ℕ → Bool) → InventsNone self.old (scene_of trusted (board_parts hardware.now))
            → InventsNone self.new (pointed_scene napot trusted (board_parts hardware.now) pointers.now) }
    {
        self.add_along(hardware, napot, pointers.as_slice());
    }
}

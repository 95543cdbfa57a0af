// What the tables of contexts lead to where walks know leaves of 64 KiB.
ghost use Rattle.std.specs.Prelude.{◌≡◌, ◌≤◌, true, length, Some};
ghost use Rattle.iom_board.specs.BoardParts.{board_parts};
ghost use Rattle.iom_table_survey.specs.Rows.{GrowsBy};
ghost use Rattle.iom_way_survey.specs.Along.{SharesSpace, IsTableFound, IsReachedFound, IsTableOf, IsReachedOf, IsTableOfSome, IsReachedOfSome, RowsGrow};
ghost use Rattle.iom_way_survey.specs.Found.{HaveTableIn, HaveLeafIn};

use crate::along::widen_rows;
use crate::contexts::{cached_in, device_at, space_of, stored_beside, survey_stages};
use crate::findings::DeviceReach;
use iom_board::Board;
use iom_device::Device;
use iom_device_dir::Context;
use iom_table_survey::{FrameRow, Reach};
use iom_tlb::Space;

/// From the tables of a context that has the address space: what they lead to, each device of the space reaches.
fn look_from_tables(
    hardware: &Board,
    context: &Context,
    space: Space,
    rows: &mut [DeviceReach],
    read: &mut FrameRow,
)
    requires { length hardware.now.memory ≤ 4096 }
    ensures rows { RowsGrow rows.old rows.new (λ id kind f. HaveLeafIn true hardware.now.memory context.now.first_stage context.now.second_stage kind f
        × SharesSpace (board_parts hardware.now) space id) }
    ensures tables { GrowsBy read.old read.new (HaveTableIn true hardware.now.memory context.now.first_stage context.now.second_stage) }
{
    let mut reach = Reach::new();
    survey_stages(
        &hardware.memory,
        true,
        context.first_stage,
        context.second_stage,
        read,
        &mut reach,
    );
    widen_rows(hardware, rows, space, &reach);
}

/// From the context that was found.
fn look_from_found(
    hardware: &Board,
    found: Option<Context>,
    rows: &mut [DeviceReach],
    read: &mut FrameRow,
)
    requires { length hardware.now.memory ≤ 4096 }
    ensures rows { RowsGrow rows.old rows.new (IsReachedFound (board_parts hardware.now) found) }
    ensures tables { GrowsBy read.old read.new (IsTableFound hardware.now.memory found) }
{
    if let Some(context) = found {
        if let Some(space) = space_of(&context) {
            look_from_tables(hardware, &context, space, rows, read);
        }
    }
}

/// From the contexts that a request of the device may find: the cached one, and the stored one where it is another.
fn look_from_contexts(
    hardware: &Board,
    device: &Device,
    rows: &mut [DeviceReach],
    read: &mut FrameRow,
)
    requires { length hardware.now.memory ≤ 4096 }
    ensures rows { RowsGrow rows.old rows.new (IsReachedOf (board_parts hardware.now) device.now) }
    ensures tables { GrowsBy read.old read.new (IsTableOf (board_parts hardware.now) device.now) }
{
    let cached = cached_in(hardware, device.id);
    look_from_found(hardware, cached, rows, read);
    let beside = stored_beside(hardware, device.id, cached);
    look_from_found(hardware, beside, rows, read);
}

/// From those of all devices.
fn look_from_devices(hardware: &Board, rows: &mut [DeviceReach], read: &mut FrameRow)
    requires { length hardware.now.memory ≤ 4096 }
    ensures rows { RowsGrow rows.old rows.new (IsReachedOfSome (board_parts hardware.now)) }
    ensures tables { GrowsBy read.old read.new (IsTableOfSome (board_parts hardware.now)) }
{
    for place in 0..hardware.devices.len() {
        let device = device_at(hardware, place);
        look_from_contexts(hardware, device, rows, read);
    }
}

/// The same, where walks know leaves of 64 KiB.
pub(crate) fn look_from_all(
    hardware: &Board,
    napot: bool,
    rows: &mut [DeviceReach],
    read: &mut FrameRow,
)
    requires { length hardware.now.memory ≤ 4096 }
    ensures rows { RowsGrow rows.old rows.new (λ id kind f. (napot ≡ true) × IsReachedOfSome (board_parts hardware.now) id kind f) }
    ensures tables { GrowsBy read.old read.new (λ f. (napot ≡ true) × IsTableOfSome (board_parts hardware.now) f) }
{
    if napot {
        look_from_devices(hardware, rows, read);
    }
}

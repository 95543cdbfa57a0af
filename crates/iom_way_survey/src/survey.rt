ghost use Rattle.std.specs.Prelude.{◌≡◌, ◌≤◌, ◌<◌, ℕ, true, false, [], length, slice_get, vec_capacity, ◌==◌, option_map, IfSome, IfNone, Some};
ghost use Rattle.std.specs.List.{find};
ghost use Rattle.iom_device.specs.declared.device.Device.{Device};
ghost use Rattle.iom_board.specs.BoardParts.{board_parts};
ghost use Rattle.iom_reach.specs.Safe.{IsSafe};
ghost use Rattle.iom_reach.specs.Scene.{HardwareScene};
ghost use Rattle.iom_table_survey.specs.Rows.{row_has, GrowsBy, StandInBoth};
ghost use Rattle.iom_way_survey.specs.Found.{TablesOfDevice, SomeTable};
ghost use Rattle.iom_way_survey.specs.Surveys.{rows_in, is_id_among, IsReachRow, reaches_in_rows, Surveys, IsSurveyOf, IsClash, AreRowsOf, IsConflictFree, IsConflict, IsFirstConflict};
ghost use Rattle.iom_way_survey.specs.declared.findings.Conflict.{Conflict};
ghost use Rattle.iom_way_survey.specs.declared.findings.DeviceReach.{DeviceReach};

use crate::contexts::device_at;
use crate::devices::survey_device;
use crate::findings::{Conflict, DeviceReach, Survey};
use iom_base::{AccessKind, DeviceId};
use iom_board::Board;
use iom_device::Device;
use iom_table_survey::{FrameRow, Reach};
use iom_walks::Walks;

/// Whether the id is one of these.
fn is_among(ids: &[DeviceId], id: DeviceId) -> bool
    ensures { result ≡ is_id_among ids.now id }
{
    ids.iter().any(|own| *own == id)
}

/// All ways of a device; the tables that are walked for it go into `read`.
fn survey_one(
    hardware: &Board,
    walks: Option<&Walks>,
    device: &Device,
    trusted: &[DeviceId],
    read: &mut FrameRow,
) -> DeviceReach
    requires { length hardware.now.memory ≤ 4096 }
    ensures row { IsReachRow (board_parts hardware.now) (rows_in (option_map (λ w. w.now) walks.entry)) trusted.now result device.now }
    ensures tables { GrowsBy read.old read.new (TablesOfDevice (board_parts hardware.now) (rows_in (option_map (λ w. w.now) walks.entry)) device.now.id) }
{
    let mut reach = Reach::new();
    survey_device(hardware, walks, device, read, &mut reach);
    DeviceReach {
        id: device.id,
        is_trusted: is_among(trusted, device.id),
        reach,
    }
}

/// All ways of all devices.
pub(crate) fn survey_devices(
    hardware: &Board,
    walks: Option<&Walks>,
    trusted: &[DeviceId],
    rows: &mut Vec<DeviceReach>,
    read: &mut FrameRow,
)
    requires size { length hardware.now.memory ≤ 4096 }
    requires few { length hardware.now.devices.items ≤ 16 }
    requires room { 16 ≤ vec_capacity rows.old }
    requires empty { rows.old.items ≡ [] }
    ensures rows { AreRowsOf (board_parts hardware.now) (rows_in (option_map (λ w. w.now) walks.entry)) trusted.now rows.new.items }
    ensures tables { GrowsBy read.old read.new (SomeTable (board_parts hardware.now) (rows_in (option_map (λ w. w.now) walks.entry))) }
    ensures room { 16 ≤ vec_capacity rows.new }
{
    for place in 0..hardware.devices.len() {
        let device = device_at(hardware, place);
        let row = survey_one(hardware, walks, device, trusted, read);
        rows.push(row).unwrap();
    }
}

/// The row at a place.
fn row_at(rows: &[DeviceReach], place: usize) -> &DeviceReach
    requires { place < length rows.now }
    ensures { slice_get rows.now place ≡ Some result.now }
{
    match rows.get(place) {
        Some(row) => row,
        None => unreachable!(),
    }
}

/// The row of the device.
fn row_of(rows: &[DeviceReach], id: DeviceId) -> Option<&DeviceReach>
    ensures { option_map (λ row. row.now) result ≡ find (λ (row : DeviceReach). row.id == id) rows.now }
{
    rows.iter().find(|row| row.id == id)
}

/// The first frame that is read, and that the device may write, unless it is trusted.
fn first_written(read: &FrameRow, row: &DeviceReach) -> Option<u64>
    ensures some { IfSome result (λ f. (row.now.is_trusted ≡ false) × StandInBoth read.now row.now.reach.writable f) }
    ensures first { IfSome result (λ f. (g : ℕ) → g < f → ¬ StandInBoth read.now row.now.reach.writable g) }
    ensures none { IfNone result (row.now.is_trusted ≡ false → (f : ℕ) → ¬ StandInBoth read.now row.now.reach.writable f) }
{
    if row.is_trusted {
        return None;
    }
    read.first_common(&row.reach.writable)
}

impl Survey {
    /// Whether the device can reach the frame by an access of this kind.
    pub fn reaches(&self, device: DeviceId, frame: u64, kind: AccessKind) -> bool
        ensures { result ≡ reaches_in_rows self.now.devices.items device kind frame }
    {
        match row_of(&self.devices, device) {
            Some(row) => row.reach.contains(frame, kind),
            None => false,
        }
    }

    /// Whether hardware reads the frame: tables, the directory, or commands that wait.
    pub fn is_read_by_hardware(&self, frame: u64) -> bool
        ensures { result ≡ row_has self.now.read frame }
    {
        self.read.contains(frame)
    }

    /// Whether the IOMMU may store into the frame: a fault record, or the word of a fence that waits.
    pub fn is_stored_by_iommu(&self, frame: u64) -> bool
        ensures { result ≡ row_has self.now.stored frame }
    {
        self.stored.contains(frame)
    }

    /// The first conflict, by the order of the devices, behind which the IOMMU comes, and of each by the lowest frame; None
    /// exactly where what hardware reads is out of reach.
    pub fn first_conflict(&self) -> Option<Conflict>
        ensures some { IfSome result (IsConflict self.now) }
        ensures first { IfSome result (IsFirstConflict self.now) }
        ensures none { IfNone result (IsConflictFree self.now) }
    {
        for place in 0..self.devices.len() {
            let row = row_at(&self.devices, place);
            if let Some(frame) = first_written(&self.read, row) {
                return Some(Conflict {
                    device: Some(row.id),
                    frame,
                });
            }
        }
        match self.read.first_common(&self.stored) {
            Some(frame) => Some(Conflict {
                device: None,
                frame,
            }),
            None => None,
        }
    }

    /// Whether nobody but software can write what hardware reads.
    pub fn is_safe(&self) -> bool
        ensures safe { result ≡ true → (scene : HardwareScene) → Surveys self.now scene → IsSafe scene }
        ensures conflict { result ≡ false → (one : Conflict) × IsConflict self.now one }
        ensures clash { result ≡ false → (scene : HardwareScene) → IsSurveyOf self.now scene → IsClash scene }
    {
        self.first_conflict().is_none()
    }
}

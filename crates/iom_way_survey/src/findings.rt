// What a survey has.
ghost use Rattle.std.specs.Prelude.{◌≤◌, vec_capacity};

use iom_base::DeviceId;
use iom_table_survey::{FrameRow, Reach};

/// The frames that a device can reach by any way.
#[derive(Drop)]
pub(crate) struct DeviceReach {
    pub(crate) id: DeviceId,
    /// Whether software entrusts it with all memory.
    pub(crate) is_trusted: bool,
    pub(crate) reach: Reach,
}

/// By which frames each device can be reached, which of them hardware reads, and into which the IOMMU stores.
#[derive(Drop)]
pub struct Survey {
    pub(crate) devices: Vec<DeviceReach>,
    /// What hardware reads: tables, the directory, commands that wait.
    pub(crate) read: FrameRow,
    /// Where fault records are stored, and the words of fences.
    pub(crate) stored: FrameRow,
    ghost room: { 16 ≤ vec_capacity devices },
}

/// A frame that hardware reads, and that somebody may write: a device that isn't trusted, or the IOMMU, which stores fault
/// records and the words of fences.
#[derive(Clone, Copy, PartialEq, Eq)]
pub struct Conflict {
    /// None where it is the IOMMU.
    pub device: Option<DeviceId>,
    /// The frame; 4,096 stands for all from there on, where no memory has any.
    pub frame: u64,
}

// Where the fixed frames are, and what the registers are told of them.
ghost use Rattle.std.specs.Prelude.{◌≡◌, ◌≤◌, ◌<◌, ◌^◌, ◌%◌};
ghost use Rattle.iom_driver.specs.Layout.{command_frame, completion_frame, directory_frame, completion_address, ddtp_of, cqb_of, fqb_of};
ghost use Rattle.iom_base.specs.DeviceIds.{id_limit};

use iom_base::{DeviceId, PAGE_SIZE};

/// How many devices may be plugged in.
pub(crate) const MAX_DEVICES: usize = 16;

/// How many entries the command queue has: as many as fill its frame.
pub(crate) const QUEUE_ENTRIES: u64 = 256;

/// The exponent of that number less 1, as `cqb` has it.
const COMMANDS_LOG2SZ_LESS_1: u64 = 7;

/// The same for the 128 entries that fill the frame of the fault queue, as `fqb` has it.
const RECORDS_LOG2SZ_LESS_1: u64 = 6;

/// Where the PPN stands in `ddtp`, `cqb` and `fqb`.
const PPN_SHIFT: u32 = 10;

/// The number of `iommu_mode` is this much above that of the levels.
const MODE_ABOVE_LEVELS: u64 = 1;

/// The frame whose first four bytes are the completion word.
pub(crate) fn completion_frame(frames: u32) -> u32
    requires { 64 ≤ frames }
    ensures { result ≡ completion_frame frames }
{
    frames - 3
}

/// The frame of the root of the device directory.
pub(crate) fn directory_frame(frames: u32) -> u32
    requires { 64 ≤ frames }
    ensures { result ≡ directory_frame frames }
{
    frames - 4
}

/// The address of the completion word.
pub(crate) fn completion_address(frames: u32) -> u64
    requires { 64 ≤ frames }
    ensures value { result ≡ completion_address frames }
    ensures aligned { result % 4 ≡ 0 }
{
    PAGE_SIZE * u64::from(completion_frame(frames))
}

/// What `ddtp` is told: the directory's root and its levels.
pub(crate) fn ddtp_of(frames: u32, levels: u8) -> u64
    requires { 64 ≤ frames }
    ensures { result ≡ ddtp_of frames levels }
{
    (u64::from(directory_frame(frames)) << PPN_SHIFT) + u64::from(levels) + MODE_ABOVE_LEVELS
}

/// What `cqb` is told: the queue's frame and its size.
pub(crate) fn cqb_of(frames: u32) -> u64
    requires { 64 ≤ frames }
    ensures { result ≡ cqb_of frames }
{
    (u64::from(frames - 1) << PPN_SHIFT) + COMMANDS_LOG2SZ_LESS_1
}

/// What `fqb` is told: the queue's frame and its size.
pub(crate) fn fqb_of(frames: u32) -> u64
    requires { 64 ≤ frames }
    ensures { result ≡ fqb_of frames }
{
    (u64::from(frames - 2) << PPN_SHIFT) + RECORDS_LOG2SZ_LESS_1
}

/// The ids that a device directory of so many levels can name are below this: of 7, 16 or 24 bits
/// (IOMMU specification, section 2.1, "Device-Directory-Table (DDT)").
pub(crate) fn id_limit(levels: u8) -> DeviceId
    ensures { result ≡ id_limit levels }
{
    match levels {
        1 => 1 << 7,
        2 => 1 << 16,
        _ => 1 << 24,
    }
}

ghost use Rattle.std.specs.Prelude.{◌≡◌, ◌<◌, length, OnOk, OnErr, Some, slice_get, slice_set};
ghost use Rattle.iom_virtio_blk.specs.Disks.{GoesWell, Fails, IsOldOrNew};
ghost use Rattle.iom_virtio_blk.specs.DiskStates.{DiskState};

/// The bytes of a sector (virtio 1.2, section 5.2.4).
pub const SECTOR_SIZE: usize = 512;

/// A call of a disk failed.
#[derive(Clone, Copy, PartialEq, Eq, Debug)]
pub struct DiskFault;

/// What a block device keeps its sectors on.
///
/// Each disk has a name that no call changes, so that no disk passes for another that holds the same. A call fails only
/// where the disk counts one failure more; at the last number it counts, a disk fails no more. Where it is settled
/// beforehand which of its calls fail, each call is one of these. A write that failed leaves its sector old or new, and
/// all others as they were.
pub trait Disk: Drop {
    /// Its name, the bytes of each sector, how many calls failed, and which will, where that is settled.
    ghost shown: { Self → DiskState };

    /// The name of the disk.
    fn name(&self) -> u64
        ensures { result ≡ (shown self.now).name };

    /// How many sectors the disk has.
    fn sectors(&self) -> u64
        ensures { result ≡ length (shown self.now).sectors };

    /// How many calls failed so far.
    fn failures(&self) -> u64
        ensures { result ≡ (shown self.now).failures };

    /// Reads a sector. What was written stays.
    fn read(&mut self, sector: u64, bytes: &mut [u8; 512]) -> Result<(), DiskFault>
        requires { sector < length (shown self.old).sectors }
        ensures ok { OnOk result (slice_get (shown self.old).sectors sector ≡ Some bytes.new) }
        ensures same { (shown self.new).sectors ≡ (shown self.old).sectors }
        ensures well { OnOk result (GoesWell (shown self.old) (shown self.new)) }
        ensures fails { OnErr result (Fails (shown self.old) (shown self.new)) };

    /// Writes a sector.
    fn write(&mut self, sector: u64, bytes: &[u8; 512]) -> Result<(), DiskFault>
        requires { sector < length (shown self.old).sectors }
        ensures ok { OnOk result ((shown self.new).sectors ≡ slice_set (shown self.old).sectors sector bytes.now) }
        ensures err { OnErr result (IsOldOrNew (shown self.old).sectors sector bytes.now (shown self.new).sectors) }
        ensures well { OnOk result (GoesWell (shown self.old) (shown self.new)) }
        ensures fails { OnErr result (Fails (shown self.old) (shown self.new)) };

    /// Makes what was written last.
    fn flush(&mut self) -> Result<(), DiskFault>
        ensures same { (shown self.new).sectors ≡ (shown self.old).sectors }
        ensures well { OnOk result (GoesWell (shown self.old) (shown self.new)) }
        ensures fails { OnErr result (Fails (shown self.old) (shown self.new)) };
}

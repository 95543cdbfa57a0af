ghost use Rattle.std.specs.Prelude.{◌≡◌, Some, None, OnOk, OnErr};
ghost use Rattle.iom_virtio_blk.specs.Disks.{disk_in, sector_count, HasReason, HasFlushReason, CalledWell, KeepsSectors, DidRead, DidWrite, Tears, IsThere};

use crate::disk::{Disk, DiskFault};

/// A place for a disk, which may be empty.
///
/// The definitions of its clauses take the disk's ghost member `shown`, and so speak of any disk.
#[derive(Drop)]
pub(crate) struct Drive<D: Disk> {
    disk: Option<D>,
}

impl<D: Disk> Drive<D> {
    /// A place with no disk.
    pub(crate) fn new() -> Drive<D>
        ensures { result.disk ≡ None }
    {
        Drive { disk: None }
    }

    /// The disk goes in as it is.
    pub(crate) fn insert(&mut self, disk: D)
        requires { self.old.disk ≡ None }
        ensures { self.new.disk ≡ Some disk }
    {
        self.disk = Some(disk);
    }

    /// The disk is dropped, if there is one.
    pub(crate) fn eject(&mut self)
        ensures { self.new.disk ≡ None }
    {
        self.disk = None;
    }

    /// The number of sectors, where there is a disk.
    pub(crate) fn sectors(&self) -> Option<u64>
        ensures { result ≡ sector_count (disk_in D.shown self.now.disk) }
    {
        match &self.disk {
            Some(disk) => Some(disk.sectors()),
            None => None,
        }
    }

    /// Reads a sector.
    pub(crate) fn read(&mut self, sector: u64, bytes: &mut [u8; 512]) -> Result<(), DiskFault>
        ensures ok { OnOk result (DidRead (disk_in D.shown self.old.disk) sector bytes.new) }
        ensures same { KeepsSectors (disk_in D.shown self.old.disk) (disk_in D.shown self.new.disk) }
        ensures called { OnOk result (CalledWell (disk_in D.shown self.old.disk) (disk_in D.shown self.new.disk)) }
        ensures fault { OnErr result (HasReason (disk_in D.shown self.old.disk) sector (disk_in D.shown self.new.disk)) }
    {
        match self.disk.take() {
            Some(mut disk) => {
                let done = if sector < disk.sectors() {
                    disk.read(sector, bytes)
                } else {
                    Err(DiskFault)
                };
                self.disk = Some(disk);
                done
            }
            None => Err(DiskFault),
        }
    }

    /// Writes a sector.
    pub(crate) fn write(&mut self, sector: u64, bytes: &[u8; 512]) -> Result<(), DiskFault>
        ensures ok { OnOk result (DidWrite (disk_in D.shown self.old.disk) sector bytes.now (disk_in D.shown self.new.disk)) }
        ensures err { OnErr result (Tears (disk_in D.shown self.old.disk) sector bytes.now (disk_in D.shown self.new.disk)) }
        ensures called { OnOk result (CalledWell (disk_in D.shown self.old.disk) (disk_in D.shown self.new.disk)) }
        ensures fault { OnErr result (HasReason (disk_in D.shown self.old.disk) sector (disk_in D.shown self.new.disk)) }
    {
        match self.disk.take() {
            Some(mut disk) => {
                let done = if sector < disk.sectors() {
                    disk.write(sector, bytes)
                } else {
                    Err(DiskFault)
                };
                self.disk = Some(disk);
                done
            }
            None => Err(DiskFault),
        }
    }

    /// Makes what was written last.
    pub(crate) fn flush(&mut self) -> Result<(), DiskFault>
        ensures ok { OnOk result (IsThere (disk_in D.shown self.old.disk)) }
        ensures same { KeepsSectors (disk_in D.shown self.old.disk) (disk_in D.shown self.new.disk) }
        ensures called { OnOk result (CalledWell (disk_in D.shown self.old.disk) (disk_in D.shown self.new.disk)) }
        ensures fault { OnErr result (HasFlushReason (disk_in D.shown self.old.disk) (disk_in D.shown self.new.disk)) }
    {
        match self.disk.take() {
            Some(mut disk) => {
                let done = disk.flush();
                self.disk = Some(disk);
                done
            }
            None => Err(DiskFault),
        }
    }
}

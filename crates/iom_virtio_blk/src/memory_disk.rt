ghost use Rattle.std.specs.Prelude.{◌≡◌, ◌<◌, length, true, false, IfOk, OnOk, OnErr, Some, slice_get, slice_set};
ghost use Rattle.iom_virtio_blk.specs.Disks.{GoesWell, Fails, after_call, fails_next};
ghost use Rattle.iom_virtio_blk.specs.MemoryDisks.{failing_at, failing_of, failures_of, disk_state, zero_disk, zero_sector};

use crate::disk::{Disk, DiskFault, SECTOR_SIZE};
use std::alloc::{AllocError, Global};

/// Which of a disk's calls fails.
#[derive(Clone, Copy, PartialEq, Eq)]
pub(crate) enum Failing {
    /// None does.
    Never,
    /// One will, when so many more calls were made.
    After(u64),
    /// One did, and no other will.
    Past,
}

impl Failing {
    /// The call of this number does, counted from 1.
    fn at(call: Option<u64>) -> Failing
        ensures failing { failing_of result ≡ failing_at call }
        ensures none { failures_of result ≡ 0 }
    {
        match call {
            None | Some(0) => Failing::Never,
            Some(call) => Failing::After(call - 1),
        }
    }

    /// A call is made: whether it fails.
    fn call(&mut self) -> bool
        ensures fails { result ≡ fails_next (failing_of self.old) }
        ensures after { failing_of self.new ≡ after_call (failing_of self.old) }
        ensures well { result ≡ false → failures_of self.new ≡ failures_of self.old }
        ensures counted { result ≡ true → failures_of self.old < failures_of self.new }
    {
        match *self {
            Failing::Never | Failing::Past => false,
            Failing::After(0) => {
                *self = Failing::Past;
                true
            }
            Failing::After(before) => {
                *self = Failing::After(before - 1);
                false
            }
        }
    }
}

/// A disk in memory. One of its calls may be made to fail: that changes nothing, and the disk works after it.
#[derive(Drop)]
pub struct MemoryDisk {
    name: u64,
    sectors: Vec<[u8; SECTOR_SIZE]>,
    failing: Failing,
}

/// A sector of zeros.
fn zero_sector() -> [u8; SECTOR_SIZE]
    ensures { result ≡ zero_sector }
{
    [0; SECTOR_SIZE]
}

impl MemoryDisk {
    /// A disk of this name with so many sectors, all zero. Of its calls (read, write and flush) the one of this number
    /// fails, counted from 1; none where no number is given, or 0.
    pub fn new(
        alloc: Global,
        name: u64,
        sectors: usize,
        fails_at: Option<u64>,
    ) -> Result<MemoryDisk, AllocError>
        ensures { IfOk result (λ disk. disk_state disk ≡ zero_disk name sectors (failing_at fails_at)) }
    {
        let mut zeros = Vec::with_capacity(alloc, sectors)?;
        for made in 0..sectors {
            zeros.push(zero_sector())?;
        }
        Ok(MemoryDisk {
            name,
            sectors: zeros,
            failing: Failing::at(fails_at),
        })
    }
}

impl Disk for MemoryDisk {
    ghost shown = { disk_state };

    fn name(&self) -> u64 {
        self.name
    }

    fn sectors(&self) -> u64 {
        self.sectors.len() as u64
    }

    fn failures(&self) -> u64 {
        match self.failing {
            Failing::Never | Failing::After(_) => 0,
            Failing::Past => 1,
        }
    }

    fn read(&mut self, sector: u64, bytes: &mut [u8; 512]) -> Result<(), DiskFault>
        requires { sector < length self.old.sectors.items }
        ensures ok { OnOk result (slice_get self.old.sectors.items sector ≡ Some bytes.new) }
        ensures same { self.new.sectors.items ≡ self.old.sectors.items }
        ensures well { OnOk result (GoesWell (disk_state self.old) (disk_state self.new)) }
        ensures fails { OnErr result (Fails (disk_state self.old) (disk_state self.new)) }
    {
        if self.failing.call() {
            return Err(DiskFault);
        }
        *bytes = self.sectors[sector as usize];
        Ok(())
    }

    fn write(&mut self, sector: u64, bytes: &[u8; 512]) -> Result<(), DiskFault>
        requires { sector < length self.old.sectors.items }
        ensures ok { OnOk result (self.new.sectors.items ≡ slice_set self.old.sectors.items sector bytes.now) }
        ensures err { OnErr result (self.new.sectors.items ≡ self.old.sectors.items) }
        ensures well { OnOk result (GoesWell (disk_state self.old) (disk_state self.new)) }
        ensures fails { OnErr result (Fails (disk_state self.old) (disk_state self.new)) }
    {
        if self.failing.call() {
            return Err(DiskFault);
        }
        self.sectors[sector as usize] = *bytes;
        Ok(())
    }

    fn flush(&mut self) -> Result<(), DiskFault>
        ensures same { self.new.sectors.items ≡ self.old.sectors.items }
        ensures well { OnOk result (GoesWell (disk_state self.old) (disk_state self.new)) }
        ensures fails { OnErr result (Fails (disk_state self.old) (disk_state self.new)) }
    {
        if self.failing.call() {
            return Err(DiskFault);
        }
        Ok(())
    }
}

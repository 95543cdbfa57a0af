ghost use Rattle.std.specs.Prelude.{◌≡◌, None};

use iom_virtio_blk::{Disk, DiskFault};

/// A disk of four sectors that fails at one of its calls, counted from 1, or at none: 0.
#[derive(Drop)]
pub(crate) struct FailingDisk {
    sectors: [[u8; 512]; 4],
    fails_at: u64,
    calls: u64,
    failures: u64,
}

impl FailingDisk {
    pub(crate) fn new(fails_at: u64) -> FailingDisk {
        FailingDisk {
            sectors: [[0; 512]; 4],
            fails_at,
            calls: 0,
            failures: 0,
        }
    }

    // Counts a call, and tells whether it fails. No sector changes.
    fn fails(&mut self) -> bool
        ensures same { self.new.sectors ≡ self.old.sectors }
        ensures failures { self.new.failures ≡ self.old.failures }
    {
        self.calls = self.calls.saturating_add(1);
        self.calls == self.fails_at && self.failures == 0
    }
}

impl Disk for FailingDisk {
    // Which of its calls fail isn't told beforehand, as of a disk outside.
    ghost shown = { λ disk. record { name = 0; sectors = disk.sectors; failures = disk.failures; failing = None } };

    fn name(&self) -> u64 {
        0
    }

    fn sectors(&self) -> u64 {
        4
    }

    fn failures(&self) -> u64 {
        self.failures
    }

    fn read(&mut self, sector: u64, bytes: &mut [u8; 512]) -> Result<(), DiskFault> {
        if self.fails() && self.failures == 0 {
            self.failures = 1;
            return Err(DiskFault);
        }
        *bytes = self.sectors[sector as usize];
        Ok(())
    }

    fn write(&mut self, sector: u64, bytes: &[u8; 512]) -> Result<(), DiskFault> {
        if self.fails() && self.failures == 0 {
            self.failures = 1;
            return Err(DiskFault);
        }
        self.sectors[sector as usize] = *bytes;
        Ok(())
    }

    fn flush(&mut self) -> Result<(), DiskFault> {
        if self.fails() && self.failures == 0 {
            self.failures = 1;
            return Err(DiskFault);
        }
        Ok(())
    }
}

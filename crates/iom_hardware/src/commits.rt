// The oldest access in flight of a device is made, and a block device hears of it.
ghost use Rattle.std.specs.Prelude.{◌≡◌, ◌+◌, ◌<◌, ◌^◌, ℕ, List, IfOk, length, vec_capacity};
ghost use Rattle.std.specs.Option.{IfSome};
ghost use Rattle.iom_block_devices.specs.Changes.{Changes, HearsMade};
ghost use Rattle.iom_block_devices.specs.Entries.{disk_entries_of};
ghost use Rattle.iom_board.specs.BoardParts.{board_parts};
ghost use Rattle.iom_board.specs.Commits.{CommitsOldestAccess};
ghost use Rattle.iom_board.specs.Counted.{IsCounted};
ghost use Rattle.iom_inflight.specs.Flights.{row_of};
ghost use Rattle.iom_iommu.specs.Requests.{IsWithinFrame};
ghost use Rattle.iom_iommu.specs.Parts.{flights_of};
ghost use Rattle.iom_hardware.specs.Blocks.{GaveBytes, HearsIfMade, oldest_number};
ghost use Rattle.iom_hardware.specs.Inside.{inside};
ghost use Rattle.iom_hardware.specs.Invariant.{HardwareInvariant};

use crate::hardware::Hardware;
use iom_base::{AccessKind, DeviceId, Refusal};
use iom_block_devices::hear_made;
use iom_inflight::MadeAt;
use iom_virtio_blk::Disk;

impl<D: Disk> Hardware<D> {
    /// The number, among the device's accepted accesses, of its oldest one in flight, which a commit makes. None where
    /// nothing of the device is in flight, or no device has the id.
    #[inline(always)]
    pub fn oldest_number(&self, id: DeviceId) -> Option<u64>
        ensures { result ≡ oldest_number (row_of (flights_of self.now.board.iommu).rows id) }
    {
        let in_flight = self.board.iommu.in_flight(id);
        if in_flight == 0 {
            return None;
        }
        let later = (in_flight - 1) as u64;
        Some(self.board.iommu.accepted(id).saturating_sub(later))
    }

    /// A block device, if the device is one, hears that its access of this number was made.
    #[inline(always)]
    fn hear(&mut self, id: DeviceId, number: u64, made: MadeAt)
        requires within { IsWithinFrame (length self.old.board.memory) made }
        ensures board { self.new.board ≡ self.old.board }
        ensures heard { (bytes : List ℕ) → GaveBytes made.kind self.old.board.memory made bytes
            → Changes (HearsMade number bytes) (inside D.shown self.old) id (inside D.shown self.new) }
        ensures at_hand { self.new.at_hand ≡ self.old.at_hand }
        ensures entries { disk_entries_of self.new.blocks.items ≡ disk_entries_of self.old.blocks.items }
        ensures room { vec_capacity self.new.blocks ≡ vec_capacity self.old.blocks }
    {
        match made.kind {
            AccessKind::Read => hear_made(&mut self.blocks, id, number, self.board.bytes_of(made)),
            AccessKind::Write => hear_made(&mut self.blocks, id, number, &[]),
        }
    }

    /// The oldest access of the device in flight is made, as [`Board::commit`](iom_board::Board::commit) says; a block device
    /// that waits for it is handed its bytes.
    #[inline(always)]
    pub fn commit(&mut self, id: DeviceId) -> Result<Option<MadeAt>, Refusal>
        requires invariants { HardwareInvariant self.old }
        requires count { self.old.board.events + 1 < 2 ^ 64 }
        ensures effect { CommitsOldestAccess (board_parts self.old.board) id result (board_parts self.new.board) }
        ensures inside { HearsIfMade result (oldest_number (row_of (flights_of self.old.board.iommu).rows id)) self.new.board.memory
            (inside D.shown self.old) id (inside D.shown self.new) }
        ensures within { IfOk result (λ made. IfSome made (IsWithinFrame (length self.new.board.memory))) }
        ensures invariants { HardwareInvariant self.new }
        ensures counted { IsCounted self.old.board self.new.board }
    {
        // Without block devices nobody hears of it.
        let number = if self.blocks.is_empty() {
            None
        } else {
            self.oldest_number(id)
        };
        let answer = self.board.commit(id);
        if let Some(number) = number
            && let Ok(Some(made)) = answer
        {
            self.hear(id, number, made);
        }
        answer
    }
}

// The disks that were never in a device, and how one is put into a device.
ghost use Rattle.std.specs.Prelude.{◌≡◌, ◌<◌, ◌≤◌, ◌++◌, ◌∷◌, [], length, true, false, vec_capacity, Some, MatchOption};
ghost use Rattle.iom_base.specs.Sizes.{device_limit};
ghost use Rattle.iom_base.specs.Disks.{is_among, without_disk};
ghost use Rattle.iom_block_devices.specs.Entries.{disk_entries_of, numbers_of};
ghost use Rattle.iom_block_devices.specs.Changes.{IsPluggedIn, IsPutIn};
ghost use Rattle.iom_block_devices.specs.Places.{IsDiskAt, TakesOut, has_in, others_than, with_has};
ghost use Rattle.iom_block_devices.specs.Shown.{shown_blocks, shown_disks};

use crate::block::{Block, DiskAtHand};
use crate::blocks::insert;
use iom_base::DeviceId;
use iom_virtio_blk::{Blk, Disk};

/// Where the disk with this number stands.
fn place_of_disk<D: Disk>(at_hand: &[DiskAtHand<D>], number: u64) -> Option<usize>
    ensures { MatchOption result (is_among (numbers_of at_hand.now) number ≡ false) (IsDiskAt D.shown at_hand.now number) }
{
    for place in 0..at_hand.len() {
        if at_hand[place].number == number {
            return Some(place);
        }
    }
    None
}

/// What has this number is left out.
fn leave_out<D: Disk>(at_hand: &mut Vec<DiskAtHand<D>>, number: u64)
    ensures { at_hand.new.items ≡ others_than number at_hand.old.items }
{
    at_hand.retain(|other| other.number != number);
}

/// The disk with this number is taken out, if it is there.
fn take_disk<D: Disk>(at_hand: &mut Vec<DiskAtHand<D>>, number: u64) -> Option<D>
    ensures { MatchOption result (is_among (numbers_of at_hand.old.items) number ≡ false)
        (TakesOut D.shown number at_hand.old.items at_hand.new.items) }
{
    let Some(place) = place_of_disk(at_hand, number) else {
        return None;
    };
    let taken = at_hand.remove(place);
    // Numbers differ, so this finds none. With it the proof needs no fact about all numbers.
    leave_out(at_hand, number);
    Some(taken.disk)
}

/// A block device is plugged in with the disk of this number, and stands behind the others.
pub fn plug_in<D: Disk>(
    blocks: &mut Vec<Block<D>>,
    at_hand: &mut Vec<DiskAtHand<D>>,
    id: DeviceId,
    number: u64,
)
    requires among { is_among (numbers_of at_hand.old.items) number ≡ true }
    requires few { length blocks.old.items < device_limit }
    requires room { device_limit ≤ vec_capacity blocks.old }
    ensures shown { IsPluggedIn number id (shown_blocks D.shown blocks.old.items) (shown_disks D.shown at_hand.old.items)
        (shown_blocks D.shown blocks.new.items) (shown_disks D.shown at_hand.new.items) }
    ensures entries { disk_entries_of blocks.new.items ≡ disk_entries_of blocks.old.items ++ (id, true) ∷ [] }
    ensures numbers { numbers_of at_hand.new.items ≡ without_disk (Some number) (numbers_of at_hand.old.items) }
    ensures room { device_limit ≤ vec_capacity blocks.new }
{
    if let Some(disk) = take_disk(at_hand, number) {
        let mut blk = Blk::new();
        blk.insert(disk);
        blocks.push(Block { id, blk }).unwrap();
    }
}

/// The disk of this number goes into the block device with the id, which is there and has none.
pub fn put_in<D: Disk>(
    blocks: &mut Vec<Block<D>>,
    at_hand: &mut Vec<DiskAtHand<D>>,
    id: DeviceId,
    number: u64,
)
    requires among { is_among (numbers_of at_hand.old.items) number ≡ true }
    requires empty { has_in (disk_entries_of blocks.old.items) id ≡ Some false }
    ensures shown { IsPutIn number id (shown_blocks D.shown blocks.old.items) (shown_disks D.shown at_hand.old.items)
        (shown_blocks D.shown blocks.new.items) (shown_disks D.shown at_hand.new.items) }
    ensures entries { disk_entries_of blocks.new.items ≡ with_has (disk_entries_of blocks.old.items) id true }
    ensures numbers { numbers_of at_hand.new.items ≡ without_disk (Some number) (numbers_of at_hand.old.items) }
    ensures room { vec_capacity blocks.new ≡ vec_capacity blocks.old }
{
    if let Some(disk) = take_disk(at_hand, number) {
        insert(blocks, id, disk);
    }
}

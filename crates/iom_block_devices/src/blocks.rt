// What becomes of a block device, by its id. Where there is none with the id, nothing does.
ghost use Rattle.std.specs.Prelude.{◌≡◌, true, false, vec_capacity, None, Some, MatchOption};
ghost use Rattle.iom_virtqueue.specs.Layouts.{IsLayout};
ghost use Rattle.iom_block_devices.specs.Entries.{disk_entries_of};
ghost use Rattle.iom_block_devices.specs.Changes.{block_with, ChangesOne, HasDisk, IsGivenUp, IsReset, SetsUp, HearsMade, HearsRefusal};
ghost use Rattle.iom_block_devices.specs.Places.{IsBlockPlace, has_in, with_has};
ghost use Rattle.iom_block_devices.specs.Shown.{shown_blocks};

use crate::block::Block;
use iom_base::DeviceId;
use iom_virtio_blk::{Disk, OFFERED_FEATURES};
use iom_virtqueue::Layout;

/// Where the block device with this id stands.
pub fn place_of<D: Disk>(blocks: &[Block<D>], id: DeviceId) -> Option<usize>
    ensures { MatchOption result (block_with (shown_blocks D.shown blocks.now) id ≡ None) (IsBlockPlace D.shown blocks.now id) }
{
    for place in 0..blocks.len() {
        if blocks[place].id == id {
            return Some(place);
        }
    }
    None
}

/// It is reset, and its disk stays.
pub fn reset<D: Disk>(blocks: &mut Vec<Block<D>>, id: DeviceId)
    ensures shown { ChangesOne IsReset (shown_blocks D.shown blocks.old.items) id (shown_blocks D.shown blocks.new.items) }
    ensures entries { disk_entries_of blocks.new.items ≡ disk_entries_of blocks.old.items }
    ensures room { vec_capacity blocks.new ≡ vec_capacity blocks.old }
{
    if let Some(place) = place_of(blocks, id) {
        blocks[place].blk.reset();
    }
}

/// It is reset, and its disk dropped.
pub fn leave<D: Disk>(blocks: &mut Vec<Block<D>>, id: DeviceId)
    ensures shown { ChangesOne IsGivenUp (shown_blocks D.shown blocks.old.items) id (shown_blocks D.shown blocks.new.items) }
    ensures entries { disk_entries_of blocks.new.items ≡ with_has (disk_entries_of blocks.old.items) id false }
    ensures room { vec_capacity blocks.new ≡ vec_capacity blocks.old }
{
    if let Some(place) = place_of(blocks, id) {
        let blk = &mut blocks[place].blk;
        blk.reset();
        blk.eject();
    }
}

/// The disk goes into it, which is there and has none.
pub(crate) fn insert<D: Disk>(blocks: &mut Vec<Block<D>>, id: DeviceId, disk: D)
    requires { has_in (disk_entries_of blocks.old.items) id ≡ Some false }
    ensures shown { ChangesOne (HasDisk (D.shown disk)) (shown_blocks D.shown blocks.old.items) id
        (shown_blocks D.shown blocks.new.items) }
    ensures entries { disk_entries_of blocks.new.items ≡ with_has (disk_entries_of blocks.old.items) id true }
    ensures room { vec_capacity blocks.new ≡ vec_capacity blocks.old }
{
    if let Some(place) = place_of(blocks, id) {
        blocks[place].blk.insert(disk);
    }
}

/// Its queue is set: it is reset, takes what it offers, and works.
pub fn set_up<D: Disk>(blocks: &mut Vec<Block<D>>, id: DeviceId, layout: Layout)
    requires { IsLayout layout }
    ensures shown { ChangesOne (SetsUp layout) (shown_blocks D.shown blocks.old.items) id (shown_blocks D.shown blocks.new.items) }
    ensures entries { disk_entries_of blocks.new.items ≡ disk_entries_of blocks.old.items }
    ensures room { vec_capacity blocks.new ≡ vec_capacity blocks.old }
{
    if let Some(place) = place_of(blocks, id) {
        let blk = &mut blocks[place].blk;
        blk.reset();
        blk.negotiate(OFFERED_FEATURES);
        blk.set_queue(layout);
    }
}

/// It hears that its access of this number was made, and takes the bytes where that is the one that it waits
/// for.
// On its own: a commit without block devices doesn't pay for what this keeps in registers.
#[inline(never)]
pub fn hear_made<D: Disk>(blocks: &mut Vec<Block<D>>, id: DeviceId, number: u64, bytes: &[u8])
    ensures shown { ChangesOne (HearsMade number bytes.now) (shown_blocks D.shown blocks.old.items) id
        (shown_blocks D.shown blocks.new.items) }
    ensures entries { disk_entries_of blocks.new.items ≡ disk_entries_of blocks.old.items }
    ensures room { vec_capacity blocks.new ≡ vec_capacity blocks.old }
{
    if let Some(place) = place_of(blocks, id) {
        blocks[place].blk.made(number, bytes);
    }
}

/// It hears that the translation of a page is refused.
pub fn hear_refusal<D: Disk>(blocks: &mut Vec<Block<D>>, id: DeviceId, page: u64)
    ensures shown { ChangesOne (HearsRefusal page) (shown_blocks D.shown blocks.old.items) id (shown_blocks D.shown blocks.new.items) }
    ensures entries { disk_entries_of blocks.new.items ≡ disk_entries_of blocks.old.items }
    ensures room { vec_capacity blocks.new ≡ vec_capacity blocks.old }
{
    if let Some(place) = place_of(blocks, id) {
        blocks[place].blk.refused(page);
    }
}

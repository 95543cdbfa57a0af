// The disks of a hardware at power-on, by their numbers.
ghost use Rattle.std.specs.Prelude.{◌≡◌, ◌++◌, [], IfOk};
ghost use Rattle.iom_block_devices.specs.Entries.{numbers_of};
ghost use Rattle.iom_block_devices.specs.Numbered.{numbered};
ghost use Rattle.iom_block_devices.specs.Shown.{shown_disks, states_of};

use crate::block::DiskAtHand;
use iom_virtio_blk::Disk;
use std::alloc::{AllocError, Global};

/// The disks with their numbers, which are their places.
pub fn number_disks<D: Disk>(alloc: Global, disks: Vec<D>) -> Result<Vec<DiskAtHand<D>>, AllocError>
    ensures { IfOk result (λ at_hand. shown_disks D.shown at_hand.items ≡ numbered 0 (states_of D.shown disks.items)) }
{
    let mut rest = disks;
    let mut at_hand = Vec::new(alloc);
    while !rest.is_empty() {
        let number = at_hand.len() as u64;
        let disk = rest.remove(0);
        at_hand.push(DiskAtHand { number, disk })?;
    }
    Ok(at_hand)
}

/// Their numbers.
pub fn numbers_of<D: Disk>(alloc: Global, at_hand: &[DiskAtHand<D>]) -> Result<Vec<u64>, AllocError>
    ensures { IfOk result (λ numbers. numbers.items ≡ numbers_of at_hand.now) }
{
    let mut numbers = Vec::new(alloc);
    for one in at_hand {
        numbers.push(one.number)?;
    }
    Ok(numbers)
}

ghost use Rattle.std.specs.Prelude.{◌≤◌, vec_capacity};
ghost use Rattle.iom_base.specs.Sizes.{device_limit};
ghost use Rattle.iom_hardware.specs.Agreement.{AgreesWith};
ghost use Rattle.iom_hardware.specs.AgreementIsFact.{agrees_prop};
ghost use Rattle.iom_world_effects.specs.Invariant.{WorldInvariant};
ghost use Rattle.iom_world_effects.specs.InvariantIsFact.{world_invariant_prop};

use iom_driver::Driver;
use iom_hardware::Hardware;
use iom_inflight::MadeAt;
use iom_machine::FaultRecord;
use iom_virtio_blk::Disk;

/// Hardware and its driver.
#[derive(Drop)]
pub struct World<D: Disk> {
    /// Memory, the IOMMU, the devices, the messages between them, the block devices themselves; and how many events there
    /// were.
    pub hardware: Hardware<D>,
    pub driver: Driver,
    /// The fault record that the driver took last.
    pub record: FaultRecord,
    /// The access that the last event made, if it made one.
    pub made: Option<MadeAt>,
    ghost invariants: { WorldInvariant hardware.board.memory hardware.board.iommu driver hardware.board.devices.items hardware.board.fabric hardware.board.events } by { world_invariant_prop hardware.board.memory hardware.board.iommu driver hardware.board.devices.items hardware.board.fabric hardware.board.events },
    ghost agrees: { AgreesWith hardware.board.devices.items hardware.board.disks.items hardware.blocks.items hardware.at_hand.items } by { agrees_prop hardware.board.devices.items hardware.board.disks.items hardware.blocks.items hardware.at_hand.items },
    ghost room: { device_limit ≤ vec_capacity hardware.blocks },
}

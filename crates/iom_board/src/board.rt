use iom_device::Device;
use iom_fabric::Fabric;
use iom_iommu::Iommu;
use iom_phys_mem::Memory;
use iom_tlb::Ioatc;

/// Memory, the IOMMU, the devices with their caches, and the messages between devices and IOMMU. Software is lent memory
/// and the IOMMU's registers: so its parts are public, and what stays true of them is asked of each call, and given
/// back.
#[derive(Drop)]
pub struct Board {
    pub memory: Memory,
    pub iommu: Iommu<Ioatc>,
    /// In the order of plugging, at most 16.
    pub devices: Vec<Device>,
    /// The messages under way.
    pub fabric: Fabric,
    /// The numbers of the disks that were never put into a device.
    pub disks: Vec<u64>,
    /// How many events there were.
    pub events: u64,
}

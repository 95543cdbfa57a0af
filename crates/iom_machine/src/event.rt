use iom_base::{DeviceId, GrantRights, Mode, NewDevice, Sequence};
use iom_fabric::PageNumber;

/// One thing that happens: a call of the driver, an act of a device or a step of the IOMMU.
#[derive(Drop)]
pub enum Event {
    /// A device is plugged in, with its disk, if it is a block device.
    Plug {
        device: DeviceId,
        new: NewDevice,
    },
    /// The disk with this number is put into the block device.
    Medium {
        device: DeviceId,
        disk: u64,
    },
    /// The driver is asked to attach the device in the mode, with ATS or without.
    Attach {
        device: DeviceId,
        mode: Mode,
        ats: bool,
    },
    /// The driver is asked to detach the device.
    Detach {
        device: DeviceId,
    },
    /// The driver is asked to grant the device the frame at the page, with the right.
    Grant {
        device: DeviceId,
        page: u64,
        frame: u64,
        rights: GrantRights,
    },
    /// The driver is asked to release what the device holds at the page.
    Release {
        device: DeviceId,
        page: u64,
    },
    /// The driver is asked to quarantine the device, and to release all that it holds.
    Quarantine {
        device: DeviceId,
    },
    /// The driver is asked to attach a device again that was quarantined; it is reset.
    Revive {
        device: DeviceId,
    },
    /// The driver is asked to empty the command queue, and to queue all that is still needed anew.
    Restart,
    /// The IOMMU takes its next command.
    Fetch,
    /// The IOMMU gives up a fence that waits for devices.
    Timeout,
    /// The driver looks which tickets are done.
    Poll,
    /// The driver takes the oldest fault record.
    Faults,
    /// The device asks to read so many bytes at the address.
    Read {
        device: DeviceId,
        address: u64,
        len: u64,
    },
    /// The device asks to write the bytes at the address.
    Write {
        device: DeviceId,
        address: u64,
        bytes: Sequence<u8>,
    },
    /// The device asks to read so many bytes at the physical address: its request says that it is
    /// translated already (address translation services, PCI Express Base Specification, chapter 10).
    ReadTranslated {
        device: DeviceId,
        address: u64,
        len: u64,
    },
    /// The device asks so to write the bytes at the physical address.
    WriteTranslated {
        device: DeviceId,
        address: u64,
        bytes: Sequence<u8>,
    },
    /// The device reads so many bytes at the address through its own cache of translations.
    ReadThroughCache {
        device: DeviceId,
        address: u64,
        len: u64,
    },
    /// The device writes the bytes at the address through its own cache of translations.
    WriteThroughCache {
        device: DeviceId,
        address: u64,
        bytes: Sequence<u8>,
    },
    /// The device asks for the translation of the page (a Translation Request).
    Ask {
        device: DeviceId,
        page: PageNumber,
    },
    /// The device says that it did what the request to invalidate with this number asked (an Invalidate
    /// Completion), whatever it did.
    Forge {
        device: DeviceId,
        serial: u64,
    },
    /// The message at the place, counted from 0, is delivered.
    Deliver {
        place: u64,
    },
    /// The message at the place is lost.
    Drop {
        place: u64,
    },
    /// A copy of the message at the place is sent.
    Repeat {
        place: u64,
    },
    /// The device is reset: it forgets what it was told of translations, and a block device what it was at.
    Reset {
        device: DeviceId,
    },
    /// The block device's driver sets its queue: so many descriptors, with its parts at these addresses
    /// (virtio 1.2, section 2.7, "Split Virtqueues").
    Queue {
        device: DeviceId,
        size: u64,
        descriptors: u64,
        available: u64,
        used: u64,
    },
    /// The block device takes its next step.
    Step {
        device: DeviceId,
    },
    /// The block device's status is read (virtio 1.2, section 2.1, "Device Status Field").
    Status {
        device: DeviceId,
    },
    /// The oldest accepted access of the device is made.
    Commit {
        device: DeviceId,
    },
    /// The processor writes the bytes at the physical address.
    Poke {
        address: u64,
        bytes: Sequence<u8>,
    },
    /// The processor reads so many bytes at the physical address.
    Peek {
        address: u64,
        len: u64,
    },
    /// The driver is asked whether the frame is free.
    Free {
        frame: u64,
    },
}

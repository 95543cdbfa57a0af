// Block devices on hardware without a driver.
use crate::machine::{Act, run};
use crate::setup::{CONTEXT, DEVICE, LEAF, PAGE_3, WORDS};
use iom_ats_cache::Taken;
use iom_base::{Cause, NewDevice, Refusal, Rights};
use iom_board::Delivered;
use iom_fabric::Translation;
use iom_hardware::Stepped;
use iom_iommu::Reply;

/// A request is served: the available idx, the ring's entry, three descriptors and the header are read, then the sector; the
/// status is written, the element of the used ring, and its idx.
static SERVED: [Act; 20] = [
    Act::TurnOn,
    Act::Plug(DEVICE, NewDevice::Block { disk: 0 }, Ok(())),
    Act::Status(DEVICE, Ok(0)),
    Act::Step(DEVICE, Ok(Stepped::Idle)),
    Act::Queue(DEVICE, Ok(())),
    Act::Status(DEVICE, Ok(0x0f)),
    Act::Makes(DEVICE, 1),
    Act::Makes(DEVICE, 2),
    Act::Makes(DEVICE, 3),
    Act::Makes(DEVICE, 4),
    Act::Makes(DEVICE, 5),
    Act::Makes(DEVICE, 6),
    Act::Makes(DEVICE, 7),
    Act::Makes(DEVICE, 8),
    Act::Makes(DEVICE, 9),
    Act::Makes(DEVICE, 10),
    Act::Step(DEVICE, Ok(Stepped::Finished { head: 0, len: 1 })),
    Act::Word(PAGE_3 + 0x310, 0),
    Act::Word(PAGE_3 + 0x200, 0x0000_0000_0001_0000),
    Act::Word(PAGE_3 + 0x208, 1),
];

/// A device is reset while its access is in flight: that is made, and the device hears nothing of it.
static RESET: [Act; 9] = [
    Act::TurnOn,
    Act::Plug(DEVICE, NewDevice::Block { disk: 0 }, Ok(())),
    Act::Queue(DEVICE, Ok(())),
    Act::Step(DEVICE, Ok(Stepped::Began(Reply::Accepted(1)))),
    Act::Reset(DEVICE, Ok(())),
    Act::Status(DEVICE, Ok(0)),
    Act::Commits(DEVICE, 1),
    Act::CommitsNone(DEVICE),
    Act::Step(DEVICE, Ok(Stepped::Idle)),
];

/// A device with a cache of its own asks for the page of its queue, and has its access through the answer.
static CACHED: [Act; 8] = [
    Act::TurnOn,
    Act::Store(CONTEXT, 3),
    Act::Plug(DEVICE, NewDevice::CachedBlock { disk: 1 }, Ok(())),
    Act::Queue(DEVICE, Ok(())),
    Act::Step(DEVICE, Ok(Stepped::Asked)),
    Act::Deliver(
        0,
        Delivered::Answered(Translation::Page {
            frame: 32,
            rights: Rights::RW,
        }),
    ),
    Act::Deliver(0, Delivered::Taken(Taken::Kept)),
    Act::Makes(DEVICE, 1),
];

/// Where the page of its queue has no translation, the device hears so, and is down until it is reset.
static REFUSED: [Act; 11] = [
    Act::TurnOn,
    Act::Store(CONTEXT, 3),
    Act::Store(LEAF, 0),
    Act::Plug(DEVICE, NewDevice::CachedBlock { disk: 1 }, Ok(())),
    Act::Queue(DEVICE, Ok(())),
    Act::Step(DEVICE, Ok(Stepped::Asked)),
    Act::Deliver(
        0,
        Delivered::Answered(Translation::Refused(Cause::ReadPageFault)),
    ),
    Act::Deliver(0, Delivered::Taken(Taken::Refused)),
    Act::Status(DEVICE, Ok(0x4f)),
    Act::Step(DEVICE, Ok(Stepped::Down)),
    Act::Reset(DEVICE, Ok(())),
];

/// A disk goes into one device, once. What is no block device has no queue, no step and no status.
static DISKS: [Act; 14] = [
    Act::Plug(1, NewDevice::Block { disk: 0 }, Ok(())),
    Act::Plug(1, NewDevice::Raw, Err(Refusal::AlreadyPlugged)),
    Act::Plug(2, NewDevice::Block { disk: 0 }, Err(Refusal::BadMedium)),
    Act::Medium(1, 1, Err(Refusal::BadMedium)),
    Act::RemoveDisk(1, Ok(())),
    Act::Medium(1, 0, Err(Refusal::BadMedium)),
    Act::Medium(1, 1, Ok(())),
    Act::Medium(2, 1, Err(Refusal::NoSuchDevice)),
    Act::Plug(3, NewDevice::Raw, Ok(())),
    Act::Queue(3, Err(Refusal::WrongKind)),
    Act::Status(3, Err(Refusal::WrongKind)),
    Act::Step(3, Err(Refusal::WrongKind)),
    Act::Status(9, Err(Refusal::NoSuchDevice)),
    Act::Step(9, Err(Refusal::NoSuchDevice)),
];

#[test]
fn block_devices_need_no_driver(rt: HostRuntime) {
    run(&rt, rt.alloc(), &WORDS, &SERVED);
    run(&rt, rt.alloc(), &WORDS, &RESET);
    run(&rt, rt.alloc(), &WORDS, &CACHED);
    run(&rt, rt.alloc(), &WORDS, &REFUSED);
    run(&rt, rt.alloc(), &[], &DISKS);
}

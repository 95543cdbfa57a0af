// Hardware as a whole without a driver: devices, their caches and messages, with tables, registers and commands by hand.
use crate::machine::{Act, run};
use crate::setup::{
    Answer, CONTEXT, CQT, DDTP, DEVICE, FENCE, INVALIDATE, LEAF, MIDDLE, ONE_LEVEL, PLAIN_FENCE,
    VMA, VMA_PAGE_0, WORDS,
};
use iom_ats_cache::Taken;
use iom_base::{Cause, DeviceKind, NewDevice, Refusal, Rights};
use iom_board::{CacheReply, Delivered, NoPlace, Sender};
use iom_fabric::{Repeat, Translation};
use iom_iommu::Reply;

/// A page is reached by its tables, and after its leaf is cleared and the invalidation and the fence are done it isn't.
static RELEASED: [Act; 19] = [
    Act::TurnOn,
    Act::Write(DDTP, ONE_LEVEL),
    Act::Plug(DEVICE, NewDevice::Raw, Ok(())),
    Act::Request(
        Sender::Own,
        DEVICE,
        0x3010,
        b"\xaa\xbb",
        Ok(Reply::Accepted(1)),
    ),
    Act::Busy(Some(DEVICE)),
    Act::Makes(DEVICE, 32, 16, b"\xaa\xbb"),
    Act::Word(0x2_0010, 0xbbaa),
    Act::Store(LEAF, 0),
    Act::Request(Sender::Own, DEVICE, 0x3010, b"", Ok(Reply::Accepted(2))),
    Act::Makes(DEVICE, 32, 16, b"\xaa"),
    Act::MakesNone(DEVICE, Ok(())),
    Act::Put(0, VMA),
    Act::Put(1, FENCE),
    Act::Write(CQT, 2),
    Act::Effect(VMA),
    Act::Effect(FENCE),
    Act::Fetch(Answer::Empty),
    Act::Word(0x5000, 1),
    Act::Request(
        Sender::Own,
        DEVICE,
        0x3010,
        b"",
        Ok(Reply::Fault(Cause::ReadPageFault)),
    ),
];

/// A leaf of 2 MiB is cleared, and one command names its first page: no page of the leaf is reached once that is done. So a
/// kernel unmaps a superpage.
static UNMAPPED: [Act; 16] = [
    Act::TurnOn,
    Act::Write(DDTP, ONE_LEVEL),
    Act::Plug(DEVICE, NewDevice::Raw, Ok(())),
    Act::Store(MIDDLE, 0xd7),
    Act::Request(Sender::Own, DEVICE, 0x3010, b"", Ok(Reply::Accepted(1))),
    Act::Makes(DEVICE, 3, 16, b"\0"),
    Act::Request(Sender::Own, DEVICE, 0x2_0010, b"", Ok(Reply::Accepted(2))),
    Act::Makes(DEVICE, 32, 16, b"\0"),
    Act::Store(MIDDLE, 0),
    Act::Put(0, VMA_PAGE_0),
    Act::Put(1, PLAIN_FENCE),
    Act::Write(CQT, 2),
    Act::Effect(VMA_PAGE_0),
    Act::Effect(PLAIN_FENCE),
    Act::Request(
        Sender::Own,
        DEVICE,
        0x3010,
        b"",
        Ok(Reply::Fault(Cause::ReadPageFault)),
    ),
    Act::Request(
        Sender::Own,
        DEVICE,
        0x2_0010,
        b"",
        Ok(Reply::Fault(Cause::ReadPageFault)),
    ),
];

/// A device with a cache asks for the page, has accesses through the answer, and drops it when it is asked to.
static CACHED: [Act; 23] = [
    Act::TurnOn,
    Act::Write(DDTP, ONE_LEVEL),
    Act::Store(CONTEXT, 3),
    Act::Plug(DEVICE, NewDevice::Ats, Ok(())),
    Act::Through(Sender::Own, DEVICE, 0x3010, b"", Ok(CacheReply::Miss)),
    Act::Ask(DEVICE, 3, Ok(true)),
    Act::Deliver(
        0,
        Delivered::Answered(Translation::Page {
            frame: 32,
            rights: Rights::RW,
        }),
    ),
    Act::Deliver(0, Delivered::Taken(Taken::Kept)),
    Act::Through(
        Sender::Own,
        DEVICE,
        0x3010,
        b"\xcc",
        Ok(CacheReply::Replied(Reply::Accepted(1))),
    ),
    Act::Makes(DEVICE, 32, 16, b"\xcc"),
    Act::Put(0, INVALIDATE),
    Act::Put(1, PLAIN_FENCE),
    Act::Write(CQT, 2),
    Act::Effect(INVALIDATE),
    Act::Fetch(Answer::Waiting),
    Act::Deliver(0, Delivered::Invalidated(1)),
    Act::Deliver(0, Delivered::Closed(1)),
    Act::Effect(PLAIN_FENCE),
    Act::Through(Sender::Own, DEVICE, 0x3010, b"\xcc", Ok(CacheReply::Miss)),
    Act::Epoch(DEVICE, 1),
    Act::Reset(DEVICE, Ok(())),
    Act::Epoch(DEVICE, 2),
    Act::Translated(DEVICE, 0x3010, b"", Err(Refusal::WrongKind)),
];

/// What a raw device sends, and what becomes of it; a request to invalidate that it ignores, and a fence that is given up.
static FORGED: [Act; 21] = [
    Act::TurnOn,
    Act::Write(DDTP, ONE_LEVEL),
    Act::Store(CONTEXT, 3),
    Act::Plug(DEVICE, NewDevice::Raw, Ok(())),
    Act::Kind(DEVICE, Some(DeviceKind::Raw)),
    Act::Translated(DEVICE, 0x2_0010, b"\xdd", Ok(Reply::Accepted(1))),
    Act::Makes(DEVICE, 32, 16, b"\xdd"),
    Act::Forge(DEVICE, 7, Ok(true)),
    Act::Repeat(0, Repeat::Repeated),
    Act::Messages(2),
    Act::Drop(1, true),
    Act::Deliver(0, Delivered::NotClosed(7)),
    Act::Deliver(0, Delivered::NoMessage),
    Act::Put(0, INVALIDATE),
    Act::Put(1, FENCE),
    Act::Write(CQT, 2),
    Act::Effect(INVALIDATE),
    Act::Fetch(Answer::Waiting),
    Act::Deliver(0, Delivered::Ignored),
    Act::Timeout(true),
    Act::Fetch(Answer::Stopped),
];

/// A block device has its disk, and another once that is gone; its steps ask for accesses.
static DISKS: [Act; 18] = [
    Act::Write(DDTP, 1),
    Act::Prepare(1, NewDevice::Block { disk: 3 }, Ok(())),
    Act::Plug(1, NewDevice::Block { disk: 3 }, Ok(())),
    Act::Prepare(1, NewDevice::Raw, Err(Refusal::AlreadyPlugged)),
    Act::Plug(1, NewDevice::Raw, Err(Refusal::AlreadyPlugged)),
    Act::Prepare(2, NewDevice::Block { disk: 3 }, Err(Refusal::BadMedium)),
    Act::Plug(2, NewDevice::Block { disk: 3 }, Err(Refusal::BadMedium)),
    Act::Medium(1, 4, Err(Refusal::BadMedium)),
    Act::RemoveDisk(1, Ok(())),
    Act::Medium(1, 3, Err(Refusal::BadMedium)),
    Act::Medium(1, 4, Ok(())),
    Act::Medium(2, 4, Err(Refusal::NoSuchDevice)),
    Act::Request(Sender::Own, 1, 0x3010, b"", Err(Refusal::WrongKind)),
    Act::Request(Sender::Step, 1, 0x3010, b"", Ok(Reply::Accepted(1))),
    Act::Makes(1, 3, 16, b"\0"),
    Act::MakesNone(2, Err(Refusal::NoSuchDevice)),
    Act::NoStore(0x3ff9, NoPlace::BadSpan),
    Act::NoLoad(0x4_0000, 1, NoPlace::OutsideMemory),
];

#[test]
fn hardware_needs_no_driver(rt: HostRuntime) {
    run(&rt, rt.alloc(), &WORDS, &RELEASED);
    run(&rt, rt.alloc(), &WORDS, &UNMAPPED);
    run(&rt, rt.alloc(), &WORDS, &CACHED);
    run(&rt, rt.alloc(), &WORDS, &FORGED);
    run(&rt, rt.alloc(), &[], &DISKS);
}

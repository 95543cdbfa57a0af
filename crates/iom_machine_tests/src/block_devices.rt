// Block devices: their disks, their queues, and the accesses that their steps begin.
use crate::expect::expect;
use crate::lines::{Comes, Does, Run, are_judged};
use iom_base::{Cause, DeviceKind, GrantRights, Mode, NewDevice, Refusal, Rights, Size};
use iom_machine::BlockStep;
use iom_virtqueue::ChainFault;
use std::process::Abort;

/// Lawful runs, by name, and their lines as they are changed below, which may not come there.
static RUNS: [Run; 4] = [
    // A block device from its plugging in to a detach, and what it has of its disk then; and events that others refuse.
    (
        "block",
        &[
            (Does::PlugBlock(1, 0), Comes::Done),
            // the disk is in a device, and there is no such disk
            (Does::PlugBlock(2, 0), Comes::Refused(Refusal::BadMedium)),
            (Does::PlugBlock(2, 4), Comes::Refused(Refusal::BadMedium)),
            (
                Does::PlugCachedBlock(1, 4),
                Comes::Refused(Refusal::AlreadyPlugged),
            ),
            (Does::Step(1), Comes::Stepped(BlockStep::Idle)),
            (Does::Status(1), Comes::Status(0)),
            (Does::Queue(1, 8, 0x3000, 0x3080, 0x30c0), Comes::Done),
            (
                Does::Queue(1, 3, 0x3000, 0x3080, 0x30c0),
                Comes::Refused(Refusal::BadQueue),
            ),
            (Does::Status(1), Comes::Status(15)),
            (Does::Attach(1, &[59]), Comes::Done),
            (
                Does::Grant(1, 3, 5, GrantRights::ReadWrite, &[58, 57]),
                Comes::Done,
            ),
            (Does::StepRead(1, 0x3082, 2), Comes::Accepted(1, 5)),
            (Does::Step(1), Comes::Stepped(BlockStep::Waiting)),
            (Does::Commit(1), Comes::Read(&[0, 0])),
            (Does::StepWrite(1, 0x3010, &[7]), Comes::Accepted(2, 5)),
            (Does::Commit(1), Comes::Wrote(1)),
            (Does::Peek(0x5010, 1), Comes::Bytes(&[7])),
            (
                Does::Step(1),
                Comes::Stepped(BlockStep::Finished { head: 0, len: 1 }),
            ),
            // it has a disk
            (Does::Medium(1, 1), Comes::Refused(Refusal::BadMedium)),
            (
                Does::StepRead(1, 0x4000, 1),
                Comes::Fault(Cause::ReadPageFault),
            ),
            (Does::Step(1), Comes::Stepped(BlockStep::Down)),
            (Does::Reset(1), Comes::Done),
            (Does::Release(1, 3), Comes::Ticket(1)),
            (Does::Poll, Comes::Confirmed(1, 1)),
            (Does::Detach(1), Comes::Ticket(2)),
            // that disk was in a device
            (Does::Medium(1, 0), Comes::Refused(Refusal::BadMedium)),
            (Does::Medium(1, 1), Comes::Done),
            (Does::Medium(1, 2), Comes::Refused(Refusal::BadMedium)),
            (Does::PlugBlock(2, 1), Comes::Refused(Refusal::BadMedium)),
            (Does::Plug(3), Comes::Done),
            (Does::Medium(3, 9), Comes::Refused(Refusal::WrongKind)),
            (
                Does::Queue(3, 3, 0x3000, 0x3080, 0x30c0),
                Comes::Refused(Refusal::WrongKind),
            ),
            (Does::Step(3), Comes::Refused(Refusal::WrongKind)),
            (Does::Status(3), Comes::Refused(Refusal::WrongKind)),
            (Does::Medium(9, 9), Comes::Refused(Refusal::NoSuchDevice)),
            (
                Does::Queue(9, 3, 0x3000, 0x3080, 0x30c0),
                Comes::Refused(Refusal::NoSuchDevice),
            ),
            (Does::Step(9), Comes::Refused(Refusal::NoSuchDevice)),
            (Does::Status(9), Comes::Refused(Refusal::NoSuchDevice)),
            (Does::Read(1, 0x3000, 1), Comes::Refused(Refusal::WrongKind)),
            (
                Does::Step(1),
                Comes::Stepped(BlockStep::Chain(ChainFault::Loop)),
            ),
        ],
        &[
            // A line of that run, and what it is changed to, which may not come there.
            // there is no such disk
            (0, Does::PlugBlock(1, 4), Comes::Done),
            (0, Does::PlugCachedBlock(1, 4), Comes::Done),
            // the disk was in no device
            (0, Does::PlugBlock(1, 0), Comes::Refused(Refusal::BadMedium)),
            // a device that needs none
            (0, Does::Plug(1), Comes::Refused(Refusal::BadMedium)),
            // the disk is in another device
            (1, Does::PlugBlock(2, 0), Comes::Done),
            // that the device is plugged in comes first
            (
                3,
                Does::PlugCachedBlock(1, 4),
                Comes::Refused(Refusal::BadMedium),
            ),
            // it has a disk
            (18, Does::Medium(1, 1), Comes::Done),
            // the disk was in a device, which has none now
            (25, Does::Medium(1, 0), Comes::Done),
            (26, Does::Medium(1, 1), Comes::Refused(Refusal::BadMedium)),
            // it has one again
            (27, Does::Medium(1, 2), Comes::Done),
            (28, Does::PlugBlock(2, 1), Comes::Done),
            // the kind comes before the disk, and the device before the kind
            (30, Does::Medium(3, 9), Comes::Refused(Refusal::BadMedium)),
            (34, Does::Medium(9, 9), Comes::Refused(Refusal::WrongKind)),
            // a refusal of another call
            (18, Does::Medium(1, 1), Comes::Refused(Refusal::BadQueue)),
            (
                6,
                Does::Queue(1, 8, 0x3000, 0x3080, 0x30c0),
                Comes::Refused(Refusal::BadQueue),
            ),
            // not a power of two, none, too many
            (7, Does::Queue(1, 3, 0x3000, 0x3080, 0x30c0), Comes::Done),
            (7, Does::Queue(1, 0, 0x3000, 0x3080, 0x30c0), Comes::Done),
            (7, Does::Queue(1, 512, 0x3000, 0x3080, 0x30c0), Comes::Done),
            // not aligned
            (7, Does::Queue(1, 8, 0x3008, 0x3080, 0x30c0), Comes::Done),
            (7, Does::Queue(1, 8, 0x3000, 0x3081, 0x30c0), Comes::Done),
            (7, Does::Queue(1, 8, 0x3000, 0x3080, 0x30c2), Comes::Done),
            (
                7,
                Does::Queue(1, 3, 0x3000, 0x3080, 0x30c0),
                Comes::Refused(Refusal::BadMedium),
            ),
            // the kind comes before the queue
            (
                31,
                Does::Queue(3, 3, 0x3000, 0x3080, 0x30c0),
                Comes::Refused(Refusal::BadQueue),
            ),
            // a status is told
            (8, Does::Status(1), Comes::Done),
            (33, Does::Status(3), Comes::Status(0)),
            // it has no cache
            (
                11,
                Does::StepRead(1, 0x3082, 2),
                Comes::Stepped(BlockStep::Asked),
            ),
            (11, Does::StepRead(1, 0x3082, 2), Comes::Miss),
            // another number, another frame
            (11, Does::StepRead(1, 0x3082, 2), Comes::Accepted(2, 5)),
            (11, Does::StepRead(1, 0x3082, 2), Comes::Accepted(1, 6)),
            // nothing is in flight, and the page is held
            (11, Does::StepRead(1, 0x3082, 2), Comes::Busy),
            (
                11,
                Does::StepRead(1, 0x3082, 2),
                Comes::Fault(Cause::ReadPageFault),
            ),
            // an access stays in its page, so there is no such answer
            (11, Does::StepRead(1, 0x3fff, 2), Comes::Accepted(1, 5)),
            (11, Does::StepRead(1, 0x3fff, 2), Comes::BadSpan),
            (11, Does::StepRead(1, 0x3082, 0), Comes::Accepted(1, 5)),
            // a page at which nothing is held
            (11, Does::StepRead(1, 0x4000, 2), Comes::Accepted(1, 5)),
            // the write stands in the frame, and what is made is what was accepted
            (16, Does::Peek(0x5010, 1), Comes::Bytes(&[0])),
            (15, Does::Commit(1), Comes::Read(&[7])),
            // the fault of a write
            (
                19,
                Does::StepRead(1, 0x4000, 1),
                Comes::Fault(Cause::WritePageFault),
            ),
            (4, Does::Step(1), Comes::Done),
            (4, Does::Step(1), Comes::Refused(Refusal::WrongKind)),
            (36, Does::Step(9), Comes::Refused(Refusal::WrongKind)),
        ],
    ),
    // A device that is quarantined keeps its disk, also where it is revived; one that is detached doesn't.
    (
        "quarantined",
        &[
            (Does::PlugBlock(1, 0), Comes::Done),
            (Does::Attach(1, &[59]), Comes::Done),
            (Does::Quarantine(1), Comes::Ticket(1)),
            (Does::Medium(1, 1), Comes::Refused(Refusal::BadMedium)),
            (Does::Poll, Comes::Confirmed(1, 1)),
            (Does::Medium(1, 1), Comes::Refused(Refusal::BadMedium)),
            (Does::Revive(1), Comes::Done),
            (Does::Medium(1, 1), Comes::Refused(Refusal::BadMedium)),
            (Does::Detach(1), Comes::Ticket(2)),
            (Does::Medium(1, 1), Comes::Done),
        ],
        &[
            // A line of that run, and what it is changed to, which may not come there.
            (3, Does::Medium(1, 1), Comes::Done),
            (5, Does::Medium(1, 1), Comes::Done),
            (7, Does::Medium(1, 1), Comes::Done),
            (9, Does::Medium(1, 1), Comes::Refused(Refusal::BadMedium)),
        ],
    ),
    // Sixteen devices, of which one is a block device: that they are so many comes before the disk.
    (
        "sixteen",
        &[
            (Does::PlugBlock(0, 0), Comes::Done),
            (Does::Plug(1), Comes::Done),
            (Does::Plug(2), Comes::Done),
            (Does::Plug(3), Comes::Done),
            (Does::Plug(4), Comes::Done),
            (Does::Plug(5), Comes::Done),
            (Does::Plug(6), Comes::Done),
            (Does::Plug(7), Comes::Done),
            (Does::Plug(8), Comes::Done),
            (Does::Plug(9), Comes::Done),
            (Does::Plug(10), Comes::Done),
            (Does::Plug(11), Comes::Done),
            (Does::Plug(12), Comes::Done),
            (Does::Plug(13), Comes::Done),
            (Does::Plug(14), Comes::Done),
            (Does::PlugCachedBlock(15, 3), Comes::Done),
            (
                Does::PlugBlock(16, 0),
                Comes::Refused(Refusal::TooManyDevices),
            ),
            (
                Does::PlugBlock(15, 9),
                Comes::Refused(Refusal::AlreadyPlugged),
            ),
        ],
        &[
            // A line of that run, and what it is changed to, which may not come there.
            // the disk is in the first device
            (15, Does::PlugCachedBlock(15, 0), Comes::Done),
            (16, Does::PlugBlock(16, 1), Comes::Done),
            (
                16,
                Does::PlugBlock(16, 0),
                Comes::Refused(Refusal::BadMedium),
            ),
            (
                17,
                Does::PlugBlock(15, 9),
                Comes::Refused(Refusal::TooManyDevices),
            ),
        ],
    ),
    // A block device with a cache: it asks, has its access, and has eight in flight.
    (
        "cached",
        &[
            (Does::PlugCachedBlock(2, 3), Comes::Done),
            (
                Does::AttachAts(2, Mode::First(Size::Sv39), &[59]),
                Comes::Done,
            ),
            (
                Does::Grant(2, 3, 5, GrantRights::ReadWrite, &[58, 57]),
                Comes::Done,
            ),
            (Does::Queue(2, 1, 0x3000, 0x3010, 0x3020), Comes::Done),
            (
                Does::StepRead(2, 0x3012, 2),
                Comes::Stepped(BlockStep::Asked),
            ),
            (Does::Deliver(0), Comes::Told(2, 3, 5, Rights::RW)),
            (Does::Deliver(0), Comes::Kept),
            (Does::StepRead(2, 0x3012, 2), Comes::Accepted(1, 5)),
            (Does::Commit(2), Comes::Read(&[0, 0])),
            (Does::StepWrite(2, 0x3ff0, &[1, 2]), Comes::Accepted(2, 5)),
            (Does::StepRead(2, 0x3012, 2), Comes::Accepted(3, 5)),
            (Does::StepRead(2, 0x3012, 2), Comes::Accepted(4, 5)),
            (Does::StepRead(2, 0x3012, 2), Comes::Accepted(5, 5)),
            (Does::StepRead(2, 0x3012, 2), Comes::Accepted(6, 5)),
            (Does::StepRead(2, 0x3012, 2), Comes::Accepted(7, 5)),
            (Does::StepRead(2, 0x3012, 2), Comes::Accepted(8, 5)),
            (Does::StepRead(2, 0x3012, 2), Comes::Accepted(9, 5)),
            (Does::StepRead(2, 0x3012, 2), Comes::Busy),
        ],
        &[
            // A line of that run, and what it is changed to, which may not come there.
            // it asks where its cache has nothing
            (4, Does::StepRead(2, 0x3012, 2), Comes::Miss),
            // it asks for an access that stays in its page
            (
                4,
                Does::StepRead(2, 0x3fff, 2),
                Comes::Stepped(BlockStep::Asked),
            ),
            // its cache has no faults
            (
                7,
                Does::StepRead(2, 0x3012, 2),
                Comes::Fault(Cause::ReadPageFault),
            ),
            (7, Does::StepRead(2, 0x3012, 2), Comes::Accepted(1, 6)),
            (7, Does::StepRead(2, 0x4012, 2), Comes::Accepted(1, 5)),
            // eight are in flight
            (
                17,
                Does::StepRead(2, 0x3012, 2),
                Comes::Stepped(BlockStep::Asked),
            ),
            (17, Does::StepRead(2, 0x3012, 2), Comes::Accepted(10, 5)),
            // and fewer
            (16, Does::StepRead(2, 0x3012, 2), Comes::Busy),
        ],
    ),
];

// Each run may come, and none of its changes.
#[test]
fn runs_are_judged(rt: HostRuntime) {
    are_judged(&rt, rt.alloc(), &RUNS);
}

fn has(rt: &impl Abort, new: NewDevice, kind: DeviceKind, disk: Option<u64>) {
    expect(rt, new.kind() == kind);
    expect(rt, new.disk() == disk);
}

#[test]
fn what_is_plugged_in_has_a_kind_and_a_disk(rt: HostRuntime) {
    has(&rt, NewDevice::Raw, DeviceKind::Raw, None);
    let block = NewDevice::Block { disk: 7 };
    has(&rt, block, DeviceKind::Block, Some(7));
    let cached = NewDevice::CachedBlock { disk: u64::MAX };
    has(&rt, cached, DeviceKind::CachedBlock, Some(u64::MAX));
}

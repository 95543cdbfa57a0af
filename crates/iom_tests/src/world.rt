use crate::expect::expect;
use iom_base::{DeviceId, NewDevice};
use iom_machine::{BlockStep, Event, Outcome};
use iom_virtio_blk::MemoryDisk;
use iom_world::World;
use std::alloc::Global;
use std::process::Abort;

/// Frames, levels of the directory, and whether there is a world of this size.
static SIZES: [(u32, u8, bool); 6] = [
    (64, 1, true),
    (4096, 3, true),
    (63, 1, false),
    (4097, 1, false),
    (64, 0, false),
    (64, 4, false),
];

fn is_size(alloc: Global, frames: u32, levels: u8) -> bool {
    let disks: Vec<MemoryDisk> = Vec::new(alloc);
    World::new(alloc, frames, levels, disks).is_ok()
}

/// Sizes of memory and levels of the directory that there are not.
#[test]
fn a_world_has_64_to_4096_frames_and_1_to_3_levels(rt: HostRuntime) {
    for (frames, levels, is_there) in SIZES.iter() {
        expect(&rt, is_size(rt.alloc(), *frames, *levels) == *is_there);
    }
}

/// A world of 64 frames, without disks. Boxed: of what a test owns in place each later proof would carry every part.
fn opened(rt: &impl Abort, alloc: Global) -> Box<World<MemoryDisk>> {
    let world = World::new(alloc, 64, 1, Vec::new(alloc)).expect(rt, "memory for a world");
    Box::new(alloc, world).expect(rt, "memory for a world")
}

/// Whether the event is done.
fn is_done(world: &mut World<MemoryDisk>, event: &Event) -> bool {
    world.events() < 1000000 && matches!(world.step(event), Outcome::Done)
}

/// Whether the device takes a step that wants nothing.
fn is_idle(world: &mut World<MemoryDisk>, device: DeviceId) -> bool {
    if world.events() >= 1000000 {
        return false;
    }
    let reply = world.step(&Event::Step { device });
    matches!(reply, Outcome::Stepped(BlockStep::Idle))
}

/// Whether the device is reset, by its status.
fn is_reset(world: &mut World<MemoryDisk>, device: DeviceId) -> bool {
    if world.events() >= 1000000 {
        return false;
    }
    let reply = world.step(&Event::Status { device });
    matches!(reply, Outcome::Status(0))
}

/// A block device without a queue rests, and is reset. A raw one does neither.
#[test]
fn a_block_device_rests_and_tells_its_status(rt: HostRuntime) {
    let mut disks = Vec::new(rt.alloc());
    let disk = MemoryDisk::new(rt.alloc(), 0, 4, None).expect(&rt, "memory for a disk");
    disks.push(disk).expect(&rt, "memory for a disk");
    let world = World::new(rt.alloc(), 64, 1, disks).expect(&rt, "memory for a world");
    let mut world = Box::new(rt.alloc(), world).expect(&rt, "memory for a world");
    let block = Event::Plug {
        device: 1,
        new: NewDevice::Block { disk: 0 },
    };
    let raw = Event::Plug {
        device: 2,
        new: NewDevice::Raw,
    };
    expect(&rt, is_done(&mut world, &block));
    expect(&rt, is_done(&mut world, &raw));
    expect(&rt, is_idle(&mut world, 1));
    expect(&rt, is_reset(&mut world, 1));
    expect(&rt, !is_idle(&mut world, 2));
    expect(&rt, !is_reset(&mut world, 2));
    expect(&rt, world.events() == 6);
}

// Worlds are equal to which the same happened, and a fetch of no command is nothing.
#[test]
fn worlds_are_compared(rt: HostRuntime) {
    let mut one = opened(&rt, rt.alloc());
    let mut other = opened(&rt, rt.alloc());
    let plug = Event::Plug {
        device: 2,
        new: NewDevice::Raw,
    };
    expect(&rt, is_done(&mut one, &plug));
    expect(&rt, !one.is_same(&other));
    expect(&rt, is_done(&mut other, &plug));
    expect(&rt, !is_done(&mut other, &Event::Fetch));
    expect(&rt, one.is_same(&other) && one.events() != other.events());
}

//! Runs of a world into a sink that fails, and worlds that settle. What comes of events, of a world's own block devices too, is told by the
//! worked scripts of `iom_worked`.
ghost use Rattle.std.specs.Prelude.{◌≡◌, ◌+◌, ◌≤◌, false, length};

use crate::expect::expect;
use iom_base::NewDevice;
use iom_machine::{Event, Outcome, Sink, Trace};
use iom_runner::program_disks;
use iom_script::{ScriptLine, parse};
use iom_virtio_blk::MemoryDisk;
use iom_world::World;
use std::alloc::Global;
use std::process::Abort;

/// A sink that takes so many outcomes, and fails at the next.
#[derive(Drop)]
struct Room {
    left: u32,
}

impl Sink for Room {
    type Fault = ();

    ghost wants = { λ sink. false };

    ghost takes = { λ old outcome trace new. old.left ≡ new.left + 1 };

    ghost fails = { λ old outcome trace new. (old.left ≡ 0) × (new ≡ old) };

    fn wants_trace(&self) -> bool {
        false
    }

    fn put(&mut self, _outcome: &Outcome, _trace: Option<Trace>) -> Result<(), ()> {
        if self.left == 0 {
            return Err(());
        }
        self.left -= 1;
        Ok(())
    }
}

/// A world of 64 frames, with the program's disks. Boxed: of what a test owns in place each later proof would carry every
/// part.
fn opened(rt: &impl Abort, alloc: Global) -> Box<World<MemoryDisk>> {
    let disks = program_disks(alloc).expect(rt, "memory for the disks");
    let world = World::new(alloc, 64, 1, disks).expect(rt, "memory for a world");
    Box::new(alloc, world).expect(rt, "memory for a world")
}

/// The same without disks.
fn without_disks(rt: &impl Abort, alloc: Global) -> Box<World<MemoryDisk>> {
    let world = World::new(alloc, 64, 1, Vec::new(alloc)).expect(rt, "memory for a world");
    Box::new(alloc, world).expect(rt, "memory for a world")
}

/// What is left of a sink's room once it took the outcomes of the events, whether it took them all, and how many events there
/// were by then.
fn left(world: &mut World<MemoryDisk>, events: &[Event], room: u32) -> (u32, bool, u64)
    requires count { length events.now ≤ 16 }
{
    let mut sink = Room { left: room };
    let done = world.events() < 1000000 && world.run(events, &mut sink).is_ok();
    (sink.left, done, world.events())
}

/// A sink with room for two outcomes fails at the third, and the event after it doesn't happen.
#[test]
fn a_run_stops_where_the_sink_fails(rt: HostRuntime) {
    let mut world = opened(&rt, rt.alloc());
    let events = [Event::Fetch, Event::Poll, Event::Fetch, Event::Poll];
    expect(&rt, left(&mut world, &events, 2) == (0, false, 3));
    expect(&rt, left(&mut world, &events[..2], 9) == (7, true, 5));
}

/// A world to which these lines have happened, of fewer than a thousand; how many events settled it, and how many there were
/// in all. None where the lines are no script, or it doesn't settle.
fn settled(rt: &impl Abort, alloc: Global, lines: &[u8]) -> Option<(u32, u64)> {
    let script = parse(alloc, lines).ok()?;
    let mut world = opened(rt, alloc);
    for line in script.lines.as_slice() {
        let ScriptLine::Event(event) = line else {
            return None;
        };
        if world.events() > 1000 {
            return None;
        }
        world.step(event);
    }
    if world.events() > 10000 {
        return None;
    }
    let count = world.settle().ok()?;
    Some((count, world.events()))
}

/// Lines, and how many events settle the world to which they happened: nothing was done; eight accesses are in flight; a
/// message was lost and the fence given up; a device is quarantined while its message is lost.
static SETTLED: [(&[u8], u32, u64); 4] = [
    (b"world 64 1\n", 0, 0),
    (
        b"world 64 1\ndevice 000001 raw\nattach 000001 first\ngrant 000001 3 5 rw\n\
        read 000001 0x3000 1\nread 000001 0x3000 1\nread 000001 0x3000 1\nread 000001 0x3000 1\nread 000001 0x3000 1\n\
        read 000001 0x3000 1\nread 000001 0x3000 1\nread 000001 0x3000 1\nread 000001 0x3000 1\n",
        8,
        20,
    ),
    (
        b"world 64 1\ndevice 000002 ats\nattach 000002 first ats\ngrant 000002 3 5 rw\nrelease 000002 3\nfetch\nfetch\n\
        drop 0\nfetch\ntimeout\n",
        10,
        19,
    ),
    (
        b"world 64 1\ndevice 000002 ats\nattach 000002 first ats\ngrant 000002 3 5 rw\nrelease 000002 3\nfetch\nfetch\n\
        drop 0\nquarantine 000002\n",
        6,
        14,
    ),
];

#[test]
fn a_world_settles(rt: HostRuntime) {
    for (lines, count, events) in SETTLED.iter() {
        expect(
            &rt,
            settled(&rt, rt.alloc(), lines) == Some((*count, *events)),
        );
    }
}

/// Worlds without disks are equal to which the same happened. One with a disk isn't the same as any, not even as itself.
#[test]
fn worlds_without_disks_are_compared(rt: HostRuntime) {
    let mut one = without_disks(&rt, rt.alloc());
    let other = without_disks(&rt, rt.alloc());
    let with_disks = opened(&rt, rt.alloc());
    expect(&rt, one.is_same(&other));
    expect(&rt, !other.is_same(&with_disks));
    expect(&rt, !with_disks.is_same(&with_disks));
    let plug = Event::Plug {
        device: 2,
        new: NewDevice::Raw,
    };
    expect(&rt, left(&mut one, &[plug], 1) == (0, true, 1));
    expect(&rt, !one.is_same(&other));
}

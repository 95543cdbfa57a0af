//! A world that begins at the last number of a fence: one ticket is left.
use crate::expect::expect;
use iom_machine::{Fetched, Outcome};
use iom_runner::program_disks;
use iom_script::{ScriptLine, parse};
use iom_virtio_blk::MemoryDisk;
use iom_world::World;
use std::alloc::Global;
use std::process::Abort;

/// An outcome, as far as the test looks at it; refusals by their numbers.
#[derive(Clone, Copy, PartialEq, Eq)]
enum Answer {
    Done,
    Ticket(u32),
    Refused(u8),
    Accepted(u64),
    Did,
    NothingInFlight,
    Confirmed(u32, u32),
    Other,
}

/// The outcome, as far as the test looks at it.
fn answer_of(outcome: &Outcome) -> Answer {
    match outcome {
        Outcome::Done => Answer::Done,
        Outcome::Ticket(ticket) => Answer::Ticket(*ticket),
        Outcome::Refused(why) => Answer::Refused(why.number()),
        Outcome::Accepted(number) => Answer::Accepted(*number),
        Outcome::Fetched(Fetched::Did(_)) => Answer::Did,
        Outcome::NothingInFlight => Answer::NothingInFlight,
        Outcome::Confirmed { first, last, .. } => Answer::Confirmed(*first, *last),
        _ => Answer::Other,
    }
}

/// A world of 64 frames, with the program's disks, whose first fence has the last number.
fn at_the_last(rt: &impl Abort, alloc: Global) -> Box<World<MemoryDisk>> {
    let disks = program_disks(alloc).expect(rt, "memory for the disks");
    let world = World::new_from(alloc, u32::MAX, 64, 1, disks).expect(rt, "memory for a world");
    Box::new(alloc, world).expect(rt, "memory for a world")
}

/// Whether the line is an event, and the world answers it so.
fn answers(world: &mut World<MemoryDisk>, line: &ScriptLine, answer: Answer) -> bool {
    let ScriptLine::Event(event) = line else {
        return false;
    };
    world.events() < 1000000 && answer_of(&world.step(event)) == answer
}

/// Whether the world answers the events of the lines so, one after another.
fn answers_all(alloc: Global, world: &mut World<MemoryDisk>, lines: &[u8], all: &[Answer]) -> bool {
    let Ok(script) = parse(alloc, lines) else {
        return false;
    };
    let script = script.lines.as_slice();
    if script.len() != all.len() {
        return false;
    }
    for k in 0..script.len() {
        if !answers(world, &script[k], all[k]) {
            return false;
        }
    }
    true
}

/// Whether settling is refused, with this refusal's number.
fn refuses_to_settle(world: &mut World<MemoryDisk>, number: u8) -> bool {
    world.events() < 1000000 && matches!(world.settle(), Err(why) if why.number() == number)
}

/// The first release takes the last number of a fence, and nothing else gets one. What was accepted before is made by a
/// settling that is refused, and the ticket can still be confirmed.
#[test]
fn the_last_fence_is_given_once(rt: HostRuntime) {
    let alloc = rt.alloc();
    let mut world = at_the_last(&rt, alloc);
    let before =
        b"world 64 1\ndevice 000001 raw\nattach 000001 first\ngrant 000001 3 5 rw\ngrant 000001 4 6 rw\n\
        read 000001 0x4000 4\nrelease 000001 3\nrelease 000001 4\nrestart\n";
    let answers_before = [
        Answer::Done,
        Answer::Done,
        Answer::Done,
        Answer::Done,
        Answer::Accepted(1),
        Answer::Ticket(1),
        Answer::Refused(14),
        Answer::Refused(14),
    ];
    expect(&rt, answers_all(alloc, &mut world, before, &answers_before));
    expect(&rt, refuses_to_settle(&mut world, 14));
    let after = b"world 64 1\ncommit 000001\nfetch\nfetch\npoll\n";
    let answers_after = [
        Answer::NothingInFlight,
        Answer::Did,
        Answer::Did,
        Answer::Confirmed(1, 1),
    ];
    expect(&rt, answers_all(alloc, &mut world, after, &answers_after));
}

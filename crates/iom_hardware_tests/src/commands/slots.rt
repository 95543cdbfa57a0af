use crate::expect::expect;
use iom_command_queue::Slots;
use std::process::Abort;

/// What is done to the slots of open requests, and what is seen of them.
#[derive(Clone, Copy)]
enum Step {
    /// A request to the device gets this number, or none.
    Open(u32, Option<u64>),
    /// So many requests to the device get the numbers from 1 on.
    OpenEach(u32, u64),
    /// A completion of the device closes the slot of this number, or none does.
    Close(u64, u32, bool),
    CloseAll,
    /// So many are open.
    Count(usize),
}

fn open(rt: &impl Abort, slots: &mut Slots, device: u32) -> Option<u64> {
    assert!(rt; slots.last() < 100);
    slots.open(device)
}

fn open_each(rt: &impl Abort, slots: &mut Slots, device: u32, count: u64) {
    for number in 1..count.saturating_add(1) {
        expect(rt, open(rt, slots, device) == Some(number));
    }
}

fn effect(rt: &impl Abort, slots: &mut Slots, step: Step) -> bool {
    match step {
        Step::Open(device, number) => open(rt, slots, device) == number,
        Step::OpenEach(device, count) => {
            open_each(rt, slots, device, count);
            true
        }
        Step::Close(number, device, is_open) => slots.close(number, device) == is_open,
        Step::CloseAll => {
            slots.close_all();
            true
        }
        Step::Count(count) => slots.len() == count && slots.is_empty() == (count == 0),
    }
}

/// 32 slots are open at most. A completion closes the slot with its number and sender, once. Once all are closed none can be,
/// and numbers go on.
static STEPS: [Step; 15] = [
    Step::Count(0),
    Step::OpenEach(2, 32),
    Step::Count(32),
    Step::Open(2, None),
    Step::Close(7, 3, false),
    Step::Close(33, 2, false),
    Step::Close(7, 2, true),
    Step::Close(7, 2, false),
    Step::Count(31),
    Step::Open(3, Some(33)),
    Step::CloseAll,
    Step::Count(0),
    Step::Close(33, 3, false),
    Step::Open(2, Some(34)),
    Step::Count(1),
];

#[test]
fn a_request_makes_slots_differ(rt: HostRuntime) {
    let (one, mut other) = (Slots::new(), Slots::new());
    expect(&rt, one.is_same(&other));
    expect(&rt, open(&rt, &mut other, 2) == Some(1));
    expect(&rt, !one.is_same(&other));
}

// Of slots that are all open one is closed, and then all are.
#[test]
fn slots_open_and_close(rt: HostRuntime) {
    let mut slots = Slots::new();
    for step in STEPS.iter() {
        expect(&rt, effect(&rt, &mut slots, *step));
    }
}

use crate::expect::expect;
use iom_fabric::{Fabric, Message, OnLink, PageNumber, Range, Repeat};
use std::process::Abort;

/// What is done to a fabric, and what is seen of it.
#[derive(Clone, Copy)]
enum Step {
    /// Device 3 sends the word with this number, or it is lost.
    Send(u64, bool),
    /// It sends those of the numbers from 0 up to this one, the last excepted.
    SendEach(u64),
    Repeat(usize, Repeat),
    /// The word with this number stands at the place, and is taken from there.
    Take(usize, u64),
    Drop(usize, bool),
    /// There is no message at the place, and none of the four calls changes anything.
    Nothing(usize),
}

fn send(fabric: &mut Fabric, serial: u64) -> bool {
    fabric.send(3, Message::InvDone { serial })
}

fn send_each(fabric: &mut Fabric, count: u64) -> bool {
    for serial in 0..count {
        if !send(fabric, serial) {
            return false;
        }
    }
    true
}

fn takes(fabric: &mut Fabric, place: usize, serial: u64) -> bool {
    let wanted = Some(OnLink {
        device: 3,
        message: Message::InvDone { serial },
    });
    fabric.get(place) == wanted && fabric.take(place) == wanted
}

fn has_nothing(fabric: &mut Fabric, place: usize) -> bool {
    let len = fabric.len();
    let shown = fabric.get(place).is_none() && fabric.take(place).is_none();
    let done = fabric.drop(place) || fabric.repeat(place) != Repeat::Nothing;
    shown && !done && fabric.len() == len
}

fn effect(fabric: &mut Fabric, step: Step) -> bool {
    match step {
        Step::Send(serial, is_sent) => send(fabric, serial) == is_sent,
        Step::SendEach(count) => send_each(fabric, count),
        Step::Repeat(place, repeat) => fabric.repeat(place) == repeat,
        Step::Take(place, serial) => takes(fabric, place, serial),
        Step::Drop(place, is_dropped) => fabric.drop(place) == is_dropped,
        Step::Nothing(place) => has_nothing(fabric, place),
    }
}

#[test]
fn equal_messages_are_the_same(rt: HostRuntime) {
    let mut fabric = Fabric::new();
    let mut other = Fabric::new();
    expect(&rt, send_each(&mut fabric, 2) && send_each(&mut other, 2));
    expect(&rt, fabric.is_same(&other));
    expect(&rt, !fabric.is_same_message(0, 1));
    expect(&rt, send(&mut fabric, 0) && send(&mut other, 1));
    expect(&rt, !fabric.is_same(&other));
    expect(&rt, fabric.is_same_message(0, 2));
    expect(&rt, !fabric.is_same_message(3, 3));
}

/// 64 messages are under way at most. A taken one and a lost one close up, a copy goes last, and past the
/// end there is nothing, also where the fabric is full.
static STEPS: [Step; 13] = [
    Step::Nothing(0),
    Step::SendEach(64),
    Step::Send(64, false),
    Step::Repeat(5, Repeat::Lost),
    Step::Nothing(64),
    Step::Take(2, 2),
    Step::Drop(0, true),
    Step::Take(1, 3),
    Step::Repeat(0, Repeat::Repeated),
    Step::Take(61, 1),
    Step::Take(0, 1),
    Step::Take(59, 63),
    Step::Nothing(59),
];

#[test]
fn places_close_up_and_copies_go_last(rt: HostRuntime) {
    let mut fabric = Fabric::new();
    for step in STEPS.iter() {
        expect(&rt, effect(&mut fabric, *step));
    }
}

#[test]
fn a_page_number_has_52_bits(rt: HostRuntime) {
    expect(&rt, PageNumber::new(1 << 52).is_none());
}

// A request of the last page, with the last serial.
fn request(rt: &impl Abort) -> Message {
    let page = PageNumber::new((1 << 52) - 1).expect(rt, "a page");
    expect(rt, page.number() == (1 << 52) - 1);
    Message::InvReq {
        serial: u64::MAX,
        range: Range::Page(page),
    }
}

// A message comes out as it went in.
#[test]
fn messages_are_unchanged(rt: HostRuntime) {
    let mut fabric = Fabric::new();
    expect(&rt, fabric.is_empty());
    let device = 0xff_ffff;
    expect(&rt, fabric.send(device, request(&rt)));
    let message = request(&rt);
    expect(&rt, fabric.take(0) == Some(OnLink { device, message }));
}

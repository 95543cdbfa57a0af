// What is planned in a run, beside what is drawn.

ghost use Rattle.std.specs.Prelude.{◌<◌};

use crate::call::{Act, Call};
use crate::choosing::{DESCRIPTORS, OPEN_LEAF, Seen, call_of};
use crate::devices::{ABLK, ATS, BLK, RAW, SPARE, WIDE, new_device};
use crate::draw::Draw;
use crate::frames::{FIRST_FRAME, FRAMES};
use crate::history::Right;
use crate::knows::Knows;
use crate::parts::{Burst, Where, Who, part_of};
use iom_base::DeviceId;

/// The descriptors of a request of a block device: where in the page each leads, how many bytes, its flags, and the next. By
/// the flag 1 it leads on, by 2 the device writes, 4 is an indirect table.
static CHAIN: [(u64, u64, u64, u64); 3] = [
    (HEADER, 16, 1, 1),
    (0x400, 512, 1, 2),
    (0x700, 1, 2, 0),
];

/// Where the header of a request stands.
const HEADER: u64 = 0x300;

/// Lengths of which a request can't have one.
static SPOILED_LENGTHS: [u64; 5] = [0, 8, 16, 1 << 20, (1 << 20) + 1];

/// What is planned, and how far it has come.
#[derive(Clone, Copy)]
pub(crate) struct Task {
    pub(crate) burst: Burst,
    /// What it is about.
    pub(crate) device: DeviceId,
    page: u64,
    /// The number of its next event.
    pub(crate) at: u64,
}

impl Task {
    pub(crate) fn new(burst: Burst, device: DeviceId, page: u64) -> Task {
        Task {
            burst,
            device,
            page,
            at: 0,
        }
    }
}

/// The frame that the device holds at the page for writing too; one that isn't there where it holds none so.
fn frame_at(knows: &Knows, device: DeviceId, page: u64) -> u64 {
    u64::from(knows.held(device, page, Right::Write).trailing_zeros())
}

/// The lowest page from 1 on, below eight, that the device holds for writing too.
fn lowest_held(knows: &Knows, device: DeviceId) -> Option<u64> {
    for page in 1..8 {
        if knows.held(device, page, Right::Write) != 0 {
            return Some(page);
        }
    }
    None
}

/// The second word of the descriptor with the number, with its length, its flags or its next one spoiled, seldom.
fn second_word(draw: &mut Draw, number: usize) -> u64
    requires { number < 3 }
{
    let (_, len, flags, next) = CHAIN[number];
    let writes = if number == 1 { 2 * draw.below(2) } else { 0 };
    match draw.below(16) {
        0 => len | flags << 32 | draw.below(5) << 48,
        1 => len | [0, 2, 3, 4, 4][draw.below(5) as usize] << 32 | next << 48,
        2 => SPOILED_LENGTHS[draw.below(5) as usize] | flags << 32 | next << 48,
        3..=5 if number == 1 => 100 | (flags | writes) << 32 | next << 48,
        _ => len | (flags | writes) << 32 | next << 48,
    }
}

/// Where the word of a request with the number stands in its page, and which it is: those of three descriptors, of the header,
/// and of the available ring.
fn chain_word(draw: &mut Draw, number: u64, page: u64) -> (u64, u64) {
    let at = DESCRIPTORS.wrapping_add(8 * (number % 8));
    match number {
        0 | 2 | 4 => {
            let (place, ..) = CHAIN[(number / 2) as usize];
            let is_spoiled = draw.one_in(if number == 0 { 16 } else { 4 });
            let (page, place) = if is_spoiled {
                (draw.below(9), 0x800)
            } else {
                (page % 8, place)
            };
            (at, page * 4096 + place)
        }
        1 | 3 | 5 => (at, second_word(draw, (number / 2) as usize)),
        6 => (HEADER, [0, 0, 1, 1, 4, 2][draw.below(6) as usize]),
        7 => (HEADER + 8, draw.below(5)),
        _ => {
            let head = if draw.one_in(16) { 5 } else { 0 };
            let index = if draw.one_in(16) { 6 } else { 1 };
            (0x200, index << 16 | head << 32)
        }
    }
}

/// The device of the event of a part with the number.
fn device_of(task: Task, call: Call, shown: Seen, who: Who, number: u64) -> DeviceId {
    match who {
        Who::Drawn => call.device,
        Who::Subject => task.device,
        Who::This(WIDE) => shown.wide,
        Who::This(id) => id,
        Who::Each(first) => first.wrapping_add((number % 16) as u32),
    }
}

/// The event of a part with the number, with what of it isn't drawn.
fn settle_fields(
    draw: &mut Draw,
    knows: &Knows,
    task: Task,
    drawn: Call,
    at: Where,
    number: u64,
) -> Call {
    let mut call = drawn;
    match at {
        Where::Drawn => {}
        Where::Subject => {
            call.page = task.page;
            call.size = 4;
        }
        Where::Each(first) => call.page = first.wrapping_add(number),
        Where::Whole(first) => {
            call.page = first.wrapping_add(number);
            call.frame = FIRST_FRAME + call.page % FRAMES;
        }
        Where::In(mode) => {
            call.mode = mode;
            call.ats = call.device != SPARE;
        }
        Where::Link => {
            call.frame = frame_at(knows, task.device, 0);
            call.offset = 8 * (number % 8);
            call.word = if number == 0 {
                1
            } else {
                number << 10 | OPEN_LEAF
            };
        }
        Where::Chain => {
            call.frame = frame_at(knows, task.device, task.page);
            (call.offset, call.word) = chain_word(draw, number, task.page);
        }
    }
    call
}

/// The next event of the task, if it has one.
pub(crate) fn planned(draw: &mut Draw, knows: &Knows, shown: Seen, task: Task) -> Option<Call> {
    let (act, who, at, number) = part_of(task.burst, task.at)?;
    let mut call = call_of(draw, act, shown);
    call.device = device_of(task, call, shown, who, number);
    if task.burst == Burst::Devices || task.burst == Burst::Crowded {
        call.new = new_device(call.device);
    }
    call.place = if task.burst == Burst::Quarantine {
        shown.messages.saturating_sub(1)
    } else {
        0
    };
    Some(settle_fields(draw, knows, task, call, at, number))
}

/// Something is planned.
pub(crate) fn drawn_task(draw: &mut Draw, knows: &Knows) -> Task {
    let any = RAW + draw.below(4) as u32;
    let block = if draw.one_in(2) { BLK } else { ABLK };
    let (burst, device) = match draw.below(24) {
        0 => (Burst::Questions, ATS),
        1 => (Burst::RawRequests, RAW),
        2 => (Burst::CachedRequests, ATS),
        3 => (Burst::Begins, block),
        4..=6 => (Burst::Deliveries, any),
        7 => (Burst::Restart, any),
        8..=11 => (Burst::Grants, any),
        12 => (Burst::Links, any),
        13 => (Burst::Quarantine, ATS),
        14 => (Burst::Faults, any),
        15 => (Burst::GivenUp, ATS),
        _ => (Burst::Block, block),
    };
    let wants_page = matches!(
        burst,
        Burst::Begins | Burst::Quarantine | Burst::GivenUp | Burst::Block
    );
    match lowest_held(knows, device) {
        Some(page) => Task::new(burst, device, page),
        None if wants_page => Task::new(Burst::Grants, device, 0),
        None => Task::new(burst, device, 0),
    }
}

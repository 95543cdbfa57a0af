// Lists of lines, as the tests write them, for the judge.
use arrayvec::ArrayVec;
use iom_base::{
    Access, AccessKind, Cause, DeviceId, GrantRights, Mode, NewDevice, Refusal, Rights, Sequence,
    Size,
};
use iom_fabric::{PageNumber, Translation};
use iom_kept_state::KeptState;
use iom_machine::{BlockStep, Choice, Event, FaultRecord, Fetched, Limits, Outcome};
use iom_machine_judge::{Line, judge_run};
use std::alloc::Global;
use std::process::Abort;

/// Another way of a request to memory than through the translation of the IOMMU.
#[derive(Clone, Copy)]
pub(crate) enum Way {
    /// The request says that it is translated already.
    Translated,
    /// Through the device's own cache.
    Cached,
}

/// An event as the tests write it, with the frames that the driver takes for its tables.
#[derive(Clone, Copy)]
pub(crate) enum Does<'a> {
    Plug(DeviceId),
    /// As a device with a cache.
    PlugAts(DeviceId),
    /// As a block device with this disk.
    PlugBlock(DeviceId, u64),
    /// As one with a cache.
    PlugCachedBlock(DeviceId, u64),
    Medium(DeviceId, u64),
    Attach(DeviceId, &'a [u64]),
    /// The first frames become pages of the device directory.
    AttachBelow(DeviceId, &'a [u64], &'a [u64]),
    /// In the mode.
    AttachIn(DeviceId, Mode, &'a [u64]),
    /// In the mode, with ATS.
    AttachAts(DeviceId, Mode, &'a [u64]),
    Detach(DeviceId),
    Grant(DeviceId, u64, u64, GrantRights, &'a [u64]),
    Release(DeviceId, u64),
    Quarantine(DeviceId),
    Revive(DeviceId),
    Restart,
    Fetch,
    Timeout,
    Poll,
    /// A poll that gives back these tables.
    PollReturning(&'a [u64]),
    Faults,
    Read(DeviceId, u64, u64),
    Write(DeviceId, u64, &'a [u8]),
    ReadBy(Way, DeviceId, u64, u64),
    WriteBy(Way, DeviceId, u64, &'a [u8]),
    Ask(DeviceId, u64),
    Forge(DeviceId, u64),
    Deliver(u64),
    Drop(u64),
    Repeat(u64),
    Reset(DeviceId),
    /// The size, and the addresses of the three parts.
    Queue(DeviceId, u64, u64, u64, u64),
    /// A step that wants no access.
    Step(DeviceId),
    /// One that wants to read so many bytes at the address.
    StepRead(DeviceId, u64, u64),
    /// One that wants to write the bytes at the address.
    StepWrite(DeviceId, u64, &'a [u8]),
    Status(DeviceId),
    Commit(DeviceId),
    Poke(u64, &'a [u8]),
    Peek(u64, u64),
    Free(u64),
}

/// An outcome as the tests write it; of an acceptance also the frame, and of an answer to a question whose it
/// was, and of which page.
#[derive(Clone, Copy)]
pub(crate) enum Comes<'a> {
    Done,
    Refused(Refusal),
    Ticket(u32),
    Confirmed(u32, u32),
    NoneConfirmed,
    /// That a fence was given up, and which tickets are confirmed, if any.
    PollTimedOut(Option<(u32, u32)>),
    Record([u64; 4]),
    NoRecord,
    Fetched(Fetched),
    TimedOut,
    NoEffect,
    Accepted(u64, u64),
    Busy,
    BadSpan,
    Fault(Cause),
    Miss,
    Sent,
    Lost,
    /// The frame and the right.
    Told(DeviceId, u64, u32, Rights),
    /// That there is none, and why.
    ToldNone(DeviceId, u64, Cause),
    Kept,
    Stale,
    AnswerRefused,
    Ignored,
    Invalidated(u64),
    Closed(u64),
    NotClosed(u64),
    Dropped,
    Repeated,
    NoMessage,
    Read(&'a [u8]),
    Wrote(u64),
    Nothing,
    Bytes(&'a [u8]),
    Free(bool),
    Stepped(BlockStep),
    Status(u8),
}

fn bytes_of(rt: &impl Abort, alloc: Global, bytes: &[u8]) -> Sequence<u8> {
    let mut made = Sequence::new(alloc);
    for byte in bytes {
        made.push(*byte).expect(rt, "memory for bytes");
    }
    made
}

fn numbers_of(rt: &impl Abort, alloc: Global, numbers: &[u64]) -> Sequence<u64> {
    let mut made = Sequence::new(alloc);
    for number in numbers {
        made.push(*number).expect(rt, "memory for numbers");
    }
    made
}

fn plug(device: DeviceId, new: NewDevice) -> Event {
    Event::Plug { device, new }
}

fn attach(device: DeviceId, mode: Mode, ats: bool) -> Event {
    Event::Attach { device, mode, ats }
}

/// A call of the driver, or what else is done.
fn event_of(rt: &impl Abort, alloc: Global, effect: &Does) -> Event {
    match *effect {
        Does::Plug(device) => plug(device, NewDevice::Raw),
        Does::PlugAts(device) => plug(device, NewDevice::Ats),
        Does::PlugBlock(device, disk) => plug(device, NewDevice::Block { disk }),
        Does::PlugCachedBlock(device, disk) => plug(device, NewDevice::CachedBlock { disk }),
        Does::Attach(device, _) => attach(device, Mode::First(Size::Sv39), false),
        Does::AttachBelow(device, _, _) => attach(device, Mode::First(Size::Sv39), false),
        Does::AttachIn(device, mode, _) => attach(device, mode, false),
        Does::AttachAts(device, mode, _) => attach(device, mode, true),
        Does::Detach(device) => Event::Detach { device },
        Does::Grant(device, page, frame, rights, _) => Event::Grant {
            device,
            page,
            frame,
            rights,
        },
        Does::Release(device, page) => Event::Release { device, page },
        Does::Quarantine(device) => Event::Quarantine { device },
        Does::Revive(device) => Event::Revive { device },
        Does::Restart => Event::Restart,
        _ => act_of(rt, alloc, effect),
    }
}

fn read_by(way: Way, device: DeviceId, address: u64, len: u64) -> Event {
    match way {
        Way::Translated => Event::ReadTranslated {
            device,
            address,
            len,
        },
        Way::Cached => Event::ReadThroughCache {
            device,
            address,
            len,
        },
    }
}

fn write_by(way: Way, device: DeviceId, address: u64, bytes: Sequence<u8>) -> Event {
    match way {
        Way::Translated => Event::WriteTranslated {
            device,
            address,
            bytes,
        },
        Way::Cached => Event::WriteThroughCache {
            device,
            address,
            bytes,
        },
    }
}

fn ask(rt: &impl Abort, device: DeviceId, number: u64) -> Event {
    let page = PageNumber::new(number).expect(rt, "52 bits");
    Event::Ask { device, page }
}

/// What stores bytes.
fn store_of(rt: &impl Abort, alloc: Global, effect: &Does) -> Event {
    match *effect {
        Does::Write(device, address, bytes) => Event::Write {
            device,
            address,
            bytes: bytes_of(rt, alloc, bytes),
        },
        Does::WriteBy(way, device, address, bytes) => {
            write_by(way, device, address, bytes_of(rt, alloc, bytes))
        }
        Does::Poke(address, bytes) => Event::Poke {
            address,
            bytes: bytes_of(rt, alloc, bytes),
        },
        _ => panic!(rt; "an event"),
    }
}

/// What a device or the fabric does, or what else is done.
fn act_of(rt: &impl Abort, alloc: Global, effect: &Does) -> Event {
    match *effect {
        Does::Read(device, address, len) => Event::Read {
            device,
            address,
            len,
        },
        Does::ReadBy(way, device, address, len) => read_by(way, device, address, len),
        Does::Ask(device, page) => ask(rt, device, page),
        Does::Forge(device, serial) => Event::Forge { device, serial },
        Does::Deliver(place) => Event::Deliver { place },
        Does::Drop(place) => Event::Drop { place },
        Does::Repeat(place) => Event::Repeat { place },
        Does::Reset(device) => Event::Reset { device },
        Does::Commit(device) => Event::Commit { device },
        _ => block_event_of(rt, alloc, effect),
    }
}

/// What only a block device takes, or what else is done.
fn block_event_of(rt: &impl Abort, alloc: Global, effect: &Does) -> Event {
    match *effect {
        Does::Medium(device, disk) => Event::Medium { device, disk },
        Does::Queue(device, size, descriptors, available, used) => Event::Queue {
            device,
            size,
            descriptors,
            available,
            used,
        },
        Does::Step(device) => Event::Step { device },
        Does::StepRead(device, _, _) => Event::Step { device },
        Does::StepWrite(device, _, _) => Event::Step { device },
        Does::Status(device) => Event::Status { device },
        _ => look_of(rt, alloc, effect),
    }
}

/// What the IOMMU does, and a look, or what stores bytes.
fn look_of(rt: &impl Abort, alloc: Global, effect: &Does) -> Event {
    match *effect {
        Does::Fetch => Event::Fetch,
        Does::Timeout => Event::Timeout,
        Does::Poll | Does::PollReturning(_) => Event::Poll,
        Does::Faults => Event::Faults,
        Does::Peek(address, len) => Event::Peek { address, len },
        Does::Free(frame) => Event::Free { frame },
        _ => store_of(rt, alloc, effect),
    }
}

/// The bytes of an outcome, which are few.
fn few(bytes: &[u8]) -> ArrayVec<u8, 4096> {
    let mut made = ArrayVec::new();
    for byte in bytes {
        let _ = made.try_push(*byte);
    }
    made
}

/// What a poll confirmed, and whether a fence was given up.
fn polled(tickets: Option<(u32, u32)>, timed_out: bool) -> Outcome {
    match tickets {
        Some((first, last)) => Outcome::Confirmed {
            first,
            last,
            timed_out,
        },
        None => Outcome::NoneConfirmed { timed_out },
    }
}

pub(crate) fn outcome_of(comes: &Comes) -> Outcome {
    match *comes {
        Comes::Done => Outcome::Done,
        Comes::Refused(why) => Outcome::Refused(why),
        Comes::Ticket(ticket) => Outcome::Ticket(ticket),
        Comes::Confirmed(first, last) => polled(Some((first, last)), false),
        Comes::NoneConfirmed => polled(None, false),
        Comes::PollTimedOut(tickets) => polled(tickets, true),
        Comes::Record(words) => Outcome::Record(FaultRecord { words }),
        Comes::NoRecord => Outcome::NoRecord,
        Comes::Fetched(fetched) => Outcome::Fetched(fetched),
        Comes::TimedOut => Outcome::TimedOut,
        Comes::NoEffect => Outcome::NoEffect,
        Comes::Accepted(number, _) => Outcome::Accepted(number),
        Comes::Busy => Outcome::Busy,
        Comes::BadSpan => Outcome::BadSpan,
        Comes::Fault(cause) => Outcome::Fault(cause),
        Comes::Miss => Outcome::Miss,
        Comes::Sent => Outcome::Sent,
        Comes::Lost => Outcome::Lost,
        Comes::Told(_, _, frame, rights) => Outcome::Answered(Translation::Page { frame, rights }),
        Comes::ToldNone(_, _, cause) => Outcome::Answered(Translation::Refused(cause)),
        Comes::Kept => Outcome::Kept,
        Comes::Stale => Outcome::Stale,
        Comes::AnswerRefused => Outcome::AnswerRefused,
        Comes::Ignored => Outcome::Ignored,
        Comes::Invalidated(serial) => Outcome::Invalidated(serial),
        Comes::Closed(serial) => Outcome::Closed(serial),
        Comes::NotClosed(serial) => Outcome::NotClosed(serial),
        Comes::Dropped => Outcome::Dropped,
        Comes::Repeated => Outcome::Repeated,
        Comes::NoMessage => Outcome::NoMessage,
        Comes::Read(bytes) => Outcome::Read(few(bytes)),
        Comes::Wrote(len) => Outcome::Wrote(len),
        Comes::Nothing => Outcome::NothingInFlight,
        Comes::Bytes(bytes) => Outcome::Bytes(few(bytes)),
        Comes::Free(is_free) => Outcome::Free(is_free),
        Comes::Stepped(step) => Outcome::Stepped(step),
        Comes::Status(status) => Outcome::Status(status),
    }
}

/// The frames that become the device's tables.
fn taken_by<'a>(effect: &Does<'a>) -> &'a [u64] {
    match *effect {
        Does::Attach(_, taken) => taken,
        Does::AttachBelow(_, _, taken) => taken,
        Does::AttachIn(_, _, taken) => taken,
        Does::AttachAts(_, _, taken) => taken,
        Does::Grant(_, _, _, _, taken) => taken,
        _ => &[],
    }
}

/// The frames that become pages of the device directory.
fn returned_by<'a>(effect: &Does<'a>) -> &'a [u64] {
    match *effect {
        Does::PollReturning(returned) => returned,
        _ => &[],
    }
}

fn directory_of<'a>(effect: &Does<'a>) -> &'a [u64] {
    match *effect {
        Does::AttachBelow(_, pages, _) => pages,
        _ => &[],
    }
}

fn frame_of(comes: &Comes) -> u64 {
    match *comes {
        Comes::Accepted(_, frame) => frame,
        _ => 0,
    }
}

/// Whose question it was, and of which page.
fn question_of(comes: &Comes) -> (DeviceId, u64) {
    match *comes {
        Comes::Told(device, page, _, _) => (device, page),
        Comes::ToldNone(device, page, _) => (device, page),
        _ => (0, 0),
    }
}

/// The access that a step wants: its address, length and kind.
fn want_of(effect: &Does) -> (u64, u64, AccessKind) {
    match *effect {
        Does::StepRead(_, address, len) => (address, len, AccessKind::Read),
        Does::StepWrite(_, address, bytes) => (address, bytes.len() as u64, AccessKind::Write),
        _ => (0, 0, AccessKind::Read),
    }
}

/// Its bytes.
fn wanted_bytes_of<'a>(effect: &Does<'a>) -> &'a [u8] {
    match *effect {
        Does::StepWrite(_, _, bytes) => bytes,
        _ => &[],
    }
}

fn access_of(rt: &impl Abort, alloc: Global, effect: &Does) -> Access {
    let (address, len, kind) = want_of(effect);
    Access {
        address,
        len,
        kind,
        bytes: bytes_of(rt, alloc, wanted_bytes_of(effect)),
    }
}

fn choice_of(rt: &impl Abort, alloc: Global, effect: &Does, comes: &Comes) -> Choice {
    let (device, page) = question_of(comes);
    Choice {
        directory: numbers_of(rt, alloc, directory_of(effect)),
        taken: numbers_of(rt, alloc, taken_by(effect)),
        returned: numbers_of(rt, alloc, returned_by(effect)),
        frame: frame_of(comes),
        device,
        page,
        access: access_of(rt, alloc, effect),
    }
}

pub(crate) fn line_of(rt: &impl Abort, alloc: Global, effect: &Does, comes: &Comes) -> Line {
    Line {
        event: event_of(rt, alloc, effect),
        outcome: outcome_of(comes),
        choice: choice_of(rt, alloc, effect, comes),
    }
}

/// The numbers of the disks.
const DISKS: [u64; 4] = [0, 1, 2, 3];

/// The first of the lines that may not come, with these limits, in a world of 64 frames, one directory level and four disks.
pub(crate) fn judged_under(
    rt: &impl Abort,
    alloc: Global,
    limits: Limits,
    lines: &[Line],
) -> Option<usize> {
    let mut kept = KeptState::power_on(alloc, limits, 64, 1, &DISKS).expect(
        rt,
        "memory for a world",
    );
    judge_run(alloc, &mut kept, lines).expect(rt, "memory for the judge")
}

/// The first of the lines that may not come, with the model's limits.
pub(crate) fn judged(rt: &impl Abort, alloc: Global, lines: &[Line]) -> Option<usize> {
    judged_under(rt, alloc, Limits::of_model(), lines)
}

pub(crate) fn push(
    rt: &impl Abort,
    alloc: Global,
    made: &mut Vec<Line>,
    effect: &Does,
    comes: &Comes,
) {
    let line = line_of(rt, alloc, effect, comes);
    made.push(line).expect(rt, "memory for a line");
}

/// A line of a lawful run, and what it is changed to, which may not come there.
pub(crate) type Change<'a> = (usize, Does<'a>, Comes<'a>);

/// The run, one line of it changed where this is a change.
pub(crate) fn lines_of(
    rt: &impl Abort,
    alloc: Global,
    base: &[(Does, Comes)],
    change: Option<&Change>,
) -> Vec<Line> {
    let mut made = Vec::new(alloc);
    for (place, (effect, comes)) in base.iter().enumerate() {
        match change {
            Some((changed, other, comes)) if *changed == place => {
                push(rt, alloc, &mut made, other, comes);
            }
            _ => push(rt, alloc, &mut made, effect, comes),
        }
    }
    made
}

fn first_unlawful(
    rt: &impl Abort,
    alloc: Global,
    base: &[(Does, Comes)],
    change: Option<&Change>,
) -> Option<usize> {
    let made = lines_of(rt, alloc, base, change);
    judged(rt, alloc, &made)
}

/// A lawful run: its name, its lines, and changes of single lines of it.
pub(crate) type Run<'a> = (&'a str, &'a [(Does<'a>, Comes<'a>)], &'a [Change<'a>]);

/// Ends the test where another line of the run is the first that may not come.
fn is_first(rt: &impl Abort, says: &str, first: Option<usize>, expected: Option<usize>) {
    assert!(rt;
        first == expected,
        "{says}: {first:?}, and not {expected:?}"
    );
}

/// Ends the test where a line of the run may not come, or one of its changes isn't refused at its line.
fn is_judged(rt: &impl Abort, alloc: Global, run: &Run) {
    let (says, base, changes) = *run;
    is_first(rt, says, first_unlawful(rt, alloc, base, None), None);
    for change in changes.iter() {
        let first = first_unlawful(rt, alloc, base, Some(change));
        is_first(rt, says, first, Some(change.0));
    }
}

/// The same of each run.
pub(crate) fn are_judged(rt: &impl Abort, alloc: Global, runs: &[Run]) {
    for run in runs.iter() {
        is_judged(rt, alloc, run);
    }
}

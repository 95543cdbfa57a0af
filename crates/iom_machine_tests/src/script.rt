use crate::expect::expect;
use crate::lines::{Comes, outcome_of};
use iom_base::{Cause, GrantRights, Mode, NewDevice, Refusal, Rights, Sequence, Size};
use iom_machine::{BlockStep, CommandName, Event, Fetched, Outcome, Trace};
use iom_script::{LineBuffer, Script, ScriptFault, ScriptLine, WorldSize, parse};
use iom_virtqueue::ChainFault;
use std::alloc::Global;
use std::process::Abort;
use std::test::Fail;

/// The line number at which the bytes are refused, or 0 where they are a script.
fn bad_line(alloc: Global, bytes: &[u8]) -> u64 {
    match parse(alloc, bytes) {
        Ok(_) => 0,
        Err(ScriptFault::Line(number)) => number,
        Err(ScriptFault::Memory) => u64::MAX,
    }
}

/// The bytes, as often as that.
fn many(alloc: Global, front: &[u8], piece: &[u8], count: usize) -> Result<Vec<u8>, Fail> {
    let mut bytes = Vec::from_slice(alloc, front)?;
    for _ in 0..count {
        bytes.extend_from_slice(piece)?;
    }
    Ok(bytes)
}

/// The script that these bytes are.
fn script_of(rt: &impl Abort, alloc: Global, bytes: &[u8]) -> Script {
    match parse(alloc, bytes) {
        Ok(script) => script,
        Err(_) => panic!(rt; "no script"),
    }
}

/// Outcomes, each with its line.
static TOLD: [(Comes, &[u8]); 48] = [
    // what the driver answers
    (Comes::Done, b"ok\n"),
    (
        Comes::Refused(Refusal::TooManyPending),
        b"refused 12 TooManyPending\n",
    ),
    (Comes::Ticket(1), b"ticket 1\n"),
    (Comes::Confirmed(1, 256), b"confirmed 1-256\n"),
    (Comes::NoneConfirmed, b"confirmed -\n"),
    (
        Comes::Record([0x0000010800000015, 0, 0x30f0, u64::MAX]),
        b"record 0x0000010800000015 0x0000000000000000 0x00000000000030f0 0xffffffffffffffff\n",
    ),
    (Comes::NoRecord, b"no record\n"),
    (Comes::Free(true), b"free yes\n"),
    (Comes::Free(false), b"free no\n"),
    // what hardware does
    (
        Comes::Fetched(Fetched::Did(CommandName::IotinvalVma)),
        b"did iotinval.vma\n",
    ),
    (
        Comes::Fetched(Fetched::Did(CommandName::IofenceC)),
        b"did iofence.c\n",
    ),
    (Comes::Fetched(Fetched::Empty), b"empty\n"),
    (Comes::Accepted(1, 0), b"accepted 1\n"),
    (Comes::Busy, b"busy\n"),
    (Comes::BadSpan, b"badspan\n"),
    (Comes::Fault(Cause::ReadPageFault), b"fault 13\n"),
    (Comes::Read(&[0, 0xaf]), b"read 00af\n"),
    (Comes::Wrote(4096), b"wrote 4096\n"),
    (Comes::Nothing, b"none\n"),
    (Comes::Bytes(&[0, 0xaf]), b"bytes 00af\n"),
    // what devices with caches are answered
    (Comes::Miss, b"miss\n"),
    (
        Comes::Told(0, 0, u32::MAX, Rights::R),
        b"answer 4294967295 r\n",
    ),
    (Comes::Told(0, 0, 5, Rights::RW), b"answer 5 rw\n"),
    (
        Comes::ToldNone(0, 0, Cause::TransactionTypeDisallowed),
        b"answer fault 260\n",
    ),
    (Comes::Kept, b"kept\n"),
    (Comes::Stale, b"stale\n"),
    (Comes::AnswerRefused, b"refusal\n"),
    (Comes::Ignored, b"ignored\n"),
    // what becomes of messages
    (Comes::Sent, b"sent\n"),
    (Comes::Lost, b"lost\n"),
    (Comes::Invalidated(1), b"invalidated 1\n"),
    (Comes::Closed(u64::MAX), b"closed 18446744073709551615\n"),
    (Comes::NotClosed(0), b"ignored 0\n"),
    (Comes::Dropped, b"dropped\n"),
    (Comes::Repeated, b"repeated\n"),
    (Comes::NoMessage, b"none\n"),
    // what block devices do, and the names of faults of chains
    (Comes::Stepped(BlockStep::Idle), b"idle\n"),
    (Comes::Stepped(BlockStep::Waiting), b"waiting\n"),
    (Comes::Stepped(BlockStep::Asked), b"asked\n"),
    (
        Comes::Stepped(BlockStep::Finished {
            head: u16::MAX,
            len: 513,
        }),
        b"finished 65535 513\n",
    ),
    (Comes::Stepped(BlockStep::Down), b"down\n"),
    (Comes::Status(255), b"status 255\n"),
    (
        Comes::Stepped(BlockStep::Chain(ChainFault::Loop)),
        b"chain Loop\n",
    ),
    (
        Comes::Stepped(BlockStep::Chain(ChainFault::BadIndex)),
        b"chain BadIndex\n",
    ),
    (
        Comes::Stepped(BlockStep::Chain(ChainFault::Order)),
        b"chain Order\n",
    ),
    (
        Comes::Stepped(BlockStep::Chain(ChainFault::Indirect)),
        b"chain Indirect\n",
    ),
    (
        Comes::Stepped(BlockStep::Chain(ChainFault::TooLong)),
        b"chain TooLong\n",
    ),
    (
        Comes::Stepped(BlockStep::Chain(ChainFault::Short)),
        b"chain Short\n",
    ),
];

/// Ends the test where another line is that of an outcome.
fn are_told(rt: &impl Abort, out: &mut LineBuffer, rows: &[(Comes, &[u8])]) {
    for (comes, line) in rows.iter() {
        out.clear();
        out.append_line(&outcome_of(comes));
        expect(rt, out.as_slice() == *line);
    }
}

// Each outcome has its line, and a buffer that is cleared has none.
#[test]
fn lines_tell_outcomes(rt: HostRuntime) {
    let mut out = LineBuffer::new(rt.alloc()).expect(&rt, "memory for a buffer");
    expect(&rt, out.has_room());
    are_told(&rt, &mut out, &TOLD);
    out.clear();
    expect(&rt, out.as_slice().is_empty());
}

#[test]
fn counts_stand_beside_an_outcome(rt: HostRuntime) {
    let mut out = LineBuffer::new(rt.alloc()).expect(&rt, "memory for a buffer");
    out.append_trace(&Trace {
        tickets: 1,
        flight: 0,
        messages: u64::MAX,
        free: 60,
    });
    let line = b"= tickets 1 flight 0 messages 18446744073709551615 free 60\n".as_slice();
    expect(&rt, out.as_slice() == line);
}

/// Ends the test where another line tells what settling answers.
fn is_settled(rt: &impl Abort, out: &mut LineBuffer, answer: Result<u32, Refusal>, line: &[u8]) {
    out.clear();
    out.append_settled(answer);
    expect(rt, out.as_slice() == line);
}

#[test]
fn what_settling_answers_has_its_line(rt: HostRuntime) {
    let mut out = LineBuffer::new(rt.alloc()).expect(&rt, "memory for a buffer");
    is_settled(&rt, &mut out, Ok(0), b"settled 0\n");
    is_settled(&rt, &mut out, Ok(6), b"settled 6\n");
    is_settled(&rt, &mut out, Ok(u32::MAX), b"settled 4294967295\n");
    let refused = b"refused 14 NumbersUsedUp\n";
    is_settled(&rt, &mut out, Err(Refusal::NumbersUsedUp), refused);
}

// It goes behind what stands in the buffer, as the line of an outcome does.
#[test]
fn what_settling_answers_goes_last(rt: HostRuntime) {
    let mut out = LineBuffer::new(rt.alloc()).expect(&rt, "memory for a buffer");
    out.append_line(&Outcome::Done);
    out.append_settled(Ok(6));
    expect(&rt, out.as_slice() == b"ok\nsettled 6\n".as_slice());
}

#[test]
fn a_buffer_has_room_until_it_is_nearly_full(rt: HostRuntime) {
    let mut out = LineBuffer::new(rt.alloc()).expect(&rt, "memory for a buffer");
    let mut count = 0usize;
    for _line in 0..2000 {
        if out.has_room() {
            out.append_line(&Outcome::Accepted(u64::MAX));
            count = count.wrapping_add(1);
        }
    }
    // 30 bytes each: the first line that might not have fitted came after 57,337 bytes.
    expect(&rt, count == 1912);
}

fn says_nothing(rt: &impl Abort, alloc: Global, bytes: &[u8]) {
    let script = script_of(rt, alloc, bytes);
    expect(rt, script.world.is_none());
    expect(rt, script.lines.as_slice().is_empty());
}

#[test]
fn an_empty_script_says_nothing(rt: HostRuntime) {
    says_nothing(&rt, rt.alloc(), b"");
    says_nothing(&rt, rt.alloc(), b"\n# world 64 1\0\r\xff\n#\n");
}

/// A script of each kind of line, at the boundaries of what is written.
const EACH: &[u8] = b"\
    world 4096 1\n\
    \n\
    # devices\n\
    device 000001 raw\n\
    device 00000a ats\n\
    device 00000a blk 18446744073709551615\n\
    device 00000b ablk 0\n\
    medium 00000a 3\n\
    attach 00000a first\n\
    attach 00000a second\n\
    attach 00000a both\n\
    attach 00000a second ats\n\
    attach 00000a first48\n\
    attach 00000a second48 ats\n\
    attach 00000a both48\n\
    grant 000001 3 5 rw\n\
    grant ffffff 18446744073709551615 0 r\n\
    release 000001 3\n\
    detach 00000a\n\
    read 000001 0x3ffc 4\n\
    write 00000a 0x0000003ffffff000 00f1\n\
    aread 00000a 0x3ffc 4\n\
    awrite 00000a 0x3ffe 00f1\n\
    tread 00000b 0x5000 5\n\
    twrite 00000b 0x5001 f1\n\
    ask 00000a 4503599627370495\n\
    forge 00000b 18446744073709551615\n\
    deliver 0\n\
    drop 1\n\
    repeat 18446744073709551615\n\
    queue 00000a 8 0x3000 0xffffffffffffffff 0x30c0\n\
    step 00000a\n\
    status 00000b\n\
    commit 000001\n\
    fetch\n\
    poll\n\
    faults\n\
    poke 0x5000 00f1\n\
    peek 0xffffffffffffffff 18446744073709551615\n\
    free 63\n\
    settle\n";

/// What a line says, as its name and its numbers. Bytes are a number too, the first of them the highest digits, after
/// their count.
type Told = (&'static str, [u64; 5]);

/// What those lines say, behind that of the world.
static TOLD_OF_EACH: [Told; 38] = [
    ("raw", [1, 0, 0, 0, 0]),
    ("ats", [10, 0, 0, 0, 0]),
    ("blk", [10, u64::MAX, 0, 0, 0]),
    ("ablk", [11, 0, 0, 0, 0]),
    ("medium", [10, 3, 0, 0, 0]),
    ("first", [10, 0, 0, 0, 0]),
    ("second", [10, 0, 0, 0, 0]),
    ("both", [10, 0, 0, 0, 0]),
    ("second", [10, 1, 0, 0, 0]),
    ("first48", [10, 0, 0, 0, 0]),
    ("second48", [10, 1, 0, 0, 0]),
    ("both48", [10, 0, 0, 0, 0]),
    ("grant", [1, 3, 5, 1, 0]),
    ("grant", [0xffffff, u64::MAX, 0, 0, 0]),
    ("release", [1, 3, 0, 0, 0]),
    ("detach", [10, 0, 0, 0, 0]),
    ("read", [1, 0x3ffc, 4, 0, 0]),
    ("write", [10, 0x3ffffff000, 2, 0xf1, 0]),
    ("aread", [10, 0x3ffc, 4, 0, 0]),
    ("awrite", [10, 0x3ffe, 2, 0xf1, 0]),
    ("tread", [11, 0x5000, 5, 0, 0]),
    ("twrite", [11, 0x5001, 1, 0xf1, 0]),
    ("ask", [10, 4503599627370495, 0, 0, 0]),
    ("forge", [11, u64::MAX, 0, 0, 0]),
    ("deliver", [0, 0, 0, 0, 0]),
    ("drop", [1, 0, 0, 0, 0]),
    ("repeat", [u64::MAX, 0, 0, 0, 0]),
    ("queue", [10, 8, 0x3000, u64::MAX, 0x30c0]),
    ("step", [10, 0, 0, 0, 0]),
    ("status", [11, 0, 0, 0, 0]),
    ("commit", [1, 0, 0, 0, 0]),
    ("fetch", [0, 0, 0, 0, 0]),
    ("poll", [0, 0, 0, 0, 0]),
    ("faults", [0, 0, 0, 0, 0]),
    ("poke", [0x5000, 2, 0xf1, 0, 0]),
    ("peek", [u64::MAX, u64::MAX, 0, 0, 0]),
    ("free", [63, 0, 0, 0, 0]),
    ("settle", [0, 0, 0, 0, 0]),
];

fn number_of(bytes: &Sequence<u8>) -> u64 {
    let mut number = 0u64;
    for byte in bytes.as_slice() {
        number = number.wrapping_mul(256).wrapping_add(u64::from(*byte));
    }
    number
}

fn stored(name: &'static str, device: u32, address: u64, bytes: &Sequence<u8>) -> Told {
    let count = bytes.as_slice().len() as u64;
    (
        name,
        [u64::from(device), address, count, number_of(bytes), 0],
    )
}

fn one(name: &'static str, number: u64) -> Told {
    (name, [number, 0, 0, 0, 0])
}

fn of_device(name: &'static str, device: u32, second: u64) -> Told {
    (name, [u64::from(device), second, 0, 0, 0])
}

fn read(name: &'static str, device: u32, address: u64, len: u64) -> Told {
    (name, [u64::from(device), address, len, 0, 0])
}

fn plugged(device: u32, new: NewDevice) -> Told {
    match new {
        NewDevice::Raw => of_device("raw", device, 0),
        NewDevice::Ats => of_device("ats", device, 0),
        NewDevice::Block { disk } => of_device("blk", device, disk),
        NewDevice::CachedBlock { disk } => of_device("ablk", device, disk),
    }
}

fn attached(device: u32, mode: Mode, ats: bool) -> Told {
    let name = match mode {
        Mode::First(Size::Sv39) => "first",
        Mode::Second(Size::Sv39) => "second",
        Mode::Both(Size::Sv39) => "both",
        Mode::First(Size::Sv48) => "first48",
        Mode::Second(Size::Sv48) => "second48",
        Mode::Both(Size::Sv48) => "both48",
    };
    of_device(name, device, u64::from(ats))
}

/// A call of the driver, or what else the event is.
fn reply(event: &Event) -> Told {
    match event {
        Event::Plug { device, new } => plugged(*device, *new),
        Event::Attach { device, mode, ats } => attached(*device, *mode, *ats),
        Event::Grant {
            device,
            page,
            frame,
            rights,
        } => {
            let is_writable = *rights == GrantRights::ReadWrite;
            (
                "grant",
                [u64::from(*device), *page, *frame, u64::from(is_writable), 0],
            )
        }
        Event::Release { device, page } => of_device("release", *device, *page),
        Event::Detach { device } => of_device("detach", *device, 0),
        Event::Fetch => one("fetch", 0),
        Event::Poll => one("poll", 0),
        Event::Faults => one("faults", 0),
        _ => told_of_access(event),
    }
}

/// An access, or what else the event is.
fn told_of_access(event: &Event) -> Told {
    match event {
        Event::Read {
            device,
            address,
            len,
        } => read("read", *device, *address, *len),
        Event::ReadThroughCache {
            device,
            address,
            len,
        } => read("aread", *device, *address, *len),
        Event::ReadTranslated {
            device,
            address,
            len,
        } => read("tread", *device, *address, *len),
        Event::Write {
            device,
            address,
            bytes,
        } => stored("write", *device, *address, bytes),
        Event::WriteThroughCache {
            device,
            address,
            bytes,
        } => stored("awrite", *device, *address, bytes),
        Event::WriteTranslated {
            device,
            address,
            bytes,
        } => stored("twrite", *device, *address, bytes),
        _ => told_of_message(event),
    }
}

/// What becomes of a message, or what else the event is.
fn told_of_message(event: &Event) -> Told {
    match event {
        Event::Ask { device, page } => of_device("ask", *device, page.number()),
        Event::Forge { device, serial } => of_device("forge", *device, *serial),
        Event::Deliver { place } => one("deliver", *place),
        Event::Drop { place } => one("drop", *place),
        Event::Repeat { place } => one("repeat", *place),
        Event::Commit { device } => of_device("commit", *device, 0),
        _ => told_of_others(event),
    }
}

/// What is left.
fn told_of_others(event: &Event) -> Told {
    match event {
        Event::Medium { device, disk } => of_device("medium", *device, *disk),
        Event::Queue {
            device,
            size,
            descriptors,
            available,
            used,
        } => (
            "queue",
            [u64::from(*device), *size, *descriptors, *available, *used],
        ),
        Event::Step { device } => of_device("step", *device, 0),
        Event::Status { device } => of_device("status", *device, 0),
        Event::Poke { address, bytes } => {
            let count = bytes.as_slice().len() as u64;
            ("poke", [*address, count, number_of(bytes), 0, 0])
        }
        Event::Peek { address, len } => ("peek", [*address, *len, 0, 0, 0]),
        Event::Free { frame } => one("free", *frame),
        _ => one("another", 0),
    }
}

/// An event, or that the world settles.
fn told_of_line(line: &ScriptLine) -> Told {
    match line {
        ScriptLine::Event(event) => reply(event),
        ScriptLine::Settle => one("settle", 0),
    }
}

/// Ends the test where a line isn't told so.
fn are_read(rt: &impl Abort, lines: &[ScriptLine], expected: &[Told]) {
    expect(rt, lines.len() == expected.len());
    for (line, (name, numbers)) in lines.iter().zip(expected.iter()) {
        let (told_name, told_numbers) = told_of_line(line);
        expect(rt, told_name == *name);
        expect(rt, told_numbers == *numbers);
    }
}

#[test]
fn each_line_is_read(rt: HostRuntime) {
    let script = script_of(&rt, rt.alloc(), EACH);
    are_read(&rt, script.lines.as_slice(), &TOLD_OF_EACH);
}

#[test]
fn a_script_may_settle_alone(rt: HostRuntime) {
    let script = script_of(&rt, rt.alloc(), b"world 64 1\nsettle\n");
    expect(&rt, is_world(script.world, 64, 1));
    are_read(&rt, script.lines.as_slice(), &[("settle", [0, 0, 0, 0, 0])]);
}

/// Worlds of each number of levels.
static WORLDS: [(&[u8], u64, u64); 3] = [
    (b"world 64 1\n", 64, 1),
    (b"world 65 2\n", 65, 2),
    (b"world 4096 3\n", 4096, 3),
];

#[test]
fn a_world_has_one_to_three_levels(rt: HostRuntime) {
    for (line, frames, levels) in WORLDS.iter() {
        let script = script_of(&rt, rt.alloc(), line);
        expect(&rt, is_world(script.world, *frames, *levels));
    }
}

/// Whether the world has this size.
fn is_world(world: Option<WorldSize>, frames: u64, levels: u64) -> bool {
    match world {
        None => false,
        Some(size) => size.frames == frames && size.levels == levels,
    }
}

/// Scripts that are refused at their first line, with a bar between.
static BAD_FIRST: &[u8] = b"\
    fetch\n\
    |settle\n\
    |world 63 1\n\
    |world 4097 1\n\
    |world 64 4\n\
    |world 64 0\n\
    |world 064 1\n\
    |world 64 01\n\
    |world  64 1\n\
    | world 64 1\n\
    |world 64 1 \n\
    |world\t64 1\n\
    |world 64 1\r\n\
    |world 64 1\0\n\
    |World 64 1\n\
    |world 64\n\
    |world\n\
    |world 64 1\
    |# no line feed\
    | \n";

#[test]
fn bad_first_lines_are_named(rt: HostRuntime) {
    for script in BAD_FIRST.split(|byte| *byte == b'|') {
        expect(&rt, bad_line(rt.alloc(), script) == 1);
    }
}

/// Scripts that are refused at their second line.
static BAD_SECOND: &[u8] = b"\
    world 64 1\nfetch 1\n\
    |world 64 1\nfetch\
    |world 64 1\nworld 64 1\n\
    |world 64 1\nfetch\r\n\
    |world 64 1\nfetch \n\
    |world 64 1\n fetch\n\
    |world 64 1\nFetch\n\
    |world 64 1\nfetc\n\
    |world 64 1\npoll 1\n\
    |world 64 1\ndevice 000001 Ats\n\
    |world 64 1\ndevice 000001 atss\n\
    |world 64 1\ndevice 000001 blk\n\
    |world 64 1\ndevice 000001 blk \n\
    |world 64 1\ndevice 000001 blk 00\n\
    |world 64 1\ndevice 000001 blk 18446744073709551616\n\
    |world 64 1\ndevice 000001 blk 0 1\n\
    |world 64 1\ndevice 000001 ablk\n\
    |world 64 1\ndevice 000001 ablk 0x0\n\
    |world 64 1\ndevice 000001 raw 0\n\
    |world 64 1\nmedium 000001\n\
    |world 64 1\nmedium 000001 01\n\
    |world 64 1\nqueue 000001 8 0x0 0x80\n\
    |world 64 1\nqueue 000001 8 0x0 0x80 0x\n\
    |world 64 1\nqueue 000001 8 0x0 0x80 0xC0\n\
    |world 64 1\nqueue 000001 8 0x0 0x80 0x000000000000000c0\n\
    |world 64 1\nqueue 000001 8 0x0 0x80 0xc0 \n\
    |world 64 1\nqueue 000001 0x8 0x0 0x80 0xc0\n\
    |world 64 1\nqueue 000001 8 0 128 192\n\
    |world 64 1\nstep\n\
    |world 64 1\nstep 000001 1\n\
    |world 64 1\nstatus 1\n\
    |world 64 1\ndevice 00001 raw\n\
    |world 64 1\ndevice 0000001 raw\n\
    |world 64 1\ndevice 00000A raw\n\
    |world 64 1\ndevice 00000g raw\n\
    |world 64 1\ndevice 000001 raw raw\n\
    |world 64 1\nsettle 1\n\
    |world 64 1\nsettled\n\
    |world 64 1\n settle\n\
    |world 64 1\nsettle \n\
    |world 64 1\nsettle\
    |world 64 1\nsettle\r\n\
    |world 64 1\nSettle\n\
    |world 64 1\nsettl\n\
    |world 64 1\npolls\n\
    |world 64 1\nfault\n\
    |world 64 1\nfaults \n\
    |world 64 1\nfaults 1\n\
    |world 64 1\nattach 000001\n\
    |world 64 1\nattach 000001 \n\
    |world 64 1\nattach 000001 third\n\
    |world 64 1\nattach 000001 firs\n\
    |world 64 1\nattach 000001 seconds\n\
    |world 64 1\nattach 000001 Both\n\
    |world 64 1\nattach 000001 first4\n\
    |world 64 1\nattach 000001 first39\n\
    |world 64 1\nattach 000001 both 48\n\
    |world 64 1\nattach 000001 48\n\
    |world 64 1\nattach 000001 both480\n\
    |world 64 1\nattach 000001 both48ats\n\
    |world 64 1\nattach 000001 ats\n\
    |world 64 1\nattach 000001 both at\n\
    |world 64 1\nattach 000001 both  ats\n\
    |world 64 1\nattach 000001 both ats \n\
    |world 64 1\nattach 000001 ats both\n\
    |world 64 1\nattach 000001 both first\n\
    |world 64 1\ndetach\n\
    |world 64 1\ndetach 1\n\
    |world 64 1\ndetach 000001 \n\
    |world 64 1\ndetach 000001 first\n\
    |world 64 1\ngrant 000001 03 5 rw\n\
    |world 64 1\ngrant 000001 3 5 w\n\
    |world 64 1\ngrant 000001 3 5 rwx\n\
    |world 64 1\ngrant 000001 18446744073709551616 5 rw\n\
    |world 64 1\ngrant 000001 99999999999999999999999 5 rw\n\
    |world 64 1\ngrant 000001 +3 5 rw\n\
    |world 64 1\nrelease 000001 \n\
    |world 64 1\nrelease 000001\n\
    |world 64 1\nread 000001 3ffc 4\n\
    |world 64 1\nread 000001 0x 4\n\
    |world 64 1\nread 000001 0x00000000000000001 4\n\
    |world 64 1\nwrite 000001 0x0 \n\
    |world 64 1\nwrite 000001 0x0 000\n\
    |world 64 1\nwrite 000001 0x0 0G\n\
    |world 64 1\ncommit \xc3\xa9\n\
    |world 64 1\npoke 0x0 \n\
    |world 64 1\npoke 0x0 000\n\
    |world 64 1\npoke 5000 00\n\
    |world 64 1\npoke 000001 0x0 00\n\
    |world 64 1\npeek 0x0\n\
    |world 64 1\npeek 0x0 04\n\
    |world 64 1\npeek 0x0 1 1\n\
    |world 64 1\nfree\n\
    |world 64 1\nfree \n\
    |world 64 1\nfree 05\n\
    |world 64 1\nfree 0x5\n\
    |world 64 1\naread 000001 3000 4\n\
    |world 64 1\naread 000001 0x3000\n\
    |world 64 1\nawrite 000001 0x3000 0\n\
    |world 64 1\ntread 000001 0x3000 04\n\
    |world 64 1\ntwrite 000001 0x3000 \n\
    |world 64 1\nask 000001\n\
    |world 64 1\nask 000001 0x3\n\
    |world 64 1\nask 000001 4503599627370496\n\
    |world 64 1\nask 000001 18446744073709551615\n\
    |world 64 1\nask 000001 3 3\n\
    |world 64 1\nforge 000001\n\
    |world 64 1\nforge 000001 18446744073709551616\n\
    |world 64 1\ndeliver\n\
    |world 64 1\ndeliver 00\n\
    |world 64 1\ndeliver -1\n\
    |world 64 1\ndrop \n\
    |world 64 1\ndrop 1 2\n\
    |world 64 1\nrepeat 0x1\n\
    |world 64 1\nrepeats 1\n";

#[test]
fn bad_second_lines_are_named(rt: HostRuntime) {
    for script in BAD_SECOND.split(|byte| *byte == b'|') {
        expect(&rt, bad_line(rt.alloc(), script) == 2);
    }
}

/// The bytes and so many of a piece behind them, with this many line feeds, are refused at this line, or are a script.
fn is_judged(
    rt: &impl Abort,
    alloc: Global,
    front: &[u8],
    piece: &[u8],
    count: usize,
    feeds: usize,
    line: u64,
) -> Result<(), Fail> {
    let mut bytes = many(alloc, front, piece, count)?;
    for _ in 0..feeds {
        bytes.push(b'\n')?;
    }
    expect(rt, bad_line(alloc, &bytes) == line);
    Ok(())
}

const WRITE: &[u8] = b"world 64 1\nwrite 000001 0x0 ";

// A write has up to 4,096 bytes.
#[test]
fn long_writes_are_judged(rt: HostRuntime) -> Result<(), Fail> {
    is_judged(&rt, rt.alloc(), WRITE, b"5a", 4096, 1, 0)?;
    is_judged(&rt, rt.alloc(), WRITE, b"5a", 4097, 1, 2)
}

// A script has up to a MiB.
#[test]
fn long_scripts_are_judged(rt: HostRuntime) -> Result<(), Fail> {
    is_judged(&rt, rt.alloc(), b"#", b"a", 1048574, 1, 0)?;
    is_judged(&rt, rt.alloc(), b"#", b"a", 1048574, 2, 2)?;
    is_judged(&rt, rt.alloc(), b"#", b"a", 1048575, 1, 1)
}

#[test]
fn a_refused_allocation_is_told(rt: HostRuntime) {
    match parse(rt.alloc(), b"world 64 1\nwrite 000001 0x0 00\nfetch\n") {
        Ok(script) => expect(&rt, script.lines.as_slice().len() == 2),
        Err(ScriptFault::Memory) => {}
        Err(ScriptFault::Line(_)) => expect(&rt, false),
    }
}

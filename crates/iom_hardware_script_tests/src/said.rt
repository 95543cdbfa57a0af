use crate::expect::{expect, is_hardware, script_of};
use iom_base::{GrantRights, NewDevice, Sequence};
use iom_hardware_script::{Claim, HardwareLine, Help, Pace};
use iom_machine::Event;

/// A script of each kind of line, at the boundaries of what is written.
const EACH: &[u8] = b"\
    # the first line that says something\n\
    hardware 4096\n\
    \n\
    device 000001 raw\n\
    device 00000a ats\n\
    device 00000b blk 3\n\
    reset 00000a\n\
    read 000001 0x3ffc 4\n\
    write 00000a 0x3ffffff000 00f1\n\
    tread 000001 0x5000 5\n\
    # a comment\n\
    twrite 000001 0x5001 f1\n\
    aread 00000a 0x3ffc 4\n\
    awrite 00000a 0x3ffe 00f1\n\
    ask 00000a 4503599627370495\n\
    forge 000001 18446744073709551615\n\
    commit 000001\n\
    fetch\n\
    timeout\n\
    deliver 0\n\
    drop 1\n\
    repeat 2\n\
    poke 0x3f010 0100000000000000\n\
    peek 0x3c000 8\n\
    mmio-read 72 4\n\
    mmio-read 18446744073709551615 0\n\
    mmio-write 24 8 0xfc07\n\
    mmio-write 0 18446744073709551615 0xffffffffffffffff\n\
    claim grant 000001 3 7 rw\n\
    claim grant ffffff 18446744073709551615 0 r\n\
    claim ready 000001 3\n\
    claim release 000001 3\n\
    claim done 18446744073709551615\n\
    claim handoff 7\n\
    claim take 63\n\
    claim trust 000002\n\
    auto 18446744073709551615\n\
    auto 0\n\
    traffic 00000a 18446744073709551615 4\n\
    quiesce\n\
    medium 00000b 3\n\
    queue 00000b 256 0x1000 0x2002 0x3004\n\
    step 00000b\n\
    status 00000b\n\
    load 00000a\n\
    load ffffff\n";

/// What a line says: the number of the line, its name and its numbers. Bytes are a number too, the first of them the
/// highest digits, after their count.
type Told = (u64, &'static str, [u64; 4]);

/// What those lines say, behind that of the hardware.
static TOLD_OF_EACH: [Told; 42] = [
    (4, "raw", [1, 0, 0, 0]),
    (5, "ats", [10, 0, 0, 0]),
    (6, "blk", [11, 3, 0, 0]),
    (7, "reset", [10, 0, 0, 0]),
    (8, "read", [1, 0x3ffc, 4, 0]),
    (9, "write", [10, 0x3ffffff000, 2, 0xf1]),
    (10, "tread", [1, 0x5000, 5, 0]),
    (12, "twrite", [1, 0x5001, 1, 0xf1]),
    (13, "aread", [10, 0x3ffc, 4, 0]),
    (14, "awrite", [10, 0x3ffe, 2, 0xf1]),
    (15, "ask", [10, 4503599627370495, 0, 0]),
    (16, "forge", [1, u64::MAX, 0, 0]),
    (17, "commit", [1, 0, 0, 0]),
    (18, "fetch", [0, 0, 0, 0]),
    (19, "timeout", [0, 0, 0, 0]),
    (20, "deliver", [0, 0, 0, 0]),
    (21, "drop", [1, 0, 0, 0]),
    (22, "repeat", [2, 0, 0, 0]),
    (23, "poke", [0x3f010, 8, 0x0100000000000000, 0]),
    (24, "peek", [0x3c000, 8, 0, 0]),
    (25, "mmio-read", [72, 4, 0, 0]),
    (26, "mmio-read", [u64::MAX, 0, 0, 0]),
    (27, "mmio-write", [24, 8, 0xfc07, 0]),
    (28, "mmio-write", [0, u64::MAX, u64::MAX, 0]),
    (29, "claim grant rw", [1, 3, 7, 0]),
    (30, "claim grant r", [0xffffff, u64::MAX, 0, 0]),
    (31, "claim ready", [1, 3, 0, 0]),
    (32, "claim release", [1, 3, 0, 0]),
    (33, "claim done", [u64::MAX, 0, 0, 0]),
    (34, "claim handoff", [7, 0, 0, 0]),
    (35, "claim take", [63, 0, 0, 0]),
    (36, "claim trust", [2, 0, 0, 0]),
    (37, "auto", [u64::MAX, 0, 0, 0]),
    (38, "auto", [0, 0, 0, 0]),
    (39, "traffic", [10, u64::MAX, 4, 0]),
    (40, "quiesce", [0, 0, 0, 0]),
    (41, "medium", [11, 3, 0, 0]),
    (42, "queue", [11, 256, 0x1000, 0x20023004]),
    (43, "step", [11, 0, 0, 0]),
    (44, "status", [11, 0, 0, 0]),
    (45, "load", [10, 0, 0, 0]),
    (46, "load", [0xffffff, 0, 0, 0]),
];

/// A name and numbers.
type Named = (&'static str, [u64; 4]);

fn number_of(bytes: &Sequence<u8>) -> u64 {
    let mut number = 0u64;
    for byte in bytes.as_slice() {
        number = number.wrapping_mul(256).wrapping_add(u64::from(*byte));
    }
    number
}

fn stored(name: &'static str, device: u32, address: u64, bytes: &Sequence<u8>) -> Named {
    let count = bytes.as_slice().len() as u64;
    (name, [u64::from(device), address, count, number_of(bytes)])
}

fn loaded(name: &'static str, device: u32, address: u64, len: u64) -> Named {
    (name, [u64::from(device), address, len, 0])
}

fn of_device(name: &'static str, device: u32, second: u64) -> Named {
    (name, [u64::from(device), second, 0, 0])
}

fn one(name: &'static str, number: u64) -> Named {
    (name, [number, 0, 0, 0])
}

fn plugged(device: u32, new: NewDevice) -> Named {
    match new {
        NewDevice::Raw => of_device("raw", device, 0),
        NewDevice::Ats => of_device("ats", device, 0),
        NewDevice::Block { disk } => of_device("blk", device, disk),
        NewDevice::CachedBlock { disk } => of_device("ablk", device, disk),
    }
}

/// What devices ask for.
fn told_of_request(event: &Event) -> Option<Named> {
    Some(match event {
        Event::Read {
            device,
            address,
            len,
        } => loaded("read", *device, *address, *len),
        Event::Write {
            device,
            address,
            bytes,
        } => stored("write", *device, *address, bytes),
        Event::ReadTranslated {
            device,
            address,
            len,
        } => loaded("tread", *device, *address, *len),
        Event::WriteTranslated {
            device,
            address,
            bytes,
        } => stored("twrite", *device, *address, bytes),
        Event::ReadThroughCache {
            device,
            address,
            len,
        } => loaded("aread", *device, *address, *len),
        Event::WriteThroughCache {
            device,
            address,
            bytes,
        } => stored("awrite", *device, *address, bytes),
        _ => return None,
    })
}

fn told_of_event(event: &Event) -> Named {
    if let Some(reply) = told_of_request(event) {
        return reply;
    }
    match event {
        Event::Plug { device, new } => plugged(*device, *new),
        Event::Reset { device } => of_device("reset", *device, 0),
        Event::Ask { device, page } => of_device("ask", *device, page.number()),
        Event::Forge { device, serial } => of_device("forge", *device, *serial),
        Event::Commit { device } => of_device("commit", *device, 0),
        Event::Fetch => one("fetch", 0),
        Event::Timeout => one("timeout", 0),
        Event::Deliver { place } => one("deliver", *place),
        Event::Drop { place } => one("drop", *place),
        Event::Repeat { place } => one("repeat", *place),
        Event::Poke { address, bytes } => {
            let count = bytes.as_slice().len() as u64;
            ("poke", [*address, count, number_of(bytes), 0])
        }
        Event::Peek { address, len } => ("peek", [*address, *len, 0, 0]),
        Event::Medium { device, disk } => of_device("medium", *device, *disk),
        Event::Queue {
            device,
            size,
            descriptors,
            available,
            used,
        } => {
            let rings = available.wrapping_mul(65536).wrapping_add(*used);
            ("queue", [u64::from(*device), *size, *descriptors, rings])
        }
        Event::Step { device } => of_device("step", *device, 0),
        Event::Status { device } => of_device("status", *device, 0),
        _ => one("another", 0),
    }
}

fn told_of_claim(claim: &Claim) -> Named {
    match *claim {
        Claim::Grant {
            device,
            page,
            frame,
            rights,
        } => {
            let name = match rights {
                GrantRights::ReadOnly => "claim grant r",
                GrantRights::ReadWrite => "claim grant rw",
            };
            (name, [u64::from(device), page, frame, 0])
        }
        Claim::Ready { device, page } => of_device("claim ready", device, page),
        Claim::Release { device, page } => of_device("claim release", device, page),
        Claim::Done { number } => one("claim done", number),
        Claim::HandOff { frame } => one("claim handoff", frame),
        Claim::Take { frame } => one("claim take", frame),
        Claim::Trust { device } => of_device("claim trust", device, 0),
    }
}

fn told_of_help(help: Help) -> Named {
    match help {
        Help::Auto { seed } => one("auto", seed),
        Help::Traffic {
            device,
            first,
            last,
        } => ("traffic", [u64::from(device), first, last, 0]),
        Help::Quiesce => ("quiesce", [0, 0, 0, 0]),
    }
}

fn told_of(line: &HardwareLine) -> Named {
    match line {
        HardwareLine::Event(event) => told_of_event(event),
        HardwareLine::RegisterRead { offset, width } => ("mmio-read", [*offset, *width, 0, 0]),
        HardwareLine::RegisterWrite {
            offset,
            width,
            value,
        } => ("mmio-write", [*offset, *width, *value, 0]),
        HardwareLine::Claim(claim) => told_of_claim(claim),
        HardwareLine::Help(help) => told_of_help(*help),
        HardwareLine::Load { device } => of_device("load", *device, 0),
    }
}

#[test]
fn each_kind_of_line_says_its_own(rt: HostRuntime) {
    let script = script_of(&rt, rt.alloc(), EACH);
    expect(&rt, is_hardware(script.setup, 4096, Pace::Whole));
    let lines = script.lines.as_slice();
    expect(&rt, lines.len() == TOLD_OF_EACH.len());
    for (said, reply) in lines.iter().zip(TOLD_OF_EACH.iter()) {
        let (name, numbers) = told_of(&said.line);
        expect(&rt, said.number == reply.0);
        expect(&rt, name == reply.1);
        expect(&rt, numbers == reply.2);
    }
}

// The pace stands on the first line alone, and the lines behind it are the same.
#[test]
fn a_script_may_be_stepped(rt: HostRuntime) {
    let bytes = b"# one load at a time\nhardware 64 stepped\nread 000001 0x3000 4\nload 000001\n";
    let script = script_of(&rt, rt.alloc(), bytes);
    expect(&rt, is_hardware(script.setup, 64, Pace::Stepped));
    let lines = script.lines.as_slice();
    expect(&rt, lines.len() == 2);
    for (said, name) in lines.iter().zip(["read", "load"].iter()) {
        expect(&rt, told_of(&said.line).0 == *name);
    }
}

// The same, where pointers to tables are cached, and leaves of 64 KiB known: a `load` is in the grammar there too.
#[test]
fn a_script_may_cache_pointers(rt: HostRuntime) {
    let bytes =
        b"# pointers are cached\nhardware 64 nonleaf napot\nread 000001 0x3000 4\nload 000001\n";
    let script = script_of(&rt, rt.alloc(), bytes);
    expect(&rt, is_hardware(script.setup, 64, Pace::PointedNapot));
    let lines = script.lines.as_slice();
    expect(&rt, lines.len() == 2);
    for (said, name) in lines.iter().zip(["read", "load"].iter()) {
        expect(&rt, told_of(&said.line).0 == *name);
    }
}

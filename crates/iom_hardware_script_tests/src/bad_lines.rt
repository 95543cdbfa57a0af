use crate::expect::{bad_line, expect, is_hardware, script_of};
use iom_hardware_script::{Pace, parse, setup_of};
use iom_script::ScriptFault;

// A script that says nothing has no hardware and no lines.
#[test]
fn an_empty_script_says_nothing(rt: HostRuntime) {
    let script = script_of(&rt, rt.alloc(), b"\n# hardware 64\n");
    expect(&rt, script.setup.is_none());
    expect(&rt, script.lines.as_slice().is_empty());
}

/// First lines that say no hardware, each behind a comment.
const BAD_FIRST: &[u8] = b"\
    #\nhardware\n\
    |#\nhardware \n\
    |#\nhardware 63\n\
    |#\nhardware 4097\n\
    |#\nhardware 4294967360\n\
    |#\nhardware 064\n\
    |#\nhardware 0x40\n\
    |#\nhardware 64 \n\
    |#\nhardware 64 Stepped\n\
    |#\nhardware 64 stepped \n\
    |#\nhardware 64  stepped\n\
    |#\nhardware 64 stepped 1\n\
    |#\nhardware 64 step\n\
    |#\nhardware 64 whole\n\
    |#\nhardware 63 stepped\n\
    |#\nhardware 4097 stepped\n\
    |#\nhardware 064 stepped\n\
    |#\nhardware stepped\n\
    |#\nhardware stepped 64\n\
    |#\nhardware 64 stepped\
    |#\nhardware 64 nonleaf\
    |#\nhardware 64 nonleafy\n\
    |#\nhardware 64 Nonleaf\n\
    |#\nhardware 64 nonleaf \n\
    |#\nhardware 64  nonleaf\n\
    |#\nhardware 64 stepped nonleaf\n\
    |#\nhardware 64 nonleaf stepped\n\
    |#\nhardware 63 nonleaf\n\
    |#\nhardware 4097 nonleaf\n\
    |#\nhardware nonleaf\n\
    |#\nhardware 64 napot\
    |#\nhardware 64 Napot\n\
    |#\nhardware 64 napots\n\
    |#\nhardware 64 napot \n\
    |#\nhardware 64 napot nonleaf\n\
    |#\nhardware 64 napot napot\n\
    |#\nhardware 64 nonleaf  napot\n\
    |#\nhardware 64 nonleafnapot\n\
    |#\nhardware 64 stepped napot\n\
    |#\nhardware 63 napot\n\
    |#\nhardware 4097 nonleaf napot\n\
    |#\nhardware 64 1\n\
    |#\nhardware 64\
    |#\nHardware 64\n\
    |#\nworld 64 1\n\
    |#\nfetch\n";

#[test]
fn bad_first_lines_are_named(rt: HostRuntime) {
    for script in BAD_FIRST.split(|byte| *byte == b'|') {
        expect(&rt, bad_line(rt.alloc(), script) == 2);
    }
}

// The smallest and the largest memory, at each pace.
#[test]
fn first_lines_say_hardware(rt: HostRuntime) {
    let smallest = setup_of(b"hardware 64");
    expect(&rt, is_hardware(smallest, 64, Pace::Whole));
    let largest = setup_of(b"hardware 4096");
    expect(&rt, is_hardware(largest, 4096, Pace::Whole));
    let smallest = setup_of(b"hardware 64 stepped");
    expect(&rt, is_hardware(smallest, 64, Pace::Stepped));
    let largest = setup_of(b"hardware 4096 stepped");
    expect(&rt, is_hardware(largest, 4096, Pace::Stepped));
    let smallest = setup_of(b"hardware 64 nonleaf");
    expect(&rt, is_hardware(smallest, 64, Pace::Pointed));
    let largest = setup_of(b"hardware 4096 nonleaf");
    expect(&rt, is_hardware(largest, 4096, Pace::Pointed));
    let smallest = setup_of(b"hardware 64 napot");
    expect(&rt, is_hardware(smallest, 64, Pace::Napot));
    let largest = setup_of(b"hardware 4096 nonleaf napot");
    expect(&rt, is_hardware(largest, 4096, Pace::PointedNapot));
    expect(&rt, setup_of(b"hardware 4097").is_none());
    expect(&rt, setup_of(b"hardware 4097 stepped").is_none());
    expect(&rt, setup_of(b"hardware 4097 nonleaf").is_none());
}

/// Second lines that aren't in the grammar: those of our driver and of settling, and lines of each
/// kind that lack a word, have one too many, or have another where a number, a device or a right is to be.
const BAD_SECOND: &[u8] = b"\
    hardware 64\n\
    |attach 000001 first\
    |detach 000001\
    |grant 000001 3 5 rw\
    |release 000001 3\
    |quarantine 000001\
    |revive 000001\
    |restart\
    |poll\
    |faults\
    |free 5\
    |settle\
    |medium 000001\
    |medium 000001 0x0\
    |queue 000001 8 0x3000 0x3080\
    |queue 000001 0x8 0x3000 0x3080 0x30c0\
    |queue 000001 8 0x3000 0x3080 0x30c0 \
    |step\
    |step 000001 1\
    |status 1\
    |load\
    |load \
    |load 1\
    |load 0x1\
    |load 000001 \
    |load 000001 1\
    |load  000001\
    |loads 000001\
    |Load 000001\
    |auto\
    |auto \
    |auto 0x1\
    |auto 01\
    |auto 18446744073709551616\
    |auto 1 2\
    |traffic 000001 0\
    |traffic 000001 0 1 2\
    |traffic 1 0 1\
    |traffic 000001 0x0 1\
    |traffic 000001 0 -1\
    |traffic 000001  0 1\
    |quiesce \
    |quiesce 1\
    |Quiesce\
    |hardware 64\
    |world 64 1\
    |device 1 raw\
    |device 000001 disk\
    |reset\
    |read 000001 0x3ffc\
    |write 000001 0x3ffc 0\
    |tread 000001 3ffc 4\
    |twrite 000001 0x3ffc\
    |aread 000001 0x3ffc 04\
    |awrite 000001 0x 00\
    |ask 000001 0x3\
    |forge 000001\
    |commit\
    |fetch 1\
    |timeout \
    |deliver\
    |drop -1\
    |repeat 0x1\
    |poke 5000 00\
    |peek 0x5000\
    |mmio-read\
    |mmio-read 72\
    |mmio-read 72 \
    |mmio-read 72 4 \
    |mmio-read 72 4 0x0\
    |mmio-read 0x48 4\
    |mmio-read 072 4\
    |mmio-read 18446744073709551616 4\
    |mmio-reads 72 4\
    |mmio_read 72 4\
    |mmio-write\
    |mmio-write 72 4\
    |mmio-write 72 4 \
    |mmio-write 72 4 1\
    |mmio-write 72 4 0x\
    |mmio-write 72 4 0xF\
    |mmio-write 72 4 0x00000000000000001\
    |mmio-write 72 0x4 0x1\
    |mmio-write 72 4 0x1 1\
    |claim\
    |claim \
    |claim grant\
    |claim grant 000001 3 7\
    |claim grant 000001 3 7 w\
    |claim grant 000001 3 7 rw \
    |claim grant 000001 03 7 rw\
    |claim grant 1 3 7 rw\
    |claim ready 000001\
    |claim ready 000001 0x3\
    |claim ready 000001 3 7\
    |claim release 000001\
    |claim release 3 000001\
    |claim done\
    |claim done 01\
    |claim done 1 2\
    |claim handoff\
    |claim handoff 0x7\
    |claim take 7 8\
    |claim take -7\
    |claim trust\
    |claim trust 1\
    |claim trust 000001 3\
    |claim  trust 000001\
    |claims trust 000001\
    |claim free 7";

#[test]
fn bad_second_lines_are_named(rt: HostRuntime) {
    let mut lines = BAD_SECOND.split(|byte| *byte == b'|');
    let Some(first) = lines.next() else {
        return;
    };
    for line in lines {
        if let Ok(mut script) = Vec::from_slice(rt.alloc(), first) {
            let whole = script.extend_from_slice(line).is_ok() && script.push(b'\n').is_ok();
            expect(&rt, whole && bad_line(rt.alloc(), &script) == 2);
        }
    }
}

// A line that no line feed ends is bad, though it would say something.
#[test]
fn the_last_line_ends_too(rt: HostRuntime) {
    expect(&rt, bad_line(rt.alloc(), b"hardware 64\n\nfetch") == 3);
    expect(&rt, bad_line(rt.alloc(), b"hardware 64\n\nfetch\n") == 0);
}

#[test]
fn a_refused_allocation_is_told(rt: HostRuntime) {
    match parse(rt.alloc(), b"hardware 64\npoke 0x0 00\nfetch\n") {
        Ok(script) => expect(&rt, script.lines.as_slice().len() == 2),
        Err(ScriptFault::Memory) => {}
        Err(ScriptFault::Line(_)) => expect(&rt, false),
    }
}

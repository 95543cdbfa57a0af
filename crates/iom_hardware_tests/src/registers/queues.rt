use crate::expect::expect;
use crate::registers::steps::{Step, follow, writes};
use iom_registers::{Registers, index_after};
use std::process::Abort;

/// What is written to cqb and to fqb, how many entries the queue has then, and where it begins.
static SIZES: [(u64, u64, u64); 5] = [
    (0xfc00, 2, 0x3f000),
    (0xfc07, 256, 0x3f000),
    (0xf806, 128, 0x3e000),
    (0xfc0f, 65_536, 0x3f000),
    (u64::MAX, 0x1_0000_0000, 0x00ff_ffff_ffff_f000),
];

fn are_sized(rt: &impl Abort, registers: &Registers, entries: u64, address: u64) {
    expect(rt, registers.command_entries() == entries);
    expect(rt, registers.fault_entries() == entries);
    expect(rt, registers.command_base() == address);
    expect(rt, registers.fault_base() == address);
}

#[test]
fn sizes_and_addresses(rt: HostRuntime) {
    let mut registers = Registers::new();
    for (value, entries, address) in SIZES.iter() {
        writes(&rt, &mut registers, 24, *value);
        writes(&rt, &mut registers, 40, *value);
        are_sized(&rt, &registers, *entries, *address);
    }
}

#[test]
fn an_index_goes_round(rt: HostRuntime) {
    expect(&rt, index_after(65_535, 65_536) == 0);
    expect(&rt, index_after(65_534, 65_536) == 65_535);
}

// Indices in queues of 2, of 65,536 and of 2^32 entries, and in one that was made smaller: of 300 a queue of
// 256 entries sees 44.
static INDICES: [(Step, u64, u64); 20] = [
    (Step::Write(24, 0xfc00), 24, 0xfc00),
    (Step::Write(36, 1), 36, 1),
    (Step::Write(36, 2), 36, 0),
    (Step::Write(36, 0xffff_ffff), 36, 1),
    (Step::CommandDone, 32, 1),
    (Step::CommandDone, 32, 0),
    (Step::Write(24, 0xfc0f), 24, 0xfc0f),
    (Step::Write(36, 65_535), 36, 65_535),
    (Step::Write(36, 65_536), 36, 0),
    (Step::Write(36, 70_000), 36, 4_464),
    (Step::Write(36, 300), 36, 300),
    (Step::Write(24, 0xfc07), 36, 44),
    (Step::Write(24, 0xfc1f), 24, 0xfc1f),
    (Step::Write(36, 0xffff_ffff), 36, 0xffff_ffff),
    (Step::Write(36, 0x1_0000_0001), 36, 1),
    (Step::Write(40, 0xf80f), 40, 0xf80f),
    (Step::Write(48, 65_537), 48, 1),
    (Step::RecordWritten, 52, 1),
    (Step::RecordWritten, 52, 2),
    (Step::Write(40, 0xf800), 52, 0),
];

// A base stays while its queue is on, and the other queue's doesn't. The index that the IOMMU moves is 0
// after the queue was turned on, and stays where the queue is on already, or is turned off.
static SWITCHES: [(Step, u64, u64); 18] = [
    (Step::Write(24, 0xfc07), 24, 0xfc07),
    (Step::Write(40, 0xf806), 40, 0xf806),
    (Step::CommandDone, 32, 1),
    (Step::RecordWritten, 52, 1),
    (Step::Write(72, 1), 32, 0),
    (Step::Write(24, 0xfc0f), 24, 0xfc07),
    (Step::Write(40, 0xf80f), 40, 0xf80f),
    (Step::CommandDone, 32, 1),
    (Step::Write(72, 3), 32, 1),
    (Step::Write(72, 0), 32, 1),
    (Step::Write(24, 0xfc0f), 24, 0xfc0f),
    (Step::Look, 52, 1),
    (Step::Write(76, 1), 52, 0),
    (Step::Write(40, 0xf806), 40, 0xf80f),
    (Step::RecordWritten, 52, 1),
    (Step::Write(76, 3), 52, 1),
    (Step::Write(76, 0), 52, 1),
    (Step::Write(40, 0xf806), 40, 0xf806),
];

#[test]
fn indices_go_round_and_queues_are_switched(rt: HostRuntime) {
    follow(&rt, &INDICES);
    follow(&rt, &SWITCHES);
}

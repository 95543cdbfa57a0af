use crate::expect::expect;
use crate::registers::steps::{Step, follow, reads, writes};
use iom_registers::{DirectoryMode, Mmio, RegFault, Register, Registers};
use std::process::Abort;

// What a read of so many bytes at an offset answers at power-on.
fn answer(offset: u64, width: u32) -> Result<u64, RegFault> {
    let (own, value) = match offset {
        0 => (8, 0x0000_0020_1206_0610),
        8 => (4, 2),
        16 | 24 | 40 => (8, 0),
        32 | 36 | 48 | 52 | 72 | 76 | 84 => (4, 0),
        _ => return Err(RegFault::BadOffset),
    };
    if own == width {
        Ok(value)
    } else {
        Err(RegFault::BadWidth)
    }
}

// The access is answered by the table, and a refused write changes nothing.
fn is_answered(rt: &impl Abort, registers: &mut Registers, offset: u64, width: u32) {
    let answer = answer(offset, width);
    expect(rt, registers.read(offset, width) == answer);
    if answer.is_err() {
        let written = registers.write(offset, width, u64::MAX);
        expect(rt, written.err() == answer.err());
        expect(rt, *registers == Registers::new());
    }
}

#[test]
fn a_write_makes_registers_differ(rt: HostRuntime) {
    let mut registers = Registers::new();
    expect(&rt, registers.is_same(&Registers::new()));
    registers.set(Register::Ddtp, 1);
    expect(&rt, !registers.is_same(&Registers::new()));
}

#[test]
fn each_width_at_each_offset(rt: HostRuntime) {
    let mut registers = Registers::new();
    for offset in 0..96 {
        for width in [1, 2, 4, 8] {
            is_answered(&rt, &mut registers, offset, width);
        }
    }
}

// A mode of 15 doesn't exist, and queues of two entries have one bit of an index.
static ONES_AND_ZEROS: [(Step, u64, u64); 24] = [
    (Step::Write(0, u64::MAX), 0, 0x0000_0020_1206_0610),
    (Step::Write(0, 0), 0, 0x0000_0020_1206_0610),
    (Step::Write(8, u64::MAX), 8, 2),
    (Step::Write(8, 0), 8, 2),
    (Step::Write(16, u64::MAX), 16, 0),
    (Step::Write(16, 0), 16, 0),
    (Step::Write(32, u64::MAX), 32, 0),
    (Step::Write(32, 0), 32, 0),
    (Step::Write(36, u64::MAX), 36, 1),
    (Step::Write(36, 0), 36, 0),
    (Step::Write(48, u64::MAX), 48, 1),
    (Step::Write(48, 0), 48, 0),
    (Step::Write(52, u64::MAX), 52, 0),
    (Step::Write(52, 0), 52, 0),
    (Step::Write(24, u64::MAX), 24, 0x003f_ffff_ffff_fc1f),
    (Step::Write(24, 0), 24, 0),
    (Step::Write(40, u64::MAX), 40, 0x003f_ffff_ffff_fc1f),
    (Step::Write(40, 0), 40, 0),
    (Step::Write(72, u64::MAX), 72, 0x0001_0003),
    (Step::Write(72, 0), 72, 0),
    (Step::Write(76, u64::MAX), 76, 0x0001_0003),
    (Step::Write(76, 0), 76, 0),
    (Step::Write(84, u64::MAX), 84, 0),
    (Step::Write(84, 0), 84, 0),
];

#[test]
fn all_ones_and_all_zeros(rt: HostRuntime) {
    follow(&rt, &ONES_AND_ZEROS);
}

/// What is written to ddtp, what it reads then, and the mode.
static MODES: [(u64, u64, DirectoryMode); 9] = [
    (0xf001, 0xf001, DirectoryMode::Bare),
    (0xf002, 0xf002, DirectoryMode::OneLevel),
    (0xf003, 0xf003, DirectoryMode::TwoLevels),
    (0xf004, 0xf004, DirectoryMode::ThreeLevels),
    (0x1_0005, 0xf004, DirectoryMode::ThreeLevels),
    (0x1_0006, 0xf004, DirectoryMode::ThreeLevels),
    (0x1_0008, 0xf004, DirectoryMode::ThreeLevels),
    (0x1_000f, 0xf004, DirectoryMode::ThreeLevels),
    (0xffc0_0000_0000_f3f0, 0xf000, DirectoryMode::Off),
];

fn has_mode(rt: &impl Abort, registers: &Registers, mode: DirectoryMode) {
    expect(rt, registers.directory_mode() == mode);
    expect(rt, registers.directory_root() == 60);
}

#[test]
fn modes_of_the_directory(rt: HostRuntime) {
    let mut registers = Registers::new();
    for (value, read, mode) in MODES.iter() {
        writes(&rt, &mut registers, 16, *value);
        reads(&rt, &registers, 16, *read);
        has_mode(&rt, &registers, *mode);
    }
}

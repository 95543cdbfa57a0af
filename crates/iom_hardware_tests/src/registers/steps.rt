use crate::expect::expect;
use iom_registers::{Mmio, RegFault, Registers};
use std::process::Abort;

/// What is done to a register file.
#[derive(Clone, Copy)]
pub(crate) enum Step {
    /// A write of a value to the register at an offset, with its width.
    Write(u64, u64),
    /// Nothing: the read that follows is all.
    Look,
    Cqmf,
    CmdTo,
    CmdIll,
    FenceWIp,
    CommandDone,
    Fqmf,
    Fqof,
    RecordWritten,
}

/// The width of the register at an offset.
pub(crate) fn width_at(offset: u64) -> u32 {
    match offset {
        0 | 16 | 24 | 40 => 8,
        _ => 4,
    }
}

pub(crate) fn take(registers: &mut Registers, step: Step) {
    match step {
        Step::Write(offset, value) => {
            let _ = registers.write(offset, width_at(offset), value);
        }
        Step::Look => {}
        Step::Cqmf => registers.set_cqmf(),
        Step::CmdTo => registers.set_cmd_to(),
        Step::CmdIll => registers.set_cmd_ill(),
        Step::FenceWIp => registers.set_fence_w_ip(),
        Step::CommandDone => registers.advance_command_head(),
        Step::Fqmf => registers.set_fqmf(),
        Step::Fqof => registers.set_fqof(),
        Step::RecordWritten => registers.advance_fault_tail(),
    }
}

/// The register at the offset reads so.
pub(crate) fn reads(rt: &impl Abort, registers: &Registers, offset: u64, value: u64) {
    let read: Result<u64, RegFault> = registers.read(offset, width_at(offset));
    expect(rt, read == Ok(value));
}

/// The value is written to the register at the offset.
pub(crate) fn writes(rt: &impl Abort, registers: &mut Registers, offset: u64, value: u64) {
    let written = registers.write(offset, width_at(offset), value);
    expect(rt, written.is_ok());
}

/// Takes the steps from power-on: after each the register at the offset reads so.
pub(crate) fn follow(rt: &impl Abort, steps: &[(Step, u64, u64)]) {
    let mut registers = Registers::new();
    for (step, offset, value) in steps.iter() {
        take(&mut registers, *step);
        reads(rt, &registers, *offset, *value);
    }
}

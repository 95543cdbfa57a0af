use crate::commands::bytes::bytes_of;
use crate::expect::expect;
use iom_command_queue::{Command, Illegal, Operation};
use std::alloc::{AllocError, Global};
use std::process::Abort;
use std::test::Fail;

/// One row for each reason, and rows in which two reasons apply: the first in the order Opcode, Func, Reserved,
/// Combination is given.
static REASONS: [(u64, u64, Illegal); 12] = [
    (0x0000_0000_0000_0005, 0, Illegal::Opcode),
    (0x0000_0000_0000_0082, 0, Illegal::Func),
    (0x0000_0000_0000_4002, 0, Illegal::Reserved),
    (0x0000_0001_0000_0081, 0, Illegal::Combination),
    // ATS.INVAL with G.
    (0x0000_0202_0000_0004, 1, Illegal::Combination),
    // IODIR.INVAL_PDT.
    (0x0000_0202_0000_0083, 0, Illegal::Func),
    // Opcode 0.
    (0, 0, Illegal::Opcode),
    // Two reasons each.
    (0x0000_0000_0000_0085, 0, Illegal::Opcode),
    (0x0000_0000_0000_4082, 0, Illegal::Func),
    (0x0000_0001_0000_0881, 0, Illegal::Reserved),
    (0x0000_0001_0000_0081, 1, Illegal::Reserved),
    (0x0000_0202_0000_0004, 3, Illegal::Reserved),
];

#[test]
fn refusals_have_their_reasons(rt: HostRuntime) {
    for (first, second, reason) in REASONS.iter() {
        let decoded = Command::decode(&bytes_of(*first, *second));
        expect(&rt, decoded == Err(*reason));
    }
}

/// How many of some words were commands, and how many were refused for each reason.
#[derive(Clone, Copy, PartialEq)]
struct Tally {
    commands: u32,
    opcode: u32,
    func: u32,
    reserved: u32,
    combination: u32,
}

fn count(tally: &mut Tally, first: u64, second: u64) {
    let counter = match Command::decode(&bytes_of(first, second)) {
        Ok(_) => &mut tally.commands,
        Err(Illegal::Opcode) => &mut tally.opcode,
        Err(Illegal::Func) => &mut tally.func,
        Err(Illegal::Reserved) => &mut tally.reserved,
        Err(Illegal::Combination) => &mut tally.combination,
    };
    *counter = counter.wrapping_add(1);
}

// Counts this opcode and func3 with no further bit, with each further bit of the first word alone, and
// with each bit of the second word alone: 1 + 54 + 64 commands.
fn count_one_bit_each(tally: &mut Tally, head: u64) {
    count(tally, head, 0);
    for place in 10..64u32 {
        count(tally, head | 1 << place, 0);
    }
    for place in 0..64u32 {
        count(tally, head, 1 << place);
    }
}

// Every opcode with every func3, and at most one bit beside them: 128 * 8 * 119 = 121,856. By the figures
// of section 3.1, the bits beside opcode and func3 that a command may have set alone are:
//
//   IOTINVAL.VMA     AV, 20 of PSCID, PSCV, GV, 16 of GSCID; 52 of ADDR    39 + 52, with none 92
//   IOTINVAL.GVMA    the same without PSCV                                 38 + 52, with none 91
//   IOFENCE.C        AV, WSI, PR, PW, 32 of DATA; 62 of ADDR               36 + 62, with none 99
//   IODIR.INVAL_DDT  DV, 24 of DID                                         25,      with none 26
//   ATS.INVAL        DSV, 16 of RID, 8 of DSEG; 52 of the address, S       25 + 53, with none 79
//
// which are 387. Combination are PSCV of GVMA and G of ATS.INVAL: 2. The rest of these five are Reserved:
// 5 * 119 - 387 - 2 = 206. Of opcodes 1 to 4 there are 4 * 8 - 5 = 27 other func3, each 119 times Func:
// 3,213. The other 124 opcodes are Opcode: 124 * 8 * 119 = 118,048.
#[test]
fn one_bit_at_a_time(rt: HostRuntime) {
    let mut tally = Tally {
        commands: 0,
        opcode: 0,
        func: 0,
        reserved: 0,
        combination: 0,
    };
    for head in 0..1024u64 {
        count_one_bit_each(&mut tally, head);
    }
    let expected = Tally {
        commands: 387,
        opcode: 118_048,
        func: 3_213,
        reserved: 206,
        combination: 2,
    };
    expect(&rt, tally == expected);
}

fn prints(
    rt: &impl Abort,
    alloc: Global,
    operation: Operation,
    text: &str,
) -> Result<(), AllocError> {
    let printed = format!(in alloc; "{operation}")?;
    expect(rt, printed.as_str() == text);
    Ok(())
}

static NAMES: [(Operation, &str); 5] = [
    (Operation::IotinvalVma, "iotinval.vma"),
    (Operation::IotinvalGvma, "iotinval.gvma"),
    (Operation::IofenceC, "iofence.c"),
    (Operation::IodirInvalDdt, "iodir.inval_ddt"),
    (Operation::AtsInval, "ats.inval"),
];

#[test]
fn commands_have_names(rt: HostRuntime) -> Result<(), Fail> {
    for (operation, name) in NAMES.iter() {
        prints(&rt, rt.alloc(), *operation, name)?;
    }
    Ok(())
}

#[test]
fn a_command_has_its_operation(rt: HostRuntime) {
    let fence = Command::IofenceC {
        store: None,
        wsi: false,
        pr: false,
        pw: false,
    };
    expect(&rt, fence.operation() == Operation::IofenceC);
}

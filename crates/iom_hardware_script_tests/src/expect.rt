// What a test expects, as a call: a comparison in place is a branch that each later proof would carry.
use iom_hardware_script::{HardwareScript, Pace, Setup, parse};
use iom_script::ScriptFault;
use std::alloc::Global;
use std::process::Abort;

/// Ends the test where this doesn't hold.
pub(crate) fn expect(rt: &impl Abort, holds: bool) {
    assert!(rt; holds);
}

/// The script that these bytes are.
pub(crate) fn script_of(rt: &impl Abort, alloc: Global, bytes: &[u8]) -> HardwareScript {
    match parse(alloc, bytes) {
        Ok(script) => script,
        Err(_) => panic!(rt; "no script"),
    }
}

/// The line number at which the bytes are refused, or 0 where they are a script.
pub(crate) fn bad_line(alloc: Global, bytes: &[u8]) -> u64 {
    match parse(alloc, bytes) {
        Ok(_) => 0,
        Err(ScriptFault::Line(number)) => number,
        Err(ScriptFault::Memory) => u64::MAX,
    }
}

/// Whether this hardware was read, and no other.
pub(crate) fn is_hardware(read: Option<Setup>, frames: u32, pace: Pace) -> bool {
    read == Some(Setup { frames, pace })
}

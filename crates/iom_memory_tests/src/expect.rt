// What a test expects, as a call: a comparison in place is a branch that each later proof would carry.
use iom_phys_mem::Bytes;
use std::process::Abort;

/// Ends the test where this doesn't hold.
pub(crate) fn expect(rt: &impl Abort, holds: bool) {
    assert!(rt; holds);
}

/// Ends the test where a load at the address answers something else.
pub(crate) fn expect_load<B: Bytes>(
    rt: &impl Abort,
    memory: &B,
    address: u64,
    expected: Option<u64>,
) {
    expect(rt, memory.load_u64(address) == expected);
}

/// Ends the test where a store at the address isn't done, or is though it should not.
pub(crate) fn expect_store<B: Bytes>(
    rt: &impl Abort,
    memory: &mut B,
    address: u64,
    value: u64,
    is_done: bool,
) {
    let done = memory.store_u64(address, value).is_some();
    expect(rt, done == is_done);
}

/// The same of a store of four bytes.
pub(crate) fn expect_short_store<B: Bytes>(
    rt: &impl Abort,
    memory: &mut B,
    address: u64,
    value: u32,
    is_done: bool,
) {
    let done = memory.store_u32(address, value).is_some();
    expect(rt, done == is_done);
}

// What a test expects, as a call: a comparison in place is a branch that each later proof would carry.
use iom_base::{AccessKind, DeviceId, Refusal, Rights};
use iom_claims::{Claims, Grant, NoSuchClaim, OpenClaim};
use std::process::Abort;

/// Ends the test where this doesn't hold.
pub(crate) fn expect(rt: &impl Abort, holds: bool) {
    assert!(rt; holds);
}

/// The right to read and write the frame, of the device at the page.
pub(crate) fn both_of(device: DeviceId, page: u64, frame: u32) -> Grant {
    Grant {
        device,
        page,
        frame,
        rights: Rights::RW,
    }
}

/// Ends the test where the grant is answered otherwise. Where memory was refused it is asked for once more, as
/// each of these does.
pub(crate) fn expect_grant(
    rt: &impl Abort,
    claims: &mut Claims,
    grant: Grant,
    answer: Result<(), Refusal>,
) {
    let mut given = claims.grant(grant);
    if given == Err(Refusal::Memory) {
        given = claims.grant(grant);
    }
    expect(rt, given == answer);
}

/// Ends the test where the release is answered otherwise.
pub(crate) fn expect_release(
    rt: &impl Abort,
    claims: &mut Claims,
    device: DeviceId,
    page: u64,
    answer: Result<u32, Refusal>,
) {
    let mut given = claims.release(device, page);
    if given == Err(Refusal::Memory) {
        given = claims.release(device, page);
    }
    expect(rt, given == answer);
}

/// Ends the test where the frame can't be handed on.
pub(crate) fn expect_hand_on(rt: &impl Abort, claims: &mut Claims, frame: u32) {
    let given = claims.hand_on(frame);
    expect(rt, given.is_ok() || claims.hand_on(frame).is_ok());
}

/// Ends the test where it is answered otherwise that the claim is done.
pub(crate) fn expect_done(
    rt: &impl Abort,
    claims: &mut Claims,
    number: u32,
    answer: Result<(), NoSuchClaim>,
) {
    expect(rt, claims.done(number) == answer);
}

/// Ends the test where the device may not do these to the frame, or may do others.
pub(crate) fn expect_may(
    rt: &impl Abort,
    claims: &Claims,
    device: DeviceId,
    frame: u32,
    reads: bool,
    writes: bool,
) {
    expect(rt, claims.may(device, frame, AccessKind::Read) == reads);
    expect(rt, claims.may(device, frame, AccessKind::Write) == writes);
}

/// Ends the test where another has the frame, or another claim lingers on it.
pub(crate) fn expect_on(
    rt: &impl Abort,
    claims: &Claims,
    frame: u32,
    holder: Option<Grant>,
    lingering: Option<OpenClaim>,
) {
    expect(rt, claims.holder_of(frame) == holder);
    expect(rt, claims.lingering_on(frame) == lingering);
}

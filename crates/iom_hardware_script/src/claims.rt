//! What software claims, from the words behind `claim`.
ghost use Rattle.std.specs.Prelude.{codes};
ghost use Rattle.iom_script.specs.Reading.{Reads};
ghost use Rattle.iom_hardware_script.specs.Grammar.{IsClaim};
ghost use Rattle.iom_hardware_script.specs.Parts.{IsClaimWith};

use crate::script::Claim;
use iom_script::words::{after, device_and, device_of, number_and, number_of, right_of};

/// The claim of the first of these that gives one; those behind it aren't tried.
macro_rules! first_claim_of {
    ($only:expr) => {
        $only
    };
    ($first:expr, $($others:expr),+) => {
        match $first {
            Some(claim) => Some(claim),
            None => first_claim_of!($($others),+),
        }
    };
}

/// `grant ID PAGE FRAME RIGHT`
fn grant(text: &[u8]) -> Option<Claim>
    ensures { Reads result (IsClaimWith (codes "grant ") text.now) }
{
    let arguments = after(text, b"grant ")?;
    let (device, rest) = device_and(arguments)?;
    let (page, rest) = number_and(rest)?;
    let (frame, right) = number_and(rest)?;
    let rights = right_of(right)?;
    Some(Claim::Grant {
        device,
        page,
        frame,
        rights,
    })
}

/// `ready ID PAGE`
fn ready(text: &[u8]) -> Option<Claim>
    ensures { Reads result (IsClaimWith (codes "ready ") text.now) }
{
    let arguments = after(text, b"ready ")?;
    let (device, rest) = device_and(arguments)?;
    let page = number_of(rest)?;
    Some(Claim::Ready { device, page })
}

/// `release ID PAGE`
fn release(text: &[u8]) -> Option<Claim>
    ensures { Reads result (IsClaimWith (codes "release ") text.now) }
{
    let arguments = after(text, b"release ")?;
    let (device, rest) = device_and(arguments)?;
    let page = number_of(rest)?;
    Some(Claim::Release { device, page })
}

/// `done T`
fn done(text: &[u8]) -> Option<Claim>
    ensures { Reads result (IsClaimWith (codes "done ") text.now) }
{
    let arguments = after(text, b"done ")?;
    let number = number_of(arguments)?;
    Some(Claim::Done { number })
}

/// `handoff FRAME`
fn hand_off(text: &[u8]) -> Option<Claim>
    ensures { Reads result (IsClaimWith (codes "handoff ") text.now) }
{
    let arguments = after(text, b"handoff ")?;
    let frame = number_of(arguments)?;
    Some(Claim::HandOff { frame })
}

/// `take FRAME`
fn take(text: &[u8]) -> Option<Claim>
    ensures { Reads result (IsClaimWith (codes "take ") text.now) }
{
    let arguments = after(text, b"take ")?;
    let frame = number_of(arguments)?;
    Some(Claim::Take { frame })
}

/// `trust ID`
fn trust(text: &[u8]) -> Option<Claim>
    ensures { Reads result (IsClaimWith (codes "trust ") text.now) }
{
    let arguments = after(text, b"trust ")?;
    let device = device_of(arguments)?;
    Some(Claim::Trust { device })
}

/// What is claimed, by what stands behind `claim`.
pub(crate) fn claim_of(text: &[u8]) -> Option<Claim>
    ensures { Reads result (IsClaim text.now) }
{
    first_claim_of!(
        take(text),
        grant(text),
        ready(text),
        release(text),
        done(text),
        hand_off(text),
        trust(text)
    )
}

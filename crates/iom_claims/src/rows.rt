//! Rows of grants and of open claims: look-ups from the front, and what drops out of them.
ghost use Rattle.std.specs.Prelude.{◌≡◌, ◌↔◌, IsTrue, find, option_map};
ghost use Rattle.std.specs.List.{list_any};
ghost use Rattle.iom_claims.specs.Rows.{is_at, is_on, is_numbered, lets, claim_is_on, claim_lets, pair_of, grant_of, without_page, without_number};

use crate::grant::{Grant, OpenClaim};
use iom_base::{AccessKind, DeviceId, Rights};
use std::collections::BTreeSet;

/// Whether the grants are equal, and in the same order.
pub(crate) fn are_same_grants(held: &[Grant], other: &[Grant]) -> bool
    ensures { IsTrue result ↔ (held.now ≡ other.now) }
{
    held == other
}

/// Whether the claims are.
pub(crate) fn are_same_claims(claims: &[OpenClaim], other: &[OpenClaim]) -> bool
    ensures { IsTrue result ↔ (claims.now ≡ other.now) }
{
    claims == other
}

/// Whether the frames are the same.
pub(crate) fn are_same_frames(frames: &BTreeSet<u32>, other: &BTreeSet<u32>) -> bool
    ensures { IsTrue result ↔ (frames.now.keys ≡ other.now.keys) }
{
    frames == other
}

/// The first grant of this page of the device.
pub(crate) fn grant_at(held: &[Grant], device: DeviceId, page: u64) -> Option<&Grant>
    ensures { option_map (λ grant. grant.now) result ≡ find (is_at device page) held.now }
{
    held.iter().find(|grant| grant.is_at(device, page))
}

/// Its frame, and the right to it.
pub(crate) fn pair_at(held: &[Grant], device: DeviceId, page: u64) -> Option<(u32, Rights)>
    ensures { result ≡ option_map pair_of (find (is_at device page) held.now) }
{
    held.iter()
        .find(|grant| grant.is_at(device, page))
        .map(|grant| (grant.frame, grant.rights))
}

/// The first grant of the frame.
pub(crate) fn grant_on(held: &[Grant], frame: u32) -> Option<&Grant>
    ensures { option_map (λ grant. grant.now) result ≡ find (is_on frame) held.now }
{
    held.iter().find(|grant| frame == grant.frame)
}

/// What the first claim with this number withdrew.
pub(crate) fn withdrawn_by(claims: &[OpenClaim], number: u32) -> Option<Grant>
    ensures { result ≡ option_map grant_of (find (is_numbered number) claims.now) }
{
    claims
        .iter()
        .find(|claim| number == claim.number)
        .map(|claim| claim.grant)
}

/// The first claim that withdrew a grant of the frame.
pub(crate) fn claim_on(claims: &[OpenClaim], frame: u32) -> Option<&OpenClaim>
    ensures { option_map (λ claim. claim.now) result ≡ find (claim_is_on frame) claims.now }
{
    claims.iter().find(|claim| frame == claim.grant.frame)
}

/// Whether one of the grants lets the device reach the frame by an access of this kind.
pub(crate) fn some_grant_lets(
    held: &[Grant],
    device: DeviceId,
    frame: u32,
    kind: AccessKind,
) -> bool
    ensures { result ≡ list_any (lets device frame kind) held.now }
{
    held.iter().any(|grant| grant.lets(device, frame, kind))
}

/// Whether one of the grants that were withdrawn does.
pub(crate) fn some_claim_lets(
    claims: &[OpenClaim],
    device: DeviceId,
    frame: u32,
    kind: AccessKind,
) -> bool
    ensures { result ≡ list_any (claim_lets device frame kind) claims.now }
{
    claims
        .iter()
        .any(|claim| claim.grant.lets(device, frame, kind))
}

/// The grants of this page of the device drop out.
pub(crate) fn drop_at(held: &mut Vec<Grant>, device: DeviceId, page: u64)
    ensures { held.new.items ≡ without_page device page held.old.items }
{
    held.retain(|grant| !grant.is_at(device, page));
}

/// The claims with this number drop out.
pub(crate) fn drop_claim(claims: &mut Vec<OpenClaim>, number: u32)
    ensures { claims.new.items ≡ without_number number claims.old.items }
{
    claims.retain(|claim| number != claim.number);
}

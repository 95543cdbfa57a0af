//! The claims of a driver.
ghost use Rattle.std.specs.Prelude.{◌≡◌, ◌↔◌, ◌⊎◌, ◌+◌, ◌-◌, ◌^◌, ◌++◌, [], ◌∷◌, true, false, find};
ghost use Rattle.std.specs.Prelude.{Some, None, Ok, Err, IsTrue, IsNone, IsSome, IsOk, IfOk, IfErr, IfSome, OnOk, OnErr};
ghost use Rattle.iom_ledger.specs.History.{May, held_at};
ghost use Rattle.iom_claims.specs.declared.grant.Grant.{Grant};
ghost use Rattle.iom_claims.specs.declared.grant.OpenClaim.{OpenClaim};
ghost use Rattle.iom_claims.specs.Claimed.{Claimed, nothing_claimed, IsHeld, IsOpen, after_grant, after_release, after_done, after_mark};
ghost use Rattle.iom_claims.specs.Rows.{is_at, is_on, claim_is_on, without_number, Withdraws};
ghost use Rattle.iom_claims.specs.Shown.{ShowsClaimed};

use crate::grant::{Grant, OpenClaim};
use crate::rows::{
    are_same_claims, are_same_frames, are_same_grants, claim_on, drop_at, drop_claim, grant_at,
    grant_on, pair_at, some_claim_lets, some_grant_lets, withdrawn_by,
};
use iom_base::{AccessKind, DeviceId, Refusal, Rights};
use std::alloc::Global;
use std::collections::BTreeSet;
use std::marker::Model;

/// No claim of this number is open.
#[derive(Clone, Copy, PartialEq, Eq, Debug)]
pub struct NoSuchClaim;

/// What a driver claims of its devices. Keeps a row for each page that is held and each claim that isn't
/// done, and the frames that are handed on: no more.
#[derive(Drop)]
pub struct Claims {
    /// What is held, in the order in which it was granted.
    held: Vec<Grant>,
    /// What was withdrawn and isn't done, in the order of the numbers.
    claims: Vec<OpenClaim>,
    handed_on: BTreeSet<u32>,
    /// The number of the last claim, 0 before the first.
    last: u32,
}

impl Model for Claims {
    ghost use Rattle.iom_claims.specs.Rows.{Rows};

    ghost Value = { Rows };

    ghost view = { λ c. record { held = c.held.items; claims = c.claims.items; handed_on = c.handed_on.keys; last = c.last } };
}

impl Claims {
    /// Nothing is claimed. Takes no memory.
    pub fn new(alloc: Global) -> Claims
        ensures { ShowsClaimed result nothing_claimed }
    {
        Claims {
            held: Vec::new(alloc),
            claims: Vec::new(alloc),
            handed_on: BTreeSet::new(alloc),
            last: 0,
        }
    }

    /// Whether the two are equal: the same rows in the same order, the same frames that are handed on, and the same
    /// last number.
    pub fn is_same(&self, other: &Claims) -> bool
        ensures { IsTrue result ↔ (self.now ≡ other.now) }
    {
        if self.last != other.last {
            return false;
        }
        if !are_same_frames(&self.handed_on, &other.handed_on) {
            return false;
        }
        if !are_same_grants(&self.held, &other.held) {
            return false;
        }
        are_same_claims(&self.claims, &other.claims)
    }

    /// The number of the last claim that was given one, 0 before the first.
    pub fn last(&self) -> u32
        ensures { result ≡ self.now.last }
    {
        self.last
    }

    /// What the device holds at the page.
    pub fn held_at(&self, device: DeviceId, page: u64) -> Option<(u32, Rights)>
        ensures { (c : Claimed) → ShowsClaimed self.now c → result ≡ held_at c.history device page }
    {
        pair_at(&self.held, device, page)
    }

    /// What the open claim of this number withdrew.
    pub fn open_claim(&self, number: u32) -> Option<Grant>
        ensures { (c : Claimed) → ShowsClaimed self.now c → (grant : Grant)
            → (result ≡ Some grant) ↔ IsOpen c.history (record { number = number; grant = grant }) }
    {
        withdrawn_by(&self.claims, number)
    }

    /// Whether the device may reach the frame by an access of this kind.
    pub fn may(&self, device: DeviceId, frame: u32, kind: AccessKind) -> bool
        ensures { (c : Claimed) → ShowsClaimed self.now c → IsTrue result ↔ May c.history device frame kind }
    {
        if some_grant_lets(&self.held, device, frame, kind) {
            return true;
        }
        some_claim_lets(&self.claims, device, frame, kind)
    }

    /// Who holds the frame: of several the one to whom it was granted first.
    pub fn holder_of(&self, frame: u32) -> Option<Grant>
        ensures first { result ≡ find (is_on frame) self.now.held }
        ensures held { (c : Claimed) → ShowsClaimed self.now c → IfSome result (λ grant. (grant.frame ≡ frame) × IsHeld c.history grant) }
        ensures none { (c : Claimed) → ShowsClaimed self.now c
            → IsNone result ↔ ((grant : Grant) → grant.frame ≡ frame → ¬ IsHeld c.history grant) }
    {
        grant_on(&self.held, frame).copied()
    }

    /// The open claim that lingers on the frame: of several the oldest.
    pub fn lingering_on(&self, frame: u32) -> Option<OpenClaim>
        ensures first { result ≡ find (claim_is_on frame) self.now.claims }
        ensures open { (c : Claimed) → ShowsClaimed self.now c → IfSome result (λ claim. (claim.grant.frame ≡ frame) × IsOpen c.history claim) }
        ensures none { (c : Claimed) → ShowsClaimed self.now c
            → IsNone result ↔ ((claim : OpenClaim) → claim.grant.frame ≡ frame → ¬ IsOpen c.history claim) }
    {
        claim_on(&self.claims, frame).copied()
    }

    /// Whether the frame is handed on.
    pub fn is_handed_on(&self, frame: u32) -> bool
        ensures { (c : Claimed) → ShowsClaimed self.now c → result ≡ c.handed_on frame }
    {
        self.handed_on.contains(&frame)
    }

    /// Claims that the device may reach the frame at the page, with the right. Refused where it holds
    /// something there, whatever lingers, and for want of memory: then nothing changes.
    pub fn grant(&mut self, grant: Grant) -> Result<(), Refusal>
        ensures granted { (c : Claimed) → ShowsClaimed self.old c → OnOk result (ShowsClaimed self.new (after_grant grant c)) }
        ensures rows { OnOk result ((self.new.held ≡ self.old.held ++ grant ∷ []) × (self.new.claims ≡ self.old.claims)) }
        ensures busy { (c : Claimed) → ShowsClaimed self.old c
            → (result ≡ Err Refusal.IovaBusy) ↔ IsSome (held_at c.history grant.device grant.page) }
        ensures refused { IfErr result (λ why. (why ≡ Refusal.IovaBusy) ⊎ (why ≡ Refusal.Memory)) }
        ensures unchanged { OnErr result (self.new ≡ self.old) }
    {
        match pair_at(&self.held, grant.device, grant.page) {
            Some(_) => Err(Refusal::IovaBusy),
            None => match self.held.push(grant) {
                Err(_) => Err(Refusal::Memory),
                Ok(()) => {
                    self.handed_on.remove(&grant.frame);
                    Ok(())
                }
            },
        }
    }

    /// Withdraws what the device holds at the page. Gives the number of the claim: one after the last that
    /// was ever given. Refused where nothing is held, where there is no such number in 32 bits
    /// (`TooManyPending`), and for want of memory: then nothing changes.
    pub fn release(&mut self, device: DeviceId, page: u64) -> Result<u32, Refusal>
        ensures released { (c : Claimed) → ShowsClaimed self.old c → OnOk result (ShowsClaimed self.new (after_release device page c)) }
        ensures number { IfOk result (λ number. number ≡ self.old.last + 1) }
        ensures rows { IfOk result (λ number. (grant : Grant) → find (is_at device page) self.old.held ≡ Some grant
            → Withdraws self.old self.new grant number) }
        ensures not_granted { (c : Claimed) → ShowsClaimed self.old c → (result ≡ Err Refusal.NotGranted) ↔ (held_at c.history device page ≡ None) }
        ensures used_up { (c : Claimed) → ShowsClaimed self.old c
            → (result ≡ Err Refusal.TooManyPending) ↔ (IsSome (held_at c.history device page) × (self.old.last ≡ 2 ^ 32 - 1)) }
        ensures refused { IfErr result (λ why. (why ≡ Refusal.NotGranted) ⊎ (why ≡ Refusal.TooManyPending) ⊎ (why ≡ Refusal.Memory)) }
        ensures unchanged { OnErr result (self.new ≡ self.old) }
    {
        match grant_at(&self.held, device, page).copied() {
            None => Err(Refusal::NotGranted),
            Some(grant) => self.withdraw(grant),
        }
    }

    /// Withdraws the grant, under the next number.
    fn withdraw(&mut self, grant: Grant) -> Result<u32, Refusal>
        ensures number { IfOk result (λ number. number ≡ self.old.last + 1) }
        ensures rows { IfOk result (λ number. Withdraws self.old self.new grant number) }
        ensures used_up { (result ≡ Err Refusal.TooManyPending) ↔ (self.old.last ≡ 2 ^ 32 - 1) }
        ensures refused { IfErr result (λ why. (why ≡ Refusal.TooManyPending) ⊎ (why ≡ Refusal.Memory)) }
        ensures unchanged { OnErr result (self.new ≡ self.old) }
    {
        if self.last == u32::MAX {
            return Err(Refusal::TooManyPending);
        }
        let number = self.last + 1;
        match self.claims.push(OpenClaim { number, grant }) {
            Err(_) => Err(Refusal::Memory),
            Ok(()) => {
                drop_at(&mut self.held, grant.device, grant.page);
                self.last = number;
                Ok(number)
            }
        }
    }

    /// The claim of this number is done: what it withdrew lingers no more. Refused where it isn't open, and
    /// then nothing changes. Takes no memory.
    pub fn done(&mut self, number: u32) -> Result<(), NoSuchClaim>
        ensures done { (c : Claimed) → ShowsClaimed self.old c → OnOk result (ShowsClaimed self.new (after_done number c)) }
        ensures rows { OnOk result ((self.new.held ≡ self.old.held) × (self.new.claims ≡ without_number number self.old.claims)) }
        ensures open { (c : Claimed) → ShowsClaimed self.old c
            → IsOk result ↔ ((grant : Grant) × IsOpen c.history (record { number = number; grant = grant })) }
        ensures unchanged { OnErr result (self.new ≡ self.old) }
    {
        match withdrawn_by(&self.claims, number) {
            None => Err(NoSuchClaim),
            Some(_) => {
                drop_claim(&mut self.claims, number);
                Ok(())
            }
        }
    }

    /// The frame is handed on to somebody else. Where memory is refused nothing changes, and nothing else is
    /// refused.
    pub fn hand_on(&mut self, frame: u32) -> Result<(), Refusal>
        ensures marked { (c : Claimed) → ShowsClaimed self.old c → OnOk result (ShowsClaimed self.new (after_mark frame true c)) }
        ensures rows { (self.new.held ≡ self.old.held) × (self.new.claims ≡ self.old.claims) }
        ensures refused { IfErr result (λ why. why ≡ Refusal.Memory) }
        ensures unchanged { OnErr result (self.new ≡ self.old) }
    {
        match self.handed_on.insert(frame) {
            Err(_) => Err(Refusal::Memory),
            Ok(_) => Ok(()),
        }
    }

    /// The driver has the frame from whoever gives frames out, so it is handed on no more. Takes no memory.
    pub fn take(&mut self, frame: u32)
        ensures cleared { (c : Claimed) → ShowsClaimed self.old c → ShowsClaimed self.new (after_mark frame false c) }
        ensures rows { (self.new.held ≡ self.old.held) × (self.new.claims ≡ self.old.claims) }
    {
        self.handed_on.remove(&frame);
    }
}

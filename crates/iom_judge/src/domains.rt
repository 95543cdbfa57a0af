// Devices that share a domain.
ghost use Rattle.std.specs.Prelude.{◌≡◌, ◌++◌, ◌&&◌, ℕ, Some, None, OnOk, IfOk, IsNone, IsTrue, IfSome, if◌then◌else◌, nat_eq};
ghost use Rattle.std.specs.Option.{option_map_or};
ghost use Rattle.iom_ledger.specs.History.{History};
ghost use Rattle.iom_kept_state.specs.Grants.{IsPastOf};
ghost use Rattle.iom_judge.specs.Certified.{first_in};
ghost use Rattle.iom_judge.specs.Sharing.{is_gone, is_this, own_domain, sharers, tables_end, NoneWalks};

use crate::choosing::Reported;
use crate::missing::Missing;
use crate::stop::{Judged, Line};
use indexmap::IndexMap;
use iom_base::DeviceId;
use iom_kept_state::{KeptGrants, KeptState, is_attached};
use iom_machine::{Attachment, Device, Event, Outcome};
use std::alloc::{AllocError, Global};

/// The devices that have the domain of another one, each with the first device of that domain.
#[derive(Drop)]
pub(crate) struct Domains {
    pub(crate) firsts: IndexMap<DeviceId, DeviceId>,
}

/// Whether a device that is so attached walks in no table any more.
fn is_gone(grants: &KeptGrants, attachment: Attachment) -> bool
    ensures { (h : History) → IsPastOf grants.now h → result ≡ is_gone h attachment }
{
    match attachment {
        Attachment::Detached => true,
        Attachment::Quarantined { ticket, .. } => grants.is_confirmed(ticket),
        Attachment::Attached { .. } | Attachment::Leaving { .. } => false,
    }
}

/// The device whose tables go back by this, or that is attached anew.
fn tables_end(event: &Event, outcome: &Outcome) -> Option<DeviceId>
    ensures { result ≡ tables_end event.now outcome.now }
{
    match (event, outcome) {
        (Event::Detach { device }, Outcome::Ticket(_)) => Some(*device),
        (Event::Revive { device }, Outcome::Done) => Some(*device),
        _ => None,
    }
}

/// The device that gets a domain of its own by this.
fn own_domain(event: &Event, outcome: &Outcome) -> Option<DeviceId>
    ensures { result ≡ own_domain event.now outcome.now }
{
    match (event, outcome) {
        (Event::Attach { device, .. } | Event::Revive { device }, Outcome::Done) => Some(*device),
        _ => None,
    }
}

impl Domains {
    /// No device has the domain of another.
    pub(crate) fn new(alloc: Global) -> Domains
        ensures { (device : ℕ) → first_in result device ≡ None }
    {
        Domains {
            firsts: IndexMap::new(alloc),
        }
    }

    /// The first device of the domain that the device has, where that is another device.
    pub(crate) fn first_with(&self, device: DeviceId) -> Option<DeviceId>
        ensures { result ≡ first_in self.now device }
    {
        self.firsts.get(&device).copied()
    }

    /// The first device of the domain that the device has.
    pub(crate) fn first_of(&self, device: DeviceId) -> DeviceId
        ensures { result ≡ option_map_or (λ first. first) (first_in self.now device) device }
    {
        self.first_with(device).unwrap_or(device)
    }

    /// Whether the device has the domain of this first one.
    fn has_domain_of(&self, device: DeviceId, first: DeviceId) -> bool
        ensures { result ≡ is_this (first_in self.now device) first }
    {
        self.first_with(device) == Some(first)
    }

    /// Adds those of the devices that have the domain of this first one, and are attached.
    fn add_sharers(
        &self,
        devices: &[Device],
        first: DeviceId,
        found: &mut Vec<DeviceId>,
    ) -> Result<(), AllocError>
        ensures { OnOk result (found.new.items ≡ found.old.items ++ sharers (first_in self.now) devices.now first) }
    {
        match devices {
            [] => Ok(()),
            [device, others @ ..] => {
                if self.has_domain_of(device.id, first) && is_attached(device.attachment) {
                    found.push(device.id)?;
                }
                self.add_sharers(others, first, found)
            }
        }
    }

    /// The devices that have the domain of this first one, and are attached.
    pub(crate) fn sharers(
        &self,
        alloc: Global,
        kept: &KeptState,
        first: DeviceId,
    ) -> Result<Vec<DeviceId>, AllocError>
        ensures { IfOk result (λ found. found.items ≡ sharers (first_in self.now) kept.now.devices first) }
    {
        let mut found = Vec::new(alloc);
        if self.firsts.is_empty() {
            return Ok(found);
        }
        self.add_sharers(kept.devices.as_slice(), first, &mut found)?;
        Ok(found)
    }

    /// Whether none of the devices that have the domain of this first one may still walk in its tables.
    fn none_walks(&self, grants: &KeptGrants, devices: &[Device], first: DeviceId) -> bool
        ensures { (h : History) → IsPastOf grants.now h → IsTrue result → NoneWalks (first_in self.now) h devices.now first }
    {
        match devices {
            [] => true,
            [device, others @ ..] => {
                (!self.has_domain_of(device.id, first) || is_gone(grants, device.attachment))
                    && self.none_walks(grants, others, first)
            }
        }
    }

    /// What follows can't be certified where tables go back by this, while another device may still walk in them.
    pub(crate) fn check(&self, line: &Line<'_>, kept: &KeptState, reply: &Reported<'_>) -> Judged
        ensures { (h : History) → IsPastOf kept.now.grants h → OnOk result
            (IfSome (tables_end reply.now.event.now reply.now.outcome.now) (NoneWalks (first_in self.now) h kept.now.devices)) }
    {
        if let Some(first) = tables_end(reply.event, reply.outcome) {
            if !self.none_walks(&kept.grants, kept.devices.as_slice(), first) {
                return Err(line.uncertified(Missing::Sharers { first })?);
            }
        }
        Ok(())
    }

    /// Nor where a page is granted to, or released by, a device that isn't the first of its domain.
    pub(crate) fn check_first(&self, line: &Line<'_>, event: &Event) -> Judged {
        let device = match event {
            Event::Grant { device, .. } | Event::Release { device, .. } => *device,
            _ => return Ok(()),
        };
        match self.first_with(device) {
            None => Ok(()),
            Some(first) => Err(line.uncertified(Missing::Domain { device, first })?),
        }
    }

    /// The device has the domain of this first one.
    pub(crate) fn join(&mut self, device: DeviceId, first: DeviceId) -> Result<(), AllocError>
        ensures { OnOk result ((k : ℕ) → first_in self.new k ≡ (if nat_eq device k then Some first else first_in self.old k)) }
    {
        self.firsts.insert(device, first)?;
        Ok(())
    }

    /// A device that gets a domain of its own where this came of the event has no other's.
    pub(crate) fn note(&mut self, event: &Event, outcome: &Outcome)
        ensures { (k : ℕ) → first_in self.new k ≡ (if is_this (own_domain event.now outcome.now) k then None else first_in self.old k) }
    {
        if let Some(device) = own_domain(event, outcome) {
            let _first = self.firsts.swap_remove(&device);
        }
    }
}

//! What is left of devices once the tickets are confirmed under which they leave.
ghost use Rattle.std.specs.Prelude.{◌≡◌, ◌==◌, ◌<◌, Some, not, length, map, find, slice_get, slice_set, OnOk};
ghost use Rattle.iom_kept_state.specs.Words.{list_any, option_copied, Owner, History, Device, attachment_in, is_of_left_in, has_left, device_once_confirmed, given_back, with_left, frames_in, IsPastOf, state_of};

use crate::frames::{KeptFrame, KeptFrames};
use crate::grants::KeptGrants;
use crate::state::KeptState;
use iom_base::{DeviceId, Owner, Sequence};
use iom_machine::{Attachment, Device};
use std::alloc::AllocError;

/// Whether it was leaving, under a ticket that is confirmed.
fn has_left(grants: &KeptGrants, attachment: Attachment) -> bool
    ensures { (h : History) → IsPastOf grants.now h → result ≡ has_left h attachment }
{
    match attachment {
        Attachment::Leaving { ticket, .. } => grants.is_confirmed(ticket),
        _ => false,
    }
}

/// The plugged device with this id.
pub(crate) fn device_with(devices: &[Device], id: DeviceId) -> Option<&Device>
    ensures { option_copied result ≡ find (λ device. device.id == id) devices.now }
{
    devices.iter().find(|device| device.id == id)
}

/// How the device is attached, of these; detached, where it is none of them.
pub(crate) fn attachment_in(devices: &[Device], id: DeviceId) -> Attachment
    ensures { result ≡ attachment_in devices.now id }
{
    match device_with(devices, id) {
        None => Attachment::Detached,
        Some(device) => device.attachment,
    }
}

/// Whether the owner is one of these devices, and has left.
fn is_of_left(grants: &KeptGrants, devices: &[Device], owner: Option<Owner>) -> bool
    ensures { (h : History) → IsPastOf grants.now h → result ≡ is_of_left_in h devices.now owner }
{
    match owner {
        None | Some(Owner::System) => false,
        Some(Owner::OneDevice(id)) => has_left(grants, attachment_in(devices, id)),
    }
}

/// Whether one of the devices has left.
fn has_any_left(grants: &KeptGrants, devices: &[Device]) -> bool
    ensures { (h : History) → IsPastOf grants.now h → result ≡ list_any (λ device. has_left h device.attachment) devices.now }
{
    for device in devices {
        if has_left(grants, device.attachment) {
            return true;
        }
    }
    false
}

/// The frames of the devices that have left are given back: nothing is kept of them.
fn give_back(frames: &mut KeptFrames, grants: &KeptGrants, devices: &[Device])
    ensures { (h : History) → IsPastOf grants.now h
        → frames_in frames.new ≡ map (λ frame. given_back (is_of_left_in h devices.now frame.owner) frame) (frames_in frames.old) }
{
    if frames.named.len() == 0 {
        return;
    }
    frames.named.retain(
        |_number: &u64, frame: &mut KeptFrame| -> bool
            ensures unchanged { frame.new ≡ frame.old }
            ensures keeps { (grants.exit ≡ grants.entry) × (devices.exit ≡ devices.entry) }
            ensures test { (h : History) → IsPastOf grants.entry.now h → result ≡ not (is_of_left_in h devices.entry.now frame.old.owner) }
        { !is_of_left(grants, devices, frame.owner) },
    );
}

/// The device is detached, where it has left.
fn detach(grants: &KeptGrants, devices: &mut Sequence<Device>, place: usize)
    requires { place < length devices.old }
    ensures size { length devices.new ≡ length devices.old }
    ensures detached { (h : History) → IsPastOf grants.now h → (device : Device) → slice_get devices.old place ≡ Some device
        → devices.new ≡ slice_set devices.old place (device_once_confirmed h device) }
{
    let device = devices.item_mut(place);
    if has_left(grants, device.attachment) {
        device.attachment = Attachment::Detached;
    }
}

/// The devices that have left are detached.
fn detach_all(grants: &KeptGrants, devices: &mut Sequence<Device>)
    ensures { (h : History) → IsPastOf grants.now h → devices.new ≡ map (device_once_confirmed h) devices.old }
{
    for place in 0..devices.as_slice().len() {
        detach(grants, devices, place);
    }
}

impl KeptState {
    /// The devices that have left, under a ticket that is confirmed, are detached, and their frames are given back.
    pub fn take_leave(&mut self) -> Result<(), AllocError>
        ensures grants { OnOk result (self.new.grants ≡ self.old.grants) }
        ensures left { OnOk result ((h : History) → IsPastOf self.old.grants h → state_of self.new h ≡ with_left (state_of self.old h)) }
    {
        if !has_any_left(&self.grants, self.devices.as_slice()) {
            return Ok(());
        }
        give_back(&mut self.frames, &self.grants, self.devices.as_slice());
        detach_all(&self.grants, &mut self.devices);
        Ok(())
    }
}

// Where a device stands, how it changes, and which ids the device directory can't name.
ghost use Rattle.std.specs.Prelude.{◌≡◌, ◌<◌, ◌==◌, true, false, [], ◌∷◌, ◌++◌, length, find, slice_get, slice_set, MatchOption, OnOk, Some, None, drop, nat_le};
ghost use Rattle.iom_machine_judge.specs.Words.{StandsAt, leaving_under, quarantined_under, attached_again, id_limit, Device};

use iom_base::{AcceptedAccess, Access, DeviceId, Sequence};
use iom_kept_state::KeptState;
use iom_machine::{Attachment, Device};
use std::alloc::AllocError;

/// The place of the device with this id.
pub(crate) fn place_of(devices: &[Device], id: DeviceId) -> Option<usize>
    ensures { MatchOption result (find (λ device. device.id == id) devices.now ≡ None) (StandsAt devices.now id) }
{
    match devices {
        [] => None,
        [device, ..] if device.id == id => Some(0),
        [_, others @ ..] => Some(place_of(others, id)? + 1),
    }
}

/// One more access of the device is in flight, and is counted among those that were accepted.
pub(crate) fn accept(
    devices: &mut Sequence<Device>,
    place: usize,
    number: u64,
    access: Access,
    frame: u64,
) -> Result<(), AllocError>
    requires { place < length devices.old }
    ensures { OnOk result ((device : Device) → slice_get devices.old place ≡ Some device
        → devices.new ≡ slice_set devices.old place (record device {
          accepted = number;
          in_flight = device.in_flight ++ record { access = access; frame = frame } ∷ [];
        })) }
{
    let device = devices.item_mut(place);
    device.in_flight.push(AcceptedAccess { access, frame })?;
    device.accepted = number;
    Ok(())
}

/// The device is so attached.
pub(crate) fn set_attachment(devices: &mut Sequence<Device>, place: usize, attachment: Attachment)
    requires { place < length devices.old }
    ensures { (device : Device) → slice_get devices.old place ≡ Some device
        → devices.new ≡ slice_set devices.old place (record device { attachment = attachment }) }
{
    let device = devices.item_mut(place);
    device.attachment = attachment;
}

/// The device has a disk.
pub(crate) fn give_disk(devices: &mut Sequence<Device>, place: usize)
    requires { place < length devices.old }
    ensures { (device : Device) → slice_get devices.old place ≡ Some device
        → devices.new ≡ slice_set devices.old place (record device { has_disk = true }) }
{
    let device = devices.item_mut(place);
    device.has_disk = true;
}

/// The device leaves under the ticket, where it is attached, and has no disk any more.
pub(crate) fn start_leaving(devices: &mut Sequence<Device>, place: usize, ticket: u32)
    requires { place < length devices.old }
    ensures { (device : Device) → slice_get devices.old place ≡ Some device
        → devices.new ≡ slice_set devices.old place (record device { has_disk = false; attachment = leaving_under ticket device.attachment }) }
{
    let device = devices.item_mut(place);
    device.has_disk = false;
    device.attachment = match device.attachment {
        Attachment::Attached { mode, ats } => Attachment::Leaving { ticket, mode, ats },
        other => other,
    };
}

/// The device is quarantined under the ticket, where it is attached.
pub(crate) fn under_ticket(devices: &mut Sequence<Device>, place: usize, ticket: u32)
    requires { place < length devices.old }
    ensures { (device : Device) → slice_get devices.old place ≡ Some device
        → devices.new ≡ slice_set devices.old place (record device { attachment = quarantined_under ticket device.attachment }) }
{
    let device = devices.item_mut(place);
    device.attachment = match device.attachment {
        Attachment::Attached { mode, ats } => Attachment::Quarantined { ticket, mode, ats },
        other => other,
    };
}

/// The device is attached again as it was before, where it is quarantined.
pub(crate) fn attach_again(devices: &mut Sequence<Device>, place: usize)
    requires { place < length devices.old }
    ensures { (device : Device) → slice_get devices.old place ≡ Some device
        → devices.new ≡ slice_set devices.old place (record device { attachment = attached_again device.attachment }) }
{
    let device = devices.item_mut(place);
    device.attachment = match device.attachment {
        Attachment::Quarantined { mode, ats, .. } => Attachment::Attached { mode, ats },
        other => other,
    };
}

/// Takes the oldest access of the device, which is in flight no more.
pub(crate) fn take_oldest(devices: &mut Sequence<Device>, place: usize) -> AcceptedAccess
    requires { (place < length devices.old) × ((device : Device) → slice_get devices.old place ≡ Some device → 0 < length device.in_flight) }
    ensures { (device : Device) → slice_get devices.old place ≡ Some device
        → (slice_get device.in_flight 0 ≡ Some result) × (devices.new ≡ slice_set devices.old place (record device { in_flight = drop 1 device.in_flight })) }
{
    let device = devices.item_mut(place);
    device.in_flight.pop_front()
}

/// Whether the device directory can't name the id.
pub(crate) fn too_wide(kept: &KeptState, id: DeviceId) -> bool
    ensures { result ≡ nat_le (id_limit kept.now.levels) id }
{
    let limit = match kept.levels {
        1 => 1 << 7,
        2 => 1 << 16,
        _ => 1 << 24,
    };
    id >= limit
}

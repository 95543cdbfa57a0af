// The requests of devices that are under way, where each load of a walk is an event of its own.
ghost use Rattle.std.specs.Prelude.{◌≡◌, ◌↔◌, None, true, IfSome};
ghost use Rattle.iom_hardware_session.specs.Shown.{walks_in};
ghost use Rattle.iom_hardware_runner.specs.Parts.{first_walking};
ghost use Rattle.iom_hardware_runner.specs.Runs.{NoneUnderWay, is_stepped};

use iom_base::{DeviceId, PAGE_SIZE};
use iom_device::Device;
use iom_hardware_session::Session;
use iom_stepped_requests::{RequestWalk, Serving};
use iom_walks::Walks;

/// The first of these devices whose request is under way.
fn first_walking_of(devices: &[Device], walks: &Walks) -> Option<DeviceId>
    ensures { result ≡ first_walking walks.now devices.now }
{
    devices
        .iter()
        .find(|device| walks.is_walking(device.id))
        .map(|device| device.id)
}

/// The first device, in the order of plugging, whose request is under way. None has one where a walk is one event.
pub(crate) fn first_walking(session: &Session) -> Option<DeviceId>
    ensures none { (result ≡ None) ↔ NoneUnderWay session.now.hardware.board.devices.items (walks_in session.now.beside) }
    ensures some { IfSome result (λ device. is_stepped session.now ≡ true) }
{
    match session.walks() {
        Some(walks) => first_walking_of(&session.hardware().devices, walks),
        None => None,
    }
}

/// Whether a walk of the session's hardware takes several events.
pub(crate) fn is_stepped(session: &Session) -> bool
    ensures { result ≡ is_stepped session.now }
{
    session.walks().is_some()
}

/// The frame from which the device's request loads next. None where it has none under way, or that makes no load any more.
fn next_frame(walks: &Walks, device: DeviceId) -> Option<u64> {
    let Serving::GoesOn(standing) = walks.serving(device)? else {
        return None;
    };
    let load = match standing {
        RequestWalk::InDirectory { walk, .. } => walk.next_load(),
        RequestWalk::InTables { walk, .. } => walk.next_load(),
    };
    Some(load.address / PAGE_SIZE)
}

/// The first device, in the order of plugging, whose request loads from the frame next.
pub(crate) fn next_reader(session: &Session, frame: u32) -> Option<DeviceId> {
    let walks = session.walks()?;
    for device in session.hardware().devices.iter() {
        if next_frame(walks, device.id) == Some(u64::from(frame)) {
            return Some(device.id);
        }
    }
    None
}

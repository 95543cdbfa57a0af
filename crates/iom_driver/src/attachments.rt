// How a device is attached is changed.
ghost use Rattle.std.specs.Prelude.{◌≡◌};
ghost use Rattle.iom_driver.specs.Devices.{with_attachment};

use crate::device::{Attachment, Device};
use crate::lookups::place_of;
use iom_base::DeviceId;

/// The device with this id is attached so from now on.
pub(crate) fn set_attachment(devices: &mut Vec<Device>, id: DeviceId, attachment: Attachment)
    ensures { devices.new.items ≡ with_attachment devices.old.items id attachment }
{
    if let Some(place) = place_of(devices, id) {
        devices[place].attachment = attachment;
    }
}

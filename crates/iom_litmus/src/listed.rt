//! What stands in a list.
ghost use Rattle.std.specs.Prelude.{◌≡◌, ◌↔◌, IsTrue};
ghost use Rattle.iom_litmus.specs.Listed.{IsListed};

use crate::step::Step;
use iom_base::DeviceId;
use iom_litmus_test::Spot;

/// Whether the device is one of these.
pub(crate) fn is_device_among(devices: &[DeviceId], device: DeviceId) -> bool
    ensures { IsTrue result ↔ IsListed devices.now device }
{
    for other in devices {
        if *other == device {
            return true;
        }
    }
    false
}

/// Whether the cells are the same.
fn is_same_spot(one: Spot, other: Spot) -> bool
    ensures { IsTrue result → one ≡ other }
{
    one.column == other.column && one.cell == other.cell
}

/// Whether the cell is one of these.
pub(crate) fn is_spot_among(spots: &[Spot], spot: Spot) -> bool
    ensures { IsTrue result → IsListed spots.now spot }
{
    for other in spots {
        if is_same_spot(*other, spot) {
            return true;
        }
    }
    false
}

/// Whether the step is one of these.
pub(crate) fn is_step_among(steps: &[Step], step: Step) -> bool
    ensures { IsTrue result ↔ IsListed steps.now step }
{
    for other in steps {
        if other.is_same(step) {
            return true;
        }
    }
    false
}

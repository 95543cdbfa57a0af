//! How the walk of a device goes on, where each of its loads is an event of its own.
ghost use Rattle.iom_script.specs.Reading.{Reads};
ghost use Rattle.iom_hardware_script.specs.Parts.{IsLoadLine};

use crate::script::HardwareLine;
use iom_script::words::{after, device_of};

/// `load ID`
pub(crate) fn load(line: &[u8]) -> Option<HardwareLine>
    ensures { Reads result (IsLoadLine line.now) }
{
    let arguments = after(line, b"load ")?;
    let device = device_of(arguments)?;
    Some(HardwareLine::Load { device })
}

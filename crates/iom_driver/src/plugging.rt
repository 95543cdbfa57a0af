// A device is plugged in.
ghost use Rattle.std.specs.Prelude.{ℕ, List};
ghost use Rattle.iom_registers.specs.declared.registers.Registers.{Registers};
ghost use Rattle.iom_driver.specs.Calls.{AnswersPlug};
ghost use Rattle.iom_driver.specs.Ready.{IsReady};
ghost use Rattle.iom_driver.specs.StateOf.{state_of};

use crate::device::{Attachment, Device};
use crate::driver::Driver;
use crate::layout::MAX_DEVICES;
use iom_base::{DeviceId, Refusal};

impl Driver {
    /// A device is plugged in, and attached to nothing. It is trusted where it has a cache of translations of
    /// its own (ATS) that obeys invalidations. May come before the start. `AlreadyPlugged`, else
    /// `TooManyDevices` where there are 16, else `Memory`.
    pub fn plug(&mut self, id: DeviceId, trusted: bool) -> Result<(), Refusal>
        ensures effect { AnswersPlug (state_of self.old) id trusted result (state_of self.new) }
        ensures ready { (memory : List (List ℕ)) (r : Registers)
            → IsReady (state_of self.old) memory r → IsReady (state_of self.new) memory r }
    {
        if self.device_of(id).is_some() {
            return Err(Refusal::AlreadyPlugged);
        }
        if self.devices.len() >= MAX_DEVICES {
            return Err(Refusal::TooManyDevices);
        }
        let attachment = Attachment::Detached;
        let device = Device {
            id,
            trusted,
            attachment,
        };
        match self.devices.push(device) {
            Ok(()) => Ok(()),
            Err(_) => Err(Refusal::Memory),
        }
    }
}

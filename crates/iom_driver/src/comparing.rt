// Whether two drivers are equal.
ghost use Rattle.std.specs.Prelude.{◌≡◌, ◌↔◌, IsTrue};
ghost use Rattle.iom_driver.specs.Same.{HasSameNumbers, IsSameDriver};

use crate::driver::Driver;

impl Driver {
    // Whether both keep the same numbers.
    fn has_same_numbers(&self, other: &Driver) -> bool
        ensures { IsTrue result ↔ HasSameNumbers self.now other.now }
    {
        if self.given != other.given || self.confirmed != other.confirmed {
            return false;
        }
        if self.restarts != other.restarts || self.restarted != other.restarted {
            return false;
        }
        if self.frames != other.frames || self.levels != other.levels {
            return false;
        }
        self.started == other.started
    }

    // Whether both have the same devices, attached in the same way, in the same order.
    fn has_same_devices(&self, other: &Driver) -> bool
        ensures { IsTrue result ↔ (self.now.devices.items ≡ other.now.devices.items) }
    {
        self.devices.as_slice() == other.devices.as_slice()
    }

    /// Whether the two are equal in all that they keep. How much room their lists have is no matter.
    pub fn is_same(&self, other: &Driver) -> bool
        ensures { IsTrue result ↔ IsSameDriver self.now other.now }
    {
        if !self.has_same_numbers(other) || !self.has_same_devices(other) {
            return false;
        }
        if !self.owners.is_same(&other.owners) {
            return false;
        }
        self.ledger.is_same(&other.ledger)
    }
}

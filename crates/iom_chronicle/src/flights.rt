// What is kept of accesses in flight.
use crate::origin::Origin;
use iom_base::{DeviceId, MAX_DEVICES, MAX_IN_FLIGHT};
use std::alloc::{AllocError, Global};

#[derive(Clone, Copy)]
struct Flight {
    device: DeviceId,
    origin: Origin,
}

/// The accesses in flight of all devices, in the order of their acceptance.
#[derive(Drop)]
pub(crate) struct FlightLines {
    flights: Vec<Flight>,
}

/// The most accesses in flight.
const MOST: usize = MAX_DEVICES * MAX_IN_FLIGHT;

impl FlightLines {
    /// Nothing is in flight.
    pub(crate) fn new(alloc: Global) -> Result<FlightLines, AllocError> {
        Ok(FlightLines {
            flights: Vec::with_capacity(alloc, MOST)?,
        })
    }

    /// An access of the device was accepted.
    // There is room for all, so none is refused.
    pub(crate) fn accept(&mut self, device: DeviceId, origin: Origin) {
        if self.flights.len() < MOST {
            let _ = self.flights.push(Flight { device, origin });
        }
    }

    /// The oldest of the device is made: what was kept of it.
    pub(crate) fn make(&mut self, device: DeviceId) -> Option<Origin> {
        for place in 0..self.flights.len() {
            if self.flights[place].device == device {
                return Some(self.flights.remove(place).origin);
            }
        }
        None
    }

    /// What is kept of the device's access at this place, the oldest at 0.
    pub(crate) fn at(&self, device: DeviceId, place: usize) -> Option<Origin> {
        let mut older = 0;
        for flight in self.flights.iter() {
            if flight.device == device {
                if older == place {
                    return Some(flight.origin);
                }
                older = older.saturating_add(1);
            }
        }
        None
    }
}

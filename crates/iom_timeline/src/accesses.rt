// What devices do of themselves.
use crate::devices::Flight;
use crate::follower::{Follower, Shown};
use crate::messages::Said;
use crate::timeline::{CopyKind, MarkKind, Place};
use iom_base::{AccessKind, DeviceId, DeviceKind, PAGE_SIZE};
use iom_machine::{BlockStep, Event, Outcome};
use std::alloc::AllocError;

/// An access that was asked for, as far as it is known.
#[derive(Clone, Copy)]
struct Asked {
    device: DeviceId,
    page: Option<u64>,
    kind: Option<AccessKind>,
    frame: Option<u64>,
    /// Whether the IOMMU translates it, and may remember the page.
    is_translated: bool,
}

impl Follower {
    /// The lane of the device's page and of the frame, as far as both are known. Where a guest's own tables stand between,
    /// the frame alone says which it is.
    pub(crate) fn lane_at(
        &self,
        id: DeviceId,
        page: Option<u64>,
        frame: Option<u64>,
    ) -> Option<usize> {
        let device = self.devices.get(id)?;
        if let Some(page) = page {
            if !device.is_guest() {
                let stay = self.timeline.stays.get(*device.pages.get(&page)?)?;
                if frame.is_none() || frame == Some(stay.frame) {
                    return Some(stay.lane);
                }
            }
        }
        device.frames.get(&frame?).copied()
    }

    /// Where something of the device is shown.
    pub(crate) fn place_at(&self, id: DeviceId, lane: Option<usize>) -> Place {
        match lane {
            Some(lane) => Place::Lane(lane),
            None => Place::Device(id),
        }
    }

    /// The IOMMU translated a page of the device, and may remember it.
    pub(crate) fn remember(&mut self, id: DeviceId, lane: Option<usize>) -> Result<(), AllocError> {
        let Some(lane) = lane else {
            return Ok(());
        };
        let line = self.line;
        if self.copies.cache(lane, line)? {
            if let Some(device) = self.devices.get_mut(id) {
                device.cached.push(lane)?;
            }
        }
        Ok(())
    }

    /// The access was accepted.
    fn accept(&mut self, asked: Asked) -> Result<(), AllocError> {
        let lane = self.lane_at(asked.device, asked.page, asked.frame);
        let place = self.place_at(asked.device, lane);
        self.mark(place, MarkKind::of_accepted(asked.kind))?;
        if asked.is_translated {
            self.remember(asked.device, lane)?;
        }
        let line = self.line;
        let copy = self.copies.begin(CopyKind::InFlight, place, line)?;
        if let Some(device) = self.devices.get_mut(asked.device) {
            device.flights.push(Flight { lane, copy })?;
        }
        Ok(())
    }

    /// What came of an access that was asked for.
    fn answer(&mut self, asked: Asked, outcome: &Outcome) -> Result<(), AllocError> {
        match outcome {
            Outcome::Accepted(_) => self.accept(asked),
            Outcome::Fault(cause) => {
                let lane = self.lane_at(asked.device, asked.page, None);
                let place = self.place_at(asked.device, lane);
                self.mark(place, MarkKind::Fault(*cause))
            }
            _ => Ok(()),
        }
    }

    /// The oldest access of the device was made.
    fn commit(&mut self, id: DeviceId) -> Result<(), AllocError> {
        let Some(device) = self.devices.get_mut(id) else {
            return Ok(());
        };
        let Some(flight) = device.make() else {
            return self.mark(Place::Device(id), MarkKind::Made);
        };
        let line = self.line;
        self.copies.end(flight.copy, line);
        let place = self.place_at(id, flight.lane);
        self.mark(place, MarkKind::Made)
    }

    /// A block device took a step.
    fn step(
        &mut self,
        id: DeviceId,
        outcome: &Outcome,
        shown: Shown<'_>,
    ) -> Result<(), AllocError> {
        if let Outcome::Stepped(BlockStep::Asked) = outcome {
            return self.messages.say(id, Said::Question(None));
        }
        let is_translated = match self.devices.get(id) {
            Some(device) => device.kind == DeviceKind::Block,
            None => false,
        };
        let (page, kind) = match shown.began {
            Some(access) => (Some(access.address / PAGE_SIZE), Some(access.kind)),
            None => (None, None),
        };
        let asked = Asked {
            device: id,
            page,
            kind,
            frame: shown.on,
            is_translated,
        };
        self.answer(asked, outcome)
    }

    /// What came of a request at an address.
    fn request(
        &mut self,
        id: DeviceId,
        address: u64,
        kind: AccessKind,
        is_translated: bool,
        outcome: &Outcome,
        shown: Shown<'_>,
    ) -> Result<(), AllocError> {
        let asked = Asked {
            device: id,
            page: Some(address / PAGE_SIZE),
            kind: Some(kind),
            frame: shown.on,
            is_translated,
        };
        self.answer(asked, outcome)
    }

    /// A line of a device.
    pub(crate) fn take_device(
        &mut self,
        event: &Event,
        outcome: &Outcome,
        shown: Shown<'_>,
    ) -> Result<(), AllocError> {
        match event {
            Event::Read {
                device,
                address,
                ..
            } => self.request(*device, *address, AccessKind::Read, true, outcome, shown),
            Event::Write {
                device,
                address,
                ..
            } => self.request(*device, *address, AccessKind::Write, true, outcome, shown),
            Event::ReadThroughCache {
                device,
                address,
                ..
            } => self.request(*device, *address, AccessKind::Read, false, outcome, shown),
            Event::WriteThroughCache {
                device,
                address,
                ..
            } => self.request(*device, *address, AccessKind::Write, false, outcome, shown),
            Event::ReadTranslated { device, .. } | Event::WriteTranslated { device, .. } => {
                self.forged_access(*device, outcome)
            }
            Event::Step { device } => self.step(*device, outcome, shown),
            Event::Commit { device } => match outcome {
                Outcome::Read(_) | Outcome::Wrote(_) => self.commit(*device),
                _ => Ok(()),
            },
            _ => self.take_sender(event, outcome),
        }
    }

    /// What came of a request of which the device says that it is translated already. Its address is no page's.
    fn forged_access(&mut self, id: DeviceId, outcome: &Outcome) -> Result<(), AllocError> {
        let asked = Asked {
            device: id,
            page: None,
            kind: None,
            frame: None,
            is_translated: false,
        };
        self.answer(asked, outcome)
    }
}

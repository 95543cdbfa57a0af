// Which frames devices had at their pages, the last one and the one before it, and which lines granted, released and confirmed them;
// and which lines accepted what is in flight.
use crate::accesses::requester;
use crate::words::Said;
use indexmap::IndexMap;
use iom_base::DeviceId;
use iom_machine::{Event, Outcome};
use std::alloc::Global;
use std::collections::VecDeque;

/// A page of a device.
#[derive(Clone, Copy, PartialEq, Eq, Hash, Debug)]
pub(crate) struct Place {
    pub device: DeviceId,
    pub page: u64,
}

impl Place {
    pub(crate) fn new(device: DeviceId, page: u64) -> Place {
        Place { device, page }
    }
}

/// A ticket that was given.
#[derive(Clone, Copy)]
pub(crate) struct Release {
    pub ticket: u32,
    /// The line that gave it.
    pub line: u64,
    /// The line that confirmed it, if one did.
    pub confirmed: Option<u64>,
    /// The page that was released right before it under the same ticket, if one was.
    shared: Option<Place>,
}

impl Release {
    fn new(ticket: u32, line: u64, shared: Option<Place>) -> Release {
        Release {
            ticket,
            line,
            confirmed: None,
            shared,
        }
    }
}

/// What a device had at a page, from a grant on.
#[derive(Clone, Copy)]
pub(crate) struct Stay {
    pub frame: u64,
    /// The line of the grant.
    pub granted: u64,
    /// How often devices had left before it.
    leaves: usize,
    /// Its release, if it came.
    pub release: Option<Release>,
}

impl Stay {
    /// Whether the ticket of its release is confirmed.
    pub(crate) fn is_stale(&self) -> bool {
        self.release.and_then(|release| release.confirmed).is_some()
    }
}

/// What devices had.
#[derive(Drop)]
pub(crate) struct Past {
    alloc: Global,
    /// At each page that was granted, last.
    pub(crate) last: IndexMap<Place, Stay>,
    /// Before that.
    before: IndexMap<Place, Stay>,
    /// The tickets under which devices were quarantined, or detached. All that one holds is released when it is quarantined, without a line
    /// for each page: so a page's grant notes how often devices had left, and the next time that this one does is its release.
    pub(crate) leaves: IndexMap<u32, (DeviceId, Release)>,
    /// The pages that were released last under those tickets that aren't confirmed.
    pending: IndexMap<u32, Place>,
    /// The lines that accepted each device's accesses in flight. They are made in the order in which they were accepted.
    flights: IndexMap<DeviceId, VecDeque<u64>>,
    /// Where those stand that were spoken of last.
    recent: usize,
}

impl Past {
    pub(crate) fn new(alloc: Global) -> Past {
        Past {
            alloc,
            last: IndexMap::new(alloc),
            before: IndexMap::new(alloc),
            leaves: IndexMap::new(alloc),
            pending: IndexMap::new(alloc),
            flights: IndexMap::new(alloc),
            recent: 0,
        }
    }

    /// The one of these stays that was at the place, with the device's leave as its release, where it had none of its own.
    fn stay_of(&self, stays: &IndexMap<Place, Stay>, place: Place) -> Option<Stay> {
        let mut stay = *stays.get(&place)?;
        let mut leaves = self.leaves.values().skip(stay.leaves);
        let leave = leaves.find(|(device, _release)| *device == place.device);
        stay.release = stay.release.or(leave.map(|(_device, release)| *release));
        Some(stay)
    }

    /// What the device had at the page last.
    pub(crate) fn last_at(&self, place: Place) -> Option<Stay> {
        self.stay_of(&self.last, place)
    }

    /// One of the last two that it had there, if the frame was this, and is stale.
    pub(crate) fn stale_at(&self, place: Place, frame: u64) -> Option<Stay> {
        let before = self.stay_of(&self.before, place);
        let mut stays = self.last_at(place).into_iter().chain(before);
        stays.find(|stay| stay.frame == frame && stay.is_stale())
    }

    /// The line that accepted the device's access in flight with this index.
    pub(crate) fn accepted(&self, device: DeviceId, index: usize) -> Option<u64> {
        self.flights.get(&device)?.get(index).copied()
    }

    /// The line grants the frame.
    fn grant(&mut self, place: Place, frame: u64, line: u64) -> Said {
        let stay = Stay {
            frame,
            granted: line,
            leaves: self.leaves.len(),
            release: None,
        };
        if let Some(before) = self.last.insert(place, stay)? {
            self.before.insert(place, before)?;
        }
        Ok(())
    }

    /// The line releases the page under the ticket.
    fn release(&mut self, place: Place, ticket: u32, line: u64) -> Said {
        let shared = self.pending.insert(ticket, place)?;
        if let Some(stay) = self.last.get_mut(&place) {
            stay.release = Some(Release::new(ticket, line, shared));
        }
        Ok(())
    }

    /// The line confirms the ticket: for all pages that share it, or for the device that left under it.
    fn confirm(&mut self, ticket: u32, line: u64) {
        let mut next = self.pending.swap_remove(&ticket);
        if let (None, Some((_device, release))) = (next, self.leaves.get_mut(&ticket)) {
            release.confirmed = Some(line);
        }
        for _ in 0..self.last.len() {
            let stay = next.and_then(|place| self.last.get_mut(&place));
            let Some(release) = stay.and_then(|stay| stay.release.as_mut()) else {
                return;
            };
            release.confirmed = Some(line);
            next = release.shared;
        }
    }

    /// The lines that accepted the device's accesses in flight, if any did. A line often speaks of the device of the one before.
    fn flights_of(&mut self, device: DeviceId) -> Option<&mut VecDeque<u64>> {
        match self.flights.get_index(self.recent) {
            Some((recent, _lines)) if *recent == device => {}
            _ => self.recent = self.flights.get_index_of(&device)?,
        }
        self.flights.get_index_mut(self.recent)
    }

    /// The line accepts an access of the device.
    fn accept(&mut self, device: DeviceId, line: u64) -> Said {
        if let Some(lines) = self.flights_of(device) {
            lines.push_back(line)?;
            return Ok(());
        }
        let mut lines = VecDeque::new(self.alloc);
        lines.push_back(line)?;
        self.flights.insert(device, lines)?;
        Ok(())
    }

    /// Notes what came of the event in the line.
    pub(crate) fn note(&mut self, event: &Event, outcome: &Outcome, line: u64) -> Said {
        match (event, outcome) {
            (
                Event::Grant {
                    device,
                    page,
                    frame,
                    ..
                },
                Outcome::Done,
            ) => self.grant(Place::new(*device, *page), *frame, line)?,
            (Event::Release { device, page }, Outcome::Ticket(ticket)) => {
                self.release(Place::new(*device, *page), *ticket, line)?;
            }
            (Event::Quarantine { device } | Event::Detach { device }, Outcome::Ticket(ticket)) => {
                let release = Release::new(*ticket, line, None);
                self.leaves.insert(*ticket, (*device, release))?;
            }
            (Event::Poll, Outcome::Confirmed { first, last, .. }) => {
                for ticket in *first..=*last {
                    self.confirm(ticket, line);
                }
            }
            (Event::Commit { device }, Outcome::Read(_) | Outcome::Wrote(_)) => {
                let _oldest = self.flights_of(*device).and_then(|lines| lines.pop_front());
            }
            (event, Outcome::Accepted(_)) => {
                if let Some(device) = requester(event) {
                    self.accept(device, line)?;
                }
            }
            _ => {}
        }
        Ok(())
    }
}

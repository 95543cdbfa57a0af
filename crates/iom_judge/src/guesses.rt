// What was guessed of what lines don't show, and which line depends on it.
use crate::choosing::{Reported, Tables};
use crate::missing::Missing;
use indexmap::IndexMap;
use iom_base::{DeviceId, PAGE_SIZE, Refusal};
use iom_kept_state::KeptState;
use iom_machine::{Device, Event, Outcome};
use iom_machine_judge::polls::may_confirm;
use iom_machine_judge::reasons::{attach_refusal, grant_refusal};
use std::alloc::{AllocError, Global};

/// What was guessed.
#[derive(Drop)]
pub(crate) struct Guesses {
    /// Whether a line has shown which frames became tables. Then those that don't took none.
    shows_tables: bool,
    /// The first line that took some and doesn't show them.
    pub(crate) tables: Option<Missing>,
    /// Whether a device was detached since: its tables are given back, as frames of zeros.
    gives_back: bool,
    /// What was guessed of accesses in flight, by their device and number.
    in_flight: IndexMap<(DeviceId, u64), Missing>,
    /// The first of them that was a write, and was made: bytes may be elsewhere.
    made: Option<Missing>,
}

/// The number of the device's oldest access in flight.
fn oldest_number(device: &Device) -> u64 {
    let count = device.in_flight.as_slice().len() as u64;
    device.accepted.saturating_sub(count).saturating_add(1)
}

impl Guesses {
    pub(crate) fn new(alloc: Global) -> Guesses {
        Guesses {
            shows_tables: false,
            tables: None,
            gives_back: false,
            in_flight: IndexMap::new(alloc),
            made: None,
        }
    }

    /// Notes what a line shows, and that the access is made of which something was guessed at this place.
    pub(crate) fn note_line(&mut self, reply: &Reported<'_>, made: Option<usize>) {
        if let Tables::Own(Some(_)) | Tables::OfAnother(Some(_)) = reply.shown.tables {
            self.shows_tables = true;
        }
        if let (Event::Detach { .. }, Outcome::Ticket(_)) = (reply.event, reply.outcome) {
            self.gives_back = self.tables.is_some();
        }
        if let Some(place) = made {
            self.make(place, reply.outcome);
        }
    }

    /// This is missing of what the line shows.
    #[inline(never)]
    pub(crate) fn miss(&mut self, missing: Missing) -> Result<(), AllocError> {
        match missing {
            Missing::Frame(begun) | Missing::Access(begun) => {
                self.in_flight
                    .insert((begun.device, begun.number), missing)?;
            }
            _ if self.shows_tables => {}
            _ => self.tables = self.tables.or(Some(missing)),
        }
        Ok(())
    }

    /// The place of what was guessed of the access that the event makes, if it is a commit.
    pub(crate) fn place_of_oldest(&self, kept: &KeptState, event: &Event) -> Option<usize> {
        let Event::Commit { device: id } = event else {
            return None;
        };
        if self.in_flight.is_empty() {
            return None;
        }
        let number = oldest_number(kept.device(*id)?);
        self.in_flight.get_index_of(&(*id, number))
    }

    /// What was guessed at the place.
    fn guess_at(&self, place: Option<usize>) -> Option<Missing> {
        let (_access, missing) = self.in_flight.get_index(place?)?;
        Some(*missing)
    }

    /// The access is made of which something was guessed at this place. One that isn't shown may be a write, where the line says no more than that.
    #[inline(never)]
    fn make(&mut self, place: usize, outcome: &Outcome) {
        let Some((_access, made)) = self.in_flight.swap_remove_index(place) else {
            return;
        };
        let may_write = matches!(made, Missing::Access(_)) || matches!(outcome, Outcome::Wrote(_));
        if may_write && self.made.is_none() {
            self.made = Some(made);
        }
    }

    /// What bytes in memory depend on, which may be those of a table or not.
    fn of_bytes(&self, may_be_table: bool) -> Option<Missing> {
        match self.made {
            None if self.gives_back || may_be_table => self.tables,
            made => made,
        }
    }

    /// What the refusal of a grant or an attach depends on, where this is the first reason that is known: whether a frame is a table, or how many are free.
    fn of_refusal(&self, first: Option<Refusal>, refusal: Refusal) -> Option<Missing> {
        match (refusal, first) {
            (Refusal::FrameReserved, None | Some(Refusal::IovaOutOfRange | Refusal::IovaBusy))
            | (Refusal::NoFrames, None) => self.tables,
            _ => None,
        }
    }

    /// What the refusal of a poll depends on: the first guess of an access that couldn't stay once the tickets from the first to the last
    /// are confirmed. None, where one couldn't stay that wasn't guessed.
    fn of_poll(&self, kept: &KeptState, first: u32, last: u32) -> Option<Missing> {
        if !may_confirm(kept, first, last) {
            return None;
        }
        let mut found = None;
        for device in kept.devices.as_slice() {
            let oldest = oldest_number(device);
            for (index, flight) in device.in_flight.as_slice().iter().enumerate() {
                let (id, page) = (device.id, flight.access.address / PAGE_SIZE);
                let (grants, kind) = (&kept.grants, flight.access.kind);
                if !grants.may_once(id, page, flight.frame, kind, first, last) {
                    let number = oldest.saturating_add(index as u64);
                    found = found.or(Some(*self.in_flight.get(&(id, number))?));
                }
            }
        }
        found
    }

    /// What it depends on that this may not come of the event: a guess, if there is one.
    pub(crate) fn behind(&self, kept: &KeptState, reply: &Reported<'_>) -> Option<Missing> {
        match (reply.event, reply.outcome) {
            (Event::Commit { .. }, outcome) => {
                match self.guess_at(self.place_of_oldest(kept, reply.event)) {
                    None if matches!(outcome, Outcome::Read(_)) => self.of_bytes(false),
                    found => found,
                }
            }
            (Event::Poll, Outcome::Confirmed { first, last, .. }) => {
                self.of_poll(kept, *first, *last)
            }
            (
                Event::Grant {
                    device,
                    page,
                    frame,
                    ..
                },
                Outcome::Refused(refusal),
            ) => self.of_refusal(grant_refusal(kept, *device, *page, *frame), *refusal),
            (Event::Attach { device, ats, .. }, Outcome::Refused(refusal)) => {
                self.of_refusal(attach_refusal(kept, *device, *ats), *refusal)
            }
            (
                Event::Free { .. } | Event::Poke { .. },
                Outcome::Free(false) | Outcome::Refused(Refusal::FrameReserved),
            ) => self.tables,
            // the bytes of a frame that no device may reach may be those of a table
            (Event::Peek { address, .. }, Outcome::Bytes(_)) => {
                self.of_bytes(kept.grants.is_out_of_reach(*address / PAGE_SIZE))
            }
            _ => None,
        }
    }
}

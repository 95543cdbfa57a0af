// What follows a trace, line by line.
use crate::commands::Commands;
use crate::copies::Copies;
use crate::devices::Devices;
use crate::messages::Messages;
use crate::timeline::{CopyKind, Lane, LineText, Mark, MarkKind, Place, Timeline};
use indexmap::{IndexMap, IndexSet};
use iom_base::{Access, DeviceId};
use iom_machine::{Event, Fetched, Outcome};
use std::alloc::{AllocError, Global};

/// What is shown behind an answer: the frame on which an access was accepted, or the access that a step began.
#[derive(Clone, Copy)]
pub struct Shown<'a> {
    pub on: Option<u64>,
    pub began: Option<&'a Access>,
}

/// What waits for a ticket.
#[derive(Clone, Copy)]
pub(crate) enum Waiting {
    /// The stay at this place lingers.
    Stay(usize),
    /// The device is leaving.
    Leaving(DeviceId),
}

#[derive(Clone, Copy)]
pub(crate) struct Pending {
    pub(crate) ticket: u32,
    pub(crate) waiting: Waiting,
}

/// The timeline of the lines so far, with what isn't shown of driver, IOMMU and devices.
#[derive(Drop)]
pub struct Follower {
    pub(crate) alloc: Global,
    /// The number of the last line.
    pub(crate) line: u64,
    pub(crate) timeline: Timeline,
    /// The lanes of the timeline again, to be found.
    pub(crate) lanes: IndexSet<Lane>,
    pub(crate) copies: Copies,
    pub(crate) devices: Devices,
    pub(crate) commands: Commands,
    pub(crate) messages: Messages,
    /// In the order of the tickets; so many of the first are confirmed.
    pub(crate) pending: Vec<Pending>,
    pub(crate) confirmed: usize,
    /// How many stays of each frame are held or linger.
    pub(crate) holders: IndexMap<u64, u64>,
    /// For each lane the stay with which its frame was free, while nothing happened there since.
    pub(crate) quiet: Vec<Option<usize>>,
    /// The wait of the command queue that hasn't ended, in the timeline's list.
    pub(crate) wait: Option<usize>,
    /// How many requests to invalidate are open.
    pub(crate) open_requests: u64,
    /// Whether a line told that the IOMMU forgot something.
    pub(crate) shows_invalidations: bool,
}

impl Follower {
    /// No line was told yet.
    pub fn new(alloc: Global) -> Follower {
        Follower {
            alloc,
            line: 0,
            timeline: Timeline {
                last_line: 0,
                lanes: Vec::new(alloc),
                stays: Vec::new(alloc),
                copies: Vec::new(alloc),
                quarantines: Vec::new(alloc),
                waits: Vec::new(alloc),
                marks: Vec::new(alloc),
                lines: Vec::new(alloc),
                text: Vec::new(alloc),
            },
            lanes: IndexSet::new(alloc),
            copies: Copies::new(alloc),
            devices: Devices::new(alloc),
            commands: Commands::new(alloc),
            messages: Messages::new(alloc),
            pending: Vec::new(alloc),
            confirmed: 0,
            holders: IndexMap::new(alloc),
            quiet: Vec::new(alloc),
            wait: None,
            open_requests: 0,
            shows_invalidations: false,
        }
    }

    /// The next line says nothing.
    pub fn pass(&mut self) {
        self.line = self.line.saturating_add(1);
    }

    /// The next line has these bytes, and is that of the world.
    pub fn begin(&mut self, text: &[u8]) -> Result<(), AllocError> {
        self.pass();
        let start = self.timeline.text.len();
        self.timeline.text.extend_from_slice(text)?;
        self.timeline.lines.push(LineText {
            line: self.line,
            start,
            end: self.timeline.text.len(),
        })?;
        Ok(())
    }

    /// The next line has these bytes, and tells what came of an event.
    pub fn take(
        &mut self,
        text: &[u8],
        event: &Event,
        outcome: &Outcome,
        shown: Shown<'_>,
    ) -> Result<(), AllocError> {
        self.begin(text)?;
        self.tell(text, event, outcome, shown)
    }

    /// The next line has these bytes, and tells that the device was attached to the domain of the other one.
    pub fn join(
        &mut self,
        text: &[u8],
        device: DeviceId,
        with: DeviceId,
        ats: bool,
    ) -> Result<(), AllocError> {
        self.begin(text)?;
        if let Some(mode) = self.devices.mode_of(with) {
            self.attach(device, mode, ats);
        }
        Ok(())
    }

    /// The line that was begun tells this too.
    pub fn tell(
        &mut self,
        text: &[u8],
        event: &Event,
        outcome: &Outcome,
        shown: Shown<'_>,
    ) -> Result<(), AllocError> {
        match (event, outcome) {
            (Event::Plug { device, new }, Outcome::Done) => {
                self.devices.plug(self.alloc, *device, new.kind())
            }
            (Event::Attach { device, mode, ats }, Outcome::Done) => {
                self.attach(*device, *mode, *ats);
                Ok(())
            }
            (
                Event::Grant {
                    device,
                    page,
                    frame,
                    rights,
                },
                Outcome::Done,
            ) => self.grant(*device, *page, *frame, *rights),
            (Event::Release { device, page }, Outcome::Ticket(ticket)) => {
                self.release(*device, *page, *ticket)
            }
            (Event::Detach { device }, Outcome::Ticket(ticket)) => self.detach(*device, *ticket),
            (Event::Quarantine { device }, Outcome::Ticket(ticket)) => {
                self.quarantine(*device, *ticket)
            }
            (Event::Revive { device }, Outcome::Done) => {
                self.revive(*device);
                Ok(())
            }
            (Event::Free { frame }, Outcome::Free(is_free)) => {
                self.mark(Place::Frame(*frame), asked(text, *is_free))
            }
            _ => self.take_queue(event, outcome, shown),
        }
    }

    /// The same, of an event of the command queue, or of one that comes behind those.
    fn take_queue(
        &mut self,
        event: &Event,
        outcome: &Outcome,
        shown: Shown<'_>,
    ) -> Result<(), AllocError> {
        match (event, outcome) {
            (Event::Restart, Outcome::Done) => self.restart(),
            (Event::Fetch, Outcome::Fetched(Fetched::Did(name))) => self.fetch(*name),
            (Event::Fetch, Outcome::Fetched(Fetched::Waiting)) => self.find_waiting(),
            (Event::Timeout, Outcome::TimedOut) => self.time_out(),
            (Event::Poll, Outcome::Confirmed { first, last, .. }) => self.confirm(*first, *last),
            (Event::Deliver { place }, _) => self.deliver(*place, outcome),
            (Event::Drop { place }, Outcome::Dropped) => self.drop_message(*place),
            (Event::Repeat { place }, Outcome::Repeated) => self.repeat(*place),
            _ => self.take_device(event, outcome, shown),
        }
    }

    /// What comes of it is marked at this line.
    pub(crate) fn mark(&mut self, place: Place, kind: MarkKind) -> Result<(), AllocError> {
        let line = self.line;
        if let Place::Lane(lane) = place {
            self.disturb(lane);
        }
        self.timeline.marks.push(Mark { line, place, kind })?;
        Ok(())
    }

    /// The timeline of the lines. Where none of them told that the IOMMU forgot something, it can't be said how long it
    /// remembered anything: then no cached translation is shown.
    pub fn finish(self) -> Timeline {
        let Follower {
            alloc: _,
            line,
            mut timeline,
            lanes: _,
            copies,
            devices: _,
            commands: _,
            messages: _,
            pending: _,
            confirmed: _,
            holders: _,
            quiet: _,
            wait: _,
            open_requests: _,
            shows_invalidations,
        } = self;
        let mut all = copies.into_all();
        if !shows_invalidations {
            all.retain(|copy| copy.kind != CopyKind::CachedTranslation);
        }
        timeline.last_line = line;
        timeline.copies = all;
        timeline
    }
}

/// What is claimed or asked of a frame by a line with these bytes.
fn asked(text: &[u8], is_free: bool) -> MarkKind {
    if text.starts_with(b"handoff ") {
        MarkKind::HandedOff
    } else {
        MarkKind::Asked { is_free }
    }
}

// What is noted of the lines: which lines granted, released, confirmed and accepted what a reason may speak of, and which messages are
// under way (PCI Express Base Specification, chapter 10, "Address Translation Services"), as far as the lines show them. A line takes
// a step or two, and one for each ticket that it confirms.
ghost use Rattle.std.specs.Prelude.{◌≡◌, [], OnOk, remove, slice_get, Some};
ghost use Rattle.iom_reasons.specs.UnderWay.{after, question_in, question_of, sent};

use crate::past::Past;
use crate::words::Said;
use iom_base::DeviceId;
use iom_machine::{BlockStep, CommandName, Event, Fetched, Outcome};
use std::alloc::Global;

/// So many messages are under way at most; one more is lost.
const MOST_MESSAGES: usize = 64;

/// A question under way.
#[derive(Clone, Copy)]
pub struct Sent {
    pub device: DeviceId,
    /// Of what page it is; none, where a block device's step asked it, which doesn't show that.
    pub page: Option<u64>,
}

/// The messages under way, each of them a question or another one: one that is taken closes up, and one that is sent goes last.
#[derive(Drop)]
pub(crate) struct Messages {
    pub(crate) under_way: Vec<Option<Sent>>,
}

impl Messages {
    /// The question at the place, if there is one.
    pub(crate) fn question_at(&self, place: u64) -> Option<Sent>
        ensures { result ≡ question_in (slice_get self.now.under_way.items place) }
    {
        self.under_way.get(place as usize).copied()?
    }

    /// The message goes last, where there is room for it.
    fn send(&mut self, message: Option<Sent>) -> Said
        ensures { OnOk result (self.new.under_way.items ≡ sent message self.old.under_way.items) }
    {
        if self.under_way.len() < MOST_MESSAGES {
            self.under_way.push(message)?;
        }
        Ok(())
    }

    /// The message at the place is under way no more.
    fn take(&mut self, place: u64)
        ensures { self.new.under_way.items ≡ remove self.old.under_way.items place }
    {
        let place = place as usize;
        if place < self.under_way.len() {
            self.under_way.remove(place);
        }
    }

    /// Notes what this changes that comes of the event.
    pub(crate) fn note(&mut self, event: &Event, outcome: &Outcome) -> Said
        ensures { OnOk result (self.new.under_way.items ≡ after event.now outcome.now self.old.under_way.items) }
    {
        match (event, outcome) {
            (Event::Ask { device, page }, Outcome::Sent) => {
                let (device, page) = (*device, Some(page.number()));
                self.send(Some(Sent { device, page }))
            }
            (Event::Step { device }, Outcome::Stepped(BlockStep::Asked)) => {
                let (device, page) = (*device, None);
                self.send(Some(Sent { device, page }))
            }
            (Event::Forge { .. }, Outcome::Sent)
            // the request to invalidate
            | (Event::Fetch, Outcome::Fetched(Fetched::Did(CommandName::AtsInval))) => {
                self.send(None)
            }
            (Event::Deliver { .. }, Outcome::NoMessage) => Ok(()),
            (Event::Deliver { place }, Outcome::Answered(_) | Outcome::Invalidated(_)) => {
                self.take(*place);
                // the answer, or the word that it is done
                self.send(None)
            }
            (Event::Deliver { place }, _) | (Event::Drop { place }, Outcome::Dropped) => {
                self.take(*place);
                Ok(())
            }
            (Event::Repeat { place }, Outcome::Repeated) => {
                match self.under_way.get(*place as usize).copied() {
                    Some(message) => self.send(message),
                    None => Ok(()),
                }
            }
            _ => Ok(()),
        }
    }
}

/// What is noted of the lines.
#[derive(Drop)]
pub struct Notes {
    /// The number of the line that is noted.
    line: u64,
    pub(crate) messages: Messages,
    pub(crate) past: Past,
}

impl Notes {
    /// Nothing is noted yet.
    pub fn new(alloc: Global) -> Notes
        ensures { result.messages.under_way.items ≡ [] }
    {
        Notes {
            line: 0,
            messages: Messages {
                under_way: Vec::new(alloc),
            },
            past: Past::new(alloc),
        }
    }

    /// What is noted next is of the line with this number.
    pub fn begin_line(&mut self, line: u64)
        ensures { self.new ≡ record self.old { line = line } }
    {
        self.line = line;
    }

    /// The question whose delivery the event is, if it is one.
    pub fn question_of(&self, event: &Event) -> Option<Sent>
        ensures { result ≡ question_of event.now self.now.messages.under_way.items }
    {
        match event {
            Event::Deliver { place } => self.messages.question_at(*place),
            _ => None,
        }
    }

    /// Notes what came of the event.
    pub fn note(&mut self, event: &Event, outcome: &Outcome) -> Said
        ensures line { OnOk result (self.new.line ≡ self.old.line) }
        ensures messages { OnOk result (self.new.messages.under_way.items ≡ after event.now outcome.now self.old.messages.under_way.items) }
    {
        self.messages.note(event, outcome)?;
        self.past.note(event, outcome, self.line)
    }
}

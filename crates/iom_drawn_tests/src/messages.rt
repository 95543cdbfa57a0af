// The messages under way, by the lines: they stand in a list, one that is taken closes up, and one that is sent goes
// last. So many are under way at most; one more is lost.

use iom_base::DeviceId;
use iom_machine::{CommandName, Event, Fetched, Outcome};
use std::alloc::{AllocError, Global};

const MOST_MESSAGES: usize = 64;

/// A device asks for the translation of a page.
#[derive(Clone, Copy)]
pub(crate) struct Question {
    pub(crate) device: DeviceId,
    pub(crate) page: u64,
}

/// What is said in a message, as far as the test has to know.
#[derive(Clone, Copy)]
pub(crate) enum Said {
    Question(Question),
    Answer,
    /// A request to invalidate.
    Request,
    /// The word that such a request is done, forged or not.
    Word,
}

impl Said {
    /// Whether this may come of its delivery.
    fn may_become(self, outcome: &Outcome) -> bool {
        match self {
            Said::Question(_) => matches!(outcome, Outcome::Answered(_)),
            Said::Answer => matches!(
                outcome,
                Outcome::Kept | Outcome::Stale | Outcome::AnswerRefused | Outcome::Ignored
            ),
            Said::Request => matches!(outcome, Outcome::Invalidated(_)),
            Said::Word => matches!(outcome, Outcome::Closed(_) | Outcome::NotClosed(_)),
        }
    }

    /// Whether an invalidation waits for it.
    pub(crate) fn is_waited_for(self) -> bool {
        matches!(self, Said::Request | Said::Word)
    }
}

/// The messages under way.
#[derive(Drop)]
pub(crate) struct Messages {
    under_way: Vec<Said>,
    /// How many requests to invalidate there were ever.
    requests: u64,
}

impl Messages {
    pub(crate) fn new(alloc: Global) -> Messages {
        Messages {
            under_way: Vec::new(alloc),
            requests: 0,
        }
    }

    /// How many requests to invalidate there were ever, and so the number of the last.
    pub(crate) fn requests(&self) -> u64 {
        self.requests
    }

    /// The message at the place.
    pub(crate) fn at(&self, place: u64) -> Option<Said> {
        self.under_way.get(place as usize).copied()
    }

    /// The place of the newest message, if there is one.
    pub(crate) fn last_place(&self) -> Option<u64> {
        let last = self.under_way.len().checked_sub(1)?;
        Some(last as u64)
    }

    /// The question whose delivery the event is, if it is one.
    pub(crate) fn delivered_by(&self, event: &Event) -> Option<Question> {
        let Event::Deliver { place } = event else {
            return None;
        };
        match self.at(*place) {
            Some(Said::Question(question)) => Some(question),
            _ => None,
        }
    }

    fn has_room(&self) -> bool {
        self.under_way.len() < MOST_MESSAGES
    }

    /// Whether this may come of the event, as far as the list of the messages says.
    pub(crate) fn agree(&self, event: &Event, outcome: &Outcome) -> bool {
        match (event, outcome) {
            (_, Outcome::Sent) => self.has_room(),
            (Event::Ask { .. } | Event::Forge { .. }, Outcome::Lost) => !self.has_room(),
            (Event::Deliver { place }, outcome) => match self.at(*place) {
                Some(said) => said.may_become(outcome),
                None => matches!(outcome, Outcome::NoMessage),
            },
            (Event::Drop { place }, Outcome::Dropped) => self.at(*place).is_some(),
            (Event::Repeat { place }, Outcome::Repeated) => {
                self.at(*place).is_some() && self.has_room()
            }
            (Event::Repeat { place }, Outcome::Lost) => {
                self.at(*place).is_some() && !self.has_room()
            }
            (Event::Drop { place } | Event::Repeat { place }, _) => self.at(*place).is_none(),
            _ => true,
        }
    }

    /// The message goes last, where there is room for it.
    fn send(&mut self, said: Said) -> Result<(), AllocError> {
        if self.has_room() {
            self.under_way.push(said)?;
        }
        Ok(())
    }

    /// The message at the place is under way no more.
    fn take(&mut self, place: u64) {
        let place = place as usize;
        if place < self.under_way.len() {
            self.under_way.remove(place);
        }
    }

    /// The message at the place was delivered, and this is what came of it.
    fn deliver(&mut self, place: u64, outcome: &Outcome) -> Result<(), AllocError> {
        self.take(place);
        match outcome {
            Outcome::Answered(_) => self.send(Said::Answer),
            Outcome::Invalidated(_) => self.send(Said::Word),
            _ => Ok(()),
        }
    }

    /// The list after the event and what came of it.
    pub(crate) fn note(&mut self, event: &Event, outcome: &Outcome) -> Result<(), AllocError> {
        match (event, outcome) {
            (Event::Ask { device, page }, Outcome::Sent) => self.send(Said::Question(Question {
                device: *device,
                page: page.number(),
            })),
            (Event::Forge { .. }, Outcome::Sent) => self.send(Said::Word),
            (Event::Fetch, Outcome::Fetched(Fetched::Did(CommandName::AtsInval))) => {
                self.requests = self.requests.wrapping_add(1);
                self.send(Said::Request)
            }
            (Event::Deliver { place }, outcome) => self.deliver(*place, outcome),
            (Event::Drop { place }, Outcome::Dropped) => {
                self.take(*place);
                Ok(())
            }
            (Event::Repeat { place }, Outcome::Repeated) => match self.at(*place) {
                Some(said) => self.send(said),
                None => Ok(()),
            },
            _ => Ok(()),
        }
    }
}

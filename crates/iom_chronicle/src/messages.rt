// Since when messages are under way.
use crate::sent::{Sent, sent_at};
use crate::since::Since;
use iom_ats_cache::Entry;
use iom_base::DeviceId;
use iom_fabric::{Fabric, MAX_MESSAGES};
use std::alloc::{AllocError, Global};
use std::mem;

/// The messages under way, in their order, since which line.
#[derive(Drop)]
pub(crate) struct MessageLines {
    known: Vec<Since<Sent>>,
    /// Room in which the next list is put together; empty between two calls.
    next: Vec<Since<Sent>>,
}

impl MessageLines {
    /// No message is under way.
    pub(crate) fn new(alloc: Global) -> Result<MessageLines, AllocError> {
        Ok(MessageLines {
            known: Vec::with_capacity(alloc, MAX_MESSAGES)?,
            next: Vec::with_capacity(alloc, MAX_MESSAGES)?,
        })
    }

    /// The first place from this one on at which the message is known.
    fn place_from(&self, first: usize, sent: &Sent) -> Option<usize> {
        for place in first..self.known.len() {
            if self.known[place].what == *sent {
                return Some(place);
            }
        }
        None
    }

    /// Since when the message at the place is known, or this line.
    fn line_at(&self, place: usize, line: u64) -> u64 {
        match self.known.get(place) {
            Some(known) => known.line,
            None => line,
        }
    }

    /// Puts the message into the next list.
    // There is room for all that a fabric has, so none is refused.
    fn put(&mut self, sent: &Sent, line: u64) {
        let message = Since { what: *sent, line };
        let _ = self.next.push(message);
    }

    /// Puts the message into the next list: since then where it is known from the place on, else since this line. Where those
    /// behind it are to be looked for.
    fn follow(&mut self, sent: &Sent, first: usize, line: u64) -> usize {
        match self.place_from(first, sent) {
            Some(place) => {
                let since = self.line_at(place, line);
                self.put(sent, since);
                place.saturating_add(1)
            }
            None => {
                self.put(sent, line);
                first
            }
        }
    }

    /// Messages go last when they are sent, and keep their order.
    pub(crate) fn notice(&mut self, fabric: &Fabric, line: u64) {
        self.next.clear();
        let mut first = 0;
        for place in 0..fabric.len() {
            if let Some(sent) = sent_at(fabric, place) {
                first = self.follow(&sent, first, line);
            }
        }
        mem::swap(&mut self.known, &mut self.next);
        self.next.clear();
    }

    /// Since when the message at a place of the fabric is under way, or this line.
    pub(crate) fn since(&self, place: usize, line: u64) -> u64 {
        self.line_at(place, line)
    }

    /// When the answer was sent that the device has kept as this entry: the first that is known.
    pub(crate) fn answered(&self, device: DeviceId, entry: &Entry) -> Option<u64> {
        for known in self.known.iter() {
            if known.what.answers(device, entry) {
                return Some(known.line);
            }
        }
        None
    }
}

// The messages under way, by their places.
use crate::commands::Scope;
use crate::copies::Copies;
use iom_base::DeviceId;
use iom_fabric::MAX_MESSAGES;
use std::alloc::{AllocError, Global};

/// What a message says, as far as the trace shows it.
#[derive(Clone, Copy)]
pub(crate) enum Said {
    /// A device asks for a page. A block device doesn't say which.
    Question(Option<u64>),
    /// It is answered: with the page of this lane, if it is one that was granted, and as this copy.
    Answer {
        lane: Option<usize>,
        copy: Option<usize>,
    },
    /// A device is asked to forget.
    Request(Scope),
    /// A device says that it did.
    Done,
}

/// A message to a device, or from it. One is stale that the device won't keep, or keep the answer to.
#[derive(Clone, Copy)]
pub(crate) struct Message {
    pub(crate) device: DeviceId,
    pub(crate) is_stale: bool,
    pub(crate) said: Said,
}

impl Message {
    pub(crate) fn new(device: DeviceId, said: Said) -> Message {
        Message {
            device,
            is_stale: false,
            said,
        }
    }
}

/// The messages: the one that was sent last stands last.
#[derive(Drop)]
pub(crate) struct Messages {
    list: Vec<Message>,
}

impl Messages {
    pub(crate) fn new(alloc: Global) -> Messages {
        Messages {
            list: Vec::new(alloc),
        }
    }

    /// A message is sent. Where as many are under way as can be, it is lost.
    pub(crate) fn send(&mut self, message: Message) -> Result<(), AllocError> {
        if self.list.len() < MAX_MESSAGES {
            self.list.push(message)?;
        }
        Ok(())
    }

    /// The device says that, or is told it.
    pub(crate) fn say(&mut self, device: DeviceId, said: Said) -> Result<(), AllocError> {
        self.send(Message::new(device, said))
    }

    /// The message at the place.
    pub(crate) fn at(&self, place: u64) -> Option<Message> {
        let place = usize::try_from(place).ok()?;
        self.list.get(place).copied()
    }

    /// The device's questions and answers are stale: it doesn't keep an answer to one of them, so their copies are of no use
    /// from this line on.
    pub(crate) fn spoil(&mut self, id: DeviceId, copies: &mut Copies, line: u64) {
        for message in self.list.iter_mut() {
            if message.device != id {
                continue;
            }
            message.is_stale = true;
            if let Said::Answer {
                copy: Some(copy),
                ..
            } = message.said
            {
                copies.spoil(copy, line);
            }
        }
    }

    /// Takes out the message at the place; those behind it close up.
    pub(crate) fn take(&mut self, place: u64) -> Option<Message> {
        let place = usize::try_from(place).ok()?;
        if place < self.list.len() {
            Some(self.list.remove(place))
        } else {
            None
        }
    }
}

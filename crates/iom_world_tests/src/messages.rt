// Messages under way, as far as the test knows them.

use iom_base::DeviceId;
use std::alloc::AllocError;

/// How many messages are under way at most.
pub(crate) const MOST_MESSAGES: usize = 64;

/// What a message is.
#[derive(Clone, Copy, PartialEq)]
pub(crate) enum What {
    /// A device asks for a page.
    Question,
    /// The answer for the device.
    Answer,
    /// A request to invalidate.
    Request,
    /// The word that one is done.
    Word,
}

/// A message. What its kind doesn't have says nothing.
#[derive(Clone, Copy)]
pub(crate) struct Message {
    pub(crate) what: What,
    pub(crate) device: DeviceId,
    /// The page of a question. Of a block device's it isn't known.
    pub(crate) page: Option<u64>,
    /// Whether an answer has no translation.
    pub(crate) is_refused: bool,
    /// The number of the request.
    pub(crate) serial: u64,
    /// Whether the word comes from a device that wasn't asked.
    pub(crate) is_forged: bool,
}

impl Message {
    /// A message that names this device and this request.
    pub(crate) fn new(what: What, device: DeviceId, serial: u64) -> Message {
        Message {
            what,
            device,
            page: None,
            is_refused: false,
            serial,
            is_forged: false,
        }
    }
}

/// The message goes last, where there is room for it.
pub(crate) fn send(messages: &mut Vec<Message>, message: Message) -> Result<(), AllocError> {
    if messages.len() < MOST_MESSAGES {
        messages.push(message)?;
    }
    Ok(())
}

// Messages on devices' links, as plain values.
use iom_ats_cache::Entry;
use iom_base::{DeviceId, Rights};
use iom_fabric::{Fabric, Message, Translation};

/// What a message says. What is invalidated its number tells.
#[derive(Clone, Copy, PartialEq, Eq)]
pub(crate) enum Said {
    Question {
        epoch: u64,
        page: u64,
    },
    Answer {
        epoch: u64,
        page: u64,
        frame: u32,
        rights: Rights,
    },
    Refusal {
        epoch: u64,
        page: u64,
    },
    Request {
        serial: u64,
    },
    Completion {
        serial: u64,
    },
}

/// A message, and the device on whose link it is.
#[derive(Clone, Copy, PartialEq, Eq)]
pub(crate) struct Sent {
    pub(crate) device: DeviceId,
    pub(crate) said: Said,
}

/// What an answer says.
fn answer(epoch: u64, page: u64, translation: Translation) -> Said {
    match translation {
        Translation::Page { frame, rights } => Said::Answer {
            epoch,
            page,
            frame,
            rights,
        },
        Translation::Refused(_) => Said::Refusal { epoch, page },
    }
}

/// What a message says.
fn plain(message: Message) -> Said {
    match message {
        Message::Ask { epoch, page } => Said::Question {
            epoch,
            page: page.number(),
        },
        Message::Answer {
            epoch,
            page,
            translation,
        } => answer(epoch, page.number(), translation),
        Message::InvReq { serial, .. } => Said::Request { serial },
        Message::InvDone { serial } => Said::Completion { serial },
    }
}

/// The message at a place of the fabric.
pub(crate) fn sent_at(fabric: &Fabric, place: usize) -> Option<Sent> {
    match fabric.get(place) {
        Some(on) => Some(Sent {
            device: on.device,
            said: plain(on.message),
        }),
        None => None,
    }
}

impl Sent {
    /// Whether it is the answer that the device keeps as this entry.
    pub(crate) fn answers(&self, to: DeviceId, entry: &Entry) -> bool {
        match self.said {
            Said::Answer {
                page,
                frame,
                rights,
                ..
            } => {
                self.device == to
                    && page == entry.page.number()
                    && frame == entry.frame
                    && rights == entry.rights
            }
            _ => false,
        }
    }
}

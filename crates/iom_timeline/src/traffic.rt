// The messages between devices and the IOMMU, and the devices' own caches.
use crate::commands::Scope;
use crate::follower::Follower;
use crate::messages::{Message, Said};
use crate::timeline::{CopyKind, MarkKind, Place};
use iom_base::DeviceId;
use iom_fabric::Translation;
use iom_machine::{Event, Outcome};
use std::alloc::AllocError;

impl Follower {
    /// A line by which a device sends something, or is reset.
    pub(crate) fn take_sender(
        &mut self,
        event: &Event,
        outcome: &Outcome,
    ) -> Result<(), AllocError> {
        match (event, outcome) {
            (Event::Ask { device, page }, Outcome::Sent) => {
                let page = Some(page.number());
                self.messages.say(*device, Said::Question(page))
            }
            (Event::Forge { device, .. }, Outcome::Sent) => {
                self.messages.say(*device, Said::Done)
            }
            (Event::Reset { device } | Event::Queue { device, .. }, Outcome::Done) => {
                self.reset(*device);
                Ok(())
            }
            _ => Ok(()),
        }
    }

    /// The device's own cache is empty from here on.
    pub(crate) fn reset(&mut self, id: DeviceId) {
        let line = self.line;
        if let Some(device) = self.devices.get_mut(id) {
            self.copies.drop_all_kept(&device.kept, line);
            device.kept.clear();
        }
        self.messages.spoil(id, &mut self.copies, line);
    }

    /// What came of the delivery of the message at the place.
    pub(crate) fn deliver(&mut self, place: u64, outcome: &Outcome) -> Result<(), AllocError> {
        match outcome {
            Outcome::Answered(translation) => {
                let Some(message) = self.messages.take(place) else {
                    return Ok(());
                };
                self.answer_question(message, *translation)
            }
            Outcome::Kept => {
                let Some(message) = self.messages.take(place) else {
                    return Ok(());
                };
                self.keep(message)
            }
            Outcome::Invalidated(_) => {
                let Some(message) = self.messages.take(place) else {
                    return Ok(());
                };
                self.drop_pages(message)
            }
            Outcome::Closed(_) => {
                self.open_requests = self.open_requests.saturating_sub(1);
                self.lose(place);
                Ok(())
            }
            Outcome::Stale | Outcome::AnswerRefused | Outcome::Ignored | Outcome::NotClosed(_) => {
                self.lose(place);
                Ok(())
            }
            _ => Ok(()),
        }
    }

    /// A question is answered.
    fn answer_question(
        &mut self,
        message: Message,
        translation: Translation,
    ) -> Result<(), AllocError> {
        let Message {
            device,
            is_stale,
            said,
        } = message;
        let Said::Question(page) = said else {
            return Ok(());
        };
        match translation {
            Translation::Page { frame, .. } => {
                let lane = self.lane_at(device, page, Some(u64::from(frame)));
                self.remember(device, lane)?;
                self.send_answer(device, lane, is_stale)
            }
            Translation::Refused(cause) => {
                let lane = self.lane_at(device, page, None);
                let place = self.place_at(device, lane);
                self.mark(place, MarkKind::Fault(cause))?;
                let said = Said::Answer {
                    lane: None,
                    copy: None,
                };
                self.messages.send(Message {
                    device,
                    is_stale,
                    said,
                })
            }
        }
    }

    /// Whether the IOMMU accepts nothing of the device.
    fn is_barred(&self, id: DeviceId) -> bool {
        match self.devices.get(id) {
            Some(device) => device.is_barred,
            None => false,
        }
    }

    /// An answer with the lane's page is sent: of no use where its question is stale, or nothing of the device is accepted.
    fn send_answer(
        &mut self,
        id: DeviceId,
        lane: Option<usize>,
        is_stale: bool,
    ) -> Result<(), AllocError> {
        let place = self.place_at(id, lane);
        let line = self.line;
        let copy = self.copies.begin(CopyKind::Answer, place, line)?;
        if is_stale || self.is_barred(id) {
            self.copies.spoil(copy, line);
        }
        let said = Said::Answer {
            lane,
            copy: Some(copy),
        };
        self.messages.send(Message {
            device: id,
            is_stale,
            said,
        })
    }

    /// The device keeps what it is answered.
    fn keep(&mut self, message: Message) -> Result<(), AllocError> {
        let id = message.device;
        let Said::Answer { lane, copy } = message.said else {
            return Ok(());
        };
        let line = self.line;
        if let Some(copy) = copy {
            self.copies.end(copy, line);
        }
        let Some(lane) = lane else {
            return Ok(());
        };
        if let Some(device) = self.devices.get_mut(id) {
            if let Some(gone) = device.keep(lane)? {
                self.copies.drop_kept(gone, line);
            }
        }
        self.copies.keep(lane, line)?;
        if self.is_barred(id) {
            self.copies.spoil_kept(lane, line);
        }
        Ok(())
    }

    /// The device drops what it is asked to drop, and says so.
    fn drop_pages(&mut self, message: Message) -> Result<(), AllocError> {
        let device = message.device;
        let Said::Request(scope) = message.said else {
            return Ok(());
        };
        let line = self.line;
        match scope {
            Scope::Everything => self.reset(device),
            Scope::Page(page) => {
                if let Some(lane) = self.lane_at(device, Some(page), None) {
                    self.copies.drop_kept(lane, line);
                    if let Some(device) = self.devices.get_mut(device) {
                        device.drop_kept(lane);
                    }
                }
                self.messages.spoil(device, &mut self.copies, line);
            }
        }
        self.messages.say(device, Said::Done)
    }

    /// The message at the place is gone.
    pub(crate) fn lose(&mut self, place: u64) {
        let Some(message) = self.messages.take(place) else {
            return;
        };
        if let Said::Answer {
            copy: Some(copy),
            ..
        } = message.said
        {
            let line = self.line;
            self.copies.end(copy, line);
        }
    }

    /// Where a message stands in the picture.
    fn place_of_message(&self, message: Message) -> Place {
        let device = message.device;
        let lane = match message.said {
            Said::Question(page) => self.lane_at(device, page, None),
            Said::Answer { lane, .. } => lane,
            Said::Request(Scope::Page(page)) => self.lane_at(device, Some(page), None),
            Said::Request(Scope::Everything) | Said::Done => None,
        };
        self.place_at(device, lane)
    }

    /// The message at the place doesn't arrive.
    pub(crate) fn drop_message(&mut self, place: u64) -> Result<(), AllocError> {
        if let Some(message) = self.messages.at(place) {
            let shown = self.place_of_message(message);
            self.mark(shown, MarkKind::Lost)?;
        }
        self.lose(place);
        Ok(())
    }

    /// A copy of the message at the place is sent.
    pub(crate) fn repeat(&mut self, place: u64) -> Result<(), AllocError> {
        let Some(message) = self.messages.at(place) else {
            return Ok(());
        };
        match message.said {
            Said::Answer {
                lane,
                copy: Some(_),
            } => self.send_answer(message.device, lane, message.is_stale),
            _ => self.messages.send(message),
        }
    }
}

// What is said of an access or a question, and what could have come of it.
use crate::devices::{say_absent, say_next};
use crate::facts::Facts;
use crate::notes::Sent;
use crate::pages::{Meant, say_bad_span, say_stale};
use crate::words::{Said, Words};
use iom_base::{Access, AccessKind, DeviceId, PAGE_SIZE, Refusal, Rights, Spare};
use iom_fabric::Translation;
use iom_machine::{Device, Event, Outcome};
use iom_machine_judge::accesses::access_of;
use iom_machine_judge::acts::is_able;
use iom_machine_judge::{questions, requests, through_cache, translated};
use iom_trace_lines::CAUSES;

/// The device whose access to memory the event may begin, if it may.
pub(crate) fn requester(event: &Event) -> Option<DeviceId> {
    match event {
        Event::Read { device, .. }
        | Event::Write { device, .. }
        | Event::ReadTranslated { device, .. }
        | Event::WriteTranslated { device, .. }
        | Event::ReadThroughCache { device, .. }
        | Event::WriteThroughCache { device, .. }
        | Event::Step { device } => Some(*device),
        _ => None,
    }
}

/// A device's request to memory.
#[derive(Clone, Copy)]
struct Request<'a> {
    event: &'a Event,
    device: &'a Device,
    access: &'a Access,
}

impl Facts<'_> {
    /// Whether the request may be answered so, on the frame.
    fn may(&self, request: Request<'_>, frame: u64, outcome: &Outcome) -> bool {
        let (kept, device, access) = (self.kept, request.device, request.access);
        match request.event {
            Event::ReadTranslated { .. } | Event::WriteTranslated { .. } => {
                translated::may_answer(kept, device, access, outcome)
            }
            Event::ReadThroughCache { .. } | Event::WriteThroughCache { .. } => {
                through_cache::may_answer(kept, device, access, frame, outcome)
            }
            _ => requests::may_answer(kept, device, access, frame, outcome),
        }
    }

    /// Says what is known of an access that the event asks of the device, and what could have come of it.
    pub(crate) fn say_access(
        &self,
        words: &mut Words,
        id: DeviceId,
        event: &Event,
        outcome: &Outcome,
    ) -> Said {
        let Some(device) = self.kept.device(id) else {
            return say_absent(words, id);
        };
        if !is_able(event, device.kind) {
            words.say("a device of its kind doesn't do that")?;
            return words.could(Refusal::WrongKind);
        }
        let access = access_of(words.alloc, &mut Spare::new(words.alloc), event)?;
        let request = Request {
            event,
            device,
            access: &access,
        };
        if self.may(request, 0, &Outcome::BadSpan) {
            return say_bad_span(words);
        }
        if self.may(request, 0, &Outcome::Busy) {
            words.say("as many of its accesses are in flight as may be")?;
            return words.could("busy");
        }
        self.say_attachment(words, device)?;
        self.could_come(words, request, outcome)
    }

    /// Says what the request may mean, and what could have come: which number is next, where the line could come with that alone.
    fn could_come(&self, words: &mut Words, request: Request<'_>, outcome: &Outcome) -> Said {
        let Request { device, access, .. } = request;
        let meant = Meant::by(device, access.address / PAGE_SIZE, access.kind);
        if !matches!(
            request.event,
            Event::ReadTranslated { .. } | Event::WriteTranslated { .. }
        ) {
            self.say_meant(words, meant)?;
            self.say_shown(words, meant)?;
        }
        let next = device.accepted.saturating_add(1);
        let may_accept = |frame| self.may(request, frame, &Outcome::Accepted(next));
        let mut frames = Vec::new(words.alloc);
        if let Some(shown) = self.on.filter(|shown| may_accept(*shown)) {
            frames.push(shown)?;
        }
        self.add_frames(&mut frames, meant, may_accept)?;
        let accepted = self.on.or(frames.first().copied());
        if accepted.is_some_and(|frame| frames.contains(&frame)) {
            say_next(words, device, outcome)?;
        }
        for frame in frames.iter() {
            words.could(format_args!("accepted {next} on frame {frame}"))?;
        }
        if self.may(request, 0, &Outcome::Miss) {
            words.could("miss")?;
        }
        for cause in CAUSES.iter() {
            if self.may(request, 0, &Outcome::Fault(*cause)) {
                words.could(format_args!("fault {cause}"))?;
            }
        }
        Ok(())
    }

    /// Says what could have been answered to the device's question of the page, where it may find these frames. No answer names one of
    /// more than 32 bits.
    fn could_tell(&self, words: &mut Words, device: &Device, page: u64, frames: &[u64]) -> Said {
        let may_tell = |reply: Translation| {
            questions::may_tell(device.attachment, self.kept, device.id, page, reply)
        };
        for frame in frames.iter().filter_map(|frame| u32::try_from(*frame).ok()) {
            for rights in [Rights::RW, Rights::R] {
                if may_tell(Translation::Page { frame, rights }) {
                    words.could(format_args!("answer {frame} {rights}"))?;
                }
            }
        }
        for cause in CAUSES.iter() {
            if may_tell(Translation::Refused(*cause)) {
                words.could(format_args!("answer fault {cause}"))?;
            }
        }
        Ok(())
    }

    /// Says what is known of the message at the place and, where this came of its delivery, what could have been answered.
    pub(crate) fn say_message(&self, words: &mut Words, at: u64, came: Option<&Outcome>) -> Said {
        let Some(Sent { device: id, page }) = self.notes.messages.question_at(at) else {
            return words.say(format_args!("no question is at place {at}"));
        };
        let Some(page) = page else {
            return words.say(format_args!("a step of {id:06x} asked, of a page that isn't shown"));
        };
        let Some(device) = self.kept.device(id) else {
            return say_absent(words, id);
        };
        let meant = Meant::by(device, page, AccessKind::Read);
        self.say_meant(words, meant)?;
        let Some(outcome) = came else {
            return Ok(());
        };
        if let Outcome::Answered(Translation::Page { frame, .. }) = outcome {
            say_stale(words, self.stale(meant, u64::from(*frame)))?;
        }
        let mut frames = Vec::new(words.alloc);
        self.add_frames(&mut frames, meant, |_frame| true)?;
        self.could_tell(words, device, page, &frames)
    }
}

// Why a line isn't lawful: what the words are about, by the event, and what is said of the driver's calls.
ghost use Rattle.std.specs.Prelude.{IfOk, Contains, string_bytes};

use crate::accesses::requester;
use crate::devices::say_absent;
use crate::notes::Notes;
use crate::past::Place;
use crate::words::{Said, Words};
use iom_base::{AccessKind, DeviceId, Refusal};
use iom_kept_state::KeptState;
use iom_machine::{Device, Event, Outcome};
use iom_machine_judge::calls::{may_refuse_attach, may_refuse_grant};
use iom_machine_judge::reasons;
use std::alloc::{AllocError, Global};

/// What the reason why a line isn't lawful is put together of.
#[derive(Clone, Copy)]
pub struct Facts<'a> {
    /// The state before the line.
    pub kept: &'a KeptState,
    /// What is noted of the lines before it.
    pub notes: &'a Notes,
    /// The frame on which the line shows an access.
    pub on: Option<u64>,
}

impl Facts<'_> {
    /// Says what a call could have been answered that takes frames, and that nothing forbids: the frames are the cause, where
    /// it is done, since whatever else it shows is in order.
    fn could_take(&self, words: &mut Words, event: &Event, outcome: &Outcome) -> Said {
        if let Outcome::Done = outcome {
            words.say("a frame that the line shows as taken isn't free")?;
        }
        words.could("ok")?;
        let why = Refusal::NoFrames;
        let lacks_frames = match event {
            Event::Attach { mode, .. } => may_refuse_attach(self.kept, *mode, why),
            Event::Grant { device, frame, .. } => may_refuse_grant(self.kept, *device, *frame, why),
            _ => false,
        };
        if lacks_frames {
            words.could(why)?;
        }
        words.could(Refusal::Memory)
    }

    /// Says what a call could have been answered that gives a ticket, and that nothing forbids.
    fn could_ticket(&self, words: &mut Words) -> Said {
        if let Some(next) = self.kept.grants.given.checked_add(1) {
            words.could(format_args!("ticket {next}"))?;
        }
        words.could(Refusal::QueueFull)?;
        words.could(Refusal::NumbersUsedUp)
    }

    /// Says what is known of a grant, which is refused for this reason, if for one.
    fn say_grant(&self, words: &mut Words, place: Place, frame: u64, why: Option<Refusal>) -> Said {
        match why {
            None => {
                self.say_frame(words, frame)?;
                self.say_page(words, place)
            }
            Some(Refusal::FrameOutOfRange | Refusal::FrameReserved) => self.say_frame(words, frame),
            Some(Refusal::IovaOutOfRange) => {
                let (id, kept) = (place.device, self.kept);
                let limit = kept.limits.page_limit(kept.attachment(id));
                words.say(format_args!("{id:06x} has pages 0 to {limit}, less one"))
            }
            Some(Refusal::IovaBusy) => self.say_page(words, place),
            Some(_) => Ok(()),
        }
    }

    /// Says what is known of a call, and what it could have been answered.
    fn say_call(&self, words: &mut Words, event: &Event, outcome: &Outcome) -> Said {
        let kept = self.kept;
        let refusal = match event {
            Event::Plug { device, new } => reasons::plug_refusal(kept, *device, *new),
            Event::Attach { device, ats, .. } => reasons::attach_refusal(kept, *device, *ats),
            Event::Grant {
                device,
                page,
                frame,
                ..
            } => {
                let refusal = reasons::grant_refusal(kept, *device, *page, *frame);
                self.say_grant(words, Place::new(*device, *page), *frame, refusal)?;
                refusal
            }
            Event::Release { device, page } => {
                self.say_page(words, Place::new(*device, *page))?;
                reasons::release_refusal(kept, *device, *page)
            }
            Event::Detach { device } => reasons::detach_refusal(kept, *device),
            Event::Quarantine { device } => reasons::quarantine_refusal(kept, *device),
            Event::Revive { device } => reasons::revive_refusal(kept, *device),
            _ => return Ok(()),
        };
        match (refusal, event) {
            (Some(refusal), _) => words.could(refusal),
            (None, Event::Plug { .. }) => words.could("ok, refused 15 Memory"),
            (None, Event::Revive { .. }) => words.could("ok"),
            (None, Event::Attach { .. } | Event::Grant { .. }) => {
                self.could_take(words, event, outcome)
            }
            (None, _) => self.could_ticket(words),
        }
    }

    /// Says what is known of what the line is about, and what could have come.
    fn say(&self, words: &mut Words, event: &Event, outcome: &Outcome) -> Said {
        match event {
            Event::Commit { device } => self.say_commit(words, *device),
            Event::Step { device } => self.say_step(words, *device, outcome),
            Event::Ask { device, .. }
            | Event::Forge { device, .. }
            | Event::Reset { device }
            | Event::Medium { device, .. }
            | Event::Queue { device, .. }
            | Event::Status { device } => match self.kept.device(*device) {
                None => say_absent(words, *device),
                Some(device) => self.say_attachment(words, device),
            },
            Event::Poll => self.say_poll(words, outcome),
            Event::Deliver { place } => self.say_message(words, *place, Some(outcome)),
            Event::Drop { place } | Event::Repeat { place } => {
                self.say_message(words, *place, None)
            }
            Event::Poke { address, bytes } => {
                let len = bytes.as_slice().len() as u64;
                self.say_bytes(words, AccessKind::Write, *address, len)
            }
            Event::Peek { address, len } => {
                self.say_bytes(words, AccessKind::Read, *address, *len)
            }
            Event::Free { frame } => self.say_free(words, *frame),
            event => match requester(event) {
                Some(device) => self.say_access(words, device, event, outcome),
                None => self.say_call(words, event, outcome),
            },
        }
    }

    /// Why this may not come of the event, in one line.
    pub fn reason(
        &self,
        alloc: Global,
        event: &Event,
        outcome: &Outcome,
    ) -> Result<String, AllocError>
        ensures { IfOk result (λ reason. ¬ Contains (string_bytes reason) 10) }
    {
        let mut words = Words::new(alloc);
        self.say(&mut words, event, outcome)?;
        words.finish()
    }
}

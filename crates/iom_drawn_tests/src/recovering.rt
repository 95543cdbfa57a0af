// What happens in a run in which devices come and go, and don't always answer.

ghost use Rattle.std.specs.Prelude.{IfSome};
ghost use Rattle.iom_world_effects.specs.Unchanged.{IsNoChoice};

use crate::draw::{Draw, NAME_AT};
use crate::run::Run;
use iom_base::{DeviceId, Mode};
use iom_machine::{CommandName, Event, Fetched, Outcome};
use std::test::Fail;

impl Draw {
    /// The device is attached in one of the modes that it has, mostly with ATS where it has a cache.
    fn attach(&mut self) -> Event
        ensures { IsNoChoice result }
    {
        let device = self.device();
        let size = self.size();
        let mode = match self.below(2) {
            0 => Mode::Second(size),
            _ => Mode::Both(size),
        };
        let is_other = device == self.ids().other;
        Event::Attach {
            device,
            mode: if is_other { mode } else { Mode::First(size) },
            ats: (device == self.ids().raw) == (self.below(8) == 0),
        }
    }

    /// What is done about devices, whatever came before.
    fn lifecycle(&mut self) -> Event
        ensures { IsNoChoice result }
    {
        match self.below(16) {
            0 | 1 => Event::Quarantine {
                device: self.device(),
            },
            2 => Event::Reset {
                device: self.device(),
            },
            3 => Event::Restart,
            4 => Event::Timeout,
            5..=9 => Event::Revive {
                device: self.device(),
            },
            10 | 11 => Event::Detach {
                device: self.device(),
            },
            _ => self.attach(),
        }
    }
}

impl Run {
    /// A read through the cache of the device that keeps an answer, where that came at once, and so to the question
    /// that this step delivered.
    fn read_at_once(&self, answered: usize) -> Option<Event>
        ensures { IfSome result (λ event. IsNoChoice event) }
    {
        let step = self.steps.get(answered)?;
        let question = step.question?;
        Some(Event::ReadThroughCache {
            device: question.device,
            address: question.page % (1 << 52) * 4096 + NAME_AT,
            len: 8,
        })
    }

    /// The answer that was sent last comes at once.
    fn deliver_at_once(&self) -> Option<Event>
        ensures { IfSome result (λ event. IsNoChoice event) }
    {
        let place = self.messages.last_place()?;
        Some(Event::Deliver { place })
    }

    /// The request that was sent last is lost.
    fn drop_at_once(&self) -> Option<Event>
        ensures { IfSome result (λ event. IsNoChoice event) }
    {
        let place = self.messages.last_place()?;
        Some(Event::Drop { place })
    }

    /// What the last outcome calls for, if anything does.
    fn called_for(&self) -> Option<Event>
        ensures { IfSome result (λ event. IsNoChoice event) }
    {
        let last = self.steps.len().checked_sub(1)?;
        match &self.steps[last].outcome {
            Outcome::Fetched(Fetched::Waiting) => Some(Event::Timeout),
            Outcome::Fetched(Fetched::Stopped) => Some(Event::Restart),
            Outcome::Fetched(Fetched::Did(CommandName::AtsInval)) => self.drop_at_once(),
            Outcome::TimedOut => Some(Event::Poll),
            Outcome::Answered(_) => self.deliver_at_once(),
            Outcome::Kept => self.read_at_once(last.saturating_sub(1)),
            _ => None,
        }
    }

    /// What is done next about devices, if anything is: one time in three what the last outcome calls for, and
    /// seldom anything.
    pub(crate) fn next_of_lifecycle(&self, draw: &mut Draw) -> Option<Event>
        ensures { IfSome result (λ event. IsNoChoice event) }
    {
        if draw.below(3) == 0 {
            if let Some(event) = self.called_for() {
                return Some(event);
            }
        }
        if draw.below(12) == 0 {
            Some(draw.lifecycle())
        } else {
            None
        }
    }

    /// Whether the last call did what it was asked.
    fn is_done(&self) -> bool {
        match self.steps.last() {
            Some(step) => matches!(step.outcome, Outcome::Done),
            None => false,
        }
    }

    /// A device that was just attached, and so holds nothing, is detached again, or gets pages.
    fn come_back(&mut self, draw: &mut Draw, device: DeviceId) -> Result<(), Fail> {
        if !self.is_done() {
            return Ok(());
        }
        if draw.below(2) == 0 {
            return self.happen(Event::Detach { device });
        }
        self.grant_first(device, 8)
    }

    /// The event happens, and what follows where a device is attached by it.
    pub(crate) fn live(&mut self, draw: &mut Draw, event: Event) -> Result<(), Fail>
        requires { IsNoChoice event }
    {
        match event {
            Event::Attach { device, mode, .. } => {
                self.happen(event)?;
                if self.is_done() && device == self.ids.other {
                    self.guest = mode.size();
                }
                self.come_back(draw, device)
            }
            Event::Revive { device } => {
                self.happen(event)?;
                self.come_back(draw, device)
            }
            _ => self.happen(event),
        }
    }
}

// One line after another, each with its answer.
ghost use Rattle.std.specs.Prelude.{◌≡◌, ◌+◌, ◌<◌, ◌^◌, false, IfOk, IfSome};
ghost use Rattle.iom_hardware_runner.specs.Answers.{claim_text};
ghost use Rattle.iom_hardware_runner.specs.Parts.{KeepsSession, TellsLine};
ghost use Rattle.iom_hardware_session.specs.Answered.{judgement_in};

use crate::fallen::fallen;
use crate::telling::put_answer;
use crate::words::{violation, why};
use iom_base::{AccessKind, DeviceId, PAGE_SIZE};
use iom_board::CacheReply;
use iom_chronicle::{Chronicle, Entrance, Origin};
use iom_command_queue::Command;
use iom_hardware::Stepped as BlockStep;
use iom_hardware_script::{Claim, HardwareLine, NumberedLine};
use iom_hardware_session::{Answer, ClaimAnswer, Session, Stepped};
use iom_inflight::MadeAt;
use iom_iommu::{Begun, Fetched, Load, Reply};
use iom_machine::Event;
use iom_script::LineBuffer;
use iom_stepped_hardware::StepOutcome;
use std::alloc::{AllocError, Global};

/// A session, what is remembered of it, and the answer of the last line.
#[derive(Drop)]
pub(crate) struct Teller {
    alloc: Global,
    pub(crate) session: Session,
    chronicle: Chronicle,
    buffer: LineBuffer,
    /// Whether anything was wrong: a claim, an access, or a claim that was good before.
    pub(crate) is_wrong: bool,
    /// Whether the last line made an access that nothing claimed allows.
    violated: bool,
}

/// What is named by a claim: a frame, and a page of a device.
#[derive(Clone, Copy)]
struct Subject {
    device: DeviceId,
    page: u64,
    frame: u32,
}

/// The device that asks for an access, the address, and by which door it comes in.
fn entrance_of(event: &Event) -> Option<(DeviceId, u64, Entrance)> {
    match event {
        Event::Read {
            device,
            address,
            ..
        }
        | Event::Write {
            device,
            address,
            ..
        } => Some((*device, *address, Entrance::Untranslated)),
        Event::ReadTranslated {
            device,
            address,
            ..
        }
        | Event::WriteTranslated {
            device,
            address,
            ..
        } => Some((*device, *address, Entrance::Forged)),
        Event::ReadThroughCache {
            device,
            address,
            ..
        }
        | Event::WriteThroughCache {
            device,
            address,
            ..
        } => Some((*device, *address, Entrance::ThroughCache)),
        _ => None,
    }
}

/// Whether walks of the session's hardware know leaves of 64 KiB.
fn knows_napot(session: &Session) -> bool {
    match session.features() {
        Some(features) => features.napot,
        None => false,
    }
}

impl Teller {
    pub(crate) fn new(alloc: Global, session: Session, frames: u32) -> Result<Teller, AllocError>
        ensures { IfOk result (λ teller. (teller.session ≡ session) × (teller.is_wrong ≡ false)) }
    {
        let napot = knows_napot(&session);
        Ok(Teller {
            alloc,
            session,
            chronicle: Chronicle::new(alloc, frames, napot)?,
            buffer: LineBuffer::new(alloc)?,
            is_wrong: false,
            violated: false,
        })
    }

    /// What the claim is about, before anything of it is changed.
    fn subject_of(&self, claim: Claim) -> Subject {
        match claim {
            Claim::Grant {
                device,
                page,
                frame,
                rights: _,
            } => self.subject(device, page, frame),
            Claim::Ready { device, page } | Claim::Release { device, page } => {
                match self.session.claims().held_at(device, page) {
                    Some((frame, _)) => self.subject(device, page, u64::from(frame)),
                    None => self.subject(device, page, 0),
                }
            }
            Claim::Done { number } => match u32::try_from(number) {
                Ok(short) => self.subject_of_open(short),
                Err(_) => self.subject(0, 0, 0),
            },
            Claim::HandOff { frame } | Claim::Take { frame } => self.subject(0, 0, frame),
            Claim::Trust { device } => self.subject(device, 0, 0),
        }
    }

    fn subject(&self, device: DeviceId, page: u64, frame: u64) -> Subject {
        Subject {
            device,
            page,
            frame: u32::try_from(frame).unwrap_or(u32::MAX),
        }
    }

    fn subject_of_open(&self, number: u32) -> Subject {
        match self.session.claims().open_claim(number) {
            Some(grant) => self.subject(grant.device, grant.page, u64::from(grant.frame)),
            None => self.subject(0, 0, 0),
        }
    }

    /// What is remembered of a claim that is made.
    fn remember_claim(
        &mut self,
        claim: Claim,
        found: ClaimAnswer,
        about: Subject,
    ) -> Result<(), AllocError>
        ensures { KeepsSession self.old self.new }
    {
        if let ClaimAnswer::Released(number) = found {
            return self
                .chronicle
                .released(number, about.device, about.page, about.frame);
        }
        if !matches!(found, ClaimAnswer::Good | ClaimAnswer::Wrong(_)) {
            return Ok(());
        }
        match claim {
            Claim::Grant { .. } => self
                .chronicle
                .granted(about.device, about.page, about.frame),
            Claim::Done { number } => {
                self.chronicle.done(u32::try_from(number).unwrap_or(0));
                Ok(())
            }
            Claim::HandOff { .. } => {
                self.chronicle.handed_on(about.frame);
                Ok(())
            }
            Claim::Take { .. } => {
                self.chronicle.taken(about.frame);
                Ok(())
            }
            Claim::Ready { .. } | Claim::Release { .. } | Claim::Trust { .. } => Ok(()),
        }
    }

    /// An access was accepted: what let it through.
    fn remember_access(&mut self, event: &Event)
        ensures { KeepsSession self.old self.new }
    {
        if let Some((device, address, entrance)) = entrance_of(event) {
            self.chronicle
                .accepted(self.session.hardware(), device, address, entrance);
        }
    }

    /// A block device's step began an access, which was accepted: what let it through. The device waits for it now.
    fn remember_step(&mut self, event: &Event) -> Result<(), AllocError>
        ensures { KeepsSession self.old self.new }
    {
        let Event::Step { device } = event else {
            return Ok(());
        };
        let Some(access) = self.session.wanted(*device)? else {
            return Ok(());
        };
        let hardware = self.session.hardware();
        let entrance = match hardware.kind_of(*device) {
            Some(kind) if kind.has_cache() => Entrance::ThroughCache,
            _ => Entrance::Untranslated,
        };
        self.chronicle
            .accepted(hardware, *device, access.address, entrance);
        Ok(())
    }

    /// An access was made: where a write stored its bytes, and what let it through.
    fn remember_made(&mut self, made: MadeAt) -> Option<Origin>
        ensures { KeepsSession self.old self.new }
    {
        if made.kind == AccessKind::Write {
            let address = u64::from(made.frame) * PAGE_SIZE + u64::from(made.offset);
            self.chronicle.stored(address, u64::from(made.len));
        }
        self.chronicle.made(made.device)
    }

    /// What is new of all that hardware keeps is since this line.
    fn notice(&mut self)
        ensures { KeepsSession self.old self.new }
    {
        self.chronicle.notice(self.session.hardware());
        if let Some(pointers) = self.session.pointers() {
            self.chronicle.notice_pointers(pointers.as_slice());
        }
    }

    /// What is remembered of a line of hardware, devices or the processor. What let the access through, where one was made.
    fn remember_event(
        &mut self,
        event: &Event,
        answer: &Answer,
    ) -> Result<Option<Origin>, AllocError>
        ensures { KeepsSession self.old self.new }
    {
        let mut origin = None;
        match answer {
            Answer::Replied(Ok(Reply::Accepted(_)))
            | Answer::Begun(Ok(Begun::Answered(Reply::Accepted(_))))
            | Answer::ThroughCache(Ok(CacheReply::Replied(Reply::Accepted(_)))) => {
                self.remember_access(event)
            }
            Answer::TookStep(Ok(BlockStep::Began(Reply::Accepted(_))))
            | Answer::StepOutcome(Ok(StepOutcome::Took(BlockStep::Began(Reply::Accepted(_))))) =>
                self.remember_step(event)?,
            Answer::Committed(Ok(Some(made))) => origin = self.remember_made(*made),
            Answer::Fetched(
                Fetched::Did(
                    Command::IofenceC {
                        store: Some(store),
                        ..
                    },
                ),
            ) => self.chronicle.stored(store.address.address(), 4),
            Answer::Stored(Ok(())) => self.remember_store(event),
            _ => {}
        }
        self.notice();
        Ok(origin)
    }

    /// What is remembered of a load of the device's walk: where it let the access through, that it did.
    fn remember_load(&mut self, device: DeviceId, answer: &Answer)
        ensures { KeepsSession self.old self.new }
    {
        let hardware = self.session.hardware();
        if let Answer::WalkLoad(Ok(Load::Ended(Reply::Accepted(_)))) = answer {
            // Of a walk the line is kept alone, and not the address.
            self.chronicle.accepted(hardware, device, 0, Entrance::Walk);
        }
        self.notice();
    }

    fn remember_store(&mut self, event: &Event)
        ensures { KeepsSession self.old self.new }
    {
        if let Event::Poke { address, bytes } = event {
            self.chronicle
                .stored(*address, bytes.as_slice().len() as u64);
        }
    }

    /// The answer of the line, without a line feed, but for the words of what is wrong, which come second.
    pub(crate) fn tell(&mut self, line: &NumberedLine) -> Result<String, AllocError>
        requires { self.old.session.hardware.board.events + 1 < 2 ^ 64 }
        ensures { TellsLine self.old line.now.line self.new }
    {
        self.chronicle.begin(line.number);
        match &line.line {
            HardwareLine::Claim(claim) => self.tell_claim(&line.line, *claim),
            HardwareLine::Event(event) => self.tell_event(&line.line, event),
            HardwareLine::Load { device } => Ok(self.tell_load(&line.line, *device)),
            HardwareLine::RegisterRead { .. }
            | HardwareLine::RegisterWrite { .. }
            | HardwareLine::Help(_) => {
                self.step(&line.line);
                self.tell_fallen()
            }
        }
    }

    /// The line happens, and its answer stands in the buffer.
    fn step(&mut self, line: &HardwareLine) -> Stepped
        requires { self.old.session.hardware.board.events + 1 < 2 ^ 64 }
        ensures tells { TellsLine self.old line.now self.new }
        ensures told { IfSome (judgement_in result.answer) (λ found. self.new.buffer ≡ claim_text found) }
    {
        let stepped = self.session.line(line);
        self.is_wrong |= self.session.is_wrong(&stepped);
        self.violated = stepped.violated;
        put_answer(
            &mut self.buffer,
            line,
            &stepped.answer,
            self.session.hardware(),
        );
        stepped
    }

    fn tell_claim(&mut self, line: &HardwareLine, claim: Claim) -> Result<String, AllocError>
        requires { self.old.session.hardware.board.events + 1 < 2 ^ 64 }
        ensures { TellsLine self.old line.now self.new }
    {
        let about = self.subject_of(claim);
        let stepped = self.step(line);
        let Answer::Claim(found) = stepped.answer else {
            return Ok(String::new(self.alloc));
        };
        let words = match found {
            ClaimAnswer::Wrong(wrong) => why(
                self.alloc,
                &self.session,
                &self.chronicle,
                about.frame,
                about.page,
                wrong,
            )?,
            _ => String::new(self.alloc),
        };
        self.remember_claim(claim, found, about)?;
        Ok(words)
    }

    fn tell_event(&mut self, line: &HardwareLine, event: &Event) -> Result<String, AllocError>
        requires { self.old.session.hardware.board.events + 1 < 2 ^ 64 }
        ensures { TellsLine self.old line.now self.new }
    {
        let stepped = self.step(line);
        let origin = self.remember_event(event, &stepped.answer)?;
        match stepped.answer {
            Answer::Committed(Ok(Some(made))) => self.tell_made(made, stepped.violated, origin),
            Answer::Stored(_) | Answer::Plugged(_) | Answer::TookDisk(_) => self.tell_fallen(),
            _ => Ok(String::new(self.alloc)),
        }
    }

    /// The next load of the device's walk: there are no words behind its answer.
    fn tell_load(&mut self, line: &HardwareLine, device: DeviceId) -> String
        requires { self.old.session.hardware.board.events + 1 < 2 ^ 64 }
        ensures { TellsLine self.old line.now self.new }
    {
        let stepped = self.step(line);
        self.remember_load(device, &stepped.answer);
        String::new(self.alloc)
    }

    /// What is told of an access that was made: that nothing claimed allows it; and which claims aren't good any more, where
    /// a device that software trusts wrote.
    fn tell_made(
        &self,
        made: MadeAt,
        violated: bool,
        origin: Option<Origin>,
    ) -> Result<String, AllocError> {
        let fallen = self.tell_fallen()?;
        if !violated {
            return Ok(fallen);
        }
        let mut words = violation(self.alloc, &self.chronicle, made, origin)?;
        words.push_str(&fallen)?;
        Ok(words)
    }

    /// Which claims that were good aren't any more, behind the last line.
    pub(crate) fn tell_fallen(&self) -> Result<String, AllocError> {
        fallen(self.alloc, &self.session, &self.chronicle)
    }

    /// Whether the last line made an access that nothing claimed allows.
    pub(crate) fn has_violated(&self) -> bool
        ensures { result ≡ self.now.violated }
    {
        self.violated
    }

    /// How many events hardware has counted.
    pub(crate) fn events(&self) -> u64
        ensures { result ≡ self.now.session.hardware.board.events }
    {
        self.session.hardware().events
    }

    /// The text of the answer that the last line had, but for the words of what is wrong.
    pub(crate) fn answer(&self) -> &[u8]
        ensures { result.now ≡ self.now.buffer }
    {
        self.buffer.as_slice()
    }
}

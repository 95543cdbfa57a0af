ghost use Rattle.std.specs.Prelude.{◌≡◌, ◌↔◌, ◌+◌, ◌<◌, ◌^◌, ◌≤◌, [], Some, false, option_map, IfOk, IfSome, IfNone, IsTrue};
ghost use Rattle.iom_claims.specs.Claimed.{Claimed, nothing_claimed};
ghost use Rattle.iom_claims.specs.Shown.{ShowsClaimed};
ghost use Rattle.iom_block_devices.specs.Changes.{block_with};
ghost use Rattle.iom_block_devices.specs.Wanted.{wanted_of};
ghost use Rattle.iom_hardware.specs.Inside.{inside};
ghost use Rattle.iom_hardware.specs.PowerOn.{IsHardwareAtPowerOn};
ghost use Rattle.iom_hardware_session.specs.Admitted.{ClaimIsAdmitted};
ghost use Rattle.iom_hardware_session.specs.Claiming.{claimed_after};
ghost use Rattle.iom_hardware_session.specs.Answered.{judgement_in};
ghost use Rattle.iom_hardware_session.specs.Runs.{is_wrong_claim, has_fallen, is_wrong_by};
ghost use Rattle.iom_hardware_session.specs.Good.{GoodMeans};
ghost use Rattle.iom_hardware_session.specs.Paces.{beside_at_power_on};
ghost use Rattle.iom_hardware_session.specs.declared.beside.Beside.TheVariants as kept;
ghost use Rattle.iom_hardware_session.specs.Shown.{features_in, pointers_in, shown_in, walks_in};
ghost use Rattle.iom_hardware_session.specs.Watching.{WatchesClaim};
ghost use Rattle.iom_hardware_session.specs.Wrong.{IfWrong, WrongMeans};
ghost use Rattle.iom_hardware_session.specs.Lines.{Trusts, LineEffect, TrustsBy, IsGoodLine, IsWrongLine, WatchesStep, WatchesBy, writes, is_of_software, claimed_by, made_by, IsViolation, IsAllowed, IsAdmittedLine};
ghost use Rattle.iom_program_disks.specs.Disks.{program_disks};
ghost use Rattle.iom_virtio_blk.specs.MemoryDisks.{disk_state};
ghost use Rattle.iom_way_survey.specs.Surveys.{IsConflict, IsConflictFree, is_id_among};

use crate::answer::{Answer, ClaimAnswer};
use crate::beside::Beside;
use crate::state::Session;
use crate::watched::{Watched, drop_fallen};
use iom_base::{Access, AccessKind, DeviceId};
use iom_board::Board;
use iom_claims::Claims;
use iom_hardware::Hardware;
use iom_hardware_script::{Claim, HardwareLine, Pace, Setup};
use iom_inflight::MadeAt;
use iom_machine::Event;
use iom_phys_mem::MemError;
use iom_pointers::{Features, Pointers};
use iom_program_disks::program_disks;
use iom_stepped_hardware::laws::events_stay_beside;
use iom_walks::Walks;
use iom_way_survey::{Conflict, Survey};
use std::alloc::{AllocError, Global};

/// What comes of a line, and whether the access that it made is one that nothing claimed allows.
#[derive(Clone, Copy, PartialEq, Eq)]
pub struct Stepped {
    pub answer: Answer,
    pub violated: bool,
}

impl Session {
    /// Hardware at power-on, of this pace and with so many frames of memory, with the disks of the programs at hand, nothing
    /// under way and nothing claimed.
    pub fn new(alloc: Global, setup: Setup) -> Result<Session, MemError>
        ensures power_on { IfOk result (λ session. IsHardwareAtPowerOn setup.frames program_disks session.hardware.board (inside disk_state session.hardware)) }
        ensures beside { IfOk result (λ session. session.beside ≡ beside_at_power_on setup.pace) }
        ensures claims { IfOk result (λ session. ShowsClaimed session.claims nothing_claimed) }
        ensures trusted { IfOk result (λ session. session.trusted.items ≡ []) }
        ensures watched { IfOk result (λ session. session.watched.items ≡ []) }
    {
        let Ok(disks) = program_disks(alloc) else {
            return Err(MemError::OutOfMemory);
        };
        let hardware = Hardware::new(alloc, setup.frames, disks)?;
        let Ok(survey) = Survey::new(alloc) else {
            return Err(MemError::OutOfMemory);
        };
        let Ok(beside) = beside_of(alloc, setup.pace) else {
            return Err(MemError::OutOfMemory);
        };
        events_stay_beside();
        Ok(Session {
            hardware,
            beside,
            claims: Claims::new(alloc),
            trusted: Vec::new(alloc),
            watched: Vec::new(alloc),
            alloc,
            survey,
        })
    }

    /// The board of the hardware, to be looked at.
    pub fn hardware(&self) -> &Board
        ensures { result.now ≡ self.now.hardware.board }
    {
        &self.hardware.board
    }

    /// The requests that are under way, where a walk takes several events.
    pub fn walks(&self) -> Option<&Walks>
        ensures { option_map (λ w. w.now) result ≡ walks_in self.now.beside }
    {
        match &self.beside {
            Beside::UnderWay(walks) => Some(walks),
            Beside::Nothing | Beside::Pointers(_, _) => None,
        }
    }

    /// The pointers to tables that hardware caches; None where it caches none.
    pub fn pointers(&self) -> Option<&Pointers>
        ensures { option_map (λ p. p.now) result ≡ pointers_in self.now.beside }
    {
        match &self.beside {
            Beside::Pointers(_, pointers) => Some(pointers),
            Beside::Nothing | Beside::UnderWay(_) => None,
        }
    }

    /// What walks do beside those of the model's own IOMMU, where requests are walked ahead; else None.
    pub fn features(&self) -> Option<Features>
        ensures { result ≡ features_in self.now.beside }
    {
        match &self.beside {
            Beside::Pointers(features, _) => Some(*features),
            Beside::Nothing | Beside::UnderWay(_) => None,
        }
    }

    /// The access that the block device wants, or waits for where it began that. None where it wants none, or no block
    /// device has the id.
    pub fn wanted(&self, id: DeviceId) -> Result<Option<Access>, AllocError>
        ensures { IfOk result (λ access. access ≡ wanted_of (block_with (shown_in self.now).inside.blocks id)) }
    {
        self.hardware.wanted(self.alloc, id)
    }

    /// What is claimed, to be looked at.
    pub fn claims(&self) -> &Claims
        ensures { result.now ≡ self.now.claims }
    {
        &self.claims
    }

    /// Who can write what hardware reads, by what was last looked at: the first, if anybody can.
    pub fn conflict(&self) -> Option<Conflict>
        ensures some { IfSome result (IsConflict self.now.survey) }
        ensures none { IfNone result (IsConflictFree self.now.survey) }
    {
        self.survey.first_conflict()
    }

    fn claim(&mut self, claim: Claim) -> ClaimAnswer
        ensures claimed { (c : Claimed) → ShowsClaimed self.old.claims c → ShowsClaimed self.new.claims (claimed_after claim result c) }
        ensures good { (c : Claimed) → ShowsClaimed self.old.claims c
            → result ≡ ClaimAnswer.Good → GoodMeans claim (shown_in self.new) self.new.trusted.items c (claimed_after claim result c) }
        ensures wrong { (c : Claimed) → ShowsClaimed self.old.claims c
            → IfWrong result (λ why. WrongMeans claim why (shown_in self.new) self.new.trusted.items c (claimed_after claim result c)) }
        ensures watched { (c : Claimed) → ShowsClaimed self.old.claims c
            → WatchesClaim claim result c self.old.watched.items self.new.watched.items }
        ensures admitted { (c : Claimed) → ShowsClaimed self.old.claims c → ClaimIsAdmitted claim result self.old.hardware.board c }
        ensures trusts { Trusts claim result self.old.trusted.items self.new.trusted.items }
        ensures hardware { self.new.hardware ≡ self.old.hardware }
        ensures beside { self.new.beside ≡ self.old.beside }
    {
        match claim {
            Claim::Grant {
                device,
                page,
                frame,
                rights,
            } => self.claim_grant(device, page, frame, rights),
            Claim::Ready { device, page } => self.claim_ready(device, page),
            Claim::Release { device, page } => self.claim_release(device, page),
            Claim::Done { number } => self.claim_done(number),
            Claim::HandOff { frame } => self.claim_hand_off(frame),
            Claim::Take { frame } => self.claim_take(frame),
            Claim::Trust { device } => self.claim_trust(device),
        }
    }

    /// Whether nothing that is claimed allows the access.
    fn is_violation(&self, made: MadeAt) -> bool
        ensures violated { (c : Claimed) → ShowsClaimed self.now.claims c → IsTrue result ↔ IsViolation c (Some made) }
        ensures allowed { (c : Claimed) → ShowsClaimed self.now.claims c → result ≡ false → IsAllowed c (Some made) }
    {
        !self.claims.may(made.device, made.frame, made.kind)
    }

    /// Whether the line made an access that nothing claimed allows.
    fn is_violated(&self, answer: &Answer) -> bool
        ensures violated { (c : Claimed) → ShowsClaimed self.now.claims c → IsTrue result ↔ IsViolation c (made_by answer.now) }
        ensures allowed { (c : Claimed) → ShowsClaimed self.now.claims c → result ≡ false → IsAllowed c (made_by answer.now) }
    {
        match answer {
            Answer::Committed(Ok(Some(made))) => self.is_violation(*made),
            _ => false,
        }
    }

    /// What comes of a line, of hardware, of software or of what the driver claims.
    fn answer(&mut self, line: &HardwareLine) -> Answer
        requires count { self.old.hardware.board.events + 1 < 2 ^ 64 }
        ensures effect { LineEffect line.now result (shown_in self.old) (shown_in self.new) }
        ensures claimed { (c : Claimed) → ShowsClaimed self.old.claims c → ShowsClaimed self.new.claims (claimed_by line.now result c) }
        ensures trusted { TrustsBy line.now result self.old.trusted.items self.new.trusted.items }
        ensures good { (c : Claimed) → ShowsClaimed self.old.claims c → IsGoodLine line.now result (shown_in self.new) self.new.trusted.items c }
        ensures wrong { (c : Claimed) → ShowsClaimed self.old.claims c
            → IsWrongLine line.now result (shown_in self.new) self.new.trusted.items c }
        ensures admitted { (c : Claimed) → ShowsClaimed self.old.claims c → IsAdmittedLine line.now result self.old.hardware.board c }
        ensures watched { (c : Claimed) → ShowsClaimed self.old.claims c
            → WatchesStep line.now result c self.old.watched.items self.new.watched.items }
        ensures counted { self.new.hardware.board.events ≤ self.old.hardware.board.events + 1 }
    {
        match line {
            HardwareLine::Event(event) => self.event(event),
            HardwareLine::Load { device } => self.load_next(*device),
            HardwareLine::RegisterRead { offset, width } => self.read_register(*offset, *width),
            HardwareLine::RegisterWrite {
                offset,
                width,
                value,
            } => self.write_register(*offset, *width, *value),
            HardwareLine::Claim(claim) => Answer::Claim(self.claim(*claim)),
            HardwareLine::Help(_) => Answer::NotOfHardware,
        }
    }

    /// What comes of a line, and whether it made an access that nothing claimed allows. Claims that were good are judged
    /// again where software changes hardware: [`Session::watched`] tells what is found of them.
    pub fn line(&mut self, line: &HardwareLine) -> Stepped
        requires count { self.old.hardware.board.events + 1 < 2 ^ 64 }
        ensures effect { LineEffect line.now result.answer (shown_in self.old) (shown_in self.new) }
        ensures claimed { (c : Claimed) → ShowsClaimed self.old.claims c
            → ShowsClaimed self.new.claims (claimed_by line.now result.answer c) }
        ensures trusted { TrustsBy line.now result.answer self.old.trusted.items self.new.trusted.items }
        ensures good { (c : Claimed) → ShowsClaimed self.old.claims c → IsGoodLine line.now result.answer (shown_in self.new) self.new.trusted.items c }
        ensures wrong { (c : Claimed) → ShowsClaimed self.old.claims c
            → IsWrongLine line.now result.answer (shown_in self.new) self.new.trusted.items c }
        ensures admitted { (c : Claimed) → ShowsClaimed self.old.claims c → IsAdmittedLine line.now result.answer self.old.hardware.board c }
        ensures watched { (c : Claimed) → ShowsClaimed self.old.claims c → WatchesBy line.now result.answer c self.old self.new }
        ensures violated { (c : Claimed) → ShowsClaimed self.old.claims c → IsTrue result.violated ↔ IsViolation c (made_by result.answer) }
        ensures allowed { (c : Claimed) → ShowsClaimed self.old.claims c → result.violated ≡ false → IsAllowed c (made_by result.answer) }
        ensures counted { self.new.hardware.board.events ≤ self.old.hardware.board.events + 1 }
    {
        drop_fallen(&mut self.watched);
        let answer = self.answer(line);
        let violated = self.is_violated(&answer);
        if is_of_software(line, &answer, &self.trusted) {
            self.judge_again();
        }
        Stepped { answer, violated }
    }

    /// Whether something is wrong by what came of the last line: its claim, the access that it made, or a claim that was good
    /// before.
    pub fn is_wrong(&self, stepped: &Stepped) -> bool
        ensures { result ≡ is_wrong_by stepped.now self.now.watched.items }
    {
        is_wrong_claim(&stepped.answer) || stepped.violated || has_fallen(&self.watched)
    }

    /// The claims that were good, in their order, each about something else. Behind a line of software they were judged
    /// again, and one that isn't good any more says why; it is forgotten at the next line.
    pub fn watched(&self) -> &[Watched]
        ensures { result.now ≡ self.now.watched.items }
    {
        &self.watched
    }
}

/// What hardware keeps beside it at power-on that walks requests ahead: no pointer yet.
fn ahead_of(alloc: Global, nonleaf: bool, napot: bool) -> Result<Beside, AllocError>
    ensures { IfOk result (λ beside. beside ≡ kept.Pointers (record { nonleaf = nonleaf; napot = napot }) []) }
{
    let pointers = Pointers::new(alloc)?;
    Ok(Beside::Pointers(Features { nonleaf, napot }, pointers))
}

/// What hardware of this pace keeps beside it at power-on: nothing yet, with room for it.
fn beside_of(alloc: Global, pace: Pace) -> Result<Beside, AllocError>
    ensures { IfOk result (λ beside. beside ≡ beside_at_power_on pace) }
{
    match pace {
        Pace::Whole => Ok(Beside::Nothing),
        Pace::Stepped => {
            let walks = Walks::new(alloc)?;
            Ok(Beside::UnderWay(walks))
        }
        Pace::Pointed => ahead_of(alloc, true, false),
        Pace::Napot => ahead_of(alloc, false, true),
        Pace::PointedNapot => ahead_of(alloc, true, true),
    }
}

/// Whether the answer says that a claim is wrong.
fn is_wrong_claim(answer: &Answer) -> bool
    ensures { result ≡ is_wrong_claim (judgement_in answer.now) }
{
    matches!(answer, Answer::Claim(ClaimAnswer::Wrong(_)))
}

/// Whether a claim that was good isn't any more.
fn has_fallen(watched: &[Watched]) -> bool
    ensures { result ≡ has_fallen watched.now }
{
    watched.iter().any(|own| own.why.is_some())
}

/// Whether the line made a write.
fn writes(answer: &Answer) -> bool
    ensures { result ≡ writes answer.now }
{
    match answer {
        Answer::Committed(Ok(Some(made))) => made.kind == AccessKind::Write,
        _ => false,
    }
}

/// Whether the device is one of those.
fn is_among(devices: &[DeviceId], device: DeviceId) -> bool
    ensures { result ≡ is_id_among devices.now device }
{
    devices.iter().any(|own| *own == device)
}

/// Whether software changes hardware by the line, or plugs a device or a disk in. What a trusted device writes counts as a store of
/// software.
fn is_of_software(line: &HardwareLine, answer: &Answer, trusted: &[DeviceId]) -> bool
    ensures { result ≡ is_of_software line.now answer.now trusted.now }
{
    match line {
        HardwareLine::Event(Event::Poke { .. } | Event::Plug { .. } | Event::Medium { .. })
        | HardwareLine::RegisterWrite { .. } => true,
        HardwareLine::Event(Event::Commit { device }) => {
            writes(answer) && is_among(trusted, *device)
        }
        _ => false,
    }
}

// What the driver claims, and what is found of it.
ghost use Rattle.std.specs.Prelude.{◌≡◌, ◌⊎◌, ◌<◌, ◌≤◌, ◌^◌, true, length, IfOk, IfErr, IfSome, IfNone, OnOk, OnErr};
ghost use Rattle.iom_base.specs.Rights.{allows};
ghost use Rattle.iom_board.specs.BoardParts.{board_parts};
ghost use Rattle.iom_claims.specs.Claimed.{Claimed};
ghost use Rattle.iom_claims.specs.Shown.{ShowsClaimed};
ghost use Rattle.iom_hardware_script.specs.declared.script.Claim.{Claim as Said};
ghost use Rattle.iom_hardware_script.specs.declared.script.Claim.TheVariants as said;
ghost use Rattle.iom_hardware_session.specs.Admitted.{IsDeviceKnown, ClaimIsAdmitted, GrantIsRefused, FrameIsRefused};
ghost use Rattle.iom_hardware_session.specs.Claiming.{claimed_after};
ghost use Rattle.iom_hardware_session.specs.Good.{GoodMeans};
ghost use Rattle.iom_hardware_session.specs.Ready.{IsReady, ReadyIsWrong};
ghost use Rattle.iom_hardware_session.specs.ReadyPointed.{ArePointersReady, IsUnreadyByPointer, PointersLead, PointersLeadAstray};
ghost use Rattle.iom_hardware_session.specs.Lines.{KeepsHardware, KeepsAll, TrustsAlso};
ghost use Rattle.iom_hardware_session.specs.Shown.{knows_napot, shown_in};
ghost use Rattle.iom_hardware_session.specs.Watching.{WatchesClaim};
ghost use Rattle.iom_hardware_session.specs.Wrong.{IfWrong, WrongMeans};

use crate::answer::{ClaimAnswer, Wrong};
use crate::beside::Beside;
use crate::ready::{unreadiness, unreadiness_ahead};
use crate::state::Session;
use crate::watched::{GoodClaim, drop_hand_off, watch};
use iom_base::{AccessKind, DeviceId, GrantRights, Refusal, Rights};
use iom_board::Board;
use iom_claims::{Grant, NoSuchClaim};
use iom_phys_mem::Bytes;

/// The pages of the 64-bit address space.
const PAGES: u64 = 1 << 52;

/// What a request at the page finds that is walked ahead, where hardware does so, and it isn't the frame with the right.
fn unreadiness_beside(
    hardware: &Board,
    beside: &Beside,
    device: DeviceId,
    page: u64,
    frame: u32,
    rights: Rights,
) -> Option<Wrong>
    ensures some { IfSome result (PointersLeadAstray beside.now (board_parts hardware.now) device page frame rights) }
    ensures none { IfNone result ((kind : AccessKind) → allows rights kind ≡ true
        → PointersLead beside.now (board_parts hardware.now) device page frame kind) }
{
    match beside {
        Beside::Pointers(features, pointers) => unreadiness_ahead(
            hardware,
            features.napot,
            pointers,
            device,
            page,
            frame,
            rights,
        ),
        Beside::Nothing | Beside::UnderWay(_) => None,
    }
}

/// Whether walks know leaves of 64 KiB.
fn knows_napot(beside: &Beside) -> bool
    ensures { result ≡ knows_napot beside.now }
{
    match beside {
        Beside::Pointers(features, _) => features.napot,
        Beside::Nothing | Beside::UnderWay(_) => false,
    }
}

impl Session {
    /// The number of a frame of memory.
    fn frame_of(&self, frame: u64) -> Result<u32, Refusal>
        ensures number { IfOk result (λ number. (number ≡ frame) × (number < length self.now.hardware.board.memory)) }
        ensures refused { IfErr result (λ why. FrameIsRefused why frame self.now.hardware.board) }
    {
        if frame >= u64::from(self.hardware.board.memory.frames()) {
            return Err(Refusal::FrameOutOfRange);
        }
        Ok(frame as u32)
    }

    /// The number of the frame that is claimed for the device at the page, or why it can't be.
    fn grantable(&self, device: DeviceId, page: u64, frame: u64) -> Result<u32, Refusal>
        ensures number { IfOk result (λ number. (number ≡ frame) × (number < length self.now.hardware.board.memory)) }
        ensures admitted { OnOk result (IsDeviceKnown self.now.hardware.board device × (page < 2 ^ 52)) }
        ensures refused { (c : Claimed) → IfErr result (λ why. GrantIsRefused why device page frame self.now.hardware.board c) }
    {
        if self.hardware.board.kind_of(device).is_none() {
            return Err(Refusal::NoSuchDevice);
        }
        let number = self.frame_of(frame)?;
        if page >= PAGES {
            return Err(Refusal::IovaOutOfRange);
        }
        Ok(number)
    }

    /// The number of a claim that was given it.
    fn number_of(&self, number: u64) -> Result<u32, NoSuchClaim>
        ensures short { IfOk result (λ short. short ≡ number) }
        ensures not_given { OnErr result (self.now.claims.last < number) }
    {
        if number > u64::from(self.claims.last()) {
            return Err(NoSuchClaim);
        }
        Ok(number as u32)
    }

    /// From here on the device may reach the frame at the page, with the right. Wrong where hardware uses the frame.
    pub(crate) fn claim_grant(
        &mut self,
        device: DeviceId,
        page: u64,
        frame: u64,
        rights: GrantRights,
    ) -> ClaimAnswer
        ensures claimed { (c : Claimed) → ShowsClaimed self.old.claims c
            → ShowsClaimed self.new.claims (claimed_after (said.Grant device page frame rights) result c) }
        ensures good { (c : Claimed) → ShowsClaimed self.old.claims c → result ≡ ClaimAnswer.Good
            → GoodMeans (said.Grant device page frame rights) (shown_in self.new) self.new.trusted.items c (claimed_after (said.Grant device page frame rights) result c) }
        ensures wrong { (c : Claimed) → ShowsClaimed self.old.claims c
            → IfWrong result
            (λ why. WrongMeans (said.Grant device page frame rights) why (shown_in self.new) self.new.trusted.items c
            (claimed_after (said.Grant device page frame rights) result c)) }
        ensures watched { (c : Claimed) → ShowsClaimed self.old.claims c
            → WatchesClaim (said.Grant device page frame rights) result c self.old.watched.items self.new.watched.items }
        ensures admitted { (c : Claimed) → ShowsClaimed self.old.claims c → ClaimIsAdmitted (said.Grant device page frame rights) result self.old.hardware.board c }
        ensures hardware { KeepsHardware self.old self.new }
    {
        let number = match self.grantable(device, page, frame) {
            Ok(number) => number,
            Err(why) => return ClaimAnswer::Refused(why),
        };
        let grant = Grant {
            device,
            page,
            frame: number,
            rights: rights.rights(),
        };
        if let Err(why) = self.claims.grant(grant) {
            return ClaimAnswer::Refused(why);
        }
        drop_hand_off(&mut self.watched, number);
        if !self.look() {
            return ClaimAnswer::Wrong(Wrong::Uncertain);
        }
        if self.is_used(number) {
            return ClaimAnswer::Wrong(Wrong::Used);
        }
        ClaimAnswer::Good
    }

    /// What the device holds at the page is withdrawn.
    pub(crate) fn claim_release(&mut self, device: DeviceId, page: u64) -> ClaimAnswer
        ensures claimed { (c : Claimed) → ShowsClaimed self.old.claims c
            → ShowsClaimed self.new.claims (claimed_after (said.Release device page) result c) }
        ensures wrong { IfWrong result (λ why. ⊥) }
        ensures watched { self.new.watched ≡ self.old.watched }
        ensures admitted { (c : Claimed) → ShowsClaimed self.old.claims c → ClaimIsAdmitted (said.Release device page) result self.old.hardware.board c }
        ensures hardware { KeepsHardware self.old self.new }
    {
        if self.hardware.board.kind_of(device).is_none() {
            return ClaimAnswer::Refused(Refusal::NoSuchDevice);
        }
        match self.claims.release(device, page) {
            Ok(number) => ClaimAnswer::Released(number),
            Err(why) => ClaimAnswer::Refused(why),
        }
    }

    /// No way is left to what was withdrawn under the number.
    pub(crate) fn claim_done(&mut self, number: u64) -> ClaimAnswer
        ensures claimed { (c : Claimed) → ShowsClaimed self.old.claims c
            → ShowsClaimed self.new.claims (claimed_after (said.Done number) result c) }
        ensures good { (c : Claimed) → ShowsClaimed self.old.claims c → result ≡ ClaimAnswer.Good
            → GoodMeans (said.Done number) (shown_in self.new) self.new.trusted.items c (claimed_after (said.Done number) result c) }
        ensures wrong { (c : Claimed) → ShowsClaimed self.old.claims c
            → IfWrong result
            (λ why. WrongMeans (said.Done number) why (shown_in self.new) self.new.trusted.items c (claimed_after (said.Done number) result c)) }
        ensures watched { (c : Claimed) → ShowsClaimed self.old.claims c
            → WatchesClaim (said.Done number) result c self.old.watched.items self.new.watched.items }
        ensures admitted { (c : Claimed) → ShowsClaimed self.old.claims c → ClaimIsAdmitted (said.Done number) result self.old.hardware.board c }
        ensures hardware { KeepsHardware self.old self.new }
    {
        let Ok(short) = self.number_of(number) else {
            return ClaimAnswer::NoSuchClaim;
        };
        let Some(grant) = self.claims.open_claim(short) else {
            return ClaimAnswer::NoSuchClaim;
        };
        if self.watched.reserve(1).is_err() {
            return ClaimAnswer::Refused(Refusal::Memory);
        }
        if self.claims.done(short).is_err() {
            return ClaimAnswer::NoSuchClaim;
        }
        if !self.look() {
            return ClaimAnswer::Wrong(Wrong::Uncertain);
        }
        let found = self.judge_done(grant.device, grant.frame);
        let claim = GoodClaim::Done {
            number: short,
            device: grant.device,
            frame: grant.frame,
        };
        watch(&mut self.watched, found, claim);
        found
    }

    /// Nobody uses the frame, and it goes to somebody else.
    pub(crate) fn claim_hand_off(&mut self, frame: u64) -> ClaimAnswer
        ensures claimed { (c : Claimed) → ShowsClaimed self.old.claims c
            → ShowsClaimed self.new.claims (claimed_after (said.HandOff frame) result c) }
        ensures good { (c : Claimed) → ShowsClaimed self.old.claims c → result ≡ ClaimAnswer.Good
            → GoodMeans (said.HandOff frame) (shown_in self.new) self.new.trusted.items c (claimed_after (said.HandOff frame) result c) }
        ensures wrong { (c : Claimed) → ShowsClaimed self.old.claims c
            → IfWrong result
            (λ why. WrongMeans (said.HandOff frame) why (shown_in self.new) self.new.trusted.items c (claimed_after (said.HandOff frame) result c)) }
        ensures watched { (c : Claimed) → ShowsClaimed self.old.claims c
            → WatchesClaim (said.HandOff frame) result c self.old.watched.items self.new.watched.items }
        ensures admitted { (c : Claimed) → ShowsClaimed self.old.claims c → ClaimIsAdmitted (said.HandOff frame) result self.old.hardware.board c }
        ensures hardware { KeepsHardware self.old self.new }
    {
        let number = match self.frame_of(frame) {
            Ok(number) => number,
            Err(why) => return ClaimAnswer::Refused(why),
        };
        let user = self.user_of(number);
        if self.watched.reserve(1).is_err() {
            return ClaimAnswer::Refused(Refusal::Memory);
        }
        if let Err(why) = self.claims.hand_on(number) {
            return ClaimAnswer::Refused(why);
        }
        if let Some(why) = user {
            return ClaimAnswer::Wrong(why);
        }
        if !self.look() {
            return ClaimAnswer::Wrong(Wrong::Uncertain);
        }
        let found = self.judge_hand_off(number);
        watch(
            &mut self.watched,
            found,
            GoodClaim::HandedOff { frame: number },
        );
        found
    }

    /// The frame comes from whoever gives frames out.
    pub(crate) fn claim_take(&mut self, frame: u64) -> ClaimAnswer
        ensures claimed { (c : Claimed) → ShowsClaimed self.old.claims c
            → ShowsClaimed self.new.claims (claimed_after (said.Take frame) result c) }
        ensures good { (c : Claimed) → ShowsClaimed self.old.claims c → result ≡ ClaimAnswer.Good
            → GoodMeans (said.Take frame) (shown_in self.new) self.new.trusted.items c (claimed_after (said.Take frame) result c) }
        ensures wrong { (c : Claimed) → ShowsClaimed self.old.claims c
            → IfWrong result
            (λ why. WrongMeans (said.Take frame) why (shown_in self.new) self.new.trusted.items c (claimed_after (said.Take frame) result c)) }
        ensures watched { (c : Claimed) → ShowsClaimed self.old.claims c
            → WatchesClaim (said.Take frame) result c self.old.watched.items self.new.watched.items }
        ensures admitted { (c : Claimed) → ShowsClaimed self.old.claims c → ClaimIsAdmitted (said.Take frame) result self.old.hardware.board c }
        ensures hardware { KeepsHardware self.old self.new }
    {
        let number = match self.frame_of(frame) {
            Ok(number) => number,
            Err(why) => return ClaimAnswer::Refused(why),
        };
        let user = self.user_of(number);
        self.claims.take(number);
        drop_hand_off(&mut self.watched, number);
        match user {
            Some(why) => ClaimAnswer::Wrong(why),
            None => ClaimAnswer::Good,
        }
    }

    /// A request of the device at the page is accepted now, on what it holds there.
    pub(crate) fn claim_ready(&mut self, device: DeviceId, page: u64) -> ClaimAnswer
        ensures good { (c : Claimed) → ShowsClaimed self.old.claims c → result ≡ ClaimAnswer.Good
            → IsReady (knows_napot self.new.beside) self.new.hardware.board c device page × ArePointersReady (shown_in self.new) c device page }
        ensures wrong { (c : Claimed) → ShowsClaimed self.old.claims c
            → IfWrong result (λ why. ReadyIsWrong why (knows_napot self.new.beside) self.new.hardware.board c device page ⊎ IsUnreadyByPointer (shown_in self.new) c device page why) }
        ensures admitted { (c : Claimed) → ShowsClaimed self.old.claims c → ClaimIsAdmitted (said.Ready device page) result self.old.hardware.board c }
        ensures rest { KeepsAll self.old self.new }
    {
        if self.hardware.board.kind_of(device).is_none() {
            return ClaimAnswer::Refused(Refusal::NoSuchDevice);
        }
        let Some((frame, rights)) = self.claims.held_at(device, page) else {
            return ClaimAnswer::Refused(Refusal::NotGranted);
        };
        let board = &self.hardware.board;
        let napot = knows_napot(&self.beside);
        if let Some(why) = unreadiness(board, napot, device, page, frame, rights) {
            return ClaimAnswer::Wrong(why);
        }
        match unreadiness_beside(board, &self.beside, device, page, frame, rights) {
            Some(why) => ClaimAnswer::Wrong(why),
            None => ClaimAnswer::Good,
        }
    }

    /// What the device writes counts as what software writes.
    pub(crate) fn claim_trust(&mut self, device: DeviceId) -> ClaimAnswer
        ensures claims { self.new.claims ≡ self.old.claims }
        ensures wrong { IfWrong result (λ why. ⊥) }
        ensures watched { self.new.watched ≡ self.old.watched }
        ensures trusted { TrustsAlso device result self.old.trusted.items self.new.trusted.items }
        ensures admitted { (c : Claimed) → ShowsClaimed self.old.claims c → ClaimIsAdmitted (said.Trust device) result self.old.hardware.board c }
        ensures hardware { self.new.hardware ≡ self.old.hardware }
        ensures beside { self.new.beside ≡ self.old.beside }
    {
        if self.hardware.board.kind_of(device).is_none() {
            return ClaimAnswer::Refused(Refusal::NoSuchDevice);
        }
        match self.trusted.push(device) {
            Ok(()) => ClaimAnswer::Trusted,
            Err(_) => ClaimAnswer::Refused(Refusal::Memory),
        }
    }
}

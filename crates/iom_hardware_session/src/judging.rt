// What is found of a claim, as hardware stands.
ghost use Rattle.std.specs.Prelude.{◌≡◌, ◌↔◌, ◌<◌, ◌≤◌, true, false, List, length, None, IfSome, IsTrue};
ghost use Rattle.iom_base.specs.declared.access.AccessKind.{AccessKind};
ghost use Rattle.iom_claims.specs.Claimed.{Claimed};
ghost use Rattle.iom_claims.specs.Shown.{ShowsClaimed};
ghost use Rattle.iom_fabric.specs.declared.fabric.OnLink.{OnLink};
ghost use Rattle.iom_board.specs.BoardParts.{board_parts};
ghost use Rattle.iom_hardware_session.specs.Claiming.{is_judgement};
ghost use Rattle.iom_board.specs.Invariant.{BoardInvariant};
ghost use Rattle.iom_hardware_session.specs.declared.beside.Beside.TheVariants.{UnderWay};
ghost use Rattle.iom_stepped_board.specs.Beside.{AreBeside};
ghost use Rattle.iom_walks.specs.Walks.{WalkRow};
ghost use Rattle.iom_hardware_session.specs.Good.{scene_by, scene_in, IsCertain, IsNobodys, IsUnused, HasClaimedWaysAlone};
ghost use Rattle.iom_hardware_session.specs.Lines.{KeepsAll};
ghost use Rattle.iom_hardware_session.specs.Shown.{shown_in};
ghost use Rattle.iom_hardware_session.specs.Timely.{IsTimelyMessage};
ghost use Rattle.iom_hardware_session.specs.Wrong.{IsUntimely, IsUncertain, HardwareUses, DoneIsWrong, HandOffIsWrong, TakeIsWrong, IfWrong};
ghost use Rattle.iom_ledger.specs.History.{May};
ghost use Rattle.iom_reach.specs.Laws.{IsOutOfReach};
ghost use Rattle.iom_reach.specs.Safe.{AreTimely};
ghost use Rattle.iom_reach.specs.Scene.{HardwareScene};
ghost use Rattle.iom_reach.specs.Ways.{Way};
ghost use Rattle.iom_way_survey.specs.Surveys.{Surveys, InventsNone, IsSurveyOf, is_id_among, reaches_in_rows};

use crate::answer::{ClaimAnswer, Wrong};
use crate::beside::Beside;
use crate::state::Session;
use iom_base::{AccessKind, DeviceId};
use iom_board::Board;
use iom_fabric::{Message, OnLink};
use iom_phys_mem::{Bytes, MAX_FRAMES};
use iom_way_survey::Survey;

/// Looks at hardware, and at what it keeps beside.
fn look_beside(survey: &mut Survey, hardware: &Board, beside: &Beside, trusted: &[DeviceId])
    requires size { length hardware.now.memory ≤ 4096 }
    requires invariants { BoardInvariant (board_parts hardware.now) hardware.now.events }
    requires sound { (rows : List WalkRow) → beside.now ≡ UnderWay rows → AreBeside (board_parts hardware.now) rows }
    ensures { IsSurveyOf survey.new (scene_by (is_id_among trusted.now) (board_parts hardware.now) beside.now) }
{
    match beside {
        Beside::Nothing => survey.look(hardware, None, trusted),
        Beside::UnderWay(walks) => survey.look(hardware, Some(walks), trusted),
        Beside::Pointers(features, pointers) => {
            survey.look(hardware, None, trusted);
            survey.look_along(hardware, features.napot, pointers);
        }
    }
}

impl Session {
    /// Looks by which ways each device can reach which frames, as hardware stands. False where memory has more frames than
    /// a survey has places for: none has, and that is asked here, since it isn't carried through every line.
    pub(crate) fn look(&mut self) -> bool
        ensures looked { IsTrue result → IsSurveyOf self.new.survey (scene_in self.new) }
        ensures too_large { result ≡ false → 4096 < length self.new.hardware.board.memory }
        ensures rest { KeepsAll self.old self.new }
    {
        if self.hardware.board.memory.frames() > MAX_FRAMES {
            return false;
        }
        look_beside(
            &mut self.survey,
            &self.hardware.board,
            &self.beside,
            &self.trusted,
        );
        true
    }

    /// Whether the survey has a way of the device to the frame by this kind of access, and nothing that is claimed allows it.
    fn exceeds(&self, device: DeviceId, frame: u32, kind: AccessKind) -> bool
        ensures within { (scene : HardwareScene) (c : Claimed) → Surveys self.now.survey scene → ShowsClaimed self.now.claims c
            → result ≡ false → Way scene device frame kind → May c.history device frame kind }
        ensures beyond { (c : Claimed) → ShowsClaimed self.now.claims c
            → IsTrue result → (reaches_in_rows self.now.survey.devices.items device kind frame ≡ true) × ¬ May c.history device frame kind }
    {
        if self.survey.reaches(device, u64::from(frame), kind) {
            !self.claims.may(device, frame, kind)
        } else {
            false
        }
    }

    /// The first kind of access by which the survey has a way of the device to the frame that nothing claimed allows.
    fn way_beyond(&self, device: DeviceId, frame: u32) -> Option<AccessKind>
        ensures within { (scene : HardwareScene) (c : Claimed) → Surveys self.now.survey scene → ShowsClaimed self.now.claims c
            → result ≡ None → HasClaimedWaysAlone scene c device frame }
        ensures beyond { (c : Claimed) → ShowsClaimed self.now.claims c
            → IfSome result (λ kind. (reaches_in_rows self.now.survey.devices.items device kind frame ≡ true) × ¬ May c.history device frame kind) }
    {
        if self.exceeds(device, frame, AccessKind::Read) {
            return Some(AccessKind::Read);
        }
        if self.exceeds(device, frame, AccessKind::Write) {
            return Some(AccessKind::Write);
        }
        None
    }

    /// Whether the message is of no epoch to come of its device's cache.
    fn is_timely_message(&self, on: &OnLink) -> bool
        ensures { IsTrue result ↔ IsTimelyMessage (board_parts self.now.hardware.board) on.now }
    {
        match on.message {
            Message::Ask { epoch, page: _ } => epoch <= self.hardware.board.epoch_of(on.device),
            Message::Answer { epoch, .. } => epoch <= self.hardware.board.epoch_of(on.device),
            Message::InvReq { .. } | Message::InvDone { .. } => true,
        }
    }

    /// Whether no message is of an epoch to come of its device's cache. That is always so: it is asked here, since 64
    /// messages are looked at sooner than it is carried through every line.
    fn is_timely(&self) -> bool
        ensures timely { IsTrue result → AreTimely (scene_in self.now) }
        ensures untimely { result ≡ false → IsUntimely (board_parts self.now.hardware.board) }
    {
        let messages = self.hardware.board.messages();
        for place in 0..messages.len() {
            if let Some(on) = messages.get(place) {
                if !self.is_timely_message(&on) {
                    return false;
                }
            }
        }
        true
    }

    /// Whether anything can be certain: nobody but software writes what hardware reads.
    pub(crate) fn is_certain(&self) -> bool
        requires { IsSurveyOf self.now.survey (scene_in self.now) }
        ensures certain { IsTrue result → IsCertain (scene_in self.now) }
        ensures uncertain { result ≡ false → IsUncertain (shown_in self.now) self.now.trusted.items }
    {
        if !self.survey.is_safe() {
            return false;
        }
        self.is_timely()
    }

    /// Whether hardware reads the frame, or the IOMMU may store a fault record or a fence's word there.
    pub(crate) fn is_used(&self, frame: u32) -> bool
        ensures unused { (scene : HardwareScene) → Surveys self.now.survey scene → result ≡ false → IsUnused scene frame }
        ensures used { (scene : HardwareScene) → InventsNone self.now.survey scene → IsTrue result → HardwareUses scene frame }
    {
        if self.survey.is_read_by_hardware(u64::from(frame)) {
            return true;
        }
        self.survey.is_stored_by_iommu(u64::from(frame))
    }

    /// Whether somebody holds the frame, or a claim that withdrew it is open: which, if so.
    pub(crate) fn user_of(&self, frame: u32) -> Option<Wrong>
        ensures nobodys { (c : Claimed) → ShowsClaimed self.now.claims c → result ≡ None → IsNobodys c frame }
        ensures somebodys { (c : Claimed) → ShowsClaimed self.now.claims c → IfSome result (λ why. TakeIsWrong why c frame) }
    {
        if self.claims.holder_of(frame).is_some() {
            return Some(Wrong::Held);
        }
        if self.claims.lingering_on(frame).is_some() {
            return Some(Wrong::Lingers);
        }
        None
    }

    /// The first kind of access by which the survey has a way of the device to the frame.
    fn way_to(&self, device: DeviceId, frame: u32) -> Option<AccessKind>
        ensures none { (scene : HardwareScene) → Surveys self.now.survey scene → result ≡ None → (kind : AccessKind) → ¬ Way scene device frame kind }
        ensures some { IfSome result (λ kind. reaches_in_rows self.now.survey.devices.items device kind frame ≡ true) }
    {
        let frame = u64::from(frame);
        if self.survey.reaches(device, frame, AccessKind::Read) {
            return Some(AccessKind::Read);
        }
        if self.survey.reaches(device, frame, AccessKind::Write) {
            return Some(AccessKind::Write);
        }
        None
    }

    /// The first device of which the survey has a way to the frame, and the first kind of access by which.
    fn first_way_to(&self, frame: u32) -> Option<(DeviceId, AccessKind)>
        requires looked { IsSurveyOf self.now.survey (scene_in self.now) }
        ensures none { result ≡ None → IsOutOfReach (scene_in self.now) frame }
        ensures some { IfSome result (λ way. reaches_in_rows self.now.survey.devices.items way.0 way.1 frame ≡ true) }
    {
        for place in 0..self.hardware.board.devices.len() {
            let id = self.hardware.board.devices[place].id;
            if let Some(kind) = self.way_to(id, frame) {
                return Some((id, kind));
            }
        }
        None
    }

    /// Why it isn't so that the device has no way to the frame but those that are claimed, if it has another.
    pub(crate) fn left_of_done(&self, device: DeviceId, frame: u32) -> Option<Wrong>
        requires looked { IsSurveyOf self.now.survey (scene_in self.now) }
        ensures none { (c : Claimed) → ShowsClaimed self.now.claims c
            → result ≡ None → HasClaimedWaysAlone (scene_in self.now) c device frame }
        ensures some { (c : Claimed) → ShowsClaimed self.now.claims c
            → IfSome result (λ why. DoneIsWrong why (shown_in self.now) self.now.trusted.items c device frame) }
    {
        match self.way_beyond(device, frame) {
            Some(kind) => Some(Wrong::Reached(device, kind)),
            None => None,
        }
    }

    /// Why it isn't so that no device reaches the frame and hardware doesn't use it, if one does.
    pub(crate) fn left_of_hand_off(&self, frame: u32) -> Option<Wrong>
        requires looked { IsSurveyOf self.now.survey (scene_in self.now) }
        ensures none { result ≡ None → IsOutOfReach (scene_in self.now) frame × IsUnused (scene_in self.now) frame }
        ensures some { (c : Claimed) → IfSome result (λ why. HandOffIsWrong why (shown_in self.now) self.now.trusted.items c frame) }
    {
        if let Some((device, kind)) = self.first_way_to(frame) {
            return Some(Wrong::Reached(device, kind));
        }
        if self.is_used(frame) {
            return Some(Wrong::Used);
        }
        None
    }

    /// What is found of a claim that no way is left of the device to the frame but those that are claimed.
    pub(crate) fn judge_done(&self, device: DeviceId, frame: u32) -> ClaimAnswer
        requires looked { IsSurveyOf self.now.survey (scene_in self.now) }
        ensures good { (c : Claimed) → ShowsClaimed self.now.claims c → result ≡ ClaimAnswer.Good
            → IsCertain (scene_in self.now) × HasClaimedWaysAlone (scene_in self.now) c device frame }
        ensures wrong { (c : Claimed) → ShowsClaimed self.now.claims c
            → IfWrong result (λ why. DoneIsWrong why (shown_in self.now) self.now.trusted.items c device frame) }
        ensures made { is_judgement result ≡ true }
    {
        if let Some(why) = self.left_of_done(device, frame) {
            return ClaimAnswer::Wrong(why);
        }
        if !self.is_certain() {
            return ClaimAnswer::Wrong(Wrong::Uncertain);
        }
        ClaimAnswer::Good
    }

    /// What is found of a claim that nobody uses the frame, which is nobody's.
    pub(crate) fn judge_hand_off(&self, frame: u32) -> ClaimAnswer
        requires looked { IsSurveyOf self.now.survey (scene_in self.now) }
        ensures good { result ≡ ClaimAnswer.Good → IsCertain (scene_in self.now) × IsOutOfReach (scene_in self.now) frame × IsUnused (scene_in self.now) frame }
        ensures wrong { (c : Claimed) → IfWrong result (λ why. HandOffIsWrong why (shown_in self.now) self.now.trusted.items c frame) }
        ensures made { is_judgement result ≡ true }
    {
        if let Some(why) = self.left_of_hand_off(frame) {
            return ClaimAnswer::Wrong(why);
        }
        if !self.is_certain() {
            return ClaimAnswer::Wrong(Wrong::Uncertain);
        }
        ClaimAnswer::Good
    }
}

// Claims that were good are judged again whenever software changes hardware.
ghost use Rattle.std.specs.Prelude.{◌≡◌, false, None, IfSome, IsTrue};
ghost use Rattle.iom_claims.specs.Claimed.{Claimed};
ghost use Rattle.iom_claims.specs.Shown.{ShowsClaimed};
ghost use Rattle.iom_hardware_session.specs.Good.{scene_in, IsCertain};
ghost use Rattle.iom_hardware_session.specs.Lines.{KeepsHardware, KeepsAll};
ghost use Rattle.iom_hardware_session.specs.Shown.{shown_in};
ghost use Rattle.iom_hardware_session.specs.Watching.{IsStillSo, IsNoMore, IsVerdictOf, AreJudgedAgain};
ghost use Rattle.iom_hardware_session.specs.Wrong.{IsUncertain};
ghost use Rattle.iom_way_survey.specs.Surveys.{IsSurveyOf};

use crate::answer::Wrong;
use crate::state::Session;
use crate::watched::{GoodClaim, Watched};
use std::mem;

impl Session {
    /// Why the claim isn't good any more, by the survey, if so.
    fn fallen_by_survey(&self, claim: GoodClaim) -> Option<Wrong>
        requires looked { IsSurveyOf self.now.survey (scene_in self.now) }
        ensures so { (c : Claimed) → ShowsClaimed self.now.claims c → result ≡ None → IsStillSo claim (scene_in self.now) c }
        ensures no_more { (c : Claimed) → ShowsClaimed self.now.claims c
            → IfSome result (λ why. IsNoMore why claim (shown_in self.now) self.now.trusted.items c) }
    {
        match claim {
            GoodClaim::Done {
                number: _,
                device,
                frame,
            } => self.left_of_done(device, frame),
            GoodClaim::HandedOff { frame } => self.left_of_hand_off(frame),
        }
    }

    /// The same, where it is known whether anything can be certain.
    fn fallen(&self, is_certain: bool, claim: GoodClaim) -> Option<Wrong>
        requires looked { IsTrue is_certain → IsSurveyOf self.now.survey (scene_in self.now) × IsCertain (scene_in self.now) }
        requires uncertain { is_certain ≡ false → IsUncertain (shown_in self.now) self.now.trusted.items }
        ensures { (c : Claimed) → ShowsClaimed self.now.claims c → IsVerdictOf result claim (shown_in self.now) self.now.trusted.items c }
    {
        if is_certain {
            self.fallen_by_survey(claim)
        } else {
            Some(Wrong::Uncertain)
        }
    }

    /// Looks, and finds whether anything can be certain.
    fn look_again(&mut self) -> bool
        ensures certain { IsTrue result → IsSurveyOf self.new.survey (scene_in self.new) × IsCertain (scene_in self.new) }
        ensures uncertain { result ≡ false → IsUncertain (shown_in self.new) self.new.trusted.items }
        ensures rest { KeepsAll self.old self.new }
    {
        if !self.look() {
            return false;
        }
        self.is_certain()
    }

    /// Judges each of these claims.
    fn judge_each(&self, is_certain: bool, watched: &mut Vec<Watched>)
        requires looked { IsTrue is_certain → IsSurveyOf self.now.survey (scene_in self.now) × IsCertain (scene_in self.now) }
        requires uncertain { is_certain ≡ false → IsUncertain (shown_in self.now) self.now.trusted.items }
        ensures { (c : Claimed) → ShowsClaimed self.now.claims c
            → AreJudgedAgain watched.old.items watched.new.items (shown_in self.now) self.now.trusted.items c }
    {
        for place in 0..watched.len() {
            let claim = watched[place].claim;
            let why = self.fallen(is_certain, claim);
            watched[place] = Watched { claim, why };
        }
    }

    /// Judges each claim that was good again, as hardware stands now.
    pub(crate) fn judge_again(&mut self)
        ensures judged { (c : Claimed) → ShowsClaimed self.new.claims c
            → AreJudgedAgain self.old.watched.items self.new.watched.items (shown_in self.new) self.new.trusted.items c }
        ensures hardware { KeepsHardware self.old self.new }
        ensures claims { self.new.claims ≡ self.old.claims }
    {
        if self.watched.is_empty() {
            return;
        }
        let is_certain = self.look_again();
        let mut watched = mem::replace(&mut self.watched, Vec::new(self.alloc));
        self.judge_each(is_certain, &mut watched);
        self.watched = watched;
    }
}

// What a load makes of a request that is under way, and what a fetch does that begins it anew.
ghost use Rattle.std.specs.Prelude.{◌≡◌, ℕ, false, length};
ghost use Rattle.iom_stepped_requests.specs.Serving.{kept, load};
ghost use Rattle.iom_stepped_requests.specs.Standing.{request_of, still_serving};
ghost use Rattle.iom_tlb.specs.Content.{TranslationsUnchanged};
ghost use Rattle.iom_walks.specs.Caches.{may_look_in};
ghost use Rattle.iom_walks.specs.Calls.{OneBeginsAnew};
ghost use Rattle.iom_walks.specs.Invariant.{IsOfRequest};
ghost use Rattle.iom_walks.specs.Rows.{serving_by, under_way_by};

use crate::outcome::Answered;
use crate::standing::Standing;
use iom_phys_mem::Bytes;
use iom_registers::DirectoryPointer;
use iom_stepped_requests::{Answer, Kept, Loaded as Step, Serving};
use iom_tlb::TransCache;

impl Standing {
    /// How far the request has come: served already, or where it stands.
    pub(crate) fn serving(self) -> Serving
        ensures { result ≡ serving_by self.walk self.served }
    {
        match self.served {
            Some(answer) => Serving::Served(answer),
            None => Serving::GoesOn(self.walk),
        }
    }

    /// Its next load: how far the request has come then, and what is to be kept of it. One that is served already makes
    /// none.
    pub(crate) fn load<B: Bytes, C: TransCache>(self, memory: &B, translations: &mut C) -> Step
        ensures serving { still_serving (length (B.frames_of memory.now)) result.serving
            ≡ load (B.frames_of memory.now) (C.content translations.old)
            (still_serving (length (B.frames_of memory.now)) (serving_by self.walk self.served)) }
        ensures kept { result.kept
            ≡ kept (B.frames_of memory.now) (still_serving (length (B.frames_of memory.now)) (serving_by self.walk self.served)) }
        ensures of_request { IsOfRequest (request_of self.walk) result.serving }
        ensures unchanged { TranslationsUnchanged (C.content translations.old) (C.content translations.new) }
        ensures untouched { may_look_in (serving_by self.walk self.served) ≡ false → translations.new ≡ translations.old }
    {
        match self.served {
            Some(answer) => Step {
                serving: Serving::Served(answer),
                kept: Kept::Nothing,
            },
            None => self.walk.load(memory, translations),
        }
    }

    /// It begins anew, by `ddtp` as it is now.
    pub(crate) fn begun_anew(self, ddtp: DirectoryPointer) -> Standing
        ensures { OneBeginsAnew ddtp (under_way_by self) (under_way_by result) }
    {
        match self.walk.begun_anew(ddtp) {
            Serving::GoesOn(walk) => Standing {
                walk,
                served: None,
                len: self.len,
            },
            Serving::Served(answer) => Standing {
                walk: self.walk,
                served: Some(answer),
                len: self.len,
            },
        }
    }

    /// What it answers, where this is its answer.
    pub(crate) fn answered(self, answer: Answer) -> Answered
        ensures request { result.request ≡ request_of self.walk }
        ensures len { result.len ≡ self.len }
        ensures answer { result.answer ≡ answer }
    {
        Answered {
            request: self.walk.request(),
            len: self.len,
            answer,
        }
    }
}

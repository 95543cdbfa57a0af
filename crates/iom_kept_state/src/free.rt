//! Which frames are free.
use crate::state::KeptState;

impl KeptState {
    ghost use Rattle.std.specs.Prelude.{◌↔◌, ◌<◌, ◌*◌, ◌+◌, ◌^◌, All, IsTrue};
    ghost use Rattle.iom_kept_state.specs.Words.{History, IsFree, IsFreeBesides, IsFreeRun, FewerThan, IsPastOf, state_of};

    /// Whether the frame is free.
    pub fn is_free(&self, number: u64) -> bool
        ensures { (h : History) → IsPastOf self.now.grants h → IsTrue result ↔ IsFree (state_of self.now h) number }
    {
        number < self.frames.count()
            && !self.frames.is_reserved(number)
            && self.grants.is_out_of_reach(number)
    }

    /// Whether the frame is free, and isn't the one that is named, if one is.
    fn is_free_besides(&self, named: Option<u64>, number: u64) -> bool
        ensures { (h : History) → IsPastOf self.now.grants h → IsTrue result ↔ IsFreeBesides (state_of self.now h) named number }
    {
        named != Some(number) && self.is_free(number)
    }

    /// Whether each of the frames is free, and none is the one that is named, if one is.
    pub fn are_free_besides(&self, named: Option<u64>, taken: &[u64]) -> bool
        ensures { (h : History) → IsPastOf self.now.grants h → IsTrue result ↔ All (IsFreeBesides (state_of self.now h) named) taken.now }
    {
        for number in taken {
            if !self.is_free_besides(named, *number) {
                return false;
            }
        }
        true
    }

    /// Whether fewer than so many frames are free besides the one that is named. It looks at no more frames than were ever named, and
    /// so many.
    pub fn are_fewer_free(&self, named: Option<u64>, count: usize) -> bool
        ensures { (h : History) → IsPastOf self.now.grants h → IsTrue result ↔ FewerThan count (IsFreeBesides (state_of self.now h) named) }
    {
        let mut found = 0;
        for number in 0..self.frames.count() {
            if found == count {
                return false;
            }
            if self.is_free_besides(named, number) {
                found += 1;
            }
        }
        found < count
    }

    /// Whether the four frames of the aligned run are free.
    fn is_free_run(&self, run: u64) -> bool
        requires { 4 * run + 3 < 2 ^ 64 }
        ensures { (h : History) → IsPastOf self.now.grants h → IsTrue result ↔ IsFreeRun (state_of self.now h) run }
    {
        let first = 4 * run;
        self.is_free(first)
            && self.is_free(first + 1)
            && self.is_free(first + 2)
            && self.is_free(first + 3)
    }

    /// Whether fewer than so many aligned runs of four frames are free.
    pub fn are_fewer_runs_free(&self, count: usize) -> bool
        ensures { (h : History) → IsPastOf self.now.grants h → IsTrue result ↔ FewerThan count (IsFreeRun (state_of self.now h)) }
    {
        let mut found = 0;
        for run in 0..self.frames.count() / 4 {
            if found == count {
                return false;
            }
            if self.is_free_run(run) {
                found += 1;
            }
        }
        found < count
    }
}

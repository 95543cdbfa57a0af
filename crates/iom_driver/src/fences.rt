// The numbers of fences. Each ticket took the next number, and so did each restart, whose fence all tickets wait
// for that aren't confirmed then.
ghost use Rattle.std.specs.Prelude.{◌≡◌, ◌+◌, ◌-◌};
ghost use Rattle.iom_driver.specs.Fences.{last_fence, done_by};
ghost use Rattle.iom_driver.specs.StateOf.{state_of};

use crate::driver::Driver;

impl Driver {
    /// The number of the last fence.
    #[inline]
    pub(crate) fn last_fence(&self) -> u32
        ensures { result ≡ last_fence (state_of self.now) }
    {
        self.given + self.restarts
    }

    /// The last ticket whose fence is done by the completion word; the last that was confirmed, where no later
    /// one's is.
    pub(crate) fn last_done(&self, word: u32) -> u32
        ensures { result ≡ self.now.confirmed + (done_by (state_of self.now) word - self.now.confirmed) }
    {
        if word < self.restarted + self.restarts {
            return self.confirmed;
        }
        let done = word - self.restarts;
        if done <= self.confirmed {
            self.confirmed
        } else if done <= self.given {
            done
        } else {
            self.given
        }
    }
}

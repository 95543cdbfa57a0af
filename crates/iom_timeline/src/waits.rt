// What the command queue waits for.
use crate::follower::Follower;
use crate::period::Period;
use crate::timeline::{MarkKind, Place, Wait, WaitCause};
use std::alloc::AllocError;

impl Follower {
    /// The command at the head of the queue waits: for devices while a request to invalidate is open, and else for accesses.
    pub(crate) fn find_waiting(&mut self) -> Result<(), AllocError> {
        let cause = if self.open_requests > 0 {
            WaitCause::Devices
        } else {
            WaitCause::Accesses
        };
        self.begin_wait(cause)
    }

    /// From this line on the queue waits for that, if it didn't already.
    fn begin_wait(&mut self, cause: WaitCause) -> Result<(), AllocError> {
        if let Some(place) = self.wait {
            if let Some(wait) = self.timeline.waits.get(place) {
                if wait.cause == cause {
                    return Ok(());
                }
            }
        }
        self.end_wait();
        self.wait = Some(self.timeline.waits.len());
        self.timeline.waits.push(Wait {
            cause,
            period: Period::since(self.line),
        })?;
        Ok(())
    }

    /// The queue waits for nothing from this line on.
    pub(crate) fn end_wait(&mut self) {
        let line = self.line;
        let Some(place) = self.wait.take() else {
            return;
        };
        if let Some(wait) = self.timeline.waits.get_mut(place) {
            wait.period = wait.period.ended(line);
        }
    }

    /// The IOMMU gives the fence up: it does nothing more before a restart, and no request is open.
    pub(crate) fn time_out(&mut self) -> Result<(), AllocError> {
        self.open_requests = 0;
        self.begin_wait(WaitCause::Stopped)?;
        self.mark(Place::Driver, MarkKind::TimedOut)
    }
}

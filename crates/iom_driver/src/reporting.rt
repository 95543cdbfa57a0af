// What the IOMMU reports of faults.
ghost use Rattle.iom_driver.specs.Ready.{IsReady};
ghost use Rattle.iom_driver.specs.Reports.{AnswersFaults};
ghost use Rattle.iom_driver.specs.StateOf.{state_of};

use crate::access::write;
use crate::driver::Driver;
use iom_base::Refusal;
use iom_fault_queue::{FaultRing, Record};
use iom_phys_mem::Memory;
use iom_registers::{Mmio, Register};

/// What `fqcsr` is told so that records are written again after some were lost: `fqen` stays 1, and 1 clears
/// `fqmf` and `fqof`.
const CLEARED_MARKS: u64 = 0x301;

impl Driver {
    /// Takes the oldest fault record out of the fault queue. Where there is none, clears `fqmf` and `fqof`, so
    /// that records are written again. `NotStarted` is its one refusal, and then nothing changes. Takes no
    /// memory.
    pub fn faults<M: Mmio>(&self, memory: &Memory, io: &mut M) -> Result<Option<Record>, Refusal>
        requires ready { IsReady (state_of self.now) memory.now (M.registers io.old) }
        ensures effect { AnswersFaults M.Mmio (state_of self.now) memory.now io.old result io.new }
        ensures ready { IsReady (state_of self.now) memory.now (M.registers io.new) }
    {
        if !self.started {
            return Err(Refusal::NotStarted);
        }
        let Some(entry) = FaultRing::take(memory, io) else {
            write(io, Register::Fqcsr, CLEARED_MARKS);
            return Ok(None);
        };
        Ok(entry.record())
    }
}

// What the driver does: it reads and writes registers (IOMMU specification, chapter 5).
ghost use Rattle.std.specs.Prelude.{◌≡◌};
ghost use Rattle.iom_hardware_session.specs.Lines.{KeepsClaims, short_width, is_hardwired, ReadsRegister, WritesRegister};
ghost use Rattle.iom_hardware_session.specs.Shown.{shown_in};

use crate::answer::Answer;
use crate::state::Session;
use iom_board::laws::software_keeps_invariant;
use iom_registers::Mmio;
use iom_stepped_hardware::laws::events_stay_beside;

/// The width of an access in bytes, as registers take it. None of them has the widest.
fn width_of(width: u64) -> u32
    ensures { result ≡ short_width width }
{
    u32::try_from(width).unwrap_or(u32::MAX)
}

/// pqcsr, of page requests.
const PAGE_REQUESTS: u64 = 80;

/// icvec, of interrupts by message.
const INTERRUPT_VECTORS: u64 = 760;

/// Whether it is the register of a capability that this IOMMU hasn't, and that drivers touch all the same. It is 0, and a
/// write changes nothing.
fn is_hardwired(offset: u64, width: u64) -> bool
    ensures { result ≡ is_hardwired offset width }
{
    match offset {
        PAGE_REQUESTS => width == 4,
        INTERRUPT_VECTORS => width == 8,
        _ => false,
    }
}

impl Session {
    /// The value of the register at the offset, which has this width, both in bytes; or why there is none.
    pub(crate) fn read_register(&self, offset: u64, width: u64) -> Answer
        ensures { ReadsRegister offset width self.now.hardware.board result }
    {
        if is_hardwired(offset, width) {
            return Answer::Value(Ok(0));
        }
        Answer::Value(self.hardware.board.iommu.read(offset, width_of(width)))
    }

    /// Writes the register at the offset, which has this width; or says why there is none, and then nothing changes.
    pub(crate) fn write_register(&mut self, offset: u64, width: u64, value: u64) -> Answer
        ensures written { WritesRegister offset width value (shown_in self.old) result (shown_in self.new) }
        ensures claims { KeepsClaims self.old self.new }
        ensures counted { self.new.hardware.board.events ≡ self.old.hardware.board.events }
    {
        if is_hardwired(offset, width) {
            return Answer::Written(Ok(()));
        }
        software_keeps_invariant();
        events_stay_beside();
        Answer::Written(
            self.hardware
                .board
                .iommu
                .write(offset, width_of(width), value),
        )
    }
}

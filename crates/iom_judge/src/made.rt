// An access that was made, of which a line tells no more.
ghost use Rattle.std.specs.Prelude.{[], OnOk};
ghost use Rattle.iom_trace_lines.specs.TraceLines.{Made};
ghost use Rattle.iom_judge.specs.Certified.{ContinuesAs};
ghost use Rattle.iom_judge.specs.Happenings.{MayBeTold};

use crate::choosing::Tables;
use crate::machine::TraceMachine;
use crate::stop::{Judged, Line};
use arrayvec::ArrayVec;
use iom_base::{AcceptedAccess, AccessKind, DeviceId, PAGE_SIZE};
use iom_kept_state::KeptState;
use iom_machine::{Event, Outcome};

/// The oldest access of the device in flight, if there is one.
fn oldest(kept: &KeptState, id: DeviceId) -> Option<&AcceptedAccess> {
    let device = kept.device(id)?;
    device.in_flight.as_slice().first()
}

/// What a read gives that is made now.
fn read_now(kept: &KeptState, made: &AcceptedAccess) -> ArrayVec<u8, 4096> {
    let mut read = ArrayVec::new();
    let offset = (made.access.address % PAGE_SIZE) as usize;
    let end = offset.saturating_add(made.access.len.min(PAGE_SIZE) as usize);
    if let Some(bytes) = kept.frames.bytes(made.frame).get(offset..end) {
        let _fits = read.try_extend_from_slice(bytes);
    }
    read
}

/// What comes of the device's oldest access, where it is made now: of a read, or of whatever it is.
fn made_now(kept: &KeptState, id: DeviceId, is_read: bool) -> Outcome
    ensures { MayBeTold is_read result }
{
    let Some(made) = oldest(kept, id) else {
        return Outcome::Read(ArrayVec::new());
    };
    if is_read || made.access.kind == AccessKind::Read {
        return Outcome::Read(read_now(kept, made));
    }
    Outcome::Wrote(made.access.len)
}

impl TraceMachine {
    /// The device's oldest access was made.
    #[inline(never)]
    pub(crate) fn make(&mut self, line: &Line<'_>, device: DeviceId, is_read: bool) -> Judged
        ensures { OnOk result (ContinuesAs self.old (Made device is_read) [] self.new) }
    {
        let made = made_now(&self.kept, device, is_read);
        self.go_on_showing(line, &Event::Commit { device }, &made, Tables::Own(None))
    }
}

// Tables that are given back while their device stays attached.
ghost use Rattle.std.specs.Prelude.{OnOk};
ghost use Rattle.iom_trace_lines.specs.TraceLines.{TablesFreed};
ghost use Rattle.iom_judge.specs.Certified.{ContinuesAs};

use crate::choosing::{NOTHING, Reported, Shown};
use crate::machine::TraceMachine;
use crate::stop::{Judged, Line};
use iom_base::Owner;
use iom_kept_state::KeptState;
use iom_machine::{Attachment, Event, Outcome};
use std::alloc::{AllocError, Global};
use std::slice::from_ref;

/// Why the table may not be given back.
fn why_in_use(alloc: Global, kept: &KeptState, table: u64) -> Result<String, AllocError> {
    if kept.limits.in_order {
        return format!(in alloc; "tables are given back in a world without limits alone");
    }
    let device = match kept.frames.owner(table) {
        None => return format!(in alloc; "frame {table} is nobody's table"),
        Some(Owner::System) => return format!(in alloc; "frame {table} is the system's"),
        Some(Owner::OneDevice(device)) => device,
    };
    let why = match kept.attachment(device) {
        Attachment::Attached { .. } => "; what that released isn't all confirmed",
        _ => ", which isn't attached",
    };
    format!(in alloc; "frame {table} is a table of {device:06x}{why}")
}

impl TraceMachine {
    /// These tables are given back.
    #[inline(never)]
    pub(crate) fn free_tables(&mut self, line: &Line<'_>, freed: &[u64]) -> Judged
        ensures { OnOk result (ContinuesAs self.old TablesFreed freed.now self.new) }
    {
        let kept = &self.kept;
        let mut shown_ones = freed.iter();
        if let Some(table) = shown_ones.find(|table| !kept.may_give_back_all(from_ref(*table))) {
            if let Some(missing) = self.guesses.tables {
                return Err(line.uncertified(missing)?);
            }
            let why = why_in_use(line.alloc, kept, *table)?;
            return Err(line.unlawful(&why)?);
        }
        let shown = Shown { freed, ..NOTHING };
        let reply = Reported {
            event: &Event::Poll,
            outcome: &Outcome::NoneConfirmed { timed_out: false },
            shown,
        };
        self.go_on_alone(line, &reply)
    }
}

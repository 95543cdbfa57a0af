// How a test begins.
ghost use Rattle.std.specs.Prelude.{IfOk, OnOk};
ghost use Rattle.iom_litmus_hardware.specs.Openings.{GoesThrough, HasOpened};
ghost use Rattle.iom_litmus_hardware.specs.Places.{IsWhole};

use crate::lines::{go_on, is_for_tests};
use iom_base::Sequence;
use iom_hardware_script::{HardwareLine, Pace, Setup};
use iom_hardware_session::Session;
use std::alloc::{AllocError, Global};

/// Hardware with so many frames of memory, whose walks are one event each, at power-on, and what happens on it before a test
/// begins.
#[derive(Drop)]
pub struct Opening {
    pub frames: u32,
    pub lines: Sequence<HardwareLine>,
}

/// More events than these aren't counted: more is told as if there were no memory.
pub(crate) const MOST_EVENTS: u64 = u64::MAX - 1;

/// The lines happen, one after another.
fn go_through(session: &mut Session, lines: &[HardwareLine]) -> Result<(), AllocError>
    ensures through { OnOk result (GoesThrough session.old lines.now session.new) }
    ensures whole { IsWhole session.old → IsWhole session.new }
{
    for line in lines {
        if session.hardware().events >= MOST_EVENTS || !is_for_tests(line) {
            return Err(AllocError);
        }
        go_on(session, line);
    }
    Ok(())
}

impl Opening {
    /// A session that has gone through the lines.
    pub(crate) fn session(&self, alloc: Global) -> Result<Session, AllocError>
        ensures opened { IfOk result (HasOpened self.now) }
        ensures whole { IfOk result IsWhole }
    {
        let setup = Setup {
            frames: self.frames,
            pace: Pace::Whole,
        };
        let Ok(mut session) = Session::new(alloc, setup) else {
            return Err(AllocError);
        };
        go_through(&mut session, self.lines.as_slice())?;
        Ok(session)
    }
}

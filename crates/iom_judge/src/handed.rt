// Frames that were given to somebody else, and aren't taken back.
ghost use Rattle.std.specs.Prelude.{◌≡◌, ◌&&◌, ◌||◌, [], ℕ, not, false, true, nat_eq, IsNone, IsTrue, OnOk};
ghost use Rattle.iom_judge.specs.Certified.{is_given, ContinuesAs};
ghost use Rattle.iom_judge.specs.Happenings.{is_in, is_used};
ghost use Rattle.iom_trace_lines.specs.TraceLines.{Handoff, Take};

use crate::choosing::{Reported, Tables};
use crate::machine::TraceMachine;
use crate::stop::{Judged, Line};
use indexmap::IndexMap;
use iom_machine::{Choice, Event, Outcome};
use std::alloc::{AllocError, Global};
use std::slice::from_ref;

/// Frames that were given to somebody else, with the lines that did it.
#[derive(Drop)]
pub(crate) struct Handed {
    pub(crate) frames: IndexMap<u64, u64>,
    /// Whether a line has taken one back. From then on a frame has to be taken back before it is used.
    pub(crate) takes_back: bool,
}

/// The frames that are used where this came of the event: the one that is granted, tables, and pages of the device directory.
fn used<'a>(event: &'a Event, outcome: &Outcome, choice: &'a Choice) -> (&'a [u64], &'a [u64])
    ensures { (frame : ℕ) → is_used event.now outcome.now choice.now frame ≡ (is_in frame result.0.now || is_in frame result.1.now) }
{
    match (event, outcome) {
        (Event::Grant { frame, .. }, Outcome::Done) => (from_ref(frame), choice.taken.as_slice()),
        (Event::Attach { .. }, Outcome::Done) => {
            (choice.taken.as_slice(), choice.directory.as_slice())
        }
        _ => (&[], &[]),
    }
}

impl Handed {
    /// Nothing was given away.
    pub(crate) fn new(alloc: Global) -> Handed
        ensures none { (frame : ℕ) → is_given result frame ≡ false }
        ensures takes { result.takes_back ≡ false }
    {
        Handed {
            frames: IndexMap::new(alloc),
            takes_back: false,
        }
    }

    /// The frame is given to somebody else in this line.
    pub(crate) fn hand_off(&mut self, frame: u64, line: u64) -> Result<(), AllocError>
        ensures given { OnOk result ((k : ℕ) → is_given self.new k ≡ (nat_eq frame k || is_given self.old k)) }
        ensures takes { OnOk result (self.new.takes_back ≡ self.old.takes_back) }
    {
        self.frames.insert(frame, line)?;
        Ok(())
    }

    /// The frame is taken back. False where it wasn't given away.
    pub(crate) fn take_back(&mut self, frame: u64) -> bool
        ensures was { result ≡ is_given self.old frame }
        ensures given { (k : ℕ) → is_given self.new k ≡ (is_given self.old k && not (nat_eq frame k)) }
        ensures takes { self.new.takes_back ≡ true }
    {
        self.takes_back = true;
        self.frames.swap_remove(&frame).is_some()
    }

    /// The first of the frames that was given away.
    fn first_of(&self, frames: &[u64]) -> Option<u64>
        ensures { IsNone result → (frame : ℕ) → IsTrue (is_in frame frames.now) → is_given self.now frame ≡ false }
    {
        match frames {
            [] => None,
            [first, ..] if self.frames.contains_key(first) => Some(*first),
            [_, rest @ ..] => self.first_of(rest),
        }
    }

    /// The first of the frames that are used where this came of the event and was given away.
    fn first_used(&self, reply: &Reported<'_>, choice: &Choice) -> Option<u64>
        ensures { IsNone result → (frame : ℕ)
            → IsTrue (is_used reply.now.event.now reply.now.outcome.now choice.now frame) → is_given self.now frame ≡ false }
    {
        let (ones, others) = used(reply.event, reply.outcome, choice);
        self.first_of(ones).or(self.first_of(others))
    }

    /// The frames are used from here on.
    fn forget(&mut self, frames: &[u64])
        ensures given { (frame : ℕ) → is_given self.new frame ≡ (is_given self.old frame && not (is_in frame frames.now)) }
        ensures takes { self.new.takes_back ≡ self.old.takes_back }
    {
        match frames {
            [] => {}
            [first, rest @ ..] => {
                let _line = self.frames.swap_remove(first);
                self.forget(rest);
            }
        }
    }

    /// The frames that are used where this came of the event are used from here on.
    pub(crate) fn note(&mut self, reply: &Reported<'_>, choice: &Choice)
        ensures given { (frame : ℕ)
            → is_given self.new frame ≡ (is_given self.old frame && not (is_used reply.now.event.now reply.now.outcome.now choice.now frame)) }
        ensures takes { self.new.takes_back ≡ self.old.takes_back }
    {
        if self.frames.is_empty() {
            return;
        }
        let (ones, others) = used(reply.event, reply.outcome, choice);
        self.forget(ones);
        self.forget(others);
    }

    /// The line is unlawful where this uses a frame that was given away.
    pub(crate) fn check(&self, line: &Line<'_>, reply: &Reported<'_>, choice: &Choice) -> Judged
        ensures { OnOk result (IsTrue self.now.takes_back → (frame : ℕ)
            → IsTrue (is_used reply.now.event.now reply.now.outcome.now choice.now frame) → is_given self.now frame ≡ false) }
    {
        if !self.takes_back {
            return Ok(());
        }
        let Some(frame) = self.first_used(reply, choice) else {
            return Ok(());
        };
        let given = self.frames.get(&frame).copied().unwrap_or(0);
        let reason = format!(in line.alloc;
            "frame {frame} was given to somebody else in line {given}, and isn't taken back"
        )?;
        Err(line.unlawful(&reason)?)
    }
}

impl TraceMachine {
    /// The frame is given to somebody else.
    pub(crate) fn hand_off(&mut self, line: &Line<'_>, frame: u64) -> Judged
        ensures { OnOk result (ContinuesAs self.old (Handoff frame) [] self.new) }
    {
        let (event, outcome) = (Event::Free { frame }, Outcome::Free(true));
        self.go_on_showing(line, &event, &outcome, Tables::Own(None))?;
        self.handed.hand_off(frame, line.number)?;
        Ok(())
    }

    /// The frame is taken back.
    pub(crate) fn take_back(&mut self, line: &Line<'_>, frame: u64) -> Judged
        ensures { OnOk result (ContinuesAs self.old (Take frame) [] self.new) }
    {
        if self.handed.take_back(frame) {
            return Ok(());
        }
        let reason = format!(in line.alloc; "frame {frame} wasn't given to anybody else")?;
        Err(line.unlawful(&reason)?)
    }
}

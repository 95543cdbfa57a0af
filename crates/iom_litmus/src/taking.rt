//! Which steps can be taken at a place, and where they lead.
ghost use Rattle.std.specs.Prelude.{◌≡◌, ◌↔◌, ℕ, ◌<◌, false, IsTrue, IfOk, OnOk};
ghost use Rattle.iom_litmus.specs.Candidates.{CanTry};
ghost use Rattle.iom_litmus.specs.Graphs.{WasTried};
ghost use Rattle.iom_litmus.specs.Replies.{RunsLines, no_reply};
ghost use Rattle.iom_litmus.specs.Steps.{CanAct, CanCommit, CanLoad, CanDeliver, CanDrop};
ghost use Rattle.iom_litmus.specs.Steps.{CanRepeat, CanTimeOut, IsFirstSuch, IsAnsweredLike, opening_place};
ghost use Rattle.iom_litmus.specs.declared.step.Step.TheVariants as Steps;

use crate::happenings::{drops, next_cell, repeats, timeouts};
use crate::listed::is_device_among;
use crate::place::{Deed, Happened, Place};
use crate::reply::Reply;
use crate::step::{HardwareStep, Step};
use crate::system::System;
use iom_base::{DeviceId, Sequence};
use iom_litmus_test::{Glob, Spot, Test};
use std::alloc::{AllocError, Global};

/// What came of trying a step.
#[derive(Drop)]
pub(crate) enum Tried<S> {
    /// It was taken, and leads here.
    Taken(Place<S>),
    /// It can't be taken. What was tried at is given back: an awaited line that was answered otherwise may have changed it.
    Refused(Place<S>),
}

/// Runs lines, one after another.
fn run_lines<S: System>(
    alloc: Global,
    system: &mut S,
    lines: &[Sequence<u8>],
) -> Result<Reply, AllocError>
    ensures { IfOk result (λ reply. RunsLines S.rules system.old no_reply lines.now reply system.new) }
{
    let mut reply = Reply::none(alloc);
    for line in lines {
        let next = system.run(alloc, line.as_slice())?;
        reply.join(next)?;
    }
    Ok(reply)
}

/// Whether an answer is like the one that is awaited.
fn is_answered(awaited: &Option<Glob>, text: &[u8]) -> bool
    ensures { IsTrue result ↔ IsAnsweredLike awaited.now text.now }
{
    match awaited {
        Some(glob) => glob.matches(text),
        None => true,
    }
}

impl<S: System> Place<S> {
    /// The place from which a test begins, with a system made anew.
    pub(crate) fn opening(alloc: Global, opening: &S::Opening) -> Result<Place<S>, AllocError>
        ensures { IfOk result (λ place. (system : S) × S.opens opening.now system × (place ≡ opening_place system)) }
    {
        let system = S::new(alloc, opening)?;
        Ok(Place {
            system,
            happened: Sequence::new(alloc),
        })
    }

    /// Whether the step can be tried here: the column has a next cell, or hardware can do this.
    pub(crate) fn can_try(&self, test: &Test, step: Step) -> bool
        ensures { IsTrue result ↔ CanTry S.readings test.now self.now step }
    {
        match step {
            Step::Column(column) => next_cell(test, self.happened.as_slice(), column).is_some(),
            Step::Hardware(act) => self.can_act(test, act),
        }
    }

    /// Tries the step here.
    pub(crate) fn after(
        self,
        alloc: Global,
        test: &Test,
        step: Step,
    ) -> Result<Tried<S>, AllocError>
        ensures { IfOk result (WasTried S.rules S.readings test.now self step) }
    {
        match step {
            Step::Column(column) => self.after_next(alloc, test, column),
            Step::Hardware(act) => self.after_act(alloc, test, act),
        }
    }

    fn after_next(
        mut self,
        alloc: Global,
        test: &Test,
        column: usize,
    ) -> Result<Tried<S>, AllocError>
        ensures { IfOk result (WasTried S.rules S.readings test.now self (Steps.Column column)) }
    {
        let Some(next) = next_cell(test, self.happened.as_slice(), column) else {
            return Ok(Tried::Refused(self));
        };
        let reply = run_lines(alloc, &mut self.system, next.cell.lines.as_slice())?;
        if !is_answered(&next.cell.awaited, reply.text.as_slice()) {
            return Ok(Tried::Refused(self));
        }
        let cell = next.place;
        self.happened.push(Happened {
            deed: Deed::Cell(Spot { column, cell }),
            reply,
        })?;
        Ok(Tried::Taken(self))
    }

    fn after_act(
        mut self,
        alloc: Global,
        test: &Test,
        act: HardwareStep,
    ) -> Result<Tried<S>, AllocError>
        ensures { IfOk result (WasTried S.rules S.readings test.now self (Steps.Hardware act)) }
    {
        if !self.can_act(test, act) {
            return Ok(Tried::Refused(self));
        }
        let reply = self.system.act(alloc, act)?;
        self.happened.push(Happened {
            deed: Deed::Hardware(act),
            reply,
        })?;
        Ok(Tried::Taken(self))
    }

    /// Whether hardware can do this here.
    pub(crate) fn can_act(&self, test: &Test, act: HardwareStep) -> bool
        ensures { IsTrue result ↔ CanAct S.readings test.now self.now act }
    {
        match act {
            HardwareStep::Fetch => test.parts.fetch && self.system.fetches(),
            HardwareStep::Commit(device) => self.can_commit(test, device),
            HardwareStep::Load(device) => self.can_load(test, device),
            HardwareStep::Deliver(message) => self.can_deliver(test, message),
            HardwareStep::Drop(message) => self.can_drop(test, message),
            HardwareStep::Repeat(message) => self.can_repeat(test, message),
            HardwareStep::Timeout => self.can_time_out(test),
        }
    }

    fn can_commit(&self, test: &Test, device: DeviceId) -> bool
        ensures { IsTrue result ↔ CanCommit S.readings test.now self.now device }
    {
        test.parts.commit
            && is_device_among(self.system.devices(), device)
            && self.system.is_in_flight(device)
    }

    fn can_load(&self, test: &Test, device: DeviceId) -> bool
        ensures { IsTrue result ↔ CanLoad S.readings test.now self.now device }
    {
        test.parts.load
            && is_device_among(self.system.devices(), device)
            && self.system.is_in_walk(device)
    }

    fn can_deliver(&self, test: &Test, message: usize) -> bool
        ensures { IsTrue result ↔ CanDeliver S.readings test.now self.now message }
    {
        test.parts.deliver
            && message < self.system.messages()
            && (!test.parts.in_order || message == 0)
            && self.is_first_such(message)
    }

    /// Whether no earlier message is equal to this one.
    fn is_first_such(&self, message: usize) -> bool
        ensures { IsTrue result ↔ IsFirstSuch S.readings self.now.system message }
    {
        for earlier in 0..message {
            if self.system.is_same_message(earlier, message) {
                return false;
            }
        }
        true
    }

    fn can_drop(&self, test: &Test, message: usize) -> bool
        ensures { IsTrue result ↔ CanDrop S.readings test.now self.now message }
    {
        message < self.system.messages()
            && drops(self.happened.as_slice()) < test.budgets.drops as usize
    }

    fn can_repeat(&self, test: &Test, message: usize) -> bool
        ensures { IsTrue result ↔ CanRepeat S.readings test.now self.now message }
    {
        message < self.system.messages()
            && repeats(self.happened.as_slice()) < test.budgets.repeats as usize
    }

    fn can_time_out(&self, test: &Test) -> bool
        ensures { IsTrue result ↔ CanTimeOut S.readings test.now self.now }
    {
        self.system.times_out()
            && timeouts(self.happened.as_slice()) < test.budgets.timeouts as usize
    }
}

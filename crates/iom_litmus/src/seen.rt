//! What a test sees of a schedule.
ghost use Rattle.std.specs.Prelude.{◌≡◌, IfOk};
ghost use Rattle.iom_litmus.specs.Seen.{after_run, after_any, is_kind, is_reach, touches};
ghost use Rattle.iom_litmus.specs.Seen.{is_touched, is_before, is_any_wrong, is_any_violated, seen_of, seen_at};

use crate::happenings::{answer_to, next_cell};
use crate::place::{Happened, Place};
use crate::system::System;
use iom_base::{AccessKind, Sequence};
use iom_litmus_test::{Observable, Reach, Spot, Test, Touch, Value};
use std::alloc::{AllocError, Global};

/// What happened after the cell was run: nothing where it wasn't.
fn after_run(happened: &[Happened], spot: Spot) -> &[Happened]
    ensures { result.now ≡ after_run spot happened.now }
{
    for (place, event) in happened.iter().enumerate() {
        if event.deed.is_run_of(spot) {
            return &happened[place + 1..];
        }
    }
    &[]
}

fn after_any(happened: &[Happened], spot: Option<Spot>) -> &[Happened]
    ensures { result.now ≡ after_any spot happened.now }
{
    match spot {
        Some(spot) => after_run(happened, spot),
        None => happened,
    }
}

fn is_kind(asked: Option<AccessKind>, kind: AccessKind) -> bool
    ensures { result ≡ is_kind asked kind }
{
    match (asked, kind) {
        (None, _)
        | (Some(AccessKind::Read), AccessKind::Read)
        | (Some(AccessKind::Write), AccessKind::Write) => true,
        (Some(AccessKind::Read), AccessKind::Write) | (Some(AccessKind::Write), AccessKind::Read) =>
            false,
    }
}

fn is_reach(reach: Reach, touch: &Touch) -> bool
    ensures { result ≡ is_reach reach touch.now }
{
    reach.device == touch.device && reach.frame == touch.frame && is_kind(reach.kind, touch.kind)
}

fn touches(event: &Happened, reach: Reach) -> bool
    ensures { result ≡ touches reach event.now }
{
    event
        .reply
        .touches
        .as_slice()
        .iter()
        .any(|touch| is_reach(reach, touch))
}

pub(crate) fn is_touched(happened: &[Happened], reach: Reach) -> bool
    ensures { result ≡ is_touched reach happened.now }
{
    after_any(happened, reach.after)
        .iter()
        .any(|event| touches(event, reach))
}

pub(crate) fn is_before(happened: &[Happened], first: Spot, then: Spot) -> bool
    ensures { result ≡ is_before first then happened.now }
{
    after_run(happened, first)
        .iter()
        .any(|event| event.deed.is_run_of(then))
}

pub(crate) fn is_any_wrong(happened: &[Happened]) -> bool
    ensures { result ≡ is_any_wrong happened.now }
{
    happened.iter().any(|event| event.reply.wrong)
}

pub(crate) fn is_any_violated(happened: &[Happened]) -> bool
    ensures { result ≡ is_any_violated happened.now }
{
    happened.iter().any(|event| event.reply.violated)
}

/// A copy of the text.
pub(crate) fn copied(alloc: Global, text: &[u8]) -> Result<Sequence<u8>, AllocError>
    ensures { IfOk result (λ copy. copy ≡ text.now) }
{
    Ok(Sequence::from_vec(Vec::from_slice(alloc, text)?))
}

impl<S: System> Place<S> {
    /// What is seen here of one thing that the test looks at.
    fn seen_of(
        &self,
        alloc: Global,
        test: &Test,
        observable: Observable,
    ) -> Result<Value, AllocError>
        ensures { IfOk result (λ value. value ≡ seen_of S.readings test.now self.now observable) }
    {
        let happened = self.happened.as_slice();
        match observable {
            Observable::Answer(spot) => Ok(Value::Text(copied(alloc, answer_to(happened, spot))?)),
            Observable::Touched(reach) => Ok(Value::Truth(is_touched(happened, reach))),
            Observable::Before { first, then } => {
                Ok(Value::Truth(is_before(happened, first, then)))
            }
            Observable::Stuck { column } => {
                Ok(Value::Truth(next_cell(test, happened, column).is_some()))
            }
            Observable::Wrong => Ok(Value::Truth(is_any_wrong(happened))),
            Observable::Violated => Ok(Value::Truth(is_any_violated(happened))),
            Observable::Memory { address, length } => {
                Ok(Value::Text(self.system.memory(alloc, address, length)?))
            }
        }
    }

    /// The outcome, of a schedule that ends here.
    pub(crate) fn outcome(&self, alloc: Global, test: &Test) -> Result<Sequence<Value>, AllocError>
        ensures { IfOk result (λ values. values ≡ seen_at S.readings test.now self.now) }
    {
        let mut values = Sequence::new(alloc);
        for observable in test.observables.as_slice() {
            let value = self.seen_of(alloc, test, *observable)?;
            values.push(value)?;
        }
        Ok(values)
    }
}

//! Places and the steps between them, and the histogram of the schedules through them.
ghost use Rattle.std.specs.Prelude.{◌≡◌, ℕ, ◌+◌, ◌<◌, Err, Some, IfOk, OnOk, length, option_map, slice_get};
ghost use Rattle.iom_litmus.specs.Steps.{deed_of};
ghost use Rattle.iom_litmus.specs.declared.node.Node.{Node};
ghost use Rattle.iom_litmus.specs.Tallies.{AreRows, AreSoMany, IsGraph, IsRoute, GoesOnForEver};

use crate::fault::SearchFault;
use crate::happenings::deed_of;
use crate::histogram::{Histogram, Row, is_outcome_among};
use crate::node::Edge;
use crate::place::Deed;
use crate::places::Places;
use crate::seen::copied;
use crate::step::Step;
use crate::system::System;
use crate::tally::Counting;
use iom_base::Sequence;
use iom_litmus_test::{Spot, Test, Value};
use std::alloc::{AllocError, Global};

/// Places that were found, and for each the steps that can be taken there and where they lead.
#[derive(Drop)]
pub struct Graph<S> {
    pub(crate) places: Places<S>,
    pub(crate) edges: Sequence<Sequence<Edge>>,
    pub(crate) changing: Sequence<Spot>,
}

/// A copy of the value.
fn value_copied(alloc: Global, value: &Value) -> Result<Value, AllocError>
    ensures { IfOk result (λ copy. copy ≡ value.now) }
{
    match value {
        Value::Text(text) => Ok(Value::Text(copied(alloc, text.as_slice())?)),
        Value::Truth(truth) => Ok(Value::Truth(*truth)),
    }
}

/// A copy of the outcome.
fn outcome_copied(alloc: Global, outcome: &[Value]) -> Result<Sequence<Value>, AllocError>
    ensures { IfOk result (λ copy. copy ≡ outcome.now) }
{
    let mut copy = Sequence::new(alloc);
    for value in outcome {
        let value = value_copied(alloc, value)?;
        copy.push(value)?;
    }
    Ok(copy)
}

fn way_copied(alloc: Global, way: &[Step]) -> Result<Sequence<Step>, AllocError>
    ensures { IfOk result (λ copy. copy ≡ way.now) }
{
    Ok(Sequence::from_vec(Vec::from_slice(alloc, way)?))
}

impl<S: System> Graph<S> {
    /// How many schedules have the outcome.
    fn count_of(&self, alloc: Global, outcome: &[Value]) -> Result<u64, SearchFault>
        requires graph { IsGraph self.now.places self.now.edges }
        ensures count { IfOk result (AreSoMany (IsRoute self.now.places self.now.edges outcome.now 0)) }
        ensures endless { result ≡ Err SearchFault.Endless → GoesOnForEver self.now.edges 0 }
    {
        let counting = Counting {
            nodes: self.places.as_slice(),
            edges: self.edges.as_slice(),
            outcome,
        };
        counting.count(alloc)
    }

    /// Adds a row for the outcome at this place, where a schedule ends there and none has its outcome.
    fn add_row(
        &self,
        alloc: Global,
        rows: &mut Sequence<Row>,
        number: usize,
    ) -> Result<(), SearchFault>
        requires graph { IsGraph self.now.places self.now.edges }
        requires within { number < length self.now.edges }
        requires rows { AreRows self.now.places self.now.edges number rows.old }
        ensures rows { OnOk result (AreRows self.now.places self.now.edges (number + 1) rows.new) }
        ensures endless { result ≡ Err SearchFault.Endless → GoesOnForEver self.now.edges 0 }
    {
        let node = &self.places.as_slice()[number];
        if !self.edges.as_slice()[number].as_slice().is_empty() {
            return Ok(());
        }
        if is_outcome_among(rows.as_slice(), node.outcome.as_slice()) {
            return Ok(());
        }
        let count = self.count_of(alloc, node.outcome.as_slice())?;
        let outcome = outcome_copied(alloc, node.outcome.as_slice())?;
        let schedule = way_copied(alloc, node.way.as_slice())?;
        rows.push(Row {
            outcome,
            count,
            schedule,
        })?;
        Ok(())
    }

    /// For each place the steps that can be taken there, and the numbers of the places to which they lead. The first is
    /// the one from which a test begins.
    pub fn edges(&self) -> &[Sequence<Edge>]
        ensures { result.now ≡ self.now.edges }
    {
        self.edges.as_slice()
    }

    /// What is seen at the place with this number. None where there is no such place.
    pub fn outcome(&self, number: usize) -> Option<&[Value]>
        ensures { option_map (λ outcome. outcome.now) result ≡ option_map (λ node. node.outcome) (slice_get self.now.places number) }
    {
        match self.places.as_slice().get(number) {
            Some(node) => Some(node.outcome.as_slice()),
            None => None,
        }
    }

    /// What the step does at the place with this number. None where there is no such place, or the step is a column's and
    /// that has come to its end.
    pub fn deed(&self, test: &Test, number: usize, step: Step) -> Option<Deed>
        ensures { (node : Node S) → slice_get self.now.places number ≡ Some node → result ≡ deed_of test.now node.place.happened step }
    {
        let node = self.places.as_slice().get(number)?;
        deed_of(test, node.place.happened.as_slice(), step)
    }

    /// The awaited cells that changed the system where they were answered otherwise than awaited: each once, in the order
    /// in which that was found. No schedule has such a try.
    pub fn changing(&self) -> &[Spot]
        ensures { result.now ≡ self.now.changing }
    {
        self.changing.as_slice()
    }

    /// A row for each outcome at which schedules end.
    pub(crate) fn histogram(&self, alloc: Global) -> Result<Histogram, SearchFault>
        requires graph { IsGraph self.now.places self.now.edges }
        ensures rows { IfOk result (λ histogram. AreRows self.now.places self.now.edges (length self.now.edges) histogram.rows) }
        ensures endless { result ≡ Err SearchFault.Endless → GoesOnForEver self.now.edges 0 }
    {
        let mut rows = Sequence::new(alloc);
        for number in 0..self.edges.as_slice().len() {
            self.add_row(alloc, &mut rows, number)?;
        }
        let places = self.edges.as_slice().len();
        Ok(Histogram { rows, places })
    }
}

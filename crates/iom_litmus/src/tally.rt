//! How many schedules lead from each place to an end with an outcome.
ghost use Rattle.std.specs.Prelude.{◌≡◌, ◌↔◌, ℕ, ◌<◌, ◌≤◌, Some, None, Err, IfOk, IsTrue, IsFalse, OnOk, length, slice_get, count_by, is_none};
ghost use Rattle.iom_litmus.specs.Listed.{IsListed};
ghost use Rattle.iom_litmus.specs.Tallies.{AreSoMany, IsGraph, AreTallies, IsRoute, IsStuckAt, IsSum, IsTally, IsToldOf, IsNothingTold, WasTold, WasPassed, GoesOnForEver, edges_at};
ghost use Rattle.iom_litmus.specs.declared.node.Edge.{Edge};

use crate::fault::SearchFault;
use crate::histogram::is_same_outcome;
use crate::node::{Edge, Node};
use iom_base::Sequence;
use iom_litmus_test::Value;
use std::alloc::{AllocError, Global};

/// The places and their edges, and the outcome of which schedules are counted.
#[derive(Drop)]
pub(crate) struct Counting<'a, S> {
    pub(crate) nodes: &'a [Node<S>],
    pub(crate) edges: &'a [Sequence<Edge>],
    pub(crate) outcome: &'a [Value],
}

/// What is told of the place, where something is.
#[tactic(auto, using(crate::proofs::TallyLemmas::told_within, crate::proofs::TallyLemmas::told_past))]
fn told_of(tallies: &[Option<u64>], number: usize) -> Option<u64>
    ensures { IsToldOf tallies.now number result }
{
    if number < tallies.len() {
        tallies[number]
    } else {
        None
    }
}

/// The sum of what is told of the places to which the edges lead. None where one isn't told yet.
fn sum_over(edges: &[Edge], tallies: &[Option<u64>]) -> Result<Option<u64>, SearchFault>
    ensures sum { IfOk result (IsSum tallies.now edges.now) }
    ensures ends { ¬ (result ≡ Err SearchFault.Endless) }
{
    let Some((first, rest)) = edges.split_first() else {
        return Ok(Some(0));
    };
    let Some(one) = told_of(tallies, first.to) else {
        return Ok(None);
    };
    let Some(others) = sum_over(rest, tallies)? else {
        return Ok(None);
    };
    match one.checked_add(others) {
        Some(sum) => Ok(Some(sum)),
        None => Err(SearchFault::TooManySchedules),
    }
}

impl<S> Counting<'_, S> {
    /// How many schedules lead from this place to the outcome. None where it isn't told yet of each place to which
    /// an edge leads.
    fn tally(&self, number: usize, tallies: &[Option<u64>]) -> Result<Option<u64>, SearchFault>
        requires graph { IsGraph self.now.nodes.now self.now.edges.now }
        requires told { AreTallies self.now.nodes.now self.now.edges.now self.now.outcome.now tallies.now }
        requires within { number < length self.now.edges.now }
        ensures tally { IfOk result (IsTally self.now.nodes.now self.now.edges.now self.now.outcome.now tallies.now number) }
        ensures ends { ¬ (result ≡ Err SearchFault.Endless) }
    {
        let edges = self.edges[number].as_slice();
        if !edges.is_empty() {
            return sum_over(edges, tallies);
        }
        let outcome = self.nodes[number].outcome.as_slice();
        Ok(Some(is_same_outcome(outcome, self.outcome) as u64))
    }

    /// Tells how many schedules lead from this place to the outcome, where it can be told. Whether it was.
    fn tell(&self, tallies: &mut Sequence<Option<u64>>, number: usize) -> Result<bool, SearchFault>
        requires graph { IsGraph self.now.nodes.now self.now.edges.now }
        requires told { AreTallies self.now.nodes.now self.now.edges.now self.now.outcome.now tallies.old }
        requires within { number < length self.now.edges.now }
        requires as_many { length tallies.old ≡ length self.now.edges.now }
        ensures told { IfOk result (WasTold self.now.nodes.now self.now.edges.now self.now.outcome.now number tallies.old tallies.new) }
        ensures ends { ¬ (result ≡ Err SearchFault.Endless) }
    {
        if tallies.as_slice()[number].is_some() {
            return Ok(false);
        }
        let Some(count) = self.tally(number, tallies.as_slice())? else {
            return Ok(false);
        };
        *tallies.item_mut(number) = Some(count);
        Ok(true)
    }

    /// Tells of each place what can be told, of the last one first. Whether anything was.
    fn pass(&self, tallies: &mut Sequence<Option<u64>>) -> Result<bool, SearchFault>
        requires graph { IsGraph self.now.nodes.now self.now.edges.now }
        requires told { AreTallies self.now.nodes.now self.now.edges.now self.now.outcome.now tallies.old }
        requires as_many { length tallies.old ≡ length self.now.edges.now }
        ensures passed { IfOk result (WasPassed self.now.nodes.now self.now.edges.now self.now.outcome.now (length self.now.edges.now) tallies.old tallies.new) }
        ensures ends { ¬ (result ≡ Err SearchFault.Endless) }
    {
        let mut any = false;
        for back in 0..self.edges.len() {
            let number = self.edges.len() - 1 - back;
            let told = self.tell(tallies, number)?;
            any = any || told;
        }
        Ok(any)
    }

    /// How many schedules lead from the first place to the outcome.
    pub(crate) fn count(&self, alloc: Global) -> Result<u64, SearchFault>
        requires graph { IsGraph self.now.nodes.now self.now.edges.now }
        ensures count { IfOk result (AreSoMany (IsRoute self.now.nodes.now self.now.edges.now self.now.outcome.now 0)) }
        ensures endless { result ≡ Err SearchFault.Endless → GoesOnForEver self.now.edges.now 0 }
    {
        let mut tallies = untold(alloc, self.edges.len())?;
        loop {
            if let Some(count) = told_of(tallies.as_slice(), 0) {
                return Ok(count);
            }
            if !self.pass(&mut tallies)? {
                return Err(SearchFault::Endless);
            }
        }
    }
}

/// Nothing is told of so many places.
fn untold(alloc: Global, count: usize) -> Result<Sequence<Option<u64>>, AllocError>
    ensures { IfOk result (IsNothingTold count) }
{
    let mut tallies = Sequence::new(alloc);
    for _ in 0..count {
        tallies.push(None)?;
    }
    Ok(tallies)
}

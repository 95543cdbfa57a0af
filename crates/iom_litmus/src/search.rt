//! The search: places that are equal are gone on from once. To come to a place, a system is made anew and brought there.
ghost use Rattle.std.specs.Prelude.{◌≡◌, List, ◌++◌, ◌∷◌, [], IfOk, OnOk, Some, None, Err, slice_get};
ghost use Rattle.iom_litmus.specs.Alike.{IsSamePlace};
ghost use Rattle.iom_litmus.specs.Candidates.{ListsCandidates};
ghost use Rattle.iom_litmus.specs.Graphs.{WasExplored, WasExpanded, IsSpareOf};
ghost use Rattle.iom_litmus.specs.Histograms.{IsSearched};
ghost use Rattle.iom_litmus.specs.Listed.{AreListedOnce, KeepsListed};
ghost use Rattle.iom_litmus.specs.Rules.{noting};
ghost use Rattle.iom_litmus.specs.Searches.{ComesTo, IsExplored, IsExploring, IsEndless};
ghost use Rattle.iom_litmus.specs.Steps.{opening_place};
ghost use Rattle.iom_litmus.specs.declared.node.Node.{Node};
ghost use Rattle.iom_litmus_test.specs.declared.observable.Spot.{Spot};

use crate::candidates::{candidates, each_once};
use crate::fault::SearchFault;
use crate::graph::Graph;
use crate::histogram::Histogram;
use crate::node::{Edge, Node};
use crate::place::Place;
use crate::places::Places;
use crate::step::Step;
use crate::system::System;
use crate::taking::Tried;
use crate::tries::Tries;
use crate::watch::Watch;
use iom_base::Sequence;
use iom_litmus_test::Test;
use std::alloc::{AllocError, Global};

/// A search through all schedules of a test.
#[derive(Drop)]
pub struct Search<'a, S: System> {
    pub alloc: Global,
    pub test: &'a Test,
    /// What the system is made from, each time.
    pub opening: &'a S::Opening,
}

/// What a search found.
#[derive(Drop)]
pub struct Explored<S> {
    pub histogram: Histogram,
    pub graph: Graph<S>,
}

/// The way with one more step.
pub(crate) fn longer(alloc: Global, way: &[Step], step: Step) -> Result<Sequence<Step>, AllocError>
    ensures { IfOk result (λ new. new ≡ way.now ++ step ∷ []) }
{
    let mut steps = Vec::from_slice(alloc, way)?;
    steps.push(step)?;
    Ok(Sequence::from_vec(steps))
}

impl<S: System> Search<'_, S> {
    /// Where the steps lead, with a system made anew.
    pub fn replay(&self, steps: &[Step]) -> Result<Place<S>, SearchFault>
        ensures comes { IfOk result (ComesTo (S.opens self.now.opening.now) S.rules S.readings self.now.test.now steps.now) }
        ensures ends { ¬ (result ≡ Err SearchFault.Endless) }
    {
        let mut place = Place::opening(self.alloc, self.opening)?;
        for step in steps {
            match place.after(self.alloc, self.test, *step)? {
                Tried::Taken(next) => place = next,
                Tried::Refused(_) => return Err(SearchFault::Memory),
            }
        }
        Ok(place)
    }

    /// The place once more, with a system made anew.
    fn arrive(&self, node: &Node<S>) -> Result<Place<S>, SearchFault>
        ensures same { IfOk result (IsSamePlace self.now.test.now node.now.place) }
        ensures ends { ¬ (result ≡ Err SearchFault.Endless) }
    {
        let place = self.replay(node.way.as_slice())?;
        if !node.place.is_same(self.test, &place) {
            return Err(SearchFault::Memory);
        }
        Ok(place)
    }

    /// The place once more: what an earlier try left, or one with a system made anew.
    fn place_of(&self, node: &Node<S>, tries: &mut Tries<S>) -> Result<Place<S>, SearchFault>
        ensures same { IsSpareOf self.now.test.now node.now tries.old.spare → IfOk result (IsSamePlace self.now.test.now node.now.place) }
        ensures taken { tries.new.spare ≡ None }
        ensures same_cells { tries.new.changing ≡ tries.old.changing }
        ensures ends { ¬ (result ≡ Err SearchFault.Endless) }
    {
        match tries.spare.take() {
            Some(place) => Ok(place),
            None => self.arrive(node),
        }
    }

    /// Takes the step at this place, and puts the place to which it leads among the others. None where it can't be
    /// taken.
    fn explore_step(
        &self,
        places: &mut Places<S>,
        tries: &mut Tries<S>,
        current: usize,
        step: Step,
        most: usize,
    ) -> Result<Option<usize>, SearchFault>
        ensures explored { (node : Node S) → slice_get places.old current ≡ Some node → IsSpareOf self.now.test.now node tries.old.spare
            → (cells : List Spot) → KeepsListed tries.new.changing cells
            → IfOk result (WasExplored (noting S.rules cells) S.readings self.now.test.now node step places.old places.new) }
        ensures keeps { OnOk result (KeepsListed tries.old.changing tries.new.changing) }
        ensures spare { (node : Node S) → slice_get places.old current ≡ Some node → IsSpareOf self.now.test.now node tries.old.spare
            → OnOk result (IsSpareOf self.now.test.now node tries.new.spare) }
        ensures ends { ¬ (result ≡ Err SearchFault.Endless) }
    {
        let Some(node) = places.as_slice().get(current) else {
            return Ok(None);
        };
        if !node.place.can_try(self.test, step) {
            return Ok(None);
        }
        let place = self.place_of(node, tries)?;
        let end = match place.after(self.alloc, self.test, step)? {
            Tried::Taken(end) => end,
            Tried::Refused(left) => {
                tries.give_back(self.test, node, step, left)?;
                return Ok(None);
            }
        };
        let way = longer(self.alloc, node.way.as_slice(), step)?;
        let number = places.put(self.alloc, self.test, end, way, most)?;
        Ok(Some(number))
    }

    /// The steps that there can be at this place, each once, the columns' first.
    fn steps_at(&self, node: &Node<S>) -> Result<Sequence<Step>, AllocError>
        ensures { IfOk result (λ steps. ListsCandidates S.readings self.now.test.now node.now.place steps × AreListedOnce steps) }
    {
        let all = candidates(self.alloc, self.test, &node.place)?;
        each_once(self.alloc, all.as_slice())
    }

    /// Takes those of the steps that can be taken at this place.
    fn take_steps(
        &self,
        places: &mut Places<S>,
        tries: &mut Tries<S>,
        current: usize,
        steps: &[Step],
        edges: &mut Sequence<Edge>,
        most: usize,
    ) -> Result<(), SearchFault>
        requires once { AreListedOnce steps.now }
        requires no_edges { edges.old ≡ [] }
        requires no_spare { tries.old.spare ≡ None }
        ensures expanded { (node : Node S) → slice_get places.old current ≡ Some node
            → ListsCandidates S.readings self.now.test.now node.place steps.now
            → (cells : List Spot) → KeepsListed tries.new.changing cells
            → OnOk result (WasExpanded (noting S.rules cells) S.readings self.now.test.now node places.old places.new edges.new) }
        ensures keeps { OnOk result (KeepsListed tries.old.changing tries.new.changing) }
        ensures ends { ¬ (result ≡ Err SearchFault.Endless) }
    {
        for step in steps {
            if let Some(to) = self.explore_step(places, tries, current, *step, most)? {
                edges.push(Edge { step: *step, to })?;
            }
        }
        Ok(())
    }

    /// All steps from this place, the columns' first.
    fn expand(
        &self,
        places: &mut Places<S>,
        tries: &mut Tries<S>,
        current: usize,
        most: usize,
    ) -> Result<Sequence<Edge>, SearchFault>
        ensures expanded { (node : Node S) → slice_get places.old current ≡ Some node
            → (cells : List Spot) → KeepsListed tries.new.changing cells
            → IfOk result (WasExpanded (noting S.rules cells) S.readings self.now.test.now node places.old places.new) }
        ensures keeps { OnOk result (KeepsListed tries.old.changing tries.new.changing) }
        ensures ends { ¬ (result ≡ Err SearchFault.Endless) }
    {
        let mut edges = Sequence::new(self.alloc);
        let Some(node) = places.as_slice().get(current) else {
            return Ok(edges);
        };
        let steps = self.steps_at(node)?;
        tries.spare = None;
        self.take_steps(places, tries, current, steps.as_slice(), &mut edges, most)?;
        Ok(edges)
    }

    /// Puts the place from which a test begins among the others.
    fn begin(&self, places: &mut Places<S>, most: usize) -> Result<(), SearchFault>
        ensures begun { places.old ≡ [] → (cells : List Spot) → OnOk result ((system : S) × S.opens self.now.opening.now system
            × IsExploring (noting S.rules cells) S.readings self.now.test.now system places.new [] []) }
        ensures ends { ¬ (result ≡ Err SearchFault.Endless) }
    {
        let opening = Place::opening(self.alloc, self.opening)?;
        let nowhere = Sequence::new(self.alloc);
        places.put(self.alloc, self.test, opening, nowhere, most)?;
        Ok(())
    }

    /// Finds all places, of which there may be so many, and the steps between them: shortest ways first.
    fn explore_places<W: Watch>(
        &self,
        places: &mut Places<S>,
        edges: &mut Sequence<Sequence<Edge>>,
        tries: &mut Tries<S>,
        most: usize,
        watch: &mut W,
    ) -> Result<(), SearchFault>
        requires no_places { places.old ≡ [] }
        requires no_edges { edges.old ≡ [] }
        ensures explored { OnOk result (IsExplored (S.opens self.now.opening.now) (noting S.rules tries.new.changing) S.readings self.now.test.now
            places.new edges.new) }
        ensures ends { ¬ (result ≡ Err SearchFault.Endless) }
    {
        self.begin(places, most)?;
        for current in 0..most {
            if current == places.as_slice().len() {
                break;
            }
            watch.at(places.as_slice().len(), places.depth_of(current));
            let onward = self.expand(places, tries, current, most)?;
            edges.push(onward)?;
        }
        if edges.as_slice().len() != places.as_slice().len() {
            return Err(SearchFault::TooMany);
        }
        Ok(())
    }

    /// All places, of which there may be so many, and the steps between them.
    fn find_places<W: Watch>(&self, most: usize, watch: &mut W) -> Result<Graph<S>, SearchFault>
        ensures explored { IfOk result (λ graph. IsExplored (S.opens self.now.opening.now) (noting S.rules graph.changing) S.readings self.now.test.now
            graph.places graph.edges) }
        ensures ends { ¬ (result ≡ Err SearchFault.Endless) }
    {
        let mut places = Places::new(self.alloc);
        let mut edges = Sequence::new(self.alloc);
        let mut tries = Tries::new(self.alloc);
        self.explore_places(&mut places, &mut edges, &mut tries, most, watch)?;
        Ok(Graph {
            places,
            edges,
            changing: tries.changing,
        })
    }

    /// Goes through all schedules, over so many places at most. Who watches is told of each place.
    pub fn explore<W: Watch>(&self, most: usize, watch: &mut W) -> Result<Explored<S>, SearchFault>
        // By some behaviour, of which each answer is one that the system may give, each schedule's outcome has a row,
        // and each row's count is the number of its schedules. Where an awaited cell isn't answered like that, the
        // system is left as it was, unless the cell is noted.
        ensures histogram { IfOk result (λ explored. IsSearched (S.opens self.now.opening.now) (noting S.rules explored.graph.changing) S.readings
            self.now.test.now explored.histogram.rows) }

        // The places and the steps between them, over which they were counted.
        ensures graph { IfOk result (λ explored. IsExplored (S.opens self.now.opening.now) (noting S.rules explored.graph.changing) S.readings
            self.now.test.now explored.graph.places explored.graph.edges) }

        // Steps are said to go on for ever only where by some such behaviour they do.
        ensures endless { result ≡ Err SearchFault.Endless → IsEndless (S.opens self.now.opening.now) S.rules S.readings self.now.test.now }
    {
        let graph = self.find_places(most, watch)?;
        match graph.histogram(self.alloc) {
            Ok(histogram) => Ok(Explored { histogram, graph }),
            Err(fault) => Err(fault),
        }
    }
}

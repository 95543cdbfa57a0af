//! The places that were found, each once.
ghost use Rattle.std.specs.Prelude.{◌≡◌, [], ◌∷◌, ◌++◌, OnErr, OnOk, IfOk, IfSome, Err};
ghost use Rattle.iom_litmus.specs.Graphs.{IsFoundAt, WasPut};
ghost use Rattle.iom_litmus.specs.declared.node.Node.{Node};

use crate::fault::SearchFault;
use crate::node::Node;
use crate::place::Place;
use crate::step::Step;
use crate::system::System;
use iom_base::Sequence;
use iom_litmus_test::Test;
use std::alloc::{AllocError, Global};
use std::collections::HashMap;
use std::marker::Model;

/// The places that were found, in their order.
#[derive(Drop)]
pub(crate) struct Places<S> {
    nodes: Sequence<Node<S>>,
    /// The last place with each fingerprint.
    last: HashMap<u64, usize>,
}

impl<S> Model for Places<S> {
    ghost use Rattle.std.specs.Prelude.{List};
    ghost use Rattle.iom_litmus.specs.declared.node.Node.{Node};

    ghost Value = { List (Node S) };

    ghost view = { λ p. p.nodes };
}

impl<S: System> Places<S> {
    /// No place was found. It takes no memory.
    pub(crate) fn new(alloc: Global) -> Places<S>
        ensures { result ≡ [] }
    {
        Places {
            nodes: Sequence::new(alloc),
            last: HashMap::new(alloc),
        }
    }

    pub(crate) fn as_slice(&self) -> &[Node<S>]
        ensures { result.now ≡ self.now }
    {
        self.nodes.as_slice()
    }

    /// How many steps lead to this place; 0 where there is none.
    pub(crate) fn depth_of(&self, number: usize) -> usize {
        match self.nodes.as_slice().get(number) {
            Some(node) => node.way.as_slice().len(),
            None => 0,
        }
    }

    /// The number of the place, where it was found before.
    fn number_of(&self, test: &Test, place: &Place<S>, fingerprint: u64) -> Option<usize>
        ensures { IfSome result (IsFoundAt test.now self.now place.now) }
    {
        let nodes = self.nodes.as_slice();
        let mut next = self.last.get(&fingerprint).copied();
        for _ in 0..nodes.len() {
            let number = next?;
            let node = nodes.get(number)?;
            if place.is_same(test, &node.place) {
                return Some(number);
            }
            next = node.twin;
        }
        None
    }

    /// The number of the place, which is put behind the others where it is a new one: at most so many.
    pub(crate) fn put(
        &mut self,
        alloc: Global,
        test: &Test,
        place: Place<S>,
        way: Sequence<Step>,
        most: usize,
    ) -> Result<usize, SearchFault>
        ensures put { IfOk result (WasPut S.readings test.now way place self.old self.new) }
        ensures ends { ¬ (result ≡ Err SearchFault.Endless) }
    {
        let fingerprint = place.fingerprint(test);
        if let Some(number) = self.number_of(test, &place, fingerprint) {
            return Ok(number);
        }
        let number = self.nodes.as_slice().len();
        if number >= most {
            return Err(SearchFault::TooMany);
        }
        let outcome = place.outcome(alloc, test)?;
        let twin = self.last.get(&fingerprint).copied();
        let node = Node::keeping(place, way, outcome, twin);
        self.nodes.push(node)?;
        match self.last.insert(fingerprint, number) {
            Ok(_) => Ok(number),
            Err(_) => Err(SearchFault::Memory),
        }
    }
}

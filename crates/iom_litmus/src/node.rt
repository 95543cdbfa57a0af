ghost use Rattle.std.specs.Prelude.{◌≡◌};

use crate::place::Place;
use crate::step::Step;
use crate::system::System;
use iom_base::Sequence;
use iom_litmus_test::Value;

/// A step that can be taken at a place, and the number of the place to which it leads.
#[derive(Clone, Copy, Drop)]
pub struct Edge {
    pub step: Step,
    pub to: usize,
}

/// A place that was found.
#[derive(Drop)]
pub(crate) struct Node<S> {
    pub(crate) place: Place<S>,
    /// A shortest way to it.
    pub(crate) way: Sequence<Step>,
    /// What is seen there.
    pub(crate) outcome: Sequence<Value>,
    /// The place that was found before with the same fingerprint.
    pub(crate) twin: Option<usize>,
}

impl<S: System> Node<S> {
    /// The place, which is kept: what its system doesn't need for that is given back.
    pub(crate) fn keeping(
        mut place: Place<S>,
        way: Sequence<Step>,
        outcome: Sequence<Value>,
        twin: Option<usize>,
    ) -> Node<S>
        ensures { result ≡ record { place = place; way = way; outcome = outcome; twin = twin } }
    {
        place.system.shrink();
        Node {
            place,
            way,
            outcome,
            twin,
        }
    }
}

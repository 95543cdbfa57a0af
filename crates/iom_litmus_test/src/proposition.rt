//! What a test asks of an outcome.
ghost use Rattle.std.specs.Prelude.{◌≡◌, ◌↔◌, IsTrue};
ghost use Rattle.iom_litmus_test.specs.Propositions.{HoldsOfOutcome, HoldsAt, HoldsOf};

use crate::glob::Glob;
use crate::observable::Value;

/// That something was seen.
#[derive(Drop)]
pub struct Atom {
    /// Its place among what the test looks at, from 0.
    pub place: usize,
    /// The text that it is to be. Without one: that it is true, or any text but the empty one.
    pub wanted: Option<Glob>,
}

/// A proposition over outcomes.
#[derive(Drop)]
pub enum Proposition {
    Seen(Atom),
    Not(Box<Proposition>),
    And(Box<Proposition>, Box<Proposition>),
    Or(Box<Proposition>, Box<Proposition>),
}

impl Proposition {
    /// Whether it holds of an outcome: the values of what the test looks at, in their order.
    pub fn holds(&self, outcome: &[Value]) -> bool
        ensures { IsTrue result ↔ HoldsOfOutcome self.now outcome.now }
    {
        match self {
            Proposition::Seen(atom) => atom.holds(outcome),
            Proposition::Not(inner) => !inner.holds(outcome),
            Proposition::And(left, right) => left.holds(outcome) && right.holds(outcome),
            Proposition::Or(left, right) => left.holds(outcome) || right.holds(outcome),
        }
    }
}

impl Atom {
    fn holds(&self, outcome: &[Value]) -> bool
        ensures { IsTrue result ↔ HoldsAt self.now outcome.now }
    {
        match outcome.get(self.place) {
            Some(value) => value.is(&self.wanted),
            None => false,
        }
    }
}

impl Value {
    fn is(&self, wanted: &Option<Glob>) -> bool
        ensures { IsTrue result ↔ HoldsOf wanted.now self.now }
    {
        match (self, wanted) {
            (Value::Text(text), Some(glob)) => glob.matches(text.as_slice()),
            (Value::Text(text), None) => !text.as_slice().is_empty(),
            (Value::Truth(truth), None) => *truth,
            (Value::Truth(_), Some(_)) => false,
        }
    }
}

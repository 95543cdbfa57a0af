//! How many schedules have each outcome.
ghost use Rattle.std.specs.Prelude.{◌≡◌, ◌↔◌, IsTrue};
ghost use Rattle.iom_litmus.specs.Histograms.{outcomes};
ghost use Rattle.iom_litmus.specs.Listed.{IsListed};

use crate::step::Step;
use iom_base::Sequence;
use iom_litmus_test::Value;

/// An outcome of a test.
#[derive(Drop)]
pub struct Row {
    /// What is seen of each thing that the test looks at, in the test's order.
    pub outcome: Sequence<Value>,
    /// How many schedules have it.
    pub count: u64,
    /// The first of the shortest schedules that have it.
    pub schedule: Sequence<Step>,
}

/// What a search answers.
#[derive(Drop)]
pub struct Histogram {
    /// A row for each outcome, in the order in which they were found.
    pub rows: Sequence<Row>,
    /// How many places there are.
    pub places: usize,
}

/// Whether the outcomes are the same.
pub(crate) fn is_same_outcome(one: &[Value], other: &[Value]) -> bool
    ensures { IsTrue result ↔ (one.now ≡ other.now) }
{
    match (one.split_first(), other.split_first()) {
        (None, None) => true,
        (Some((value, rest)), Some((against, others))) => {
            value.is_same(against) && is_same_outcome(rest, others)
        }
        (Some(_), None) | (None, Some(_)) => false,
    }
}

/// Whether some row has this outcome.
pub(crate) fn is_outcome_among(rows: &[Row], outcome: &[Value]) -> bool
    ensures { IsTrue result ↔ IsListed (outcomes rows.now) outcome.now }
{
    match rows.split_first() {
        Some((first, rest)) => {
            is_same_outcome(first.outcome.as_slice(), outcome) || is_outcome_among(rest, outcome)
        }
        None => false,
    }
}

//! Whether a test's question is answered as the test says.
ghost use Rattle.std.specs.Prelude.{◌↔◌, IsTrue};
ghost use Rattle.iom_litmus.specs.Behaviours.{Behaviour};
ghost use Rattle.iom_litmus.specs.Histograms.{IsHistogram};
ghost use Rattle.iom_litmus.specs.Questions.{IsValidated, HoldsOfSome, HoldsOfEach};

use crate::histogram::{Histogram, Row};
use crate::search::Search;
use crate::system::System;
use iom_litmus_test::{Proposition, QuestionKind};

fn holds_of_some(rows: &[Row], asked: &Proposition) -> bool
    ensures { IsTrue result ↔ HoldsOfSome rows.now asked.now }
{
    for row in rows {
        if asked.holds(row.outcome.as_slice()) {
            return true;
        }
    }
    false
}

fn holds_of_each(rows: &[Row], asked: &Proposition) -> bool
    ensures { IsTrue result ↔ HoldsOfEach rows.now asked.now }
{
    for row in rows {
        if !asked.holds(row.outcome.as_slice()) {
            return false;
        }
    }
    true
}

impl<S: System> Search<'_, S> {
    /// Whether the question is answered as the test says, by a histogram of all schedules.
    pub fn is_validated(&self, histogram: &Histogram) -> bool
        ensures { (b : Behaviour S) (system : S) → IsHistogram S.readings b self.now.test.now system histogram.now.rows
            → IsTrue result ↔ IsValidated S.readings b self.now.test.now system }
    {
        let asked = &self.test.question.proposition;
        let rows = histogram.rows.as_slice();
        match self.test.question.kind {
            QuestionKind::Exists => holds_of_some(rows, asked),
            QuestionKind::NotExists => !holds_of_some(rows, asked),
            QuestionKind::ForAll => holds_of_each(rows, asked),
        }
    }
}

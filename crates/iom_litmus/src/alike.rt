//! Whether happenings are alike for a test: then the same can happen after them, and is seen.
ghost use Rattle.std.specs.Prelude.{◌≡◌, ◌↔◌, IsTrue, option_map};
ghost use Rattle.iom_litmus.specs.Alike.{is_run, said_to, AreAskedAlike, AreAlikeAt, AreAlikeIn, AreRunAlike, AreSeenAlike};
ghost use Rattle.iom_litmus.specs.Alike.{AreAlike, IsSamePlace};
ghost use Rattle.iom_litmus.specs.Listed.{IsListed};
ghost use Rattle.std.specs.Prelude.{ℕ, ◌<◌, length};
ghost use Rattle.iom_litmus_test.specs.declared.observable.Observable.{Observable};

use crate::happenings::{cells_of, drops, is_passed, repeats, run_of, timeouts};
use crate::place::{Happened, Place};
use crate::seen::{is_any_violated, is_any_wrong, is_before, is_touched};
use crate::system::System;
use iom_litmus_test::{Cell, Condition, Observable, Spot, Test};

/// Whether the cell was run.
pub(crate) fn is_run(happened: &[Happened], spot: Spot) -> bool
    ensures { result ≡ is_run spot happened.now }
{
    happened.iter().any(|event| event.deed.is_run_of(spot))
}

/// What the cell was answered, where it was run.
pub(crate) fn said_to(happened: &[Happened], spot: Spot) -> Option<&[u8]>
    ensures { option_map (λ text. text.now) result ≡ said_to spot happened.now }
{
    match run_of(happened, spot) {
        Some(event) => Some(event.reply.text.as_slice()),
        None => None,
    }
}

/// Whether the cell was answered the same, or wasn't run in either.
fn is_said_alike(one: &[Happened], other: &[Happened], spot: Spot) -> bool
    ensures { IsTrue result → said_to spot one.now ≡ said_to spot other.now }
{
    match (said_to(one, spot), said_to(other, spot)) {
        (Some(text), Some(against)) => text == against,
        (None, None) => true,
        (Some(_), None) | (None, Some(_)) => false,
    }
}

fn is_asked_alike(
    one: &[Happened],
    other: &[Happened],
    column: usize,
    condition: &Option<Condition>,
) -> bool
    ensures { IsTrue result → AreAskedAlike column condition.now one.now other.now }
{
    match condition {
        None => true,
        Some(condition) => {
            let cell = condition.cell;
            is_said_alike(one, other, Spot { column, cell })
        }
    }
}

/// Whether the cell is behind its column or ahead of it in both, and what it asks for is the same. The answers to
/// cells with a label are to be the same too.
fn is_cell_alike(
    one: &[Happened],
    other: &[Happened],
    column: usize,
    place: usize,
    cell: &Cell,
) -> bool
    ensures { IsTrue result → AreAlikeAt column place cell.now one.now other.now }
{
    if is_passed(one, column, place) != is_passed(other, column, place) {
        return false;
    }
    if !is_asked_alike(one, other, column, &cell.condition) {
        return false;
    }
    let spot = Spot {
        column,
        cell: place,
    };
    cell.label.is_none() || is_said_alike(one, other, spot)
}

fn is_column_alike(test: &Test, one: &[Happened], other: &[Happened], column: usize) -> bool
    ensures { IsTrue result → AreAlikeIn test.now column one.now other.now }
{
    let cells = cells_of(test, column);
    for (place, cell) in cells.iter().enumerate() {
        if !is_cell_alike(one, other, column, place, cell) {
            return false;
        }
    }
    true
}

fn are_columns_alike(test: &Test, one: &[Happened], other: &[Happened]) -> bool
    ensures { IsTrue result → (column : ℕ) → AreAlikeIn test.now column one.now other.now }
{
    for column in 0..test.columns.as_slice().len() {
        if !is_column_alike(test, one, other, column) {
            return false;
        }
    }
    true
}

fn is_run_alike(one: &[Happened], other: &[Happened], spot: Option<Spot>) -> bool
    ensures { IsTrue result → AreRunAlike spot one.now other.now }
{
    match spot {
        None => true,
        Some(spot) => is_run(one, spot) == is_run(other, spot),
    }
}

/// Whether the same is seen so far, and goes on to be.
fn is_seen_alike(one: &[Happened], other: &[Happened], observable: Observable) -> bool
    ensures { IsTrue result → AreSeenAlike observable one.now other.now }
{
    match observable {
        Observable::Answer(spot) => is_said_alike(one, other, spot),
        Observable::Touched(reach) => {
            is_touched(one, reach) == is_touched(other, reach)
                && is_run_alike(one, other, reach.after)
        }
        Observable::Before { first, then } => {
            is_before(one, first, then) == is_before(other, first, then)
                && is_run(one, first) == is_run(other, first)
        }
        Observable::Wrong => is_any_wrong(one) == is_any_wrong(other),
        Observable::Violated => is_any_violated(one) == is_any_violated(other),
        Observable::Stuck { .. } | Observable::Memory { .. } => true,
    }
}

fn are_all_seen_alike(one: &[Happened], other: &[Happened], observables: &[Observable]) -> bool
    ensures { IsTrue result → (observable : Observable) → IsListed observables.now observable → AreSeenAlike observable one.now other.now }
{
    match observables.split_first() {
        None => true,
        Some((first, rest)) => {
            is_seen_alike(one, other, *first) && are_all_seen_alike(one, other, rest)
        }
    }
}

/// Whether what happened is alike for the test.
fn is_alike(test: &Test, one: &[Happened], other: &[Happened]) -> bool
    ensures { IsTrue result → AreAlike test.now one.now other.now }
{
    if !are_columns_alike(test, one, other) {
        return false;
    }
    if !are_all_seen_alike(one, other, test.observables.as_slice()) {
        return false;
    }
    if drops(one) != drops(other) {
        return false;
    }
    if repeats(one) != repeats(other) {
        return false;
    }
    timeouts(one) == timeouts(other)
}

impl<S: System> Place<S> {
    /// Whether it is the same place, but for what happened that makes no difference to the test.
    pub(crate) fn is_same(&self, test: &Test, other: &Place<S>) -> bool
        ensures { IsTrue result → IsSamePlace test.now self.now other.now }
    {
        is_alike(test, self.happened.as_slice(), other.happened.as_slice())
            && self.system.is_same(&other.system)
    }
}

//! What can be read off what happened.
ghost use Rattle.std.specs.Prelude.{◌≡◌, option_map, find};
ghost use Rattle.iom_litmus.specs.Happenings.{answer_to, goes_ahead, is_passed, cells_of, next_cell, times};
ghost use Rattle.iom_litmus.specs.Steps.{deed_of};
ghost use Rattle.iom_litmus.specs.Deeds.{is_run_of, is_drop, is_repeat, is_timeout};

use crate::place::{Deed, Happened};
use crate::step::Step;
use iom_litmus_test::{Cell, Condition, Spot, Test};

/// A cell that comes next in its column.
#[derive(Clone, Copy)]
pub(crate) struct NextCell<'a> {
    /// Its place in the column, from 0.
    pub(crate) place: usize,
    pub(crate) cell: &'a Cell,
}

/// What happened as the cell was run.
pub(crate) fn run_of(happened: &[Happened], spot: Spot) -> Option<&Happened>
    ensures { option_map (λ event. event.now) result ≡ find (λ event. is_run_of spot event.deed) happened.now }
{
    happened.iter().find(|event| event.deed.is_run_of(spot))
}

/// What the cell was answered, and the empty text where it wasn't run.
pub(crate) fn answer_to(happened: &[Happened], spot: Spot) -> &[u8]
    ensures { result.now ≡ answer_to spot happened.now }
{
    match run_of(happened, spot) {
        Some(event) => event.reply.text.as_slice(),
        None => &[],
    }
}

/// Whether the condition of a cell of this column holds.
fn goes_ahead(happened: &[Happened], column: usize, condition: &Option<Condition>) -> bool
    ensures { result ≡ goes_ahead happened.now column condition.now }
{
    match condition {
        None => true,
        Some(condition) => {
            let cell = condition.cell;
            condition
                .answer
                .matches(answer_to(happened, Spot { column, cell }))
        }
    }
}

/// Whether the cell at this place of the column was run, or one behind it.
pub(crate) fn is_passed(happened: &[Happened], column: usize, cell: usize) -> bool
    ensures { result ≡ is_passed happened.now column cell }
{
    happened
        .iter()
        .any(|event| event.deed.is_passed_by(column, cell))
}

pub(crate) fn cells_of(test: &Test, column: usize) -> &[Cell]
    ensures { result.now ≡ cells_of test.now column }
{
    match test.columns.as_slice().get(column) {
        Some(column) => column.cells.as_slice(),
        None => &[],
    }
}

/// The next cell of the column: the first one behind the last that was run whose condition holds.
pub(crate) fn next_cell<'a>(
    test: &'a Test,
    happened: &[Happened],
    column: usize,
) -> Option<NextCell<'a>>
    ensures { option_map (λ next. (next.place, next.cell.now)) result ≡ next_cell test.now happened.now column }
{
    let cells = cells_of(test, column);
    for (place, cell) in cells.iter().enumerate() {
        if !is_passed(happened, column, place) && goes_ahead(happened, column, &cell.condition) {
            return Some(NextCell { place, cell });
        }
    }
    None
}

/// What the step does there. None where it is a column's, and that has come to its end.
pub(crate) fn deed_of(test: &Test, happened: &[Happened], step: Step) -> Option<Deed>
    ensures { result ≡ deed_of test.now happened.now step }
{
    match step {
        Step::Column(column) => {
            let cell = next_cell(test, happened, column)?.place;
            Some(Deed::Cell(Spot { column, cell }))
        }
        Step::Hardware(act) => Some(Deed::Hardware(act)),
    }
}

/// How many messages were lost.
pub(crate) fn drops(happened: &[Happened]) -> usize
    ensures { result ≡ times is_drop happened.now }
{
    happened.iter().filter(|event| event.deed.is_drop()).count()
}

/// How many messages came once more.
pub(crate) fn repeats(happened: &[Happened]) -> usize
    ensures { result ≡ times is_repeat happened.now }
{
    happened
        .iter()
        .filter(|event| event.deed.is_repeat())
        .count()
}

/// How often hardware gave up.
pub(crate) fn timeouts(happened: &[Happened]) -> usize
    ensures { result ≡ times is_timeout happened.now }
{
    happened
        .iter()
        .filter(|event| event.deed.is_timeout())
        .count()
}

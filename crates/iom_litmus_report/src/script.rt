//! A schedule as a script.
use crate::cells::{column_at, lines_at};
use crate::page::Page;
use crate::values::append_outcome;
use iom_litmus::{Deed, HardwareStep, Row, Search, SearchFault, System};
use iom_litmus_test::{QuestionKind, Spot, Test, Value};
use std::alloc::AllocError;

/// What hardware does, as a line.
pub(crate) fn append_act(page: &mut Page, act: HardwareStep) -> Result<(), AllocError> {
    let (word, device, place): (&[u8], Option<u32>, Option<usize>) = match act {
        HardwareStep::Fetch => (b"fetch", None, None),
        HardwareStep::Timeout => (b"timeout", None, None),
        HardwareStep::Commit(device) => (b"commit ", Some(device), None),
        HardwareStep::Load(device) => (b"load ", Some(device), None),
        HardwareStep::Deliver(place) => (b"deliver ", None, Some(place)),
        HardwareStep::Drop(place) => (b"drop ", None, Some(place)),
        HardwareStep::Repeat(place) => (b"repeat ", None, Some(place)),
    };
    page.text(word)?;
    if let Some(device) = device {
        page.device(device)?;
    }
    if let Some(place) = place {
        page.number(place as u64)?;
    }
    Ok(())
}

/// The lines of a cell, behind the name of its column.
fn append_cell(page: &mut Page, test: &Test, spot: Spot) -> Result<(), AllocError> {
    let Some(column) = column_at(test, spot.column) else {
        return Ok(());
    };
    for line in lines_at(test, spot) {
        page.text(b"# ")?;
        page.text(column.name.as_slice())?;
        page.text(b"\n")?;
        page.text(line.as_slice())?;
        page.text(b"\n")?;
    }
    Ok(())
}

/// `# NAME: ` and the outcome, and the lines of the opening.
fn append_opening(page: &mut Page, test: &Test, row: &Row) -> Result<(), AllocError> {
    page.text(b"# ")?;
    page.text(test.name.as_slice())?;
    page.text(b": ")?;
    append_outcome(page, test, row.outcome.as_slice())?;
    page.text(b"\n")?;
    for line in test.opening.as_slice() {
        page.text(line.text.as_slice())?;
        page.text(b"\n")?;
    }
    Ok(())
}

/// A shortest schedule of the row's outcome as a script: the opening, and each step with `# COL` or `# hardware` before
/// it.
pub fn script_of<S: System>(search: &Search<'_, S>, row: &Row) -> Result<Vec<u8>, SearchFault> {
    let mut page = Page::new(search.alloc);
    append_opening(&mut page, search.test, row)?;
    let end = search.replay(row.schedule.as_slice())?;
    for event in end.happened.as_slice() {
        match event.deed {
            Deed::Cell(spot) => append_cell(&mut page, search.test, spot)?,
            Deed::Hardware(act) => {
                page.text(b"# hardware\n")?;
                append_act(&mut page, act)?;
                page.text(b"\n")?;
            }
        }
    }
    Ok(page.bytes)
}

/// What the lines of that script behind the opening are answered, up to the first `;` or `:`, each on its own line. Of a
/// cell's lines but the last one only that they are there: `*`.
pub fn answers_of<S: System>(search: &Search<'_, S>, row: &Row) -> Result<Vec<u8>, SearchFault> {
    let mut page = Page::new(search.alloc);
    let end = search.replay(row.schedule.as_slice())?;
    for event in end.happened.as_slice() {
        if let Deed::Cell(spot) = event.deed {
            for _ in 1..lines_at(search.test, spot).len() {
                page.text(b"*\n")?;
            }
        }
        page.text(event.reply.text.as_slice())?;
        page.text(b"\n")?;
    }
    Ok(page.bytes)
}

/// Whether the proposition holds of the outcome, or for a `forall` doesn't: then it answers the question by itself.
pub(crate) fn is_telling(test: &Test, outcome: &[Value]) -> bool {
    let telling = test.question.kind != QuestionKind::ForAll;
    test.question.proposition.holds(outcome) == telling
}

/// The first of the rows with the shortest schedules, of those that answer the question by themselves. None where there
/// is no such row.
pub fn telling_row<'a>(test: &Test, rows: &'a [Row]) -> Option<&'a Row> {
    let mut best: Option<&Row> = None;
    for row in rows {
        let is_better = match best {
            Some(other) => row.schedule.as_slice().len() < other.schedule.as_slice().len(),
            None => true,
        };
        if is_better && is_telling(test, row.outcome.as_slice()) {
            best = Some(row);
        }
    }
    best
}

//! What was seen, as text.
use crate::page::Page;
use iom_base::AccessKind;
use iom_litmus_test::{Observable, Reach, Spot, Test, Value};
use std::alloc::AllocError;

/// `COL:LABEL`
fn append_spot(page: &mut Page, test: &Test, spot: Spot) -> Result<(), AllocError> {
    let Some(column) = test.columns.as_slice().get(spot.column) else {
        return Ok(());
    };
    page.text(column.name.as_slice())?;
    page.text(b":")?;
    if let Some(cell) = column.cells.as_slice().get(spot.cell) {
        if let Some(label) = &cell.label {
            page.text(label.as_slice())?;
        }
    }
    Ok(())
}

/// `touch ID FRAME`, and `after COL:LABEL` behind it.
fn append_reach(page: &mut Page, test: &Test, reach: Reach) -> Result<(), AllocError> {
    page.text(match reach.kind {
        None => b"touch ",
        Some(AccessKind::Read) => b"read ",
        Some(AccessKind::Write) => b"write ",
    })?;
    page.device(reach.device)?;
    page.text(b" ")?;
    page.number(reach.frame)?;
    if let Some(spot) = reach.after {
        page.text(b" after ")?;
        append_spot(page, test, spot)?;
    }
    Ok(())
}

/// What is looked at.
fn append_observable(
    page: &mut Page,
    test: &Test,
    observable: Observable,
) -> Result<(), AllocError> {
    match observable {
        Observable::Answer(spot) => append_spot(page, test, spot),
        Observable::Touched(reach) => append_reach(page, test, reach),
        Observable::Before { first, then } => {
            append_spot(page, test, first)?;
            page.text(b" before ")?;
            append_spot(page, test, then)
        }
        Observable::Stuck { column } => {
            page.text(b"stuck ")?;
            match test.columns.as_slice().get(column) {
                Some(column) => page.text(column.name.as_slice()),
                None => Ok(()),
            }
        }
        Observable::Wrong => page.text(b"wrong"),
        Observable::Violated => page.text(b"violated"),
        Observable::Memory { address, .. } => {
            page.text(b"[")?;
            page.address(address)?;
            page.text(b"]")
        }
    }
}

fn append_value(page: &mut Page, value: &Value) -> Result<(), AllocError> {
    match value {
        Value::Text(text) => {
            page.text(b"=\"")?;
            page.text(text.as_slice())?;
            page.text(b"\"")
        }
        Value::Truth(true) => page.text(b"=1"),
        Value::Truth(false) => page.text(b"=0"),
    }
}

/// An outcome: what is looked at and what was seen, each with `;` behind it.
pub(crate) fn append_outcome(
    page: &mut Page,
    test: &Test,
    outcome: &[Value],
) -> Result<(), AllocError> {
    let mut separator: &[u8] = b"";
    for (observable, value) in test.observables.as_slice().iter().zip(outcome) {
        page.text(separator)?;
        append_observable(page, test, *observable)?;
        append_value(page, value)?;
        page.text(b";")?;
        separator = b" ";
    }
    Ok(())
}

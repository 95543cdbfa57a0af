//! The cells of a row.
use crate::fault::{Fault, Why};
use crate::names::{cell_with, copied, glob_of, is_label};
use iom_base::Sequence;
use iom_litmus_test::{Cell, Condition, Glob};
use std::alloc::Global;

/// A label and what stands behind it: `LABEL: `.
fn label_and(text: &str) -> (Option<&str>, &str) {
    match text.split_once(": ") {
        Some((label, rest)) if is_label(label) => (Some(label), rest.trim()),
        _ => (None, text),
    }
}

/// A condition and what stands behind it: `if LABEL = "GLOB": `. Of the cells before it in the column.
fn condition_and<'a>(
    alloc: Global,
    earlier: &[Cell],
    text: &'a str,
) -> Result<(Option<Condition>, &'a str), Fault> {
    let Some(rest) = text.strip_prefix("if ") else {
        return Ok((None, text));
    };
    let Some((label, rest)) = rest.split_once(" = \"") else {
        return Err(Fault::Because(Why::BadCell));
    };
    let Some((answer, rest)) = rest.split_once("\": ") else {
        return Err(Fault::Because(Why::BadCell));
    };
    let Some(cell) = cell_with(earlier, label.trim()) else {
        return Err(Fault::Because(Why::NoSuchCell));
    };
    let answer = glob_of(alloc, answer)?;
    Ok((Some(Condition { cell, answer }), rest.trim()))
}

/// An answer that is waited for, and the lines: `await LINE = "GLOB"`.
fn awaited_and(alloc: Global, text: &str) -> Result<(Option<Glob>, &str), Fault> {
    let Some(rest) = text.strip_prefix("await ") else {
        return Ok((None, text));
    };
    let Some((lines, answer)) = rest.rsplit_once(" = \"") else {
        return Err(Fault::Because(Why::BadCell));
    };
    let Some(answer) = answer.strip_suffix('"') else {
        return Err(Fault::Because(Why::BadCell));
    };
    Ok((Some(glob_of(alloc, answer)?), lines))
}

/// The lines of a cell, with `&` between them.
fn lines_of(alloc: Global, text: &str) -> Result<Sequence<Sequence<u8>>, Fault> {
    let mut lines = Sequence::new(alloc);
    for line in text.split(" & ") {
        if line.trim().is_empty() {
            return Err(Fault::Because(Why::BadCell));
        }
        lines.push(copied(alloc, line.trim())?)?;
    }
    Ok(lines)
}

/// What a cell of the line with this number says, behind these of its column.
pub(crate) fn cell_of(
    alloc: Global,
    earlier: &[Cell],
    number: u64,
    text: &str,
) -> Result<Cell, Fault> {
    let (name, rest) = label_and(text);
    let label = match name {
        Some(name) if cell_with(earlier, name).is_some() => {
            return Err(Fault::Because(Why::LabelTwice));
        }
        Some(name) => Some(copied(alloc, name)?),
        None => None,
    };
    let (condition, rest) = condition_and(alloc, earlier, rest)?;
    let (awaited, rest) = awaited_and(alloc, rest)?;
    let lines = lines_of(alloc, rest)?;
    Ok(Cell {
        number,
        label,
        condition,
        awaited,
        lines,
    })
}

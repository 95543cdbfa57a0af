//! What cells say.
use crate::page::Page;
use iom_base::Sequence;
use iom_litmus_test::{Cell, Column, Spot, Test};
use std::alloc::AllocError;

pub(crate) fn column_at(test: &Test, column: usize) -> Option<&Column> {
    test.columns.as_slice().get(column)
}

fn cell_at(test: &Test, spot: Spot) -> Option<&Cell> {
    column_at(test, spot.column)?
        .cells
        .as_slice()
        .get(spot.cell)
}

/// The lines of a cell; none where there is no such cell.
pub(crate) fn lines_at(test: &Test, spot: Spot) -> &[Sequence<u8>] {
    match cell_at(test, spot) {
        Some(cell) => cell.lines.as_slice(),
        None => &[],
    }
}

/// Whether both are the same lines.
pub(crate) fn are_same_lines(lines: &[Sequence<u8>], others: &[Sequence<u8>]) -> bool {
    lines.len() == others.len()
        && lines
            .iter()
            .zip(others)
            .all(|(line, other)| line.as_slice() == other.as_slice())
}

/// The lines as a cell has them, with ` & ` between them.
pub(crate) fn append_lines(page: &mut Page, lines: &[Sequence<u8>]) -> Result<(), AllocError> {
    let mut separator: &[u8] = b"";
    for line in lines {
        page.text(separator)?;
        page.text(line.as_slice())?;
        separator = b" & ";
    }
    Ok(())
}

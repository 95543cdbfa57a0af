//! Tests of hardware under somebody's driver.
use crate::fault::{TestFault, Trouble};
use iom_base::Sequence;
use iom_hardware_script::{HardwareLine, Pace, Setup, setup_of};
use iom_litmus_hardware::{Opening, line_for_tests};
use iom_litmus_test::{Column, NumberedText, Test};
use std::alloc::Global;

fn not_of_language(number: u64) -> TestFault {
    TestFault::Line {
        number,
        trouble: Trouble::NotOfLanguage,
    }
}

/// What the text of a line says, where a test can have it.
fn said_by(alloc: Global, number: u64, text: &[u8]) -> Result<HardwareLine, TestFault> {
    match line_for_tests(alloc, text)? {
        Some(said) => Ok(said),
        None => Err(not_of_language(number)),
    }
}

/// The lines behind the first of an opening.
fn lines_of(alloc: Global, texts: &[NumberedText]) -> Result<Sequence<HardwareLine>, TestFault> {
    let mut lines = Sequence::new(alloc);
    for line in texts {
        lines.push(said_by(alloc, line.number, line.text.as_slice())?)?;
    }
    Ok(lines)
}

/// How the test begins. None where its first line asks for no hardware, or for one whose walks take several events.
pub(crate) fn opening_of(alloc: Global, test: &Test) -> Result<Option<Opening>, TestFault> {
    let Some((first, others)) = test.opening.as_slice().split_first() else {
        return Ok(None);
    };
    let Some(
        Setup {
            frames,
            pace: Pace::Whole,
        },
    ) = setup_of(first.text.as_slice())
    else {
        return Ok(None);
    };
    let lines = lines_of(alloc, others)?;
    Ok(Some(Opening { frames, lines }))
}

fn check_column(alloc: Global, column: &Column) -> Result<(), TestFault> {
    for cell in column.cells.as_slice() {
        for line in cell.lines.as_slice() {
            said_by(alloc, cell.number, line.as_slice())?;
        }
    }
    Ok(())
}

/// The first cell with a line that the language hasn't is refused.
pub(crate) fn check_cells(alloc: Global, test: &Test) -> Result<(), TestFault> {
    for column in test.columns.as_slice() {
        check_column(alloc, column)?;
    }
    Ok(())
}

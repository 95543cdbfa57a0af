//! Tests of a world: hardware with the driver.
use crate::fault::{TestFault, Trouble};
use iom_base::Sequence;
use iom_litmus_test::{Column, NumberedText, Test};
use iom_litmus_world::{Opening, event_for_tests};
use iom_machine::Event;
use iom_script::world_of;
use std::alloc::Global;

/// The event that the text of a line says.
fn said_by(alloc: Global, number: u64, text: &[u8]) -> Result<Event, TestFault> {
    match event_for_tests(alloc, text)? {
        Some(event) => Ok(event),
        None => Err(TestFault::Line {
            number,
            trouble: Trouble::NotOfLanguage,
        }),
    }
}

/// The events behind the first line of an opening.
fn events_of(alloc: Global, texts: &[NumberedText]) -> Result<Sequence<Event>, TestFault> {
    let mut events = Sequence::new(alloc);
    for line in texts {
        events.push(said_by(alloc, line.number, line.text.as_slice())?)?;
    }
    Ok(events)
}

/// How the test begins. None where its first line asks for no world.
pub(crate) fn opening_of(alloc: Global, test: &Test) -> Result<Option<Opening>, TestFault> {
    let Some((first, others)) = test.opening.as_slice().split_first() else {
        return Ok(None);
    };
    let Some(size) = world_of(first.text.as_slice()) else {
        return Ok(None);
    };
    let (Ok(frames), Ok(levels)) = (u32::try_from(size.frames), u8::try_from(size.levels)) else {
        return Ok(None);
    };
    let events = events_of(alloc, others)?;
    Ok(Some(Opening {
        frames,
        levels,
        events,
    }))
}

fn check_column(alloc: Global, column: &Column) -> Result<(), TestFault> {
    for cell in column.cells.as_slice() {
        for line in cell.lines.as_slice() {
            said_by(alloc, cell.number, line.as_slice())?;
        }
    }
    Ok(())
}

/// The first cell with a line that the language hasn't is refused.
pub(crate) fn check_cells(alloc: Global, test: &Test) -> Result<(), TestFault> {
    for column in test.columns.as_slice() {
        check_column(alloc, column)?;
    }
    Ok(())
}

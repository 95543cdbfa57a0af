//! The answer to one test.
use crate::fault::{TestFault, Trouble};
use crate::{hardware, world};
use iom_litmus::{Explored, Row, Search, SearchFault, System, Watch};
use iom_litmus_reader::read;
use iom_litmus_report::{answers_of, dot, report, script_of, telling_row, undecided, verdict_on};
use iom_litmus_test::Test;
use iom_litmus_world::UnderTest;
use iom_virtio_blk::MemoryDisk;
use std::alloc::{AllocError, Global};

/// How a question was answered.
#[derive(Clone, Copy, PartialEq, Eq)]
pub enum Finding {
    /// As the test says.
    Ok,
    /// Otherwise.
    No,
    /// Not at all: there are more places than were allowed, or more schedules than can be counted.
    Undecided,
}

/// What is wanted of a search beside the histogram.
#[derive(Clone, Copy, PartialEq, Eq)]
pub struct Asked {
    /// The places that it may find, from 1.
    pub most: usize,
    /// Whether the places are to be drawn.
    pub graph: bool,
    /// Whether a schedule of each outcome is wanted, with its answers.
    pub replays: bool,
}

/// A shortest schedule of an outcome, as a script, with what its lines are answered behind the opening.
#[derive(Drop)]
pub struct Replay {
    pub script: Vec<u8>,
    /// A line for each: up to its first `;` or `:`, or `*` where that isn't known.
    pub answers: Vec<u8>,
}

/// The answer to a test.
#[derive(Drop)]
pub struct Answer {
    pub finding: Finding,
    /// The histogram and what follows from it.
    pub text: Vec<u8>,
    /// A shortest schedule of what was asked, as a script, where there is one.
    pub schedule: Option<Vec<u8>>,
    /// The places, in the language of graphviz, where they are wanted.
    pub graph: Option<Vec<u8>>,
    /// A schedule of each outcome, where these are wanted.
    pub replays: Vec<Replay>,
}

fn fault_of(fault: SearchFault) -> TestFault {
    match fault {
        SearchFault::Endless => TestFault::Endless,
        SearchFault::Memory | SearchFault::TooMany | SearchFault::TooManySchedules => {
            TestFault::Memory
        }
    }
}

fn replay_of<S: System>(search: &Search<'_, S>, row: &Row) -> Result<Replay, SearchFault> {
    let script = script_of(search, row)?;
    let answers = answers_of(search, row)?;
    Ok(Replay { script, answers })
}

/// A schedule of each outcome.
fn replays_of<S: System>(search: &Search<'_, S>, rows: &[Row]) -> Result<Vec<Replay>, SearchFault> {
    let mut replays = Vec::new(search.alloc);
    for row in rows {
        let replay = replay_of(search, row)?;
        if replays.push(replay).is_err() {
            return Err(SearchFault::Memory);
        }
    }
    Ok(replays)
}

/// A schedule of the row, where there is one.
fn schedule_of<S: System>(
    search: &Search<'_, S>,
    row: Option<&Row>,
) -> Result<Option<Vec<u8>>, SearchFault> {
    match row {
        Some(row) => Ok(Some(script_of(search, row)?)),
        None => Ok(None),
    }
}

/// The places that were found, with the schedule of the row.
fn graph_of<S: System>(
    search: &Search<'_, S>,
    explored: &Explored<S>,
    row: Option<&Row>,
) -> Result<Vec<u8>, AllocError> {
    let schedule = match row {
        Some(row) => row.schedule.as_slice(),
        None => &[],
    };
    dot(search.alloc, search.test, &explored.graph, schedule)
}

fn told<S: System>(
    search: &Search<'_, S>,
    explored: &Explored<S>,
    asked: Asked,
) -> Result<Answer, SearchFault> {
    let alloc = search.alloc;
    let rows = explored.histogram.rows.as_slice();
    let finding = match verdict_on(search.test, rows).is_validated {
        true => Finding::Ok,
        false => Finding::No,
    };
    let row = telling_row(search.test, rows);
    let graph = match asked.graph {
        true => Some(graph_of(search, explored, row)?),
        false => None,
    };
    let replays = match asked.replays {
        true => replays_of(search, rows)?,
        false => Vec::new(alloc),
    };
    Ok(Answer {
        finding,
        text: report(
            alloc,
            search.test,
            explored.graph.changing(),
            &explored.histogram,
        )?,
        schedule: schedule_of(search, row)?,
        graph,
        replays,
    })
}

fn explore<S: System, W: Watch>(
    search: &Search<'_, S>,
    asked: Asked,
    watch: &mut W,
) -> Result<Answer, TestFault> {
    match search.explore(asked.most, watch) {
        Ok(explored) => told(search, &explored, asked).map_err(fault_of),
        Err(SearchFault::TooMany | SearchFault::TooManySchedules) => Ok(Answer {
            finding: Finding::Undecided,
            text: undecided(search.alloc, search.test)?,
            schedule: None,
            graph: None,
            replays: Vec::new(search.alloc),
        }),
        Err(fault) => Err(fault_of(fault)),
    }
}

/// The answer to a test of hardware.
fn on_hardware<W: Watch>(
    alloc: Global,
    test: &Test,
    opening: &iom_litmus_hardware::Opening,
    asked: Asked,
    watch: &mut W,
) -> Result<Answer, TestFault> {
    hardware::check_cells(alloc, test)?;
    let search: Search<'_, iom_litmus_hardware::UnderTest> = Search {
        alloc,
        test,
        opening,
    };
    explore(&search, asked, watch)
}

/// The answer to a test of a world.
fn on_world<W: Watch>(
    alloc: Global,
    test: &Test,
    opening: &iom_litmus_world::Opening,
    asked: Asked,
    watch: &mut W,
) -> Result<Answer, TestFault> {
    world::check_cells(alloc, test)?;
    let search: Search<'_, UnderTest<MemoryDisk>> = Search {
        alloc,
        test,
        opening,
    };
    explore(&search, asked, watch)
}

/// The number of the line that should say what is tested.
fn first_line(test: &Test) -> u64 {
    match test.opening.as_slice().first() {
        Some(line) => line.number,
        None => 1,
    }
}

/// The answer to the test that the bytes of a file say. Who watches is told of each place.
pub fn answer_test<W: Watch>(
    alloc: Global,
    bytes: &[u8],
    asked: Asked,
    watch: &mut W,
) -> Result<Answer, TestFault> {
    let test = read(alloc, bytes)?;
    if let Some(opening) = hardware::opening_of(alloc, &test)? {
        return on_hardware(alloc, &test, &opening, asked, watch);
    }
    match world::opening_of(alloc, &test)? {
        Some(opening) => on_world(alloc, &test, &opening, asked, watch),
        None => Err(TestFault::Line {
            number: first_line(&test),
            trouble: Trouble::NoSystem,
        }),
    }
}

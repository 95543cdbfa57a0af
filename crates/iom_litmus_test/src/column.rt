use crate::glob::Glob;
use iom_base::Sequence;

/// What somebody does, line by line: the driver, a device, or whoever else.
#[derive(Drop)]
pub struct Column {
    pub name: Sequence<u8>,
    /// What it does, in order. Cells that do nothing aren't kept.
    pub cells: Sequence<Cell>,
}

/// What is done at once.
#[derive(Drop)]
pub struct Cell {
    /// The number of its line in the file, from 1.
    pub number: u64,
    /// By which a proposition names what it is answered.
    pub label: Option<Sequence<u8>>,
    /// Where this doesn't hold the cell is passed over.
    pub condition: Option<Condition>,
    /// It is waited for an answer like this one.
    pub awaited: Option<Glob>,
    /// Lines of the language under test. The answer of the last one is the cell's.
    pub lines: Sequence<Sequence<u8>>,
}

/// That an earlier cell of the same column was answered in this way.
#[derive(Drop)]
pub struct Condition {
    /// The place of that cell in the column, from 0.
    pub cell: usize,
    pub answer: Glob,
}

// How tests make tests.
use iom_base::Sequence;
use iom_litmus_test::{
    Atom, Budgets, Cell, Column, Glob, GlobPart, Observable, Parts, Proposition, Question,
    QuestionKind, Spot, Test,
};
use std::alloc::{AllocError, Global};

/// The text as a list.
pub(crate) fn text(alloc: Global, bytes: &[u8]) -> Result<Sequence<u8>, AllocError> {
    Ok(Sequence::from_vec(Vec::from_slice(alloc, bytes)?))
}

/// The glob that a text says.
pub(crate) fn glob(alloc: Global, bytes: &[u8]) -> Result<Glob, AllocError> {
    let mut parts = Sequence::new(alloc);
    for byte in bytes {
        let part = match *byte {
            b'*' => GlobPart::Anything,
            other => GlobPart::Byte(other),
        };
        parts.push(part)?;
    }
    Ok(Glob { parts })
}

/// A cell of one line, and the answer that it waits for.
pub(crate) fn cell(alloc: Global, line: &[u8], awaited: Option<&[u8]>) -> Result<Cell, AllocError> {
    let mut lines = Sequence::new(alloc);
    lines.push(text(alloc, line)?)?;
    let awaited = match awaited {
        Some(answer) => Some(glob(alloc, answer)?),
        None => None,
    };
    Ok(Cell {
        number: 1,
        label: None,
        condition: None,
        awaited,
        lines,
    })
}

fn column(alloc: Global, only: Cell) -> Result<Column, AllocError> {
    let mut cells = Sequence::new(alloc);
    cells.push(only)?;
    Ok(Column {
        name: text(alloc, b"C")?,
        cells,
    })
}

/// A column that looks so many times.
fn looking(alloc: Global, times: usize) -> Result<Column, AllocError> {
    let mut cells = Sequence::new(alloc);
    for _ in 0..times {
        let next = cell(alloc, b"look", None)?;
        cells.push(next)?;
    }
    Ok(Column {
        name: text(alloc, b"C")?,
        cells,
    })
}

/// A test of two columns that look so many times each, in which nothing is to be seen but that neither is stuck.
pub(crate) fn long_test(alloc: Global, times: usize) -> Result<Test, AllocError> {
    let first = looking(alloc, times)?;
    let second = looking(alloc, times)?;
    let mut columns = Sequence::new(alloc);
    columns.push(first)?;
    columns.push(second)?;
    let mut observables = Sequence::new(alloc);
    observables.push(Observable::Stuck { column: 0 })?;
    observables.push(Observable::Stuck { column: 1 })?;
    made(alloc, columns, observables, 0)
}

/// A test of two columns with a cell each, that looks at what the second is answered, and at whether it is stuck.
pub(crate) fn test(
    alloc: Global,
    first: Cell,
    second: Cell,
    drops: u32,
) -> Result<Test, AllocError> {
    let mut columns = Sequence::new(alloc);
    columns.push(column(alloc, first)?)?;
    columns.push(column(alloc, second)?)?;
    let mut observables = Sequence::new(alloc);
    observables.push(Observable::Answer(Spot { column: 1, cell: 0 }))?;
    observables.push(Observable::Stuck { column: 1 })?;
    made(alloc, columns, observables, drops)
}

fn made(
    alloc: Global,
    columns: Sequence<Column>,
    observables: Sequence<Observable>,
    drops: u32,
) -> Result<Test, AllocError> {
    Ok(Test {
        name: text(alloc, b"mailbox")?,
        title: text(alloc, b"")?,
        opening: Sequence::new(alloc),
        columns,
        parts: Parts {
            fetch: true,
            commit: true,
            load: true,
            deliver: true,
            in_order: false,
        },
        budgets: Budgets {
            drops,
            repeats: 0,
            timeouts: 0,
        },
        observables,
        question: Question {
            kind: QuestionKind::Exists,
            proposition: Proposition::Seen(Atom {
                place: 1,
                wanted: None,
            }),
        },
    })
}

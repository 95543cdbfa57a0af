//! A test of which some lines are read.
use crate::cells::cell_of;
use crate::comments::without_comments;
use crate::fault::{Fault, ReadFault, Why};
use crate::names::copied;
use crate::propositions::{atom_and, proposition_and};
use iom_base::Sequence;
use iom_litmus_test::{
    Budgets, Column, NumberedText, Observable, Parts, Question, QuestionKind, Test,
};
use std::alloc::Global;

/// The columns that a test has at most.
const MOST_COLUMNS: usize = 8;

/// The cells that a column has at most.
const MOST_CELLS: usize = 64;

/// What the next line is.
#[derive(Clone, Copy)]
enum Section {
    Name,
    Title,
    Opening,
    Columns,
    Rows,
    End,
}

#[derive(Drop)]
struct Draft {
    section: Section,
    name: Sequence<u8>,
    title: Sequence<u8>,
    opening: Sequence<NumberedText>,
    columns: Sequence<Column>,
    parts: Parts,
    budgets: Budgets,
    observables: Sequence<Observable>,
    question: Option<Question>,
}

/// What a file says.
pub fn read(alloc: Global, bytes: &[u8]) -> Result<Test, ReadFault> {
    let clean = match without_comments(alloc, bytes) {
        Ok(clean) => clean,
        Err(fault) => return Err(fault.at(1)),
    };
    match str::from_utf8(&clean) {
        Ok(text) => read_text(alloc, text),
        Err(_) => Err(Fault::Because(Why::NotText).at(1)),
    }
}

/// What a file says that is text without comments.
fn read_text(alloc: Global, text: &str) -> Result<Test, ReadFault> {
    let mut draft = Draft::new(alloc);
    let number = draft.take_lines(alloc, text)?;
    match draft.finish() {
        Some(test) => Ok(test),
        None => Err(Fault::Because(Why::NoQuestion).at(number)),
    }
}

/// What stands between these characters, of which one is the first and one the last.
fn between(text: &str, first: char, last: char) -> Option<&str> {
    text.strip_prefix(first)?.strip_suffix(last)
}

impl Draft {
    fn new(alloc: Global) -> Draft {
        Draft {
            section: Section::Name,
            name: Sequence::new(alloc),
            title: Sequence::new(alloc),
            opening: Sequence::new(alloc),
            columns: Sequence::new(alloc),
            parts: Parts {
                fetch: false,
                commit: false,
                load: false,
                deliver: false,
                in_order: false,
            },
            budgets: Budgets {
                drops: 0,
                repeats: 0,
                timeouts: 0,
            },
            observables: Sequence::new(alloc),
            question: None,
        }
    }

    /// Takes the lines of the text. How many there are.
    fn take_lines(&mut self, alloc: Global, text: &str) -> Result<u64, ReadFault> {
        let mut number = 0u64;
        for line in text.lines() {
            number = number.saturating_add(1);
            if let Err(fault) = self.take(alloc, number, line.trim()) {
                return Err(fault.at(number));
            }
        }
        Ok(number)
    }

    /// Takes a line. An empty one says nothing.
    fn take(&mut self, alloc: Global, number: u64, line: &str) -> Result<(), Fault> {
        if line.is_empty() {
            return Ok(());
        }
        match self.section {
            Section::Name => self.take_name(alloc, line),
            Section::Title => self.take_title(alloc, line),
            Section::Opening => self.take_opening(alloc, number, line),
            Section::Columns => self.take_columns(alloc, line),
            Section::Rows => self.take_row_or_end(alloc, number, line),
            Section::End => Err(Fault::Because(Why::BehindQuestion)),
        }
    }

    fn take_name(&mut self, alloc: Global, line: &str) -> Result<(), Fault> {
        let Some(name) = line.strip_prefix("VIZKRUN ") else {
            return Err(Fault::Because(Why::NoName));
        };
        self.name = copied(alloc, name.trim())?;
        self.section = Section::Title;
        Ok(())
    }

    fn take_title(&mut self, alloc: Global, line: &str) -> Result<(), Fault> {
        if line == "{" {
            self.section = Section::Opening;
            return Ok(());
        }
        let Some(title) = between(line, '"', '"') else {
            return Err(Fault::Because(Why::NoOpening));
        };
        self.title = copied(alloc, title)?;
        Ok(())
    }

    fn take_opening(&mut self, alloc: Global, number: u64, line: &str) -> Result<(), Fault> {
        if line == "}" {
            self.section = Section::Columns;
            return Ok(());
        }
        for one in line.split(';') {
            if !one.trim().is_empty() {
                let text = copied(alloc, one.trim())?;
                self.opening.push(NumberedText { number, text })?;
            }
        }
        Ok(())
    }

    fn take_columns(&mut self, alloc: Global, line: &str) -> Result<(), Fault> {
        let Some(names) = line.strip_suffix(';') else {
            return Err(Fault::Because(Why::NoColumns));
        };
        for name in names.split('|') {
            if self.columns.as_slice().len() >= MOST_COLUMNS {
                return Err(Fault::Because(Why::TooMany));
            }
            let name = copied(alloc, name.trim())?;
            let cells = Sequence::new(alloc);
            self.columns.push(Column { name, cells })?;
        }
        self.section = Section::Rows;
        Ok(())
    }

    fn take_row_or_end(&mut self, alloc: Global, number: u64, line: &str) -> Result<(), Fault> {
        if let Some(parts) = line.strip_prefix("hardware ") {
            return self.take_parts(parts);
        }
        if let Some(locations) = line.strip_prefix("locations ") {
            return self.take_locations(alloc, locations);
        }
        if let Some(proposition) = line.strip_prefix("exists ") {
            return self.take_question(alloc, QuestionKind::Exists, proposition);
        }
        if let Some(proposition) = line.strip_prefix("~exists ") {
            return self.take_question(alloc, QuestionKind::NotExists, proposition);
        }
        if let Some(proposition) = line.strip_prefix("forall ") {
            return self.take_question(alloc, QuestionKind::ForAll, proposition);
        }
        self.take_row(alloc, number, line)
    }

    fn take_row(&mut self, alloc: Global, number: u64, line: &str) -> Result<(), Fault> {
        let Some(cells) = line.strip_suffix(';') else {
            return Err(Fault::Because(Why::BadRow));
        };
        for (place, cell) in cells.split('|').enumerate() {
            if place >= self.columns.as_slice().len() {
                return Err(Fault::Because(Why::TooMany));
            }
            if !cell.trim().is_empty() {
                add_cell(alloc, self.columns.item_mut(place), number, cell.trim())?;
            }
        }
        Ok(())
    }

    fn take_parts(&mut self, parts: &str) -> Result<(), Fault> {
        for part in parts.split(',') {
            if self.take_part(part.trim()).is_none() {
                return Err(Fault::Because(Why::BadPart));
            }
        }
        Ok(())
    }

    fn take_part(&mut self, part: &str) -> Option<()> {
        match part {
            "fetch" => self.parts.fetch = true,
            "commit" => self.parts.commit = true,
            "deliver" => self.parts.deliver = true,
            "in-order" => self.parts.in_order = true,
            _ => {
                let (word, count) = part.split_once(' ')?;
                let count = count.trim().parse::<u32>().ok()?;
                match word {
                    "drop" => self.budgets.drops = count,
                    "repeat" => self.budgets.repeats = count,
                    "timeout" => self.budgets.timeouts = count,
                    _ => return None,
                }
            }
        }
        Some(())
    }

    fn take_locations(&mut self, alloc: Global, locations: &str) -> Result<(), Fault> {
        let Some(inside) = between(locations, '[', ']') else {
            return Err(Fault::Because(Why::BadLocation));
        };
        for location in inside.split(';') {
            if !location.trim().is_empty() {
                let columns = self.columns.as_slice();
                atom_and(alloc, columns, &mut self.observables, location.trim())?;
            }
        }
        Ok(())
    }

    fn take_question(
        &mut self,
        alloc: Global,
        kind: QuestionKind,
        text: &str,
    ) -> Result<(), Fault> {
        let columns = self.columns.as_slice();
        let (proposition, rest) = proposition_and(alloc, columns, &mut self.observables, text)?;
        if !rest.trim().is_empty() {
            return Err(Fault::Because(Why::BadProposition));
        }
        self.question = Some(Question { kind, proposition });
        self.section = Section::End;
        Ok(())
    }

    /// The test, where its question was read.
    fn finish(self) -> Option<Test> {
        Some(Test {
            name: self.name,
            title: self.title,
            opening: self.opening,
            columns: self.columns,
            parts: self.parts,
            budgets: self.budgets,
            observables: self.observables,
            question: self.question?,
        })
    }
}

/// Puts a cell of the line with this number behind the others of the column.
fn add_cell(alloc: Global, column: &mut Column, number: u64, text: &str) -> Result<(), Fault> {
    if column.cells.as_slice().len() >= MOST_CELLS {
        return Err(Fault::Because(Why::TooMany));
    }
    let cell = cell_of(alloc, column.cells.as_slice(), number, text)?;
    column.cells.push(cell)?;
    Ok(())
}

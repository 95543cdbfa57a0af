// Where lines and rows stand.
use crate::choice::Choice;
use iom_timeline::Period;
use std::alloc::{AllocError, Global};

/// Where the columns begin: left of it stand the names of the rows.
pub(crate) const LEFT: u64 = 176;

/// The width that a picture of few lines has at most.
const WIDTH: u64 = 1200;

/// The width that a picture has at least.
const LEAST_WIDTH: u64 = 720;

/// What is left free at the right, and what the words of the lines take there.
const RIGHT: u64 = 20;

const RIGHT_OF_WORDS: u64 = 146;

/// The lines of which the words are shown, if there aren't more.
const MOST_WORDS: u64 = 60;

/// The width of a column, from the least to the most.
const LEAST_STEP: u64 = 2;

const MOST_STEP: u64 = 44;

/// The width of a column from which bars have words.
const WIDE_STEP: u64 = 12;

/// The width of a fold.
const FOLD_WIDTH: u64 = 64;

/// A run of lines that share one place.
#[derive(Clone, Copy)]
pub(crate) struct Fold {
    pub(crate) left: u64,
    pub(crate) first: u64,
    pub(crate) last: u64,
}

impl Fold {
    pub(crate) fn width(self) -> u64 {
        FOLD_WIDTH
    }

    pub(crate) fn middle(self) -> u64 {
        self.left.saturating_add(FOLD_WIDTH / 2)
    }

    /// How many lines are folded.
    pub(crate) fn count(self) -> u64 {
        self.last.saturating_sub(self.first).saturating_add(1)
    }
}

/// Where a line stands.
#[derive(Clone, Copy)]
struct Column {
    middle: u64,
    is_folded: bool,
}

/// The columns of the lines that are drawn.
#[derive(Drop)]
pub(crate) struct Scale {
    pub(crate) first: u64,
    pub(crate) last: u64,
    pub(crate) step: u64,
    /// Where the last column ends.
    end: u64,
    /// How many lines have a column of their own.
    count: u64,
    columns: Vec<Column>,
    pub(crate) folds: Vec<Fold>,
}

impl Scale {
    /// The scale of what is chosen. No line has its column yet.
    fn empty(alloc: Global, choice: Choice) -> Scale {
        Scale {
            first: choice.from,
            last: choice.to,
            step: LEAST_STEP,
            end: LEFT,
            count: 0,
            columns: Vec::new(alloc),
            folds: Vec::new(alloc),
        }
    }

    /// The scale of what is chosen, where it is told of each line whether it is folded.
    pub(crate) fn new(alloc: Global, choice: Choice, folded: &[bool]) -> Result<Scale, AllocError> {
        let mut scale = Scale::empty(alloc, choice);
        let folds = scale.count_columns(folded);
        let room = WIDTH
            .saturating_sub(LEFT)
            .saturating_sub(scale.right())
            .saturating_sub(folds.saturating_mul(FOLD_WIDTH));
        let step = room / scale.count.max(1);
        scale.step = step.max(LEAST_STEP).min(MOST_STEP);
        let mut line = choice.from;
        for is_folded in folded {
            scale.add(line, *is_folded)?;
            line = line.saturating_add(1);
        }
        Ok(scale)
    }

    /// Counts the lines with a column of their own, and gives the number of folds.
    fn count_columns(&mut self, folded: &[bool]) -> u64 {
        let mut folds: u64 = 0;
        let mut was_folded = false;
        for is_folded in folded {
            if !*is_folded {
                self.count = self.count.saturating_add(1);
            } else if !was_folded {
                folds = folds.saturating_add(1);
            }
            was_folded = *is_folded;
        }
        folds
    }

    /// The next line has its column, or goes into a fold.
    fn add(&mut self, line: u64, is_folded: bool) -> Result<(), AllocError> {
        if !is_folded {
            let middle = self.end.saturating_add(self.step / 2);
            self.end = self.end.saturating_add(self.step);
            self.columns.push(Column { middle, is_folded })?;
            return Ok(());
        }
        self.fold(line)?;
        let middle = match self.folds.last() {
            Some(fold) => fold.middle(),
            None => self.end,
        };
        self.columns.push(Column { middle, is_folded })?;
        Ok(())
    }

    /// The line goes into the fold that ends before it, or into a new one.
    fn fold(&mut self, line: u64) -> Result<(), AllocError> {
        if let Some(fold) = self.folds.last_mut() {
            if fold.last.saturating_add(1) == line {
                fold.last = line;
                return Ok(());
            }
        }
        self.folds.push(Fold {
            left: self.end,
            first: line,
            last: line,
        })?;
        self.end = self.end.saturating_add(FOLD_WIDTH);
        Ok(())
    }

    /// Whether a bar has room for words between the signs.
    pub(crate) fn is_wide(&self) -> bool {
        self.step >= WIDE_STEP
    }

    /// Whether the words of each line are shown.
    pub(crate) fn has_words(&self) -> bool {
        self.count <= MOST_WORDS
    }

    fn right(&self) -> u64 {
        if self.has_words() {
            RIGHT_OF_WORDS
        } else {
            RIGHT
        }
    }

    /// Where the last column ends.
    pub(crate) fn end(&self) -> u64 {
        self.end
    }

    /// The width of the picture.
    pub(crate) fn width(&self) -> u64 {
        self.end.saturating_add(self.right()).max(LEAST_WIDTH)
    }

    /// The column of a line, if it is drawn.
    fn column(&self, line: u64) -> Option<Column> {
        if line < self.first {
            return None;
        }
        let place = usize::try_from(line.saturating_sub(self.first)).ok()?;
        self.columns.get(place).copied()
    }

    /// Whether the line is folded.
    pub(crate) fn is_folded(&self, line: u64) -> bool {
        match self.column(line) {
            Some(column) => column.is_folded,
            None => false,
        }
    }

    /// The middle of a line's column.
    pub(crate) fn middle(&self, line: u64) -> u64 {
        match self.column(line) {
            Some(column) => column.middle,
            None => self.end,
        }
    }

    /// The room behind a line's middle up to the sign of another line, or to the picture's edge.
    pub(crate) fn room(&self, line: u64, until: u64) -> u64 {
        let right = if until > self.last {
            self.width().saturating_sub(2)
        } else {
            self.middle(until).saturating_sub(6)
        };
        right.saturating_sub(self.middle(line))
    }

    /// Where a bar begins and how wide it is. One that began or ends outside the lines goes to their edge.
    pub(crate) fn bar(&self, period: Period) -> (u64, u64) {
        let left = if period.from < self.first {
            LEFT
        } else {
            self.middle(period.from)
        };
        let right = if period.until > self.last {
            self.end
        } else {
            self.middle(period.until)
        };
        (left, right.saturating_sub(left).max(2))
    }
}

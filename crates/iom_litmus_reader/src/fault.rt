use std::alloc::AllocError;

/// Why a line isn't one of a test.
#[derive(Clone, Copy, PartialEq, Eq, Debug)]
pub enum Why {
    /// The file isn't text.
    NotText,
    /// A comment isn't closed.
    OpenComment,
    /// A test begins with `VIZKRUN` and its name.
    NoName,
    /// `{` and the lines that make the system are wanted.
    NoOpening,
    /// The names of columns are wanted, with `|` between them and `;` behind them.
    NoColumns,
    /// There are more columns than eight, a row has more cells than there are columns, or a column more than 64.
    TooMany,
    /// A row ends with `;`.
    BadRow,
    /// A cell isn't one.
    BadCell,
    /// A label stands twice in its column.
    LabelTwice,
    /// No cell has this label.
    NoSuchCell,
    /// Hardware has no such part.
    BadPart,
    /// A location isn't one.
    BadLocation,
    /// The proposition isn't one, or goes too deep.
    BadProposition,
    /// Something stands behind the question.
    BehindQuestion,
    /// The file ends before its question.
    NoQuestion,
}

/// Why a file isn't a test.
#[derive(Clone, Copy, PartialEq, Eq, Debug)]
pub enum ReadFault {
    Memory,
    /// The line with this number, from 1.
    Line { number: u64, why: Why },
}

/// Why a line isn't taken.
#[derive(Clone, Copy)]
pub(crate) enum Fault {
    Memory,
    Because(Why),
}

impl Fault {
    pub(crate) fn at(self, number: u64) -> ReadFault {
        match self {
            Fault::Memory => ReadFault::Memory,
            Fault::Because(why) => ReadFault::Line { number, why },
        }
    }
}

impl From<AllocError> for Fault {
    fn from(_fault: AllocError) -> Fault {
        Fault::Memory
    }
}

//! Why a test isn't answered.
use iom_litmus_reader::{ReadFault, Why};
use std::alloc::AllocError;

/// What is wrong with a line of a file.
#[derive(Clone, Copy, PartialEq, Eq, Debug)]
pub enum Trouble {
    /// It isn't a line of a test.
    NotOfTest(Why),
    /// The first line of the opening doesn't say what is tested.
    NoSystem,
    /// It has a line that the language under test hasn't.
    NotOfLanguage,
}

/// Why a test isn't answered.
#[derive(Clone, Copy, PartialEq, Eq, Debug)]
pub enum TestFault {
    Memory,
    /// The line with this number, from 1.
    Line { number: u64, trouble: Trouble },
    /// Hardware can go on for ever.
    Endless,
}

impl From<AllocError> for TestFault {
    fn from(_fault: AllocError) -> TestFault {
        TestFault::Memory
    }
}

impl From<ReadFault> for TestFault {
    fn from(fault: ReadFault) -> TestFault {
        match fault {
            ReadFault::Memory => TestFault::Memory,
            ReadFault::Line { number, why } => TestFault::Line {
                number,
                trouble: Trouble::NotOfTest(why),
            },
        }
    }
}

impl Trouble {
    /// In words.
    pub fn words(self) -> &'static str {
        match self {
            Trouble::NotOfTest(why) => words_of(why),
            Trouble::NoSystem => "`world F L` or `hardware F` is wanted first",
            Trouble::NotOfLanguage => "the language under test has no such line",
        }
    }
}

fn words_of(why: Why) -> &'static str {
    match why {
        Why::NotText => "the file isn't text",
        Why::OpenComment => "a comment isn't closed",
        Why::NoName => "`VIZKRUN` and a name are wanted",
        Why::NoOpening => "`{` is wanted, and the lines that make what is tested",
        Why::NoColumns => "names of columns are wanted, with `|` between them and `;` behind them",
        Why::TooMany =>
            "more than 8 columns, more cells than columns, or more than 64 cells in a column",
        Why::BadRow => "a row ends with `;`",
        Why::BadCell => "a cell isn't one",
        Why::LabelTwice => "a label stands twice in its column",
        Why::NoSuchCell => "no cell has this label",
        Why::BadPart => "hardware has no such part",
        Why::BadLocation => "a location isn't one",
        Why::BadProposition => "the proposition isn't one, or goes too deep",
        Why::BehindQuestion => "something stands behind the question",
        Why::NoQuestion => "the file ends before its question",
    }
}

// What the judge finds of a trace.
use crate::missing::Missing;
use std::fmt;
use thiserror::Error;

/// What is found of a line that can't be certified.
#[derive(Debug, Drop, Error)]
pub enum Finding {
    /// Whether it may come depends on what an earlier one doesn't show.
    #[error(": not certified from here on; no line was found unlawful; {0}")]
    Uncertified(Missing),
    /// It may not come by the limits of the model alone.
    #[error(": beyond the model's limits: {0}; write `unlimited` behind the size of the world")]
    Beyond(String),
    /// It may not come, and why.
    #[error(": unlawful: {0}")]
    Unlawful(String),
    /// It isn't in the grammar, and what is wrong with it.
    #[error(" isn't in the grammar: {0}")]
    Bad(String),
}

/// What the judge finds of a trace, whose lines count from 1.
#[derive(Drop)]
pub enum Verdict {
    /// All lines are those of a run: so it is proved.
    Lawful,
    /// This line is the first that can't be certified. Those before it are lines of a run of the ledger machine: so it is proved.
    Stops { line: u64, finding: Finding },
}

impl Verdict {
    ghost use Rattle.std.specs.Prelude.{◌≡◌};
    ghost use Rattle.iom_judge.specs.Certificates.{named_line};

    /// The line that it names: the first that isn't certified to be lawful.
    pub fn line(&self) -> Option<u64>
        ensures { result ≡ named_line self.now }
    {
        match self {
            Verdict::Lawful => None,
            Verdict::Stops { line, .. } => Some(*line),
        }
    }
}

/// What is found, as `iommu-judge` prints it.
impl fmt::Display for Verdict {
    fn fmt<W: fmt::Write>(&self, f: &mut fmt::Formatter<W>) -> fmt::Result {
        match self {
            Verdict::Lawful => f.write_str("lawful"),
            Verdict::Stops { line, finding } => write!(f, "line {line}{finding}"),
        }
    }
}

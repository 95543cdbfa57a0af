ghost use Rattle.std.specs.Prelude.{◌≡◌};
ghost use Rattle.iom_litmus.specs.Deeds.{is_run_of, is_passed_by, is_drop, is_repeat, is_timeout};

use crate::reply::Reply;
use crate::step::HardwareStep;
use iom_base::Sequence;
use iom_litmus_test::Spot;

/// What was done.
#[derive(Clone, Copy, PartialEq, Eq)]
pub enum Deed {
    /// A cell was run.
    Cell(Spot),
    /// Hardware did this.
    Hardware(HardwareStep),
}

impl Deed {
    /// Whether this cell was run.
    pub(crate) fn is_run_of(&self, spot: Spot) -> bool
        ensures { result ≡ is_run_of spot self.now }
    {
        match self {
            Deed::Cell(other) => spot.column == other.column && spot.cell == other.cell,
            Deed::Hardware(_) => false,
        }
    }

    /// Whether the cell at this place of the column was run, or one behind it.
    pub(crate) fn is_passed_by(&self, column: usize, cell: usize) -> bool
        ensures { result ≡ is_passed_by column cell self.now }
    {
        match self {
            Deed::Cell(other) => column == other.column && cell <= other.cell,
            Deed::Hardware(_) => false,
        }
    }

    pub(crate) fn is_drop(&self) -> bool
        ensures { result ≡ is_drop self.now }
    {
        matches!(self, Deed::Hardware(HardwareStep::Drop(_)))
    }

    pub(crate) fn is_repeat(&self) -> bool
        ensures { result ≡ is_repeat self.now }
    {
        matches!(self, Deed::Hardware(HardwareStep::Repeat(_)))
    }

    pub(crate) fn is_timeout(&self) -> bool
        ensures { result ≡ is_timeout self.now }
    {
        matches!(self, Deed::Hardware(HardwareStep::Timeout))
    }
}

/// What was done, and what the system said to it.
#[derive(Drop)]
pub struct Happened {
    pub deed: Deed,
    pub reply: Reply,
}

/// Where a schedule has come to.
#[derive(Drop)]
pub struct Place<S> {
    pub system: S,
    /// What happened so far, in order. How far the columns are follows from it, and what is left of the budgets.
    pub happened: Sequence<Happened>,
}

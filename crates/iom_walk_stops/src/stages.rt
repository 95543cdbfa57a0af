// The stages that translate an address, and the walk of their tables before its first load.
ghost use Rattle.std.specs.Prelude.{◌≡◌, ℕ};
ghost use Rattle.iom_stepped_walk.specs.Positions.{remains};
ghost use Rattle.iom_walk_stops.specs.Stages.{page_of, stages_of, walk_of};

use iom_base::{AccessKind, Ppn, Size};
use iom_device_dir::{Context, FirstStage, GuestRoot, SecondStage};
use iom_stepped_walk::{Progress, TableWalk};

/// The stages that translate an address: one at least.
#[derive(Clone, Copy, PartialEq, Eq)]
pub enum Stages {
    /// The first alone.
    First {
        size: Size,
        root: Ppn,
    },
    /// The second alone.
    Second {
        size: Size,
        root: Ppn,
    },
    /// Both: the second leads to the tables of the first, whose root has a guest physical page.
    Both {
        first_size: Size,
        first: Ppn,
        second_size: Size,
        second: Ppn,
    },
}

/// The page in which the root of a second stage begins.
fn page_of(root: GuestRoot) -> Ppn
    ensures { result ≡ page_of root }
{
    Ppn::new(root.number()).unwrap()
}

impl Stages {
    /// Those of a context. None where both are Bare.
    pub fn of(context: &Context) -> Option<Stages>
        ensures { result ≡ stages_of context.now.first_stage context.now.second_stage }
    {
        match (context.first_stage, context.second_stage) {
            (FirstStage::Bare, SecondStage::Bare) => None,
            (FirstStage::Tables { size, root }, SecondStage::Bare) => {
                Some(Stages::First { size, root })
            }
            (FirstStage::Bare, SecondStage::Tables { size, root }) => {
                Some(Stages::Second {
                    size,
                    root: page_of(root),
                })
            }
            (
                FirstStage::Tables {
                    size: first_size,
                    root: first,
                },
                SecondStage::Tables {
                    size: second_size,
                    root: second,
                },
            ) => {
                Some(Stages::Both {
                    first_size,
                    first,
                    second_size,
                    second: page_of(second),
                })
            }
        }
    }

    /// The walk of their tables, which has made no load yet.
    pub fn begin(self, address: u64, kind: AccessKind) -> Progress
        ensures { (frames : ℕ) → remains frames result ≡ walk_of frames self address kind }
    {
        match self {
            Stages::First { size, root } => TableWalk::begin_first(size, root, address, kind),
            Stages::Second { size, root } => TableWalk::begin_second(size, root, address, kind),
            Stages::Both {
                first_size,
                first,
                second_size,
                second,
            } => TableWalk::begin_both(first_size, first, second_size, second, address, kind),
        }
    }
}

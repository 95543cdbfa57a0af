ghost use Rattle.std.specs.Prelude.{◌≡◌};
ghost use Rattle.iom_base.specs.Sizes.{levels_of, page_limit_of, table_limit_of};

/// How many addresses the tables of a stage translate (RISC-V Privileged Architecture): a first stage's, or, in four
/// times as many addresses, a second's.
#[derive(Clone, Copy, PartialEq, Eq)]
pub enum Size {
    /// Three levels: Sv39, and Sv39x4.
    Sv39,
    /// Four levels: Sv48, and Sv48x4.
    Sv48,
}

impl Size {
    /// How many levels the tables have.
    pub fn levels(self) -> usize
        ensures { result ≡ levels_of self }
    {
        match self {
            Size::Sv39 => 3,
            Size::Sv48 => 4,
        }
    }

    /// The numbers of pages that can be granted are below this: those of the lower half of a first stage's addresses.
    pub fn page_limit(self) -> u64
        ensures { result ≡ page_limit_of self }
    {
        match self {
            Size::Sv39 => 1 << 26,
            Size::Sv48 => 1 << 35,
        }
    }

    /// The path of a page lacks no more tables than this: one for each level below the root.
    pub fn table_limit(self) -> u32
        ensures { result ≡ table_limit_of self }
    {
        match self {
            Size::Sv39 => 2,
            Size::Sv48 => 3,
        }
    }
}

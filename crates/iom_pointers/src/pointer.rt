ghost use Rattle.std.specs.Prelude.{◌≡◌, ◌<◌};

use iom_base::Ppn;
use iom_command_queue::Command;
use iom_stepped_walk::TableInHand;
use iom_table_survey::span;
use iom_tlb::Space;

/// A table that a non-leaf entry names.
#[derive(Clone, Copy, PartialEq, Eq)]
pub struct Pointer {
    /// The address space in which what is found there is kept.
    pub space: Space,
    /// The level of the table: 0 where its entries are those of pages, up to 2.
    pub level: u32,
    /// Which pages it translates: those of which the page number begins with these bits, above nine for each of its levels.
    pub prefix: u64,
    /// The page in which it begins.
    pub table: Ppn,
    ghost in_range: { level < 3 },
}

impl Pointer {
    ghost use Rattle.iom_pointers.specs.Pointers.{has_key_of, hand_at, is_for, is_covered};

    /// Whether the other is of the same pages of the same space, at the same level.
    pub(crate) fn has_key_of(&self, other: &Pointer) -> bool
        ensures { result ≡ has_key_of other.now self.now }
    {
        self.space == other.space && self.level == other.level && self.prefix == other.prefix
    }

    /// Whether a walk for this page of the space may begin at the table.
    pub fn is_for(&self, space: Space, page: u64) -> bool
        ensures { result ≡ is_for space page self.now }
    {
        self.space == space && page / span(self.level + 1) == self.prefix
    }

    /// The table, for a walk to this page.
    pub fn hand(&self, page: u64) -> TableInHand
        ensures { result ≡ hand_at self.now page }
    {
        TableInHand {
            table: self.table,
            level: self.level,
            is_wide: false,
            page,
        }
    }

    /// Whether the command takes it out: an IOTINVAL of its address space that names no page (IOMMU specification, section
    /// 3.1.1).
    pub(crate) fn is_covered(&self, command: &Command) -> bool
        ensures { result ≡ is_covered command.now self.now }
    {
        match (*command, self.space) {
            (
                Command::IotinvalVma {
                    gscid: None,
                    pscid,
                    page: None,
                },
                Space::First { pscid: own },
            ) => pscid.is_none_or(|asked| asked.number() == own),
            (
                Command::IotinvalGvma { gscid, page: None },
                Space::Second { gscid: own } | Space::Both { gscid: own, .. },
            ) => gscid.is_none_or(|asked| asked == own),
            _ => false,
        }
    }
}

// What a walk of tables may still come to: the table in hand, and the second stage from whose root later ones begin.
ghost use Rattle.std.specs.Prelude.{◌≡◌};

use crate::tables::TableWalk;
use iom_base::{PAGE_SIZE, Ppn, Size};

/// A table that the driver keeps, and that a walk has in hand.
#[derive(Clone, Copy, PartialEq, Eq)]
pub struct TableInHand {
    /// The page in which the table begins.
    pub table: Ppn,
    /// The level of the table: 0 where its entries are those of pages, up to 3.
    pub level: u32,
    /// Whether it is the root of a second stage, which fills four frames.
    pub is_wide: bool,
    /// The page that is looked for there.
    pub page: u64,
}

/// The tables of a second stage.
#[derive(Clone, Copy, PartialEq, Eq)]
pub struct SecondTables {
    pub size: Size,
    /// The page in which the root begins.
    pub root: Ppn,
}

impl TableWalk {
    ghost use Rattle.iom_stepped_walk.specs.Hands.{hand_of, to_come_of};

    /// The table in hand, of a first stage alone or of a second. None at an entry of a guest's table: guests write their
    /// own.
    pub fn table_in_hand(self) -> Option<TableInHand>
        ensures { result ≡ hand_of self }
    {
        let (place, address) = match self {
            TableWalk::InFirstStage { asked, place } | TableWalk::InSecondStage { asked, place } =>
                { (place, asked.address) }
            TableWalk::ToGuestEntry { both, entry, place } => {
                (place, entry.guest_address(both.asked.address))
            }
            TableWalk::ToGuestPage { both, page, place } => {
                (place, page.guest_address(both.asked.address))
            }
            TableWalk::InGuestTable { .. } => return None,
        };
        Some(TableInHand {
            table: place.table,
            level: place.level,
            is_wide: place.is_wide,
            page: address / PAGE_SIZE,
        })
    }

    /// The second stage, as long as the guest's tables may name any page, for which its tables are walked from the root
    /// then. None in one stage, and once the page is known.
    pub fn second_stage_to_come(self) -> Option<SecondTables>
        ensures { result ≡ to_come_of self }
    {
        match self {
            TableWalk::ToGuestEntry { both, .. } | TableWalk::InGuestTable { both, .. } => {
                Some(SecondTables {
                    size: both.size,
                    root: both.second,
                })
            }
            TableWalk::InFirstStage { .. }
            | TableWalk::InSecondStage { .. }
            | TableWalk::ToGuestPage { .. } => None,
        }
    }
}

// The load that a walk makes next: of which entry of which table, and from where.
ghost use Rattle.std.specs.Prelude.{◌≡◌, ◌<◌, ◌*◌};
ghost use Rattle.iom_base.specs.Tables.{entry_size, table_entries};
ghost use Rattle.iom_stage_walk.specs.Entries.{slot};

use crate::guest::GuestEntry;
use crate::place::{Place, index_at};
use crate::tables::TableWalk;
use iom_base::{ENTRY_SIZE, PAGE_SIZE};

/// A table from which a walk loads, or a page of the device directory.
#[derive(Clone, Copy, PartialEq, Eq)]
pub enum Table {
    /// A page of the directory whose entries name pages of the level below: of level 1 or 2.
    Directory { level: u32 },
    /// A page of the directory whose entries are contexts: of level 0.
    Contexts,
    /// A table of a first stage alone, of level 0 to 3.
    FirstStage { level: u32 },
    /// A table of a second stage, of level 0 to 3.
    SecondStage { level: u32 },
    /// A table of a guest: of a first stage, where a second one leads to it. Of level 0 to 3.
    GuestTable { level: u32 },
}

/// The load of an entry: of 8 bytes or, where it is a context, of 32.
#[derive(Clone, Copy, PartialEq, Eq)]
pub struct EntryLoad {
    pub table: Table,
    /// Which entry of the table it is, from 0.
    pub index: u16,
    /// The physical address from which it is loaded.
    pub address: u64,
}

impl Place {
    ghost use Rattle.iom_stepped_walk.specs.Indices.{index_at};
    ghost use Rattle.iom_stepped_walk.specs.declared.next.EntryLoad.{EntryLoad};

    /// The load of the entry of a page.
    fn entry_load(self, page: u64, table: Table) -> EntryLoad
        ensures { let index = index_at self.is_wide self.level page in
            result ≡ record { table = table; index = index; address = entry_size * slot self.table.number index } }
    {
        let index = index_at(self.is_wide, self.level, page);
        EntryLoad {
            table,
            index,
            address: PAGE_SIZE * self.table.number() + ENTRY_SIZE * u64::from(index),
        }
    }

    /// The same in the second stage.
    fn second_stage_load(self, page: u64) -> EntryLoad
        ensures { let index = index_at self.is_wide self.level page in
            result ≡ record { table = Table.SecondStage self.level; index = index; address = entry_size * slot self.table.number index } }
    {
        self.entry_load(page, Table::SecondStage { level: self.level })
    }
}

impl GuestEntry {
    ghost use Rattle.iom_stepped_walk.specs.Positions.{entry_index};
    ghost use Rattle.iom_stepped_walk.specs.declared.next.EntryLoad.{EntryLoad};

    /// The load of the entry, for this address, from the frame in which it lies.
    fn load_from(self, frame: u32, address: u64) -> EntryLoad
        ensures { let index = entry_index self address in
            result ≡ record { table = Table.GuestTable self.level; index = index; address = entry_size * slot frame index } }
    {
        let index = self.index(address);
        EntryLoad {
            table: Table::GuestTable { level: self.level },
            index,
            address: PAGE_SIZE * u64::from(frame) + ENTRY_SIZE * u64::from(index),
        }
    }
}

impl TableWalk {
    ghost use Rattle.iom_stepped_walk.specs.NextLoads.{LoadsNext};

    /// The load that the walk makes next.
    pub fn next_load(self) -> EntryLoad
        ensures { LoadsNext self result }
    {
        match self {
            TableWalk::InFirstStage { asked, place } => place.entry_load(
                asked.address / PAGE_SIZE,
                Table::FirstStage { level: place.level },
            ),
            TableWalk::InSecondStage { asked, place } => {
                place.second_stage_load(asked.address / PAGE_SIZE)
            }
            TableWalk::ToGuestEntry { both, entry, place } => {
                place.second_stage_load(entry.guest_address(both.asked.address) / PAGE_SIZE)
            }
            TableWalk::InGuestTable { both, entry, frame } => {
                entry.load_from(frame, both.asked.address)
            }
            TableWalk::ToGuestPage { both, page, place } => {
                place.second_stage_load(page.guest_address(both.asked.address) / PAGE_SIZE)
            }
        }
    }
}

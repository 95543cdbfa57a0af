// A walk through the device directory, where it stands, and what one load makes of it.
ghost use Rattle.std.specs.Prelude.{◌≡◌, ◌≢◌, ◌<◌};
ghost use Rattle.iom_registers.specs.declared.directory.DirectoryMode.TheVariants.{Bare};
ghost use Rattle.iom_device_dir.specs.Located.{loaded_context};
ghost use Rattle.iom_device_dir.specs.Paths.{ddi, context_place, context_words_at};
ghost use Rattle.iom_walk_loads.specs.Directory.{locating};

use crate::next::{EntryLoad, Table};
use iom_base::{Cause, DeviceId, ENTRY_SIZE, PAGE_SIZE, Ppn};
use iom_device_dir::{CONTEXT_SIZE, Context, NonLeafEntry, fits_directory, locate};
use iom_phys_mem::Bytes;
use iom_registers::{DirectoryMode, DirectoryPointer};

/// Where a walk through the device directory stands between two of its loads.
#[derive(Clone, Copy, PartialEq, Eq)]
pub struct DirectoryWalk {
    /// The device whose context is looked for.
    id: DeviceId,
    /// The directory page from which an entry is loaded next.
    page: Ppn,
    /// The level of the page: 0 where its entries are contexts, up to 2.
    level: u32,
    ghost in_range: { level < 3 },
}

/// What one load makes of a walk through the directory.
#[derive(Clone, Copy, PartialEq, Eq)]
pub enum Locating {
    /// It goes on, and stands here.
    GoesOn(DirectoryWalk),
    /// It has ended, with the answer of a whole walk.
    Ended(Result<Context, Cause>),
}

impl DirectoryWalk {
    ghost use Rattle.iom_stepped_walk.specs.Directories.{still_locating, IsOneLoadOf};
    ghost use Rattle.iom_stepped_walk.specs.NextLoads.{LocatesNext};

    /// The walk to the context of a device, by `ddtp`, whose mode isn't Bare: then there is no directory. It makes no
    /// load yet: where the mode is Off, or the id is too wide for the directory, none at all.
    pub fn begin(ddtp: DirectoryPointer, id: DeviceId) -> Locating
        requires { ddtp.mode ≢ Bare }
        ensures { still_locating result ≡ locating ddtp id }
    {
        if !fits_directory(ddtp.mode, id) {
            return Locating::Ended(Err(Cause::TransactionTypeDisallowed));
        }
        let page = Ppn::new(ddtp.ppn).unwrap();
        match ddtp.mode {
            DirectoryMode::Off => Locating::Ended(Err(Cause::AllInboundDisallowed)),
            DirectoryMode::Bare => unreachable!(),
            DirectoryMode::OneLevel => Locating::GoesOn(DirectoryWalk { id, page, level: 0 }),
            DirectoryMode::TwoLevels => Locating::GoesOn(DirectoryWalk { id, page, level: 1 }),
            DirectoryMode::ThreeLevels => Locating::GoesOn(DirectoryWalk { id, page, level: 2 }),
        }
    }

    /// The index of the id in the page: DDI of its level.
    fn index(self) -> u64
        ensures value { result ≡ ddi self.level self.id }
        ensures small { result < 512 }
    {
        let id = u64::from(self.id);
        match self.level {
            0 => id % (1 << 7),
            1 => (id >> 7) % (1 << 9),
            _ => (id >> 16) % (1 << 8),
        }
    }

    /// The context of the id in a page of level 0. It is what a directory with this page alone has for DDI[0].
    #[tactic(auto, unfolding(iom_device_dir::specs::Located::located_by_mode))]
    fn context<B: Bytes>(self, memory: &B) -> Result<Context, Cause>
        ensures { result ≡ loaded_context (context_words_at (B.frames_of memory.now) (context_place self.page.number (ddi 0 self.id))) }
    {
        let page = DirectoryPointer {
            mode: DirectoryMode::OneLevel,
            ppn: self.page.number(),
        };
        locate(memory, page, self.id % (1 << 7))
    }

    /// The load that the walk makes next.
    pub fn next_load(self) -> EntryLoad
        ensures { LocatesNext self result }
    {
        let page = PAGE_SIZE * self.page.number();
        let index = self.index();
        if self.level == 0 {
            return EntryLoad {
                table: Table::Contexts,
                index: index as u16,
                address: page + CONTEXT_SIZE as u64 * index,
            };
        }
        EntryLoad {
            table: Table::Directory { level: self.level },
            index: index as u16,
            address: page + ENTRY_SIZE * index,
        }
    }

    /// Makes one load more, of an entry of 8 bytes or, in a page of level 0, of a context of 32, from memory as it is
    /// now: where the walk stands then, or how it has ended. What remains of it is what remained before, after that
    /// load.
    pub fn load<B: Bytes>(self, memory: &B) -> Locating
        ensures { IsOneLoadOf (B.frames_of memory.now) self result }
    {
        if self.level == 0 {
            return Locating::Ended(self.context(memory));
        }
        let place = PAGE_SIZE * self.page.number() + ENTRY_SIZE * self.index();
        let Some(word) = memory.load_u64(place) else {
            return Locating::Ended(Err(Cause::DirectoryLoadFault));
        };
        match NonLeafEntry::decode(word) {
            Ok(entry) => Locating::GoesOn(DirectoryWalk {
                id: self.id,
                page: entry.next,
                level: self.level - 1,
            }),
            Err(cause) => Locating::Ended(Err(cause)),
        }
    }
}

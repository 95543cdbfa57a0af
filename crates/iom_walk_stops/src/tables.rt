// A walk of page tables, all of whose loads are made from one memory.
ghost use Rattle.std.specs.Prelude.{◌≡◌, length};
ghost use Rattle.iom_base.specs.Tables.{entry_size};
ghost use Rattle.iom_phys_mem.specs.Words.{word_at};
ghost use Rattle.iom_stage_walk.specs.Entries.{entry_read};
ghost use Rattle.iom_stepped_walk.specs.Positions.{remains, rest_of};
ghost use Rattle.iom_walk_loads.specs.Loads.{EndsWithin};
ghost use Rattle.iom_walk_stops.specs.Stages.{walk_of};
ghost use Rattle.iom_walk_stops.specs.Stops.{EndOfTables};

use crate::stages::Stages;
use iom_base::AccessKind;
use iom_phys_mem::Bytes;
use iom_stage_walk::{Entry, Pte, WalkFault, Walked};
use iom_stepped_walk::{EntryLoad, Flaw, MAX_TABLE_LOADS, Progress, TableWalk};

/// Where a walk of page tables ends.
#[derive(Clone, Copy, PartialEq, Eq)]
pub enum TablesEnd {
    /// It reaches a page.
    Reaches(Walked),
    /// It stops before its first load: the address isn't one that the stage translates.
    StopsUnread(WalkFault),
    /// It stops before its first load: the root of a guest's tables lies beyond what the second stage translates.
    LacksGuestRoot(WalkFault),
    /// It stops with its last load, of this entry, in which that is wrong.
    StopsAt {
        load: EntryLoad,
        flaw: Flaw,
        fault: WalkFault,
    },
}

/// The entry at an address, also of one outside memory.
fn entry_at<B: Bytes>(memory: &B, address: u64) -> Entry
    ensures { result ≡ entry_read (word_at entry_size (B.frames_of memory.now) address) }
{
    match memory.load_u64(address) {
        Some(word) => Pte::decode(word).entry(),
        None => Entry::Outside,
    }
}

/// Where a walk that stands somewhere ends.
fn end_from<B: Bytes>(begun: TableWalk, memory: &B) -> TablesEnd
    requires { EndsWithin 24 (rest_of (length (B.frames_of memory.now)) begun) }
    ensures { EndOfTables (B.frames_of memory.now) (rest_of (length (B.frames_of memory.now)) begun) result }
{
    let mut walk = begun;
    for _made in 0..MAX_TABLE_LOADS {
        match walk.load(memory) {
            Progress::GoesOn(next) => walk = next,
            Progress::Ended(Ok(walked)) => return TablesEnd::Reaches(walked),
            Progress::Ended(Err(fault)) => {
                let load = walk.next_load();
                let flaw = walk.flaw(entry_at(memory, load.address));
                return TablesEnd::StopsAt { load, flaw, fault };
            }
        }
    }
    unreachable!()
}

/// Where the walk of these stages ends for an access of this kind to the address.
pub fn end_of_tables<B: Bytes>(
    memory: &B,
    stages: Stages,
    address: u64,
    kind: AccessKind,
) -> TablesEnd
    ensures { EndOfTables (B.frames_of memory.now) (walk_of (length (B.frames_of memory.now)) stages address kind) result }
{
    match stages.begin(address, kind) {
        Progress::GoesOn(walk) => end_from(walk, memory),
        Progress::Ended(Ok(walked)) => TablesEnd::Reaches(walked),
        Progress::Ended(Err(fault)) if fault.implicit => TablesEnd::LacksGuestRoot(fault),
        Progress::Ended(Err(fault)) => TablesEnd::StopsUnread(fault),
    }
}

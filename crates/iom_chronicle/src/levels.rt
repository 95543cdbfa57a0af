// Trees of page tables, looked through level by level: however tables point to one another, each is looked at once a level.
ghost use Rattle.std.specs.Prelude.{◌<◌, ◌≤◌};

use iom_base::{AccessKind, ENTRY_SIZE, PAGE_SIZE, Rights, TABLE_ENTRIES};
use iom_napot::entry_in;
use iom_phys_mem::{Bytes, MAX_FRAMES, Memory};
use iom_stage_walk::{Entry, entry_at};

/// The frames of the tables of one level.
#[derive(Drop)]
struct Level {
    tables: [bool; MAX_FRAMES as usize],
}

impl Level {
    fn empty() -> Level {
        Level {
            tables: [false; MAX_FRAMES as usize],
        }
    }

    /// Adds a table. One outside memory isn't there.
    fn add(&mut self, table: u64) {
        if let Some(place) = self.tables.get_mut(table as usize) {
            *place = true;
        }
    }

    fn has(&self, table: u64) -> bool {
        match self.tables.get(table as usize) {
            Some(has) => *has,
            None => false,
        }
    }
}

/// What is looked for: a leaf that maps some page to the frame, with a right to accesses of the kind.
#[derive(Clone, Copy)]
pub(crate) struct Target {
    pub(crate) frame: u32,
    pub(crate) kind: AccessKind,
}

impl Target {
    /// Whether a leaf of so many pages maps one so. One that isn't aligned to what it spans faults.
    fn is_mapped(self, base: u64, rights: Rights, span: u64) -> bool
        requires { 0 < span }
    {
        let frame = u64::from(self.frame);
        base % span == 0 && base <= frame && frame - base < span && rights.allows(self.kind)
    }
}

/// Which stage tables are of.
#[derive(Clone, Copy)]
pub(crate) enum Stage {
    First,
    /// Its root fills four frames.
    Second,
}

/// The tables of one stage: the first frame of the root, and how many levels there are.
#[derive(Clone, Copy)]
pub(crate) struct Tables {
    pub(crate) stage: Stage,
    pub(crate) root: u64,
    pub(crate) levels: usize,
    /// Whether walks know leaves of 64 KiB.
    pub(crate) napot: bool,
}

/// The pages that an entry spans above so many levels; at most four are there.
fn span_above(levels: usize) -> u64
    ensures { 0 < result }
{
    match levels {
        0 => 1,
        1 => TABLE_ENTRIES,
        2 => TABLE_ENTRIES * TABLE_ENTRIES,
        _ => TABLE_ENTRIES * TABLE_ENTRIES * TABLE_ENTRIES,
    }
}

/// The entry at an index of a table above so many levels, as walks read it.
fn entry_above(memory: &Memory, napot: bool, table: u64, index: u16, below: usize) -> Entry {
    if napot && below == 0 {
        return entry_in(memory, true, table, index, 0).entry;
    }
    entry_at(memory, table, index)
}

/// The address of the entry at an index of a table.
fn entry_address(table: u64, index: u16) -> u64 {
    table
        .saturating_mul(PAGE_SIZE)
        .saturating_add(ENTRY_SIZE * u64::from(index))
}

/// The address of the first leaf of a table, above so many levels, that maps the target.
fn leaf_in_table(
    memory: &Memory,
    napot: bool,
    table: u64,
    target: Target,
    below: usize,
) -> Option<u64> {
    for index in 0..TABLE_ENTRIES as u16 {
        if let Entry::Leaf(base, rights) = entry_above(memory, napot, table, index, below) {
            if target.is_mapped(base, rights, span_above(below)) {
                return Some(entry_address(table, index));
            }
        }
    }
    None
}

/// The same of the tables of a level.
fn leaf_in_level(
    memory: &Memory,
    napot: bool,
    level: &Level,
    target: Target,
    below: usize,
) -> Option<u64> {
    for table in 0..memory.frames() {
        let table = u64::from(table);
        if level.has(table) {
            if let Some(address) = leaf_in_table(memory, napot, table, target, below) {
                return Some(address);
            }
        }
    }
    None
}

/// Adds the tables to which the entries of a table point.
fn add_pointers(memory: &Memory, table: u64, next: &mut Level) {
    for index in 0..TABLE_ENTRIES as u16 {
        if let Entry::Pointer(pointed) = entry_at(memory, table, index) {
            next.add(pointed);
        }
    }
}

/// The tables to which those of a level point.
fn next_level(memory: &Memory, level: &Level) -> Level {
    let mut next = Level::empty();
    for table in 0..memory.frames() {
        let table = u64::from(table);
        if level.has(table) {
            add_pointers(memory, table, &mut next);
        }
    }
    next
}

impl Tables {
    fn root_frames(self) -> u64
        ensures some { 0 < result }
        ensures few { result ≤ 4 }
    {
        match self.stage {
            Stage::First => 1,
            Stage::Second => 4,
        }
    }

    fn root_level(self) -> Level {
        let mut level = Level::empty();
        for frame in 0..self.root_frames() {
            level.add(self.root.saturating_add(frame));
        }
        level
    }

    /// The address of a leaf at which some walk ends, to the target: of the highest level, and there the first in memory.
    pub(crate) fn leaf_to(self, memory: &Memory, target: Target) -> Option<u64> {
        let mut level = self.root_level();
        for below in (0..self.levels).rev() {
            let found = leaf_in_level(memory, self.napot, &level, target, below);
            if found.is_some() {
                return found;
            }
            level = next_level(memory, &level);
        }
        None
    }

    /// Whether some walk reads the frame as a table.
    pub(crate) fn read(self, memory: &Memory, frame: u32) -> bool {
        let mut level = self.root_level();
        for passed in 0..self.levels {
            if level.has(u64::from(frame)) {
                return true;
            }
            level = next_level(memory, &level);
        }
        false
    }

    /// The index of a page in a table that stands above so many levels.
    fn index_of(self, page: u64, below: usize) -> u16 {
        let is_root = self.levels == below.saturating_add(1);
        let entries = if is_root {
            self.root_frames() * TABLE_ENTRIES
        } else {
            TABLE_ENTRIES
        };
        (page / span_above(below) % entries) as u16
    }

    /// The address of the entry at which the walk to a page ends.
    pub(crate) fn leaf_of(self, memory: &Memory, page: u64) -> Option<u64> {
        let mut table = self.root;
        for below in (0..self.levels).rev() {
            let index = self.index_of(page, below);
            match entry_above(memory, self.napot, table, index, below) {
                Entry::Pointer(next) => table = next,
                Entry::Leaf(_, _) => return Some(entry_address(table, index)),
                Entry::Outside | Entry::Invalid => return None,
            }
        }
        None
    }
}

// Page tables, level by level.
ghost use Rattle.std.specs.Prelude.{◌≡◌, ◌<◌, ◌≤◌, ◌+◌, ◌*◌, ◌^◌, ℕ, true, length};
ghost use Rattle.iom_napot.specs.Entries.{entries_in};
ghost use Rattle.iom_stage_walk.specs.Entries.{IsBounded};
ghost use Rattle.iom_table_survey.specs.Levels.{span, PointsTo, MapsFrame, PointsFrom, MapsFrom, IsPointedTo, IsMappedBy, IsTableIn, IsMappedIn};
ghost use Rattle.iom_table_survey.specs.Reaches.{AddsReach};
ghost use Rattle.iom_table_survey.specs.Rows.{row_has, GrowsBy, IsOf, IsInRun};

use crate::bits::BITS;
use crate::frame_row::FrameRow;
use crate::reach::Reach;
use iom_base::TABLE_ENTRIES;
use iom_napot::entry_in;
use iom_phys_mem::Memory;
use iom_stage_walk::Entry;

/// The words of a row in which the frames of a memory are.
const MEMORY_WORDS: usize = 64;

/// How many pages a leaf spans, with so many levels below it.
pub fn span(below: u32) -> u64
    requires { below ≤ 3 }
    ensures value { result ≡ span below }
    ensures positive { 0 < result }
    ensures small { result < 2 ^ 28 }
{
    match below {
        0 => 1,
        1 => TABLE_ENTRIES,
        2 => TABLE_ENTRIES * TABLE_ENTRIES,
        _ => TABLE_ENTRIES * TABLE_ENTRIES * TABLE_ENTRIES,
    }
}

/// What the leaf maps, where it is aligned.
fn survey_leaf(entry: Entry, below: u32, reach: &mut Reach)
    requires below { below ≤ 3 }
    requires bounded { IsBounded entry }
    ensures { AddsReach reach.old reach.new (MapsFrame entry below) }
{
    let Entry::Leaf(base, rights) = entry else {
        return;
    };
    let pages = span(below);
    if base % pages == 0 {
        reach.insert_run(base, pages, rights);
    }
}

/// The table that the entry names.
fn survey_pointer(entry: Entry, next: &mut FrameRow)
    ensures { GrowsBy next.old next.new (PointsTo entry) }
{
    if let Entry::Pointer(table) = entry {
        next.insert(table);
    }
}

/// The entries of a frame of a table, with so many levels below it.
fn survey_table(
    memory: &Memory,
    napot: bool,
    table: u64,
    below: u32,
    next: &mut FrameRow,
    reach: &mut Reach,
)
    requires { below ≤ 3 }
    ensures pointers { GrowsBy next.old next.new (PointsFrom (entries_in napot memory.now below) table) }
    ensures leaves { AddsReach reach.old reach.new (λ kind. MapsFrom (entries_in napot memory.now below) below kind table) }
{
    for index in 0..TABLE_ENTRIES as u16 {
        let entry = entry_in(memory, napot, table, index, below).entry;
        survey_pointer(entry, next);
        survey_leaf(entry, below, reach);
    }
}

/// The same, where the frame is one of the level's.
fn survey_marked(
    memory: &Memory,
    napot: bool,
    level: &FrameRow,
    table: u64,
    below: u32,
    next: &mut FrameRow,
    reach: &mut Reach,
)
    requires { below ≤ 3 }
    ensures pointers { GrowsBy next.old next.new (λ f. PointsFrom (entries_in napot memory.now below) table f × (row_has level.now table ≡ true)) }
    ensures leaves { AddsReach reach.old reach.new (λ kind f. MapsFrom (entries_in napot memory.now below) below kind table f × (row_has level.now table ≡ true)) }
{
    if level.contains(table) {
        survey_table(memory, napot, table, below, next, reach);
    }
}

/// The same of each of 64 frames.
fn survey_word(
    memory: &Memory,
    napot: bool,
    level: &FrameRow,
    word: usize,
    below: u32,
    next: &mut FrameRow,
    reach: &mut Reach,
)
    requires below { below ≤ 3 }
    requires word { word < 64 }
    ensures pointers { GrowsBy next.old next.new (λ f. (k : ℕ) × (k < 64)
        × (PointsFrom (entries_in napot memory.now below) (64 * word + k) f × (row_has level.now (64 * word + k) ≡ true))) }
    ensures leaves { AddsReach reach.old reach.new (λ kind f. (k : ℕ) × (k < 64)
        × (MapsFrom (entries_in napot memory.now below) below kind (64 * word + k) f × (row_has level.now (64 * word + k) ≡ true))) }
{
    if level.has_none_of(word) {
        return;
    }
    for bit in 0..BITS {
        survey_marked(
            memory,
            napot,
            level,
            (word * BITS + bit) as u64,
            below,
            next,
            reach,
        );
    }
}

/// The tables of the next level, and what the leaves of this one map.
fn survey_level(
    memory: &Memory,
    napot: bool,
    level: &FrameRow,
    below: u32,
    reach: &mut Reach,
) -> FrameRow
    requires size { length memory.now ≤ 4096 }
    requires below { below ≤ 3 }
    ensures pointers { IsOf result (IsPointedTo (entries_in napot memory.now below) (λ t. row_has level.now t ≡ true)) }
    ensures leaves { AddsReach reach.old reach.new (IsMappedBy (entries_in napot memory.now below) (λ t. row_has level.now t ≡ true) below) }
{
    let mut next = FrameRow::new();
    for word in 0..MEMORY_WORDS {
        survey_word(memory, napot, level, word, below, &mut next, reach);
    }
    next
}

/// All levels from this one on.
fn survey_levels(
    memory: &Memory,
    napot: bool,
    level: &FrameRow,
    levels: u32,
    tables: &mut FrameRow,
    reach: &mut Reach,
)
    requires size { length memory.now ≤ 4096 }
    requires levels { levels ≤ 4 }
    ensures tables { GrowsBy tables.old tables.new (IsTableIn (entries_in napot memory.now) (λ t. row_has level.now t ≡ true) levels) }
    ensures leaves { AddsReach reach.old reach.new (IsMappedIn (entries_in napot memory.now) (λ t. row_has level.now t ≡ true) levels) }
{
    if levels == 0 {
        return;
    }
    tables.union(level);
    let next = survey_level(memory, napot, level, levels - 1, reach);
    survey_levels(memory, napot, &next, levels - 1, tables, reach);
}

/// Looks at all tables below the root that stands in so many frames from the first on, one in a first stage and four in a
/// second, and has so many levels. The frames in which tables stand go into `tables`, also those outside memory; what
/// leaves map goes into `reach`; where walks know leaves of 64 KiB, or don't. No walk is made: each frame of a table is
/// read once a level.
pub fn survey(
    memory: &Memory,
    napot: bool,
    root: u64,
    frames: u64,
    levels: u32,
    tables: &mut FrameRow,
    reach: &mut Reach,
)
    requires size { length memory.now ≤ 4096 }
    requires levels { levels ≤ 4 }
    requires some { 0 < frames }
    requires fits { root + frames < 2 ^ 64 }
    ensures tables { GrowsBy tables.old tables.new (IsTableIn (entries_in napot memory.now) (IsInRun root frames) levels) }
    ensures leaves { AddsReach reach.old reach.new (IsMappedIn (entries_in napot memory.now) (IsInRun root frames) levels) }
{
    let mut level = FrameRow::new();
    level.insert_run(root, frames);
    survey_levels(memory, napot, &level, levels, tables, reach);
}

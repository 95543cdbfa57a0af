ghost use Rattle.std.specs.Prelude.{◌≡◌, ◌⊎◌, ◌↔◌, ℕ, ◌*◌, ◌/◌, ◌%◌, ◌<◌, [], ◌∷◌, ◌++◌, length, Some, None, is_some};
ghost use Rattle.std.specs.List.{Contains};
ghost use Rattle.iom_base.specs.Rights.{r, rw};
ghost use Rattle.iom_base.specs.Sizes.{levels_of, page_limit_of};
ghost use Rattle.iom_base.specs.Tables.{entry_size, table_entries};
ghost use Rattle.iom_phys_mem.specs.Words.{word_at, byte_at};
ghost use Rattle.iom_stage_walk.specs.Paths.{path_of, first_widths};
ghost use Rattle.iom_page_table.specs.Leaves.{leaf_of};
ghost use Rattle.iom_page_table.specs.FirstTables.{IsRoot, HasTable, missing_for, IsLeafEntry, FillsEntry, ChangesLeaf, KeepsOutside, KeepsTables, mapped, unmapped};
ghost use Rattle.iom_page_table.specs.Trees.{shape_of, AreFresh};

use crate::above_last::{build, count_missing, last_table};
use crate::build::{leaf_word, put};
use crate::leaf::PageLeaf;
use iom_base::{Size, TABLE_ENTRIES};
use iom_phys_mem::Bytes;
use iom_stage_walk::{Entry, entry_at, first_indices};

/// How many tables are missing for a leaf of the page: fewer than its tables have levels. Of the page's number the
/// low bits count that they translate. At most one load for each level but the last.
pub fn missing<B: Bytes>(memory: &B, size: Size, root: u32, page: u64) -> usize
    ensures { result ≡ missing_for size (B.frames_of memory.now) root page }
{
    let all = first_indices(page);
    count_missing(memory, size, root, &all)
}

/// Whether the page has a leaf. At most one load a level.
pub fn is_mapped<B: Bytes>(memory: &B, size: Size, root: u32, page: u64) -> bool
    requires page { page < page_limit_of size }
    requires tree { IsRoot size (B.frames_of memory.now) root }
    ensures { result ≡ is_some (leaf_of (levels_of size) (B.frames_of memory.now) root page) }
{
    let all = first_indices(page);
    match last_table(memory, size, root, &all) {
        Some(table) => match entry_at(memory, table, (page % TABLE_ENTRIES) as u16) {
            Entry::Leaf(_, _) => true,
            _ => false,
        },
        None => false,
    }
}

/// Maps a page that isn't mapped: hangs the missing tables under the root, from the root down, in the
/// frames handed in, and writes the leaf. `frames` are as many as [`missing`] says, zeroed, distinct and no
/// tables of the root. One load for each level but the last, and one store more than there are frames: a byte changes only in an entry on
/// the page's path that led nowhere.
pub fn map<B: Bytes>(
    memory: &mut B,
    size: Size,
    root: u32,
    page: u64,
    leaf: PageLeaf,
    frames: &[u32],
)
    requires page { page < page_limit_of size }
    requires rights { (leaf.rights ≡ r) ⊎ (leaf.rights ≡ rw) }
    requires tree { IsRoot size (B.frames_of memory.old) root }
    requires free { leaf_of (levels_of size) (B.frames_of memory.old) root page ≡ None }
    requires count { length frames.now ≡ missing_for size (B.frames_of memory.old) root page }
    requires fresh { AreFresh (shape_of size) (B.frames_of memory.old) root frames.now }
    ensures tree { IsRoot size (B.frames_of memory.new) root }
    ensures tables { (f : ℕ) → HasTable size (B.frames_of memory.new) root f
        ↔ (HasTable size (B.frames_of memory.old) root f ⊎ Contains frames.now f) }
    ensures leaf { ChangesLeaf size (B.frames_of memory.old) (B.frames_of memory.new) root page (Some leaf) }
    ensures other_bytes { (a : ℕ) → (FillsEntry size (B.frames_of memory.old) (B.frames_of memory.new) root page (a / entry_size) → ⊥)
        → byte_at (B.frames_of memory.new) a ≡ byte_at (B.frames_of memory.old) a }
    ensures outside { KeepsOutside size (B.frames_of memory.old) (B.frames_of memory.new) root }
    ensures keeps { KeepsTables size (B.frames_of memory.old) (B.frames_of memory.new) root }
    ensures size { length (B.frames_of memory.new) ≡ length (B.frames_of memory.old) }

    // What the clauses above follow from, as one equation.
    ensures whole { B.frames_of memory.new ≡ mapped size (B.frames_of memory.old) root page leaf frames.now }
{
    let last = (page % TABLE_ENTRIES) as u16;
    let all = first_indices(page);
    let table = build(memory, size, root, &all, last, frames);
    put(memory, table, last, leaf_word(leaf));
}

/// Clears the leaf of a page: its eight bytes are zero, and no other byte changes. A page that has no last
/// table has nothing to clear.
#[inline(always)]
pub fn unmap<B: Bytes>(memory: &mut B, size: Size, root: u32, page: u64)
    requires page { page < page_limit_of size }
    requires tree { IsRoot size (B.frames_of memory.old) root }
    ensures tree { IsRoot size (B.frames_of memory.new) root }
    ensures tables { (f : ℕ) → HasTable size (B.frames_of memory.new) root f
        ↔ HasTable size (B.frames_of memory.old) root f }
    ensures leaf { ChangesLeaf size (B.frames_of memory.old) (B.frames_of memory.new) root page None }
    ensures cleared { (s : ℕ) → IsLeafEntry size (B.frames_of memory.old) root page s
        → word_at entry_size (B.frames_of memory.new) (entry_size * s) ≡ Some 0 }
    ensures other_bytes { (a : ℕ) → (IsLeafEntry size (B.frames_of memory.old) root page (a / entry_size) → ⊥)
        → byte_at (B.frames_of memory.new) a ≡ byte_at (B.frames_of memory.old) a }
    ensures outside { KeepsOutside size (B.frames_of memory.old) (B.frames_of memory.new) root }
    ensures keeps { KeepsTables size (B.frames_of memory.old) (B.frames_of memory.new) root }
    ensures size { length (B.frames_of memory.new) ≡ length (B.frames_of memory.old) }

    // What the clauses above follow from, as one equation.
    ensures whole { B.frames_of memory.new ≡ unmapped size (B.frames_of memory.old) root page }
{
    let all = first_indices(page);
    match last_table(memory, size, root, &all) {
        Some(table) => put(memory, table, (page % TABLE_ENTRIES) as u16, 0),
        None => {}
    }
}

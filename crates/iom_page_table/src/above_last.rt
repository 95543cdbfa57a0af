// The tables above a page's last level, in tables of either size: the loop over the levels of each is unrolled, as it is
// over a slice of a known length.
ghost use Rattle.std.specs.Prelude.{◌≡◌, ℕ, ◌<◌, ◌^◌, [], ◌∷◌, ◌++◌, length, IfSome, IfNone};
ghost use Rattle.iom_stage_walk.specs.Entries.{entries};
ghost use Rattle.iom_page_table.specs.Building.{Built, SameWrites, IsPageOfShape, missing_above, upper_in};
ghost use Rattle.iom_page_table.specs.Trees.{shape_of, IsTree, IsTableAt, AreFresh};

use crate::build::{build_along, missing_along, table_under};
use iom_base::Size;
use iom_phys_mem::Bytes;
use iom_stage_walk::MAX_LEVELS;

/// How many tables are missing above the last level.
pub(crate) fn count_missing<B: Bytes>(
    memory: &B,
    size: Size,
    root: u32,
    all: &[u16; MAX_LEVELS],
) -> usize
    ensures { result ≡ missing_above (entries (B.frames_of memory.now)) root (upper_in size all.now) }
{
    match size {
        Size::Sv39 => missing_along(memory, root, &all[1..3]),
        Size::Sv48 => missing_along(memory, root, &all[0..3]),
    }
}

/// The table of the last level, where there is one.
#[inline(always)]
pub(crate) fn last_table<B: Bytes>(
    memory: &B,
    size: Size,
    root: u32,
    all: &[u16; MAX_LEVELS],
) -> Option<u64>
    ensures range { IfSome result (λ table. table < 2 ^ 44) }
    ensures some { IfSome result (λ table. IsTableAt (entries (B.frames_of memory.now)) root (upper_in size all.now) table) }
    ensures none { IfNone result ((table : ℕ) → IsTableAt (entries (B.frames_of memory.now)) root (upper_in size all.now) table → ⊥) }
{
    match size {
        Size::Sv39 => table_under(memory, root, &all[1..3]),
        Size::Sv48 => table_under(memory, root, &all[0..3]),
    }
}

/// Hangs the missing tables under the root, and gives the table of the last level.
pub(crate) fn build<B: Bytes>(
    memory: &mut B,
    size: Size,
    root: u32,
    all: &[u16; MAX_LEVELS],
    last: u16,
    frames: &[u32],
) -> u64
    requires tree { IsTree (shape_of size) (entries (B.frames_of memory.old)) root }
    requires page { IsPageOfShape (shape_of size) (upper_in size all.now) last }
    requires count { length frames.now ≡ missing_above (entries (B.frames_of memory.old)) root (upper_in size all.now) }
    requires fresh { AreFresh (shape_of size) (B.frames_of memory.old) root frames.now }
    ensures range { result < 2 ^ 44 }
    ensures built { Built (shape_of size) (B.frames_of memory.old) (B.frames_of memory.new) root (upper_in size all.now) (length (upper_in size all.now))
        result frames.now (length frames.now) }
    ensures writes { SameWrites (B.frames_of memory.old) (B.frames_of memory.new) root (upper_in size all.now ++ last ∷ []) frames.now result (last ∷ []) [] }
{
    match size {
        Size::Sv39 => build_along(memory, root, &all[1..3], last, frames),
        Size::Sv48 => build_along(memory, root, &all[0..3], last, frames),
    }
}

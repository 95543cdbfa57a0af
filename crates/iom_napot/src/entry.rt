// An entry of a table, as walks read it that know leaves of 64 KiB, or don't.
ghost use Rattle.std.specs.Prelude.{◌≡◌, ◌<◌, ◌==◌, ◌&&◌, if◌then◌else◌};
ghost use Rattle.std.specs.Int.RustNames.{bit_and};
ghost use Rattle.iom_napot.specs.Entries.{entries_in, is_napot_leaf, napot_entries, napot_entry, napot_order, order_in};
ghost use Rattle.iom_stage_walk.specs.Entries.{IsBounded, leaf_rights, slot};

use bitflags::Flags;
use iom_base::{ENTRY_SIZE, PAGE_SIZE, Rights};
use iom_phys_mem::Bytes;
use iom_stage_walk::{Entry, Pte, PteFlags, entry_at};

/// What an entry means, and of a leaf how many pages it maps.
#[derive(Clone, Copy, PartialEq, Eq)]
pub struct SizedEntry {
    pub entry: Entry,
    /// It maps 2^order pages, if it is a leaf.
    pub order: u16,
}

/// How many pages a leaf of 64 KiB maps.
const NAPOT_PAGES: u64 = 16;

/// How the page number of such a leaf ends, of these pages.
const NAPOT_END: u64 = 8;

/// The bits 63:54 of such a leaf: N alone.
const N_ALONE: u16 = 1 << 9;

/// What it has as order.
const NAPOT_ORDER: u16 = 4;

/// The bits of a page's number that one level of tables translates.
const LEVEL_ORDER: u16 = 9;

/// Whether the flags are those of a leaf that serves devices: V, R, U and A are set.
fn serves_devices(flags: PteFlags) -> bool
    ensures { result ≡ (bit_and flags.0 1 == 1 && (bit_and flags.0 2 == 2 && (bit_and flags.0 16 == 16 && bit_and flags.0 64 == 64))) }
{
    flags.contains(PteFlags::V)
        && flags.contains(PteFlags::R)
        && flags.contains(PteFlags::U)
        && flags.contains(PteFlags::A)
}

/// Whether the entry is a leaf of 64 KiB that serves devices.
fn is_napot_leaf(pte: Pte) -> bool
    ensures { result ≡ is_napot_leaf pte }
{
    pte.reserved() == N_ALONE && serves_devices(pte.flags()) && pte.ppn() % NAPOT_PAGES == NAPOT_END
}

/// RW where W and D are set, else R.
fn leaf_rights(pte: Pte) -> Rights
    ensures { result ≡ leaf_rights pte }
{
    if pte.flags().contains(PteFlags::W) && pte.flags().contains(PteFlags::D) {
        Rights::RW
    } else {
        Rights::R
    }
}

/// What the entry means that stands at an index, in a table of pages: a leaf of 64 KiB maps of its pages the one that the
/// index names.
fn napot_entry(pte: Pte, index: u16) -> SizedEntry
    ensures entry { result.entry ≡ napot_entry pte index }
    ensures order { result.order ≡ (if is_napot_leaf pte then 4 else 0) }
    ensures bounded { IsBounded result.entry }
{
    if is_napot_leaf(pte) {
        return SizedEntry {
            entry: Entry::Leaf(
                pte.ppn() - NAPOT_END + u64::from(index) % NAPOT_PAGES,
                leaf_rights(pte),
            ),
            order: NAPOT_ORDER,
        };
    }
    SizedEntry {
        entry: pte.entry(),
        order: 0,
    }
}

/// The entry at an index of a table of pages, also of one outside memory.
fn page_entry_at<B: Bytes>(memory: &B, table: u64, index: u16) -> SizedEntry
    ensures entry { result.entry ≡ napot_entries (B.frames_of memory.now) (slot table index) }
    ensures order { result.order ≡ napot_order (B.frames_of memory.now) (slot table index) }
    ensures bounded { IsBounded result.entry }
{
    if table < u64::from(memory.frames()) {
        if let Some(word) = memory.load_u64(PAGE_SIZE * table + ENTRY_SIZE * u64::from(index)) {
            return napot_entry(Pte::decode(word), index);
        }
    }
    SizedEntry {
        entry: Entry::Outside,
        order: 0,
    }
}

/// The entry at an index of the table that begins at a frame, also of one outside memory, where there are so many levels
/// below the table, and walks know Svnapot, or don't. At most one load.
pub fn entry_in<B: Bytes>(memory: &B, napot: bool, table: u64, index: u16, below: u32) -> SizedEntry
    requires { below < 4 }
    ensures entry { result.entry ≡ entries_in napot (B.frames_of memory.now) below (slot table index) }
    ensures order { result.order ≡ order_in napot (B.frames_of memory.now) below (slot table index) }
    ensures bounded { IsBounded result.entry }
{
    if napot && below == 0 {
        return page_entry_at(memory, table, index);
    }
    SizedEntry {
        entry: entry_at(memory, table, index),
        order: LEVEL_ORDER * below as u16,
    }
}

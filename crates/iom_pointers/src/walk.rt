// The walk from a table in hand to its leaf.
ghost use Rattle.std.specs.Prelude.{◌≡◌, ◌<◌, ◌^◌, IfSome, IfNone};
ghost use Rattle.iom_pointers.specs.Walks.{IsLeafFor, LeadsNowhere, LeadsTo};
ghost use Rattle.iom_stepped_walk.specs.Indices.{index_at};

use iom_base::{AccessKind, Ppn, Rights, TABLE_ENTRIES};
use iom_napot::entry_in;
use iom_phys_mem::{Bytes, Memory};
use iom_stage_walk::Entry;
use iom_stepped_walk::TableInHand;
use iom_table_survey::span;
use iom_tlb::Translation;

/// The index of the page that is looked for.
pub(crate) fn index_in(hand: TableInHand) -> u16
    requires { hand.level < 4 }
    ensures value { result ≡ index_at hand.is_wide hand.level hand.page }
    ensures small { result < 2048 }
{
    let entries = if hand.is_wide {
        4 * TABLE_ENTRIES
    } else {
        TABLE_ENTRIES
    };
    (hand.page / span(hand.level) % entries) as u16
}

/// The translation that a leaf of this order in the table gives the page. None where it isn't aligned to what it spans, lacks the kind of
/// access, or maps a page outside memory.
fn leaf_of(
    hand: TableInHand,
    base: u64,
    rights: Rights,
    order: u16,
    kind: AccessKind,
    frames: u32,
) -> Option<Translation>
    requires level { hand.level < 4 }
    requires base { base < 2 ^ 44 }
    ensures some { IfSome result (IsLeafFor hand base rights order kind frames) }
    ensures none { IfNone result ((translation : Translation) → ¬ IsLeafFor hand base rights order kind frames translation) }
{
    let pages = span(hand.level);
    let frame = base + hand.page % pages;
    if base % pages != 0 || !rights.allows(kind) || frame >= u64::from(frames) {
        return None;
    }
    Some(Translation {
        frame: frame as u32,
        rights,
        order,
    })
}

/// The translation to which a walk leads that has this table in hand, for an access of this kind, where walks know leaves
/// of 64 KiB, or don't. None where it ends with a fault. At most one load a level.
pub fn lead(
    memory: &Memory,
    napot: bool,
    hand: TableInHand,
    kind: AccessKind,
) -> Option<Translation>
    requires { hand.level < 4 }
    ensures some { IfSome result (LeadsTo napot memory.now hand kind) }
    ensures none { IfNone result (LeadsNowhere napot memory.now hand kind) }
{
    let found = entry_in(
        memory,
        napot,
        hand.table.number(),
        index_in(hand),
        hand.level,
    );
    match found.entry {
        Entry::Leaf(base, rights) => {
            leaf_of(hand, base, rights, found.order, kind, memory.frames())
        }
        Entry::Pointer(next) => {
            if hand.level == 0 {
                return None;
            }
            let below = TableInHand {
                table: Ppn::new(next).unwrap(),
                level: hand.level - 1,
                is_wide: false,
                page: hand.page,
            };
            lead(memory, napot, below, kind)
        }
        Entry::Invalid | Entry::Outside => None,
    }
}

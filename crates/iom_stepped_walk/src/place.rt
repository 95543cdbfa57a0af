// A table in hand, and what one load of an entry there makes of a walk.
ghost use Rattle.std.specs.Prelude.{◌≡◌, ◌<◌, ◌≤◌, ◌^◌, IfSome};
ghost use Rattle.iom_base.specs.Tables.{table_entries};
ghost use Rattle.iom_stage_walk.specs.Entries.{IsBounded};
ghost use Rattle.iom_stepped_walk.specs.Indices.{width_of, index_at, indices_below, page_by};

use iom_base::{AccessKind, Ppn, Rights, TABLE_ENTRIES};
use iom_phys_mem::Bytes;
use iom_stage_walk::{Entry, entry_at};

/// A table of a stage, from which a walk loads an entry next.
#[derive(Clone, Copy, PartialEq, Eq)]
pub struct Place {
    /// The page in which the table begins.
    pub(crate) table: Ppn,
    /// The level of the table: 0 where its entries are those of pages, up to 3.
    pub(crate) level: u32,
    /// Whether it is the root of a second stage, which fills four frames.
    pub(crate) is_wide: bool,
    ghost in_range: { level < 4 },
}

/// What one load makes of a walk through the tables of a stage.
#[derive(Clone, Copy, PartialEq, Eq)]
pub(crate) enum Step {
    /// It goes on in the table that the entry names.
    Follow(Place),
    /// It has reached a frame of memory, by a leaf with so many levels below it.
    Found {
        frame: u32,
        rights: Rights,
        level: u8,
    },
    /// It stops with the stage's page fault.
    NoPage,
    /// It stops with an access fault: the entry, or the page, lies outside memory.
    Outside,
}

/// How many pages an entry of a table of this level spans.
pub(crate) fn span_of(level: u32) -> u64
    requires { level < 4 }
    ensures span { result ≡ table_entries ^ level }
    ensures positive { 0 < result }
    ensures fits { result ≤ 2 ^ 27 }
{
    match level {
        0 => 1,
        1 => TABLE_ENTRIES,
        2 => TABLE_ENTRIES * TABLE_ENTRIES,
        _ => TABLE_ENTRIES * TABLE_ENTRIES * TABLE_ENTRIES,
    }
}

/// The page to which a leaf in a table of this level gives an access of this kind of the page that is asked for. None
/// where it isn't lawful: a misaligned superpage, or its rights lack the kind of access.
pub(crate) fn judge(
    kind: AccessKind,
    base: u64,
    rights: Rights,
    level: u32,
    page: u64,
) -> Option<u64>
    requires base { base < 2 ^ 44 }
    requires level { level < 4 }
    ensures value { result ≡ page_by kind base rights (indices_below level page) }
    ensures fits { IfSome result (λ given. given < 2 ^ 45) }
{
    let span = span_of(level);
    if base % span != 0 || !rights.allows(kind) {
        return None;
    }
    Some(base + page % span)
}

/// The index of a page in a table of this level.
pub(crate) fn index_at(is_wide: bool, level: u32, page: u64) -> u16
    requires { level < 4 }
    ensures value { result ≡ index_at is_wide level page }
    ensures small { result < width_of is_wide }
{
    let entries = if is_wide {
        4 * TABLE_ENTRIES
    } else {
        TABLE_ENTRIES
    };
    (page / span_of(level) % entries) as u16
}

impl Place {
    ghost use Rattle.iom_stepped_walk.specs.Steps.{Makes, GoesOnBy, FollowsBy};

    /// What follows a pointer: the table that it names, one level down. There is none below level 0.
    fn below(self, next: u64) -> Step
        requires { next < 2 ^ 44 }
        ensures { FollowsBy self next result }
    {
        if self.level == 0 {
            return Step::NoPage;
        }
        Step::Follow(Place {
            table: Ppn::new(next).unwrap(),
            level: self.level - 1,
            is_wide: false,
        })
    }

    /// What an entry of the table, that of the page that is asked for, makes of the walk.
    fn after(self, entry: Entry, frames: u32, page: u64, kind: AccessKind) -> Step
        requires { IsBounded entry }
        ensures { GoesOnBy frames kind self page entry result }
    {
        match entry {
            Entry::Pointer(next) => self.below(next),
            Entry::Leaf(base, rights) => match judge(kind, base, rights, self.level, page) {
                Some(frame) => {
                    if frame < u64::from(frames) {
                        Step::Found {
                            frame: frame as u32,
                            rights,
                            level: self.level as u8,
                        }
                    } else {
                        Step::Outside
                    }
                }
                None => Step::NoPage,
            },
            Entry::Invalid => Step::NoPage,
            Entry::Outside => Step::Outside,
        }
    }

    /// Makes one load: of the entry of the page that is asked for.
    pub(crate) fn step<B: Bytes>(self, memory: &B, page: u64, kind: AccessKind) -> Step
        ensures { Makes (B.frames_of memory.now) kind self page result }
    {
        let index = index_at(self.is_wide, self.level, page);
        let entry = entry_at(memory, self.table.number(), index);
        self.after(entry, memory.frames(), page, kind)
    }
}

// What is wrong with the entry that stops a walk of tables.
ghost use Rattle.std.specs.Prelude.{◌≡◌, ◌<◌, ◌==◌, ◌%◌, ◌^◌};
ghost use Rattle.iom_base.specs.Rights.{allows};
ghost use Rattle.iom_base.specs.Tables.{table_entries};
ghost use Rattle.iom_stepped_walk.specs.Flaws.{flaw_of_leaf};

use crate::place::span_of;
use crate::tables::TableWalk;
use iom_base::{AccessKind, Rights};
use iom_stage_walk::Entry;

/// What is wrong with the entry of a table that stops a walk.
#[derive(Clone, Copy, PartialEq, Eq)]
pub enum Flaw {
    /// It lies outside memory.
    OutsideMemory,
    /// It isn't valid, its bits are reserved, or it serves no device.
    Invalid,
    /// It names a table where there is none: below level 0, or where the second stage has no address for it.
    NamesNoTable,
    /// It is a leaf that isn't aligned to the pages that it spans.
    Misaligned,
    /// It is a leaf that doesn't allow the access.
    Forbids,
    /// It is a leaf whose page isn't there: outside memory, or where the second stage has no address for it.
    NamesNoPage,
}

/// What is wrong with a leaf in a table of this level.
fn flaw_of_leaf(base: u64, rights: Rights, kind: AccessKind, level: u32) -> Flaw
    requires { level < 4 }
    ensures { result ≡ flaw_of_leaf (base % table_entries ^ level == 0) (allows rights kind) }
{
    if base % span_of(level) != 0 {
        Flaw::Misaligned
    } else if !rights.allows(kind) {
        Flaw::Forbids
    } else {
        Flaw::NamesNoPage
    }
}

impl TableWalk {
    ghost use Rattle.iom_stepped_walk.specs.Flaws.{asks_of, flaw_of, level_of};

    /// The level of the table from which the walk loads next.
    fn level(self) -> u32
        ensures value { result ≡ level_of self }
        ensures small { result < 4 }
    {
        match self {
            TableWalk::InFirstStage { place, .. } => place.level,
            TableWalk::InSecondStage { place, .. } => place.level,
            TableWalk::ToGuestEntry { place, .. } => place.level,
            TableWalk::InGuestTable { entry, .. } => entry.level,
            TableWalk::ToGuestPage { place, .. } => place.level,
        }
    }

    /// The kind of access that a leaf which the walk loads next has to allow.
    fn asks(self) -> AccessKind
        ensures { result ≡ asks_of self }
    {
        match self {
            TableWalk::InFirstStage { asked, .. } => asked.kind,
            TableWalk::InSecondStage { asked, .. } => asked.kind,
            TableWalk::ToGuestEntry { .. } => AccessKind::Read,
            TableWalk::InGuestTable { both, .. } => both.asked.kind,
            TableWalk::ToGuestPage { both, .. } => both.asked.kind,
        }
    }

    /// What is wrong with the entry that the walk loads next, where that stops it: the first that applies.
    pub fn flaw(self, entry: Entry) -> Flaw
        ensures { result ≡ flaw_of (asks_of self) (level_of self) entry }
    {
        match entry {
            Entry::Outside => Flaw::OutsideMemory,
            Entry::Invalid => Flaw::Invalid,
            Entry::Pointer(_) => Flaw::NamesNoTable,
            Entry::Leaf(base, rights) => flaw_of_leaf(base, rights, self.asks(), self.level()),
        }
    }
}

// A walk of tables, where it stands, and what one load makes of it.
ghost use Rattle.std.specs.Prelude.{◌≡◌, ℕ};
ghost use Rattle.iom_base.specs.Sizes.{levels_of};
ghost use Rattle.iom_walk_loads.specs.Tables.{first_walk, second_walk, both_walk};
ghost use Rattle.iom_stepped_walk.specs.Positions.{remains, IsOneLoad};
ghost use Rattle.iom_stepped_walk.specs.declared.tables.TableWalk.TheVariants.{InFirstStage, InSecondStage};

use crate::faults::{guest_page_fault, plain};
use crate::frames::GuestFrames;
use crate::guest::{Both, GuestEntry, GuestPage};
use crate::place::{Place, Step};
use crate::roots::{first_root, second_root};
use iom_base::{AccessKind, Cause, PAGE_SIZE, Ppn, Size};
use iom_phys_mem::Bytes;
use iom_stage_walk::{WalkFault, Walked};

/// The access for which a walk is made.
#[derive(Clone, Copy, PartialEq, Eq)]
pub struct Asked {
    pub address: u64,
    pub kind: AccessKind,
}

/// Where a walk of tables stands between two of its loads.
#[derive(Clone, Copy, PartialEq, Eq)]
pub enum TableWalk {
    /// In a table of a first stage alone.
    InFirstStage {
        asked: Asked,
        place: Place,
    },
    /// In a table of a second stage alone.
    InSecondStage {
        asked: Asked,
        place: Place,
    },
    /// In both stages: in a table of the second, on the way to an entry of a guest's table.
    ToGuestEntry {
        both: Both,
        entry: GuestEntry,
        place: Place,
    },
    /// At that entry, which lies in this frame.
    InGuestTable {
        both: Both,
        entry: GuestEntry,
        frame: u32,
    },
    /// In a table of the second stage, on the way to the page that the guest's tables gave.
    ToGuestPage {
        both: Both,
        page: GuestPage,
        place: Place,
    },
}

/// What one load makes of a walk.
#[derive(Clone, Copy, PartialEq, Eq)]
pub enum Progress {
    /// It goes on, and stands here.
    GoesOn(TableWalk),
    /// It has ended, with the answer of a whole walk.
    Ended(Result<Walked, WalkFault>),
}

/// One load in a first stage alone.
fn load_first<B: Bytes>(memory: &B, asked: Asked, place: Place) -> Progress
    ensures { IsOneLoad (B.frames_of memory.now) (InFirstStage asked place) result }
{
    match place.step(memory, asked.address / PAGE_SIZE, asked.kind) {
        Step::Follow(place) => Progress::GoesOn(TableWalk::InFirstStage { asked, place }),
        Step::Found {
            frame,
            rights,
            level,
        } => Progress::Ended(Ok(Walked {
            frame,
            rights,
            level,
            guest_frames: [None; 4],
        })),
        Step::NoPage => Progress::Ended(Err(plain(Cause::page_fault(asked.kind)))),
        Step::Outside => Progress::Ended(Err(plain(Cause::access_fault(asked.kind)))),
    }
}

/// One load in a second stage alone.
fn load_second<B: Bytes>(memory: &B, asked: Asked, place: Place) -> Progress
    ensures { IsOneLoad (B.frames_of memory.now) (InSecondStage asked place) result }
{
    match place.step(memory, asked.address / PAGE_SIZE, asked.kind) {
        Step::Follow(place) => Progress::GoesOn(TableWalk::InSecondStage { asked, place }),
        Step::Found {
            frame,
            rights,
            level,
        } => Progress::Ended(Ok(Walked {
            frame,
            rights,
            level,
            guest_frames: [None; 4],
        })),
        Step::NoPage => Progress::Ended(Err(guest_page_fault(asked.kind, asked.address, false))),
        Step::Outside => Progress::Ended(Err(plain(Cause::access_fault(asked.kind)))),
    }
}

impl TableWalk {
    /// The walk of a first stage of the size, Sv39 or Sv48, whose root table is at the page `root`. It makes no load
    /// yet: of an address that isn't canonical none at all.
    pub fn begin_first(size: Size, root: Ppn, address: u64, kind: AccessKind) -> Progress
        ensures { (frames : ℕ) → remains frames result ≡ first_walk frames (levels_of size) root.number address kind }
    {
        let asked = Asked { address, kind };
        match first_root(size, root, address) {
            Some(place) => Progress::GoesOn(TableWalk::InFirstStage { asked, place }),
            None => Progress::Ended(Err(plain(Cause::page_fault(kind)))),
        }
    }

    /// The walk of a second stage of the size, Sv39x4 or Sv48x4, whose root table begins at the page `root`. It makes
    /// no load yet: of an address with too many bits none at all.
    pub fn begin_second(size: Size, root: Ppn, address: u64, kind: AccessKind) -> Progress
        ensures { (frames : ℕ) → remains frames result ≡ second_walk frames (levels_of size) root.number address kind }
    {
        let asked = Asked { address, kind };
        match second_root(size, root, address) {
            Some(place) => Progress::GoesOn(TableWalk::InSecondStage { asked, place }),
            None => Progress::Ended(Err(guest_page_fault(kind, address, false))),
        }
    }

    /// The walk of both stages: the first stage's root table is at the guest physical page `first`, the second's begins
    /// at the page `second`; each stage has the size that stands before its root. It makes no load yet.
    pub fn begin_both(
        first_size: Size,
        first: Ppn,
        second_size: Size,
        second: Ppn,
        address: u64,
        kind: AccessKind,
    ) -> Progress
        ensures { (frames : ℕ) → remains frames result
            ≡ both_walk frames (levels_of first_size) (levels_of second_size) first.number second.number address kind }
    {
        let both = Both {
            asked: Asked { address, kind },
            size: second_size,
            second,
        };
        match first_root(first_size, first, address) {
            Some(place) => both.to_entry(GuestEntry {
                table: place.table,
                level: place.level,
                loaded: GuestFrames::none(),
            }),
            None => Progress::Ended(Err(plain(Cause::page_fault(kind)))),
        }
    }

    /// Makes one load more, of 8 bytes, from memory as it is now: where the walk stands then, or how it has ended. What
    /// remains of it is what remained before, after that load.
    pub fn load<B: Bytes>(self, memory: &B) -> Progress
        ensures { IsOneLoad (B.frames_of memory.now) self result }
    {
        match self {
            TableWalk::InFirstStage { asked, place } => load_first(memory, asked, place),
            TableWalk::InSecondStage { asked, place } => load_second(memory, asked, place),
            TableWalk::ToGuestEntry { both, entry, place } => {
                both.load_toward_entry(memory, entry, place)
            }
            TableWalk::InGuestTable { both, entry, frame } => both.load_entry(memory, entry, frame),
            TableWalk::ToGuestPage { both, page, place } => {
                both.load_toward_page(memory, page, place)
            }
        }
    }
}

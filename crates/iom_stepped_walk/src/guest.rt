// A walk in both stages: where it stands on the way to an entry of a guest's table, at that entry, and on the way to the
// page that the guest's tables give.
ghost use Rattle.std.specs.Prelude.{◌≡◌, ◌<◌, ◌+◌, ◌^◌, ℕ, length};
ghost use Rattle.iom_base.specs.Tables.{table_entries};
ghost use Rattle.iom_stage_walk.specs.Both.{rights_of_both};
ghost use Rattle.iom_stepped_walk.specs.Filled.{filled_places};

use crate::faults::{guest_page_fault, plain};
use crate::frames::GuestFrames;
use crate::place::{Place, Step, index_at, judge};
use crate::roots::second_root;
use crate::tables::{Asked, Progress, TableWalk};
use iom_base::{AccessKind, Cause, ENTRY_SIZE, PAGE_SIZE, Ppn, Rights, Size};
use iom_phys_mem::Bytes;
use iom_stage_walk::{Entry, Walked, entry_at};

/// What a walk in both stages is for, and the second stage.
#[derive(Clone, Copy, PartialEq, Eq)]
pub struct Both {
    pub(crate) asked: Asked,
    /// The size of the second stage's tables.
    pub(crate) size: Size,
    /// The page in which the second stage's root begins.
    pub(crate) second: Ppn,
}

/// An entry of a guest's table.
#[derive(Clone, Copy, PartialEq, Eq)]
pub struct GuestEntry {
    /// The guest physical page of the table.
    pub(crate) table: Ppn,
    /// The level of the table: 0 where its entries are those of pages, up to 3.
    pub(crate) level: u32,
    /// The frames from which entries of the guest's tables were loaded before.
    pub(crate) loaded: GuestFrames,
    ghost room: { length (filled_places loaded.frames) + level < 4 },
}

/// What the guest's tables give.
#[derive(Clone, Copy, PartialEq, Eq)]
pub struct GuestPage {
    /// A guest physical page.
    pub(crate) number: u64,
    /// What the first stage allows there.
    pub(crate) rights: Rights,
    /// How many levels are below the first stage's leaf.
    pub(crate) level: u8,
    /// The frames from which the entries of the guest's tables were loaded.
    pub(crate) loaded: GuestFrames,
    ghost in_range: { number < 2 ^ 45 },
}

/// RW where both stages give it, else R.
fn both_rights(first: Rights, second: Rights) -> Rights
    ensures { result ≡ rights_of_both first second }
{
    if first.allows(AccessKind::Write) && second.allows(AccessKind::Write) {
        Rights::RW
    } else {
        Rights::R
    }
}

impl GuestEntry {
    ghost use Rattle.iom_stepped_walk.specs.Positions.{entry_index, address_of, NamesBelow};

    /// The index in the table of the address for which the walk is made.
    pub(crate) fn index(self, address: u64) -> u16
        ensures value { result ≡ entry_index self address }
        ensures small { result < table_entries }
    {
        index_at(false, self.level, address / PAGE_SIZE)
    }

    /// The guest physical address of the entry.
    pub(crate) fn guest_address(self, address: u64) -> u64
        ensures { result ≡ address_of self address }
    {
        PAGE_SIZE * self.table.number() + ENTRY_SIZE * u64::from(self.index(address))
    }

    /// The entry in the table that this one names, where it was loaded from the frame. None at level 0.
    fn below(self, frame: u32, next: u64) -> Option<GuestEntry>
        requires { next < 2 ^ 44 }
        ensures { NamesBelow self frame next result }
    {
        if self.level == 0 {
            return None;
        }
        Some(GuestEntry {
            table: Ppn::new(next).unwrap(),
            level: self.level - 1,
            loaded: self.loaded.with(frame),
        })
    }
}

impl GuestPage {
    ghost use Rattle.iom_stage_walk.specs.Both.{guest_address};

    /// The guest physical address in the page of the address for which the walk is made.
    pub(crate) fn guest_address(self, address: u64) -> u64
        ensures { result ≡ guest_address self.number address }
    {
        PAGE_SIZE * self.number + address % PAGE_SIZE
    }
}

impl Both {
    ghost use Rattle.std.specs.Prelude.{Err, ◌++◌, ◌∷◌, []};
    ghost use Rattle.iom_base.specs.Causes.{page_fault_of};
    ghost use Rattle.iom_base.specs.Tables.{access_fault_of};
    ghost use Rattle.iom_stage_walk.specs.Both.{plain};
    ghost use Rattle.iom_stepped_walk.specs.declared.tables.Progress.TheVariants.{Ended};
    ghost use Rattle.iom_stage_walk.specs.Entries.{IsBounded};
    ghost use Rattle.iom_walk_loads.specs.Tables.{guest_down, page_walk, at_guest_entry};
    ghost use Rattle.iom_stepped_walk.specs.Positions.{in_both, indices_of_entry, entries_below, remains, IsOneLoad};
    ghost use Rattle.iom_stepped_walk.specs.declared.tables.TableWalk.TheVariants.{ToGuestEntry, InGuestTable, ToGuestPage};

    /// To an entry of a guest's table, and down from there.
    pub(crate) fn to_entry(self, entry: GuestEntry) -> Progress
        ensures { (frames : ℕ) → remains frames result
            ≡ guest_down (in_both frames self) (filled_places entry.loaded.frames) entry.table.number (indices_of_entry entry self.asked.address) }
    {
        let guest = entry.guest_address(self.asked.address);
        match second_root(self.size, self.second, guest) {
            Some(place) => Progress::GoesOn(TableWalk::ToGuestEntry {
                both: self,
                entry,
                place,
            }),
            None => Progress::Ended(Err(guest_page_fault(self.asked.kind, guest, true))),
        }
    }

    /// To the page that the guest's tables give.
    fn to_page(self, page: GuestPage) -> Progress
        ensures { (frames : ℕ) → remains frames result
            ≡ page_walk (in_both frames self) (filled_places page.loaded.frames) page.number page.rights page.level }
    {
        let guest = PAGE_SIZE * page.number + self.asked.address % PAGE_SIZE;
        match second_root(self.size, self.second, guest) {
            Some(place) => Progress::GoesOn(TableWalk::ToGuestPage {
                both: self,
                page,
                place,
            }),
            None => Progress::Ended(Err(guest_page_fault(self.asked.kind, guest, false))),
        }
    }

    /// The first stage's page fault.
    fn page_fault(self) -> Progress
        ensures { result ≡ Ended (Err (plain (page_fault_of self.asked.kind))) }
    {
        Progress::Ended(Err(plain(Cause::page_fault(self.asked.kind))))
    }

    /// An access fault.
    fn access_fault(self) -> Progress
        ensures { result ≡ Ended (Err (plain (access_fault_of self.asked.kind))) }
    {
        Progress::Ended(Err(plain(Cause::access_fault(self.asked.kind))))
    }

    /// What the entry of a guest's table makes of the walk, where it was loaded from the frame.
    fn after_entry(self, entry: GuestEntry, frame: u32, given: Entry) -> Progress
        requires { IsBounded given }
        ensures { (frames : ℕ) → remains frames result
            ≡ at_guest_entry (in_both frames self) (filled_places entry.loaded.frames ++ frame ∷ []) (entries_below entry self.asked.address)
            (λ next. guest_down (in_both frames self) (filled_places entry.loaded.frames ++ frame ∷ []) next (entries_below entry self.asked.address)) given }
    {
        let asked = self.asked;
        match given {
            Entry::Pointer(next) => match entry.below(frame, next) {
                Some(entry) => self.to_entry(entry),
                None => self.page_fault(),
            },
            Entry::Leaf(base, rights) => {
                match judge(
                    asked.kind,
                    base,
                    rights,
                    entry.level,
                    asked.address / PAGE_SIZE,
                ) {
                    Some(number) => self.to_page(GuestPage {
                        number,
                        rights,
                        level: entry.level as u8,
                        loaded: entry.loaded.with(frame),
                    }),
                    None => self.page_fault(),
                }
            }
            Entry::Invalid => self.page_fault(),
            Entry::Outside => self.access_fault(),
        }
    }

    /// One load of the entry of a guest's table, which lies in the frame.
    pub(crate) fn load_entry<B: Bytes>(self, memory: &B, entry: GuestEntry, frame: u32) -> Progress
        ensures { IsOneLoad (B.frames_of memory.now) (InGuestTable self entry frame) result }
    {
        let given = entry_at(memory, u64::from(frame), entry.index(self.asked.address));
        self.after_entry(entry, frame, given)
    }

    /// One load in the second stage, on the way to an entry of a guest's table.
    pub(crate) fn load_toward_entry<B: Bytes>(
        self,
        memory: &B,
        entry: GuestEntry,
        place: Place,
    ) -> Progress
        ensures { IsOneLoad (B.frames_of memory.now) (ToGuestEntry self entry place) result }
    {
        let guest = entry.guest_address(self.asked.address);
        match place.step(memory, guest / PAGE_SIZE, AccessKind::Read) {
            Step::Follow(place) => Progress::GoesOn(TableWalk::ToGuestEntry {
                both: self,
                entry,
                place,
            }),
            Step::Found { frame, .. } => Progress::GoesOn(TableWalk::InGuestTable {
                both: self,
                entry,
                frame,
            }),
            Step::NoPage => Progress::Ended(Err(guest_page_fault(self.asked.kind, guest, true))),
            Step::Outside => self.access_fault(),
        }
    }

    /// One load in the second stage, on the way to the page that the guest's tables gave.
    pub(crate) fn load_toward_page<B: Bytes>(
        self,
        memory: &B,
        page: GuestPage,
        place: Place,
    ) -> Progress
        ensures { IsOneLoad (B.frames_of memory.now) (ToGuestPage self page place) result }
    {
        let guest = PAGE_SIZE * page.number + self.asked.address % PAGE_SIZE;
        match place.step(memory, guest / PAGE_SIZE, self.asked.kind) {
            Step::Follow(place) => Progress::GoesOn(TableWalk::ToGuestPage {
                both: self,
                page,
                place,
            }),
            Step::Found { frame, rights, .. } => Progress::Ended(Ok(Walked {
                frame,
                rights: both_rights(page.rights, rights),
                level: page.level,
                guest_frames: page.loaded.places(),
            })),
            Step::NoPage => Progress::Ended(Err(guest_page_fault(self.asked.kind, guest, false))),
            Step::Outside => self.access_fault(),
        }
    }
}

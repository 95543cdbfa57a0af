ghost use Rattle.std.specs.Prelude.{◌≡◌, ◌+◌, ◌<◌, ◌^◌, option_map, ◌↔◌, IsTrue};
ghost use Rattle.std.specs.List.{position};
ghost use Rattle.iom_fabric.specs.declared.message.Range.TheVariants.{Page};
ghost use Rattle.iom_ats_cache.specs.Cache.{empty_cache, range_covers, entry_for_page, outside, with_entry, frame_for, AreOfDistinctPages, AreEntries};
ghost use Rattle.iom_ats_cache.specs.Calls.{AsksInEpoch, TakesAnswer, Invalidates, ResetsCache};

use crate::entry::Entry;
use crate::taken::Taken;
use arrayvec::ArrayVec;
use iom_base::AccessKind;
use iom_fabric::{Message, PageNumber, Range, Translation};
use std::marker::Model;

/// The most pages of which a device keeps a translation.
pub const MAX_ENTRIES: usize = 32;

/// The address translation cache of a device, seen as its epoch and its entries, the oldest first.
#[derive(Drop)]
pub struct Atc {
    epoch: u64,
    entries: ArrayVec<Entry, MAX_ENTRIES>,
}

impl Model for Atc {
    ghost use Rattle.iom_ats_cache.specs.Cache.{Cache, AreOfDistinctPages};

    ghost Value = { Cache };

    ghost view = { λ atc. record { epoch = atc.epoch; entries = atc.entries.items } };

    ghost invariant = { λ atc. AreOfDistinctPages atc.entries.items };
}

// The entry of the page. The newest are looked at first: what was just answered is what is used next.
fn entry_of(entries: &[Entry], page: PageNumber) -> Option<&Entry>
    requires { AreOfDistinctPages entries.now }
    ensures { option_map (λ entry. entry.now) result ≡ entry_for_page entries.now page }
{
    for place in (0..entries.len()).rev() {
        if entries[place].page == page {
            return Some(&entries[place]);
        }
    }
    None
}

// The place of the page's entry.
fn place_of(entries: &[Entry], page: PageNumber) -> Option<usize>
    ensures { result ≡ position (λ entry. range_covers (Page page) entry.page) entries.now }
{
    entries.iter().position(|entry| page == entry.page)
}

// Takes out the page's entry, of which there is at most one; the others stay in their order.
fn take_page(entries: &mut ArrayVec<Entry, MAX_ENTRIES>, page: PageNumber)
    requires { AreOfDistinctPages entries.old.items }
    ensures { entries.new.items ≡ outside (Page page) entries.old.items }
{
    if let Some(place) = place_of(entries.as_slice(), page) {
        entries.remove(place);
    }
}

// Takes out the entries of the pages that are covered; the others stay in their order.
fn take_out(entries: &mut ArrayVec<Entry, MAX_ENTRIES>, range: Range)
    requires { AreOfDistinctPages entries.old.items }
    ensures left { entries.new.items ≡ outside range entries.old.items }
    ensures distinct { AreOfDistinctPages entries.old.items → AreOfDistinctPages entries.new.items }
{
    match range {
        Range::Page(page) => take_page(entries, page),
        Range::Everything => entries.clear(),
    }
}

// Puts an entry last, in place of its page's old one. Where there are 32 others the oldest goes out.
fn keep(entries: &mut ArrayVec<Entry, MAX_ENTRIES>, entry: Entry)
    requires { AreOfDistinctPages entries.old.items }
    ensures kept { entries.new.items ≡ with_entry entries.old.items entry }
    ensures distinct { AreOfDistinctPages entries.old.items → AreOfDistinctPages entries.new.items }
{
    take_page(entries, entry.page);
    if entries.is_full() {
        entries.remove(0);
    }
    entries.push(entry);
}

impl Atc {
    /// The cache of a device that was never reset: epoch 0, and no entry.
    pub fn new() -> Atc
        ensures { result ≡ empty_cache }
    {
        Atc {
            epoch: 0,
            entries: ArrayVec::new(),
        }
    }

    /// Whether the two are equal: of one epoch, with the same entries in the same order.
    pub fn is_same(&self, other: &Atc) -> bool
        ensures { IsTrue result ↔ (self.now ≡ other.now) }
    {
        if self.epoch != other.epoch {
            return false;
        }
        self.entries.as_slice() == other.entries.as_slice()
    }

    /// How many invalidations and resets there were. It never falls.
    pub fn epoch(&self) -> u64
        ensures { result ≡ self.now.epoch }
    {
        self.epoch
    }

    /// What it has, the oldest first.
    pub fn entries(&self) -> &[Entry]
        ensures { result.now ≡ self.now.entries }
    {
        self.entries.as_slice()
    }

    /// The frame for an access of this kind to the page: that of the page's entry. None exactly where there is
    /// none, or its right doesn't allow the kind.
    pub fn look(&self, page: PageNumber, kind: AccessKind) -> Option<u32>
        ensures found { result ≡ frame_for self.now page kind }
        ensures entries { AreEntries self.now.entries }
    {
        let entry = entry_of(self.entries.as_slice(), page)?;
        if entry.rights.allows(kind) {
            Some(entry.frame)
        } else {
            None
        }
    }

    /// The question for the translation of a page (section 10.2, Translation Request). It carries the epoch. Its
    /// answer is for [`Atc::answer`].
    pub fn ask(&self, page: PageNumber) -> Message
        ensures { AsksInEpoch self.now page result }
    {
        Message::Ask {
            epoch: self.epoch,
            page,
        }
    }

    /// Takes the answer to a question of this epoch for a page (section 10.2, Translation Completion).
    ///
    /// It is stale exactly where the epoch isn't the device's: an invalidation or a reset has come in between, and
    /// the answer may tell what held before it. It is refused exactly where it is of the device's epoch and says
    /// that there is no translation. In both cases nothing changes. Else it is kept: it goes last, in place of the
    /// page's old entry, and where there are 32 others the oldest goes out.
    pub fn answer(&mut self, epoch: u64, page: PageNumber, translation: Translation) -> Taken
        ensures { TakesAnswer self.old epoch page translation result self.new }
    {
        if epoch != self.epoch {
            return Taken::Stale;
        }
        match translation {
            Translation::Page { frame, rights } => {
                let entry = Entry {
                    page,
                    frame,
                    rights,
                };
                keep(&mut self.entries, entry);
                Taken::Kept
            }
            Translation::Refused(_) => Taken::Refused,
        }
    }

    /// Drops what is covered, and nothing else, as the request of this number asks (section 10.3, Invalidate
    /// Request). Gives the word that it is done (Invalidate Completion), which repeats the number.
    ///
    /// The epoch rises by one, also where nothing was covered: an answer for the page may be under way. It has to be
    /// below its last value, 2^64 - 1.
    pub fn invalidate(&mut self, serial: u64, range: Range) -> Message
        requires { self.old.epoch + 1 < 2 ^ 64 }
        ensures { Invalidates self.old serial range result self.new }
    {
        take_out(&mut self.entries, range);
        self.epoch += 1;
        Message::InvDone { serial }
    }

    /// Drops everything: the device is reset. The epoch rises by one and doesn't begin again, since answers to
    /// questions of before the reset may be under way. It has to be below its last value, 2^64 - 1.
    pub fn reset(&mut self)
        requires { self.old.epoch + 1 < 2 ^ 64 }
        ensures { ResetsCache self.old self.new }
    {
        self.entries.clear();
        self.epoch += 1;
    }
}

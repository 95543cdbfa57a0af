// A set of the cache: eight ways, side by side.
ghost use Rattle.std.specs.Prelude.{◌≡◌, ◌<◌, ◌%◌, ◌↔◌, ℕ, true, false, IsTrue, IfSome, Some, get_or};
ghost use Rattle.iom_tlb.specs.Content.{Sets, DropsWhere, HasNothing};
ghost use Rattle.iom_tlb.specs.Covers.{covers};
ghost use Rattle.iom_tlb.specs.declared.cached_page.CachedPage.{CachedPage};
ghost use Rattle.iom_tlb.specs.Places.{IsInWay, HasWays};
ghost use Rattle.iom_tlb.specs.Entries.{has_key};
ghost use Rattle.iom_tlb.specs.Ways.{is_space, space_word, in_set};
ghost use Rattle.iom_tlb.specs.WayCalls.{AreAtHome, TakesWay, PutsWay, Empties, OnlyEmptied};
ghost use Rattle.iom_tlb.specs.declared.space.Space.{Space};

use crate::cached_page::CachedPage;
use crate::cover::Cover;
use crate::lanes::{are_same_lanes, find_way};
use crate::space::Space;
use crate::trans_cache::Translation;
use crate::words::{space_of, space_word};
use iom_base::Rights;
use std::marker::Model;

/// Ways of a set.
pub(crate) const WAYS: usize = 8;

/// What stands in an empty way. Nothing reads it.
const NO_TRANSLATION: Translation = Translation {
    frame: 0,
    rights: Rights::R,
    order: 0,
};

/// Eight ways, each with a translation or empty. No two have the same page of the same address space.
#[derive(Drop)]
pub(crate) struct WaySet {
    /// The words of the address spaces; 0 is an empty way.
    spaces: [u64; WAYS],
    pages: [u64; WAYS],
    translations: [Translation; WAYS],
    /// The way that a new key takes where none is empty.
    next: usize,
}

impl Model for WaySet {
    ghost use Rattle.iom_tlb.specs.Ways.{Ways};

    ghost Value = { Ways };

    ghost use Rattle.iom_tlb.specs.WayCalls.{AreWays};

    ghost view = { λ s. record {
      spaces = s.spaces;
      pages = s.pages;
      translations = s.translations;
      next = s.next;
    } };

    ghost invariant = { λ s. AreWays (record {
      spaces = s.spaces;
      pages = s.pages;
      translations = s.translations;
      next = s.next;
    }) };
}

/// The way that a new key takes: the lowest that is empty, else the one at the counter, which then goes on.
fn take_way(spaces: &[u64; WAYS], next: &mut usize) -> usize
    requires { next.old < 8 }
    ensures { TakesWay spaces.now next.old result next.new }
{
    // An empty way is one whose word is 0.
    if let Some(way) = find_way(spaces, spaces, 0, 0) {
        return way;
    }
    let way = *next;
    *next = (way + 1) % WAYS;
    way
}

/// Whether the translation of a page of the address space with this word is covered. An empty way's isn't.
fn is_covered(cover: &Cover, word: u64, page: u64, cached: Translation) -> bool
    ensures covered { (space : Space) → is_space space ≡ true → space_word space ≡ word
        → result ≡ covers cover.now (space, page) cached }
    ensures empty { word ≡ 0 → result ≡ false }
{
    match space_of(word) {
        Some(space) => cover.covers(space, page, cached),
        None => false,
    }
}

/// Whether all ways are empty.
#[inline(always)]
fn is_empty(spaces: &[u64; WAYS]) -> bool
    ensures { IsTrue result → (way : ℕ) → get_or spaces.now way 0 ≡ 0 }
{
    are_same_lanes(spaces, &[0; WAYS])
}

/// Empties each way whose translation is covered.
fn empty_covered(
    spaces: &mut [u64; WAYS],
    pages: &[u64; WAYS],
    translations: &[Translation; WAYS],
    cover: &Cover,
)
    ensures { Empties (covers cover.now) pages.now translations.now spaces.old spaces.new }
{
    // Most sets of a cache that is hardly used are empty.
    if is_empty(spaces) {
        return;
    }
    for way in 0..WAYS {
        if is_covered(cover, spaces[way], pages[way], translations[way]) {
            spaces[way] = 0;
        }
    }
}

/// Whether the same translations stand in both, way by way.
fn are_same_translations(one: &[Translation; WAYS], other: &[Translation; WAYS]) -> bool
    ensures { IsTrue result ↔ (one.now ≡ other.now) }
{
    one == other
}

impl WaySet {
    /// Eight empty ways, the lowest at the counter.
    pub(crate) fn new() -> WaySet
        ensures nothing { HasNothing (in_set result) }
        ensures home { (number : ℕ) → AreAtHome number result }
        ensures counter { result.next ≡ 0 }
    {
        WaySet {
            spaces: [0; WAYS],
            pages: [0; WAYS],
            translations: [NO_TRANSLATION; WAYS],
            next: 0,
        }
    }

    /// The translation of a page of an address space, if a way has it.
    pub(crate) fn look(&self, space: Space, page: u64) -> Option<Translation>
        ensures { result ≡ in_set self.now (space, page) }
    {
        let way = find_way(&self.spaces, &self.pages, space_word(space), page)?;
        Some(self.translations[way])
    }

    /// That all that it has stands in a way. It does nothing.
    pub(crate) fn facts(&self)
        ensures { HasWays self.now }
    {
        let _next = &self.next;
    }

    /// Whether both have the same in each way, and the same counter. What an empty way had counts too.
    pub(crate) fn is_same(&self, other: &WaySet) -> bool
        ensures { IsTrue result ↔ (self.now ≡ other.now) }
    {
        self.next == other.next
            && are_same_lanes(&self.spaces, &other.spaces)
            && are_same_lanes(&self.pages, &other.pages)
            && are_same_translations(&self.translations, &other.translations)
    }

    /// What a way has.
    pub(crate) fn page_at(&self, way: usize) -> Option<CachedPage>
        requires { way < 8 }
        ensures cached { IfSome result (λ cached. IsInWay self.now way cached × (in_set self.now (cached.space, cached.page) ≡ Some cached.translation)) }
        ensures stands { (cached : CachedPage) → IsInWay self.now way cached → result ≡ Some cached }
    {
        let space = space_of(self.spaces[way])?;
        Some(CachedPage {
            space,
            page: self.pages[way],
            translation: self.translations[way],
        })
    }

    /// Keeps a translation in the way that has its page, or takes a way for it.
    pub(crate) fn keep(&mut self, space: Space, page: u64, translation: Translation)
        ensures kept { Sets (in_set self.old) (space, page) translation (in_set self.new) }
        ensures put { PutsWay self.old (space_word space) page translation self.new }
        ensures home { AreAtHome (page % 64) self.old → AreAtHome (page % 64) self.new }
    {
        let word = space_word(space);
        let way = match find_way(&self.spaces, &self.pages, word, page) {
            Some(way) => way,
            None => take_way(&self.spaces, &mut self.next),
        };
        self.spaces[way] = word;
        self.pages[way] = page;
        self.translations[way] = translation;
    }

    /// Empties the way that has the page of the address space.
    pub(crate) fn drop_key(&mut self, space: Space, page: u64)
        ensures dropped { DropsWhere (has_key (space, page)) (in_set self.old) (in_set self.new) }
        ensures home { (number : ℕ) → AreAtHome number self.old → AreAtHome number self.new }
        ensures emptied { OnlyEmptied self.old self.new }
    {
        if let Some(way) = find_way(&self.spaces, &self.pages, space_word(space), page) {
            self.spaces[way] = 0;
        }
    }

    /// Empties each way whose translation is covered.
    pub(crate) fn drop_where(&mut self, cover: &Cover)
        ensures dropped { DropsWhere (covers cover.now) (in_set self.old) (in_set self.new) }
        ensures home { (number : ℕ) → AreAtHome number self.old → AreAtHome number self.new }
        ensures emptied { OnlyEmptied self.old self.new }
    {
        empty_covered(&mut self.spaces, &self.pages, &self.translations, cover);
    }

    /// Empties all ways. The counter stays.
    pub(crate) fn drop_all(&mut self)
        ensures nothing { HasNothing (in_set self.new) }
        ensures home { (number : ℕ) → AreAtHome number self.new }
        ensures emptied { OnlyEmptied self.old self.new }
    {
        self.spaces = [0; WAYS];
    }
}

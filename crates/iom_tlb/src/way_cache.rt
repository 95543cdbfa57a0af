ghost use Rattle.std.specs.Prelude.{◌≡◌, ◌<◌, ◌%◌, ◌↔◌, ℕ, true, IfOk, IsTrue, IfSome, Some, length, get_or};
ghost use Rattle.iom_tlb.specs.Content.{Key, TranslationsUnchanged, Keeps, DropsWhere, HasNothing};
ghost use Rattle.iom_tlb.specs.Covers.{covers};
ghost use Rattle.iom_tlb.specs.declared.trans_cache.Translation.{Translation};
ghost use Rattle.iom_tlb.specs.Ways.{in_set, no_ways, content_of_sets};
ghost use Rattle.iom_tlb.specs.declared.cached_page.CachedPage.{CachedPage};
ghost use Rattle.iom_tlb.specs.Places.{IsCached, IsCachedAt, HavePlaces};
ghost use Rattle.iom_tlb.specs.WayCalls.{AreSets, AreAtHome, AreCountersAtZero, AreOnlyEmptied, PutsInSet};

use crate::cached_page::CachedPage;
use crate::cover::Cover;
use crate::large_leaves::LargeLeaves;
use crate::space::Space;
use crate::trans_cache::{TransCache, Translation};
use crate::way_set::{WAYS, WaySet};
use std::alloc::{AllocError, Global};
use std::marker::Model;

/// Sets of a cache.
const SETS: usize = 64;

/// Places of a cache, one for each way of each set.
pub const PLACES: usize = SETS * WAYS;

/// A cache of 64 sets of eight ways, seen as the list of its sets. A page is in the set of its number modulo 64.
/// A new page takes the lowest empty way of its set. Where none is empty it takes the way at the counter of the
/// set, which begins at 0 and then goes on by one modulo 8. Drops don't touch the counters: also after a drop of all
/// the counter says which way goes first once the set is full again.
///
/// It takes all its memory when it is made, so each keep keeps.
#[derive(Drop)]
pub struct WayCache {
    sets: Vec<WaySet>,
    /// Where none may be, the page that a cover names is in one set.
    large: LargeLeaves,
}

impl Model for WayCache {
    ghost use Rattle.std.specs.Prelude.{List};
    ghost use Rattle.iom_tlb.specs.Ways.{Ways};
    ghost use Rattle.iom_tlb.specs.WayCalls.{IsWayCache};

    ghost Value = { List Ways };

    ghost view = { λ cache. cache.sets.items };

    ghost invariant = { λ cache. IsWayCache cache.sets.items cache.large };
}

/// The number of the set of a page.
fn set_of(page: u64) -> usize
    ensures { result ≡ page % 64 }
{
    (page % SETS as u64) as usize
}

/// Sets without translations, the counters at 0.
fn new_sets(alloc: Global) -> Result<Vec<WaySet>, AllocError>
    ensures as_many { IfOk result (λ sets. length sets.items ≡ 64) }
    ensures nothing { IfOk result (λ sets. (number : ℕ)
        → HasNothing (in_set (get_or sets.items number no_ways))) }
    ensures home { IfOk result (λ sets. (number : ℕ)
        → AreAtHome number (get_or sets.items number no_ways)) }
    ensures counters { IfOk result (λ sets. AreCountersAtZero sets.items) }
{
    let mut sets = Vec::with_capacity(alloc, SETS)?;
    for made in 0..SETS {
        sets.push(WaySet::new())?;
    }
    Ok(sets)
}

/// Whether both have as many sets, the same one by one.
fn are_same_sets(one: &[WaySet], other: &[WaySet]) -> bool
    ensures { IsTrue result ↔ (one.now ≡ other.now) }
{
    if one.len() != other.len() {
        return false;
    }
    for number in 0..one.len() {
        if !one[number].is_same(&other[number]) {
            return false;
        }
    }
    true
}

/// Empties each way whose translation is covered, in every set.
fn drop_in_all(sets: &mut [WaySet], cover: &Cover)
    ensures dropped { (number : ℕ) → number < length sets.old → DropsWhere (covers cover.now)
        (in_set (get_or sets.old number no_ways)) (in_set (get_or sets.new number no_ways)) }
    ensures home { (number : ℕ) → AreAtHome number (get_or sets.old number no_ways)
        → AreAtHome number (get_or sets.new number no_ways) }
    ensures emptied { AreOnlyEmptied sets.old sets.new }
{
    for number in 0..sets.len() {
        let set = &mut sets[number];
        set.drop_where(cover);
    }
}

/// Empties each way whose translation is covered, where all that are came from leaves of 4 KiB: those of the page that
/// the cover names are in one set.
#[inline(always)]
fn drop_small(sets: &mut [WaySet], cover: &Cover)
    requires invariants { AreSets sets.old }
    requires small { (key : Key) (cached : Translation) → content_of_sets sets.old key ≡ Some cached
        → covers cover.now key cached ≡ true → cached.order ≡ 0 }
    ensures dropped { DropsWhere (covers cover.now) (content_of_sets sets.old) (content_of_sets sets.new) }
    ensures invariants { AreSets sets.new }
    ensures emptied { AreOnlyEmptied sets.old sets.new }
{
    if let Some((space, page)) = cover.only_key() {
        let set = &mut sets[set_of(page)];
        set.drop_key(space, page);
    } else if let Some(page) = cover.only_page() {
        let set = &mut sets[set_of(page)];
        set.drop_where(cover);
    } else {
        drop_in_all(sets, cover);
    }
}

/// Empties all ways of all sets.
fn empty_all(sets: &mut [WaySet])
    ensures nothing { (number : ℕ) → HasNothing (in_set (get_or sets.new number no_ways)) }
    ensures home { (number : ℕ) → AreAtHome number (get_or sets.new number no_ways) }
    ensures emptied { AreOnlyEmptied sets.old sets.new }
{
    for number in 0..sets.len() {
        let set = &mut sets[number];
        set.drop_all();
    }
}

impl WayCache {
    /// A cache that has nothing, with all the memory that it ever takes.
    pub fn new(alloc: Global) -> Result<WayCache, AllocError>
        ensures nothing { IfOk result (λ cache. HasNothing (content_of_sets cache)) }
        ensures counters { IfOk result AreCountersAtZero }
    {
        let sets = new_sets(alloc)?;
        Ok(WayCache {
            sets,
            large: LargeLeaves::none(),
        })
    }

    /// That all that it has stands at a place. It does nothing.
    pub fn facts(&self)
        ensures { HavePlaces self.now }
    {
        for number in 0..SETS {
            let set = &self.sets[number];
            set.facts();
        }
    }

    /// What stands at a place: there is one for each way of each set. It changes nothing.
    pub fn page_at(&self, place: usize) -> Option<CachedPage>
        requires { place < 512 }
        ensures cached { IfSome result (IsCached self.now) }
        ensures stands { (cached : CachedPage) → IsCachedAt self.now place cached → result ≡ Some cached }
    {
        let set = &self.sets[place / WAYS];
        set.page_at(place % WAYS)
    }
}

impl TransCache for WayCache {
    const SURE: bool = true;

    ghost SURE = { true };

    ghost content = { content_of_sets };

    fn is_same(&self, other: &WayCache) -> bool {
        are_same_sets(&self.sets, &other.sets)
    }

    fn look(&mut self, space: Space, page: u64) -> Option<Translation>
        ensures found { result ≡ content_of_sets self.old (space, page) }
        ensures unchanged { TranslationsUnchanged (content_of_sets self.old) (content_of_sets self.new) }
        ensures stays { self.new ≡ self.old }
    {
        let set = &self.sets[set_of(page)];
        set.look(space, page)
    }

    fn keep(&mut self, space: Space, page: u64, translation: Translation)
        ensures kept { Keeps true (content_of_sets self.old) (space, page) translation (content_of_sets self.new) }
        ensures put { PutsInSet self.old (space, page) translation self.new }
    {
        let set = &mut self.sets[set_of(page)];
        set.keep(space, page, translation);
        self.large.note_kept(space, translation.order);
    }

    // Written into the fetch of a command, where it is known which of the covers it is.
    #[inline(always)]
    fn drop_where(&mut self, cover: &Cover)
        ensures dropped { DropsWhere (covers cover.now) (content_of_sets self.old) (content_of_sets self.new) }
        ensures emptied { AreOnlyEmptied self.old self.new }
    {
        if self.large.may_be_among(cover) {
            drop_in_all(&mut self.sets, cover);
        } else {
            drop_small(&mut self.sets, cover);
        }
    }

    fn drop_all(&mut self)
        ensures empty { HasNothing (content_of_sets self.new) }
        ensures emptied { AreOnlyEmptied self.old self.new }
    {
        empty_all(&mut self.sets);
        self.large = LargeLeaves::none();
    }
}

ghost use Rattle.std.specs.Prelude.{◌≡◌, [], IfOk, false};
ghost use Rattle.iom_tlb.specs.Content.{HasNothing, TranslationsUnchanged, Keeps, DropsWhere};
ghost use Rattle.iom_tlb.specs.Covers.{covers};
ghost use Rattle.iom_tlb.specs.Entries.{content_of, after_look, KeepsInOrder, after_drop};

use crate::cover::Cover;
use crate::entries;
use crate::space::Space;
use crate::trans_cache::{TransCache, Translation};
use lru::LruCache;
use std::alloc::{AllocError, Global};
use std::marker::Model;
use std::num::NonZeroUsize;

/// The most translations that a [`PlainCache`] has.
pub const MAX_TRANSLATIONS: usize = 64;

/// A cache of 64 translations, seen as the list of them, the most recently used first. Where it is full a new one
/// takes out the least recently used. Beside what each cache does, each call says what becomes of that list (`order`).
///
/// A keep of a new page takes memory, and keeps nothing where there is none. No other call takes any.
#[derive(Drop)]
pub struct PlainCache {
    entries: LruCache<(Space, u64), Translation>,
}

impl Model for PlainCache {
    ghost use Rattle.std.specs.Prelude.{◌≡◌, List};
    ghost use Rattle.iom_tlb.specs.Content.{Key};
    ghost use Rattle.iom_tlb.specs.declared.trans_cache.Translation.{Translation};

    ghost Value = { List (Key × Translation) };

    ghost view = { λ cache. cache.entries.entries };

    ghost invariant = { λ cache. cache.entries.cap ≡ 64 };
}

impl PlainCache {
    /// A cache that has nothing.
    pub fn new(alloc: Global) -> Result<PlainCache, AllocError>
        ensures nothing { IfOk result (λ cache. HasNothing (content_of cache)) }
        ensures order { IfOk result (λ cache. cache ≡ []) }
    {
        let entries = LruCache::new(alloc, NonZeroUsize::new(MAX_TRANSLATIONS).unwrap())?;
        Ok(PlainCache { entries })
    }
}

impl TransCache for PlainCache {
    const SURE: bool = false;

    ghost SURE = { false };

    ghost content = { content_of };

    fn is_same(&self, other: &PlainCache) -> bool {
        entries::are_same(&self.entries, &other.entries)
    }

    fn look(&mut self, space: Space, page: u64) -> Option<Translation>
        ensures found { result ≡ content_of self.old (space, page) }
        ensures unchanged { TranslationsUnchanged (content_of self.old) (content_of self.new) }
        ensures order { self.new ≡ after_look (space, page) self.old }
    {
        entries::find(&mut self.entries, (space, page))
    }

    fn keep(&mut self, space: Space, page: u64, translation: Translation)
        ensures kept { Keeps false (content_of self.old) (space, page) translation (content_of self.new) }
        ensures order { KeepsInOrder self.old (space, page) translation self.new }
    {
        entries::put(&mut self.entries, (space, page), translation);
    }

    fn drop_where(&mut self, cover: &Cover)
        ensures dropped { DropsWhere (covers cover.now) (content_of self.old) (content_of self.new) }
        ensures order { self.new ≡ after_drop (covers cover.now) self.old }
    {
        entries::remove_covered(&mut self.entries, cover);
    }

    fn drop_all(&mut self)
        ensures empty { HasNothing (content_of self.new) }
        ensures order { self.new ≡ [] }
    {
        self.entries.clear();
    }
}

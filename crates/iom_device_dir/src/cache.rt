ghost use Rattle.std.specs.Prelude.{◌≡◌, ◌↔◌, IsTrue};

use crate::context::Context;
use iom_base::DeviceId;
use lru::LruCache;
use std::alloc::{AllocError, Global};
use std::num::NonZeroUsize;

/// How many contexts the cache holds at most.
const CACHED_CONTEXTS: usize = 16;

/// A cache of device contexts (chapter 2, "Caching in-memory data structures"): 16 of them, by device id. Where
/// a seventeenth is kept, that one goes which was looked at or kept the longest ago.
///
/// What it answers is the map `cached_contexts`, from ids to contexts, at first empty. A context is there until
/// it is dropped or another takes its place: the cache never finds out that memory has changed.
#[derive(Drop)]
pub struct DirCache {
    contexts: LruCache<DeviceId, Context>,
    ghost room: { contexts.cap ≡ 16 },
}

// Whether both have the same entries, in the same order of use.
fn have_same_entries(one: &LruCache<DeviceId, Context>, other: &LruCache<DeviceId, Context>) -> bool
    ensures { IsTrue result ↔ (one.now.entries ≡ other.now.entries) }
{
    if one.len() != other.len() {
        return false;
    }
    let mut others = other.iter();
    for (id, context) in one.iter() {
        let Some((other_id, other_context)) = others.next() else {
            return false;
        };
        if *id != *other_id || !context.is_same(other_context) {
            return false;
        }
    }
    true
}

impl DirCache {
    ghost use Rattle.std.specs.Prelude.{◌==◌, [], true, Some, IfOk, IfSome, IsSome};
    ghost use Rattle.iom_device_dir.specs.Contents.{IsEmptyContent, LooksUp, KeepsOne, DropsCovered};
    ghost use Rattle.iom_device_dir.specs.Orders.{without, after_look, KeepsInOrder};
    ghost use Rattle.iom_device_dir.specs.Cached.{contexts_in_order, cached_contexts, last_in};

    /// A cache of nothing, or the want of memory.
    #[tactic(auto, unfolding(crate::specs::Cached::cached_contexts, crate::specs::Cached::contexts_in_order))]
    pub fn new(alloc: Global) -> Result<DirCache, AllocError>
        ensures empty { IfOk result (λ cache. IsEmptyContent (cached_contexts cache)) }
        ensures order { IfOk result (λ cache. contexts_in_order cache ≡ []) }
    {
        let capacity = NonZeroUsize::new(CACHED_CONTEXTS).unwrap();
        Ok(DirCache {
            contexts: LruCache::new(alloc, capacity)?,
        })
    }

    /// The context that is cached for the device. Which one goes next stays as it is.
    #[tactic(auto, unfolding(crate::specs::Cached::cached_contexts, crate::specs::Cached::contexts_in_order))]
    pub fn peek(&self, id: DeviceId) -> Option<Context>
        ensures { result ≡ cached_contexts self.now id }
    {
        self.contexts.peek(&id).copied()
    }

    /// The context of the device, where of those that are cached it was the last that was looked at or kept: then it
    /// stands where a look would put it. None where another one was, though one may be cached for the device.
    #[inline(always)]
    #[tactic(auto, unfolding(crate::specs::Cached::cached_contexts, crate::specs::Cached::contexts_in_order, crate::specs::Cached::last_in))]
    pub fn last_used(&self, id: DeviceId) -> Option<&Context>
        ensures cached { IfSome result (λ context. cached_contexts self.now id ≡ Some context.now) }
        ensures last { IsSome result ↔ (last_in self.now ≡ Some id) }
    {
        let (last, context) = self.contexts.peek_mru()?;
        if *last == id { Some(context) } else { None }
    }

    /// The context that is cached for the device, by a search.
    // On its own, so that the look at the last one is short enough to be written into its callers.
    #[inline(never)]
    #[tactic(auto, using(crate::proofs::CachedIds::looked), unfolding(crate::specs::Cached::cached_contexts, crate::specs::Cached::contexts_in_order))]
    fn search(&mut self, id: DeviceId) -> Option<Context>
        ensures looked { LooksUp (cached_contexts self.old) id result (cached_contexts self.new) }
        ensures order { contexts_in_order self.new ≡ after_look id (contexts_in_order self.old) }
    {
        let _ = self.contexts.len();
        let found = self.contexts.peek(&id).copied();
        self.contexts.promote(&id);
        found
    }

    /// The context that is cached for the device, which is now the last that was looked at. Nothing else changes
    /// but which goes next.
    #[inline(always)]
    pub fn look(&mut self, id: DeviceId) -> Option<Context>
        ensures looked { LooksUp (cached_contexts self.old) id result (cached_contexts self.new) }
        ensures order { contexts_in_order self.new ≡ after_look id (contexts_in_order self.old) }
    {
        // Its contract says that the keys are distinct, here, above and below.
        let _ = self.contexts.len();
        // A device that makes one request after another is found without a search.
        if let Some(context) = self.last_used(id) {
            return Some(*context);
        }
        self.search(id)
    }

    /// Caches the context for the device, in place of its old one. Of the others all stay, or where sixteen are
    /// cached and the device has none, all but the one that was looked at or kept the longest ago. Where none is
    /// cached for the device yet, and there is no memory for it, nothing changes and nobody is told: the next look
    /// finds none.
    pub fn keep(&mut self, id: DeviceId, context: Context)
        ensures kept { KeepsOne (cached_contexts self.old) id context (cached_contexts self.new) }
        ensures order { KeepsInOrder (contexts_in_order self.old) id context (contexts_in_order self.new) }
    {
        let _ = self.contexts.len();
        let _ = self.contexts.put(id, context);
    }

    /// Whether both have the same contexts of the same devices, in the same order of use. It changes nothing.
    pub fn is_same(&self, other: &DirCache) -> bool
        ensures { IsTrue result ↔ (self.now ≡ other.now) }
    {
        have_same_entries(&self.contexts, &other.contexts)
    }

    /// Drops the context of the device alone (IODIR.INVAL_DDT with DV).
    #[tactic(auto, using(crate::proofs::CachedIds::dropped), unfolding(crate::specs::Cached::cached_contexts, crate::specs::Cached::contexts_in_order))]
    pub fn drop_one(&mut self, id: DeviceId)
        ensures dropped { DropsCovered (cached_contexts self.old) (λ key. key == id) (cached_contexts self.new) }
        ensures order { contexts_in_order self.new ≡ without id (contexts_in_order self.old) }
    {
        let _ = self.contexts.len();
        self.contexts.pop(&id);
    }

    /// Drops the contexts of all devices (IODIR.INVAL_DDT without DV).
    #[tactic(auto, unfolding(crate::specs::Cached::cached_contexts, crate::specs::Cached::contexts_in_order))]
    pub fn drop_all(&mut self)
        ensures dropped { DropsCovered (cached_contexts self.old) (λ key. true) (cached_contexts self.new) }
        ensures order { contexts_in_order self.new ≡ [] }
    {
        self.contexts.clear();
    }
}

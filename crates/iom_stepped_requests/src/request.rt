// What a device asks, how that is answered, and what is kept in the caches on the way.
use iom_base::DeviceId;
use iom_device_dir::Context;
use iom_stage_walk::{WalkFault, Walked};
use iom_stepped_walk::Asked;
use iom_tlb::{Space, Translation};

/// An untranslated request of a device.
#[derive(Clone, Copy, PartialEq, Eq)]
pub struct Request {
    pub device: DeviceId,
    pub asked: Asked,
}

/// How a request is answered.
#[derive(Clone, Copy, PartialEq, Eq)]
pub enum Answer {
    /// No stage translates: its address is one of memory.
    AsItIs,
    /// A cached translation allows it.
    Cached(Translation),
    /// The walk of its tables reaches a page.
    Reaches(Walked),
    /// It isn't translated, for this fault.
    Faults(WalkFault),
}

/// What a load finds that is to be kept in a cache.
#[derive(Clone, Copy, PartialEq, Eq)]
pub enum Kept {
    Nothing,
    /// The context of the device, in the cache of contexts.
    Context {
        device: DeviceId,
        context: Context,
    },
    /// The translation of the page, in the cache of translations.
    Translation {
        space: Space,
        page: u64,
        translation: Translation,
    },
}

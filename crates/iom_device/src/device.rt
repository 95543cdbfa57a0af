//! A plugged device, as the world keeps it.
ghost use Rattle.std.specs.Prelude.{◌≡◌, ◌+◌, ◌<◌, ◌^◌, None, MatchOption, is_some, ◌↔◌, IsTrue};
ghost use Rattle.std.specs.Option.{option_and_then};
ghost use Rattle.iom_ats_cache.specs.Cache.{Cache, frame_for};
ghost use Rattle.iom_device.specs.Caches.{epoch_of, epoch_in, device_with, IsDevicePlace};
ghost use Rattle.iom_device.specs.Calls.{Obeys, new_cache, reset_of, with_reset};

use iom_ats_cache::Atc;
use iom_base::{AccessKind, DeviceId, DeviceKind};
use iom_fabric::{Message, PageNumber, Range, Translation};

/// A plugged device. How it is attached the driver knows, and what it has in flight the IOMMU.
#[derive(Drop)]
pub struct Device {
    pub id: DeviceId,
    pub kind: DeviceKind,
    /// Whether it is a block device with a disk.
    pub has_disk: bool,
    /// Its own cache of translations, where its kind has one.
    pub cache: Option<Atc>,
}

/// The cache of a device that is plugged in, with nothing in it, where its kind has one.
fn new_cache(kind: DeviceKind) -> Option<Atc>
    ensures { result ≡ new_cache kind }
{
    if kind.has_cache() {
        Some(Atc::new())
    } else {
        None
    }
}

/// Whether the caches are equal, or there is none in either.
fn are_same_caches(cache: &Option<Atc>, other: &Option<Atc>) -> bool
    ensures { IsTrue result ↔ (cache.now ≡ other.now) }
{
    match (cache, other) {
        (Some(own), Some(same)) => own.is_same(same),
        (None, None) => true,
        _ => false,
    }
}

/// Where the device with this id stands.
pub fn place_of(devices: &[Device], id: DeviceId) -> Option<usize>
    ensures { MatchOption result (device_with devices.now id ≡ None) (IsDevicePlace devices.now id) }
{
    for place in 0..devices.len() {
        if devices[place].id == id {
            return Some(place);
        }
    }
    None
}

/// The device with this id is reset, if there is one.
pub fn reset(devices: &mut Vec<Device>, id: DeviceId)
    requires { epoch_in devices.old.items id + 1 < 2 ^ 64 }
    ensures { devices.new.items ≡ with_reset devices.old.items id }
{
    if let Some(place) = place_of(devices, id) {
        devices[place].reset();
    }
}

impl Device {
    /// A device that is plugged in, with its disk, if one is named. Its cache, where its kind has one, is empty.
    pub fn new(id: DeviceId, kind: DeviceKind, disk: Option<u64>) -> Device
        ensures { result ≡ record { id = id; kind = kind; has_disk = is_some disk; cache = new_cache kind } }
    {
        Device {
            id,
            kind,
            has_disk: disk.is_some(),
            cache: new_cache(kind),
        }
    }

    /// Whether the two are equal, caches and all.
    pub fn is_same(&self, other: &Device) -> bool
        ensures { IsTrue result ↔ (self.now ≡ other.now) }
    {
        if self.id != other.id || self.kind != other.kind || self.has_disk != other.has_disk {
            return false;
        }
        are_same_caches(&self.cache, &other.cache)
    }

    /// The epoch of its cache; 0 where it has none.
    pub fn epoch(&self) -> u64
        ensures { result ≡ epoch_of self.now.cache }
    {
        match &self.cache {
            Some(cache) => cache.epoch(),
            None => 0,
        }
    }

    /// The frame that its cache has for an access of this kind to the page.
    pub fn look(&self, page: PageNumber, kind: AccessKind) -> Option<u32>
        ensures { result ≡ option_and_then (λ (cache : Cache). frame_for cache page kind) self.now.cache }
    {
        match &self.cache {
            Some(cache) => cache.look(page, kind),
            None => None,
        }
    }

    /// Is reset: where it has a cache, that is empty then, and a new epoch has begun.
    pub fn reset(&mut self)
        requires { epoch_of self.old.cache + 1 < 2 ^ 64 }
        ensures cache { self.new.cache ≡ reset_of self.old.cache }
        ensures rest { self.new ≡ record self.old { cache = self.new.cache } }
    {
        if let Some(cache) = &mut self.cache {
            cache.reset();
        }
    }

    /// Obeys a request to invalidate, and ignores it where it has no cache: its word that it is done.
    pub fn obey(&mut self, serial: u64, range: Range) -> Option<Message>
        requires { epoch_of self.old.cache + 1 < 2 ^ 64 }
        ensures obeyed { Obeys self.old.cache serial range result self.new.cache }
        ensures rest { self.new ≡ record self.old { cache = self.new.cache } }
    {
        match &mut self.cache {
            Some(cache) => Some(cache.invalidate(serial, range)),
            None => None,
        }
    }
}

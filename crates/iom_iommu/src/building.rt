// The IOMMU at power-on, and its devices.
ghost use Rattle.std.specs.Prelude.{◌≡◌, IfOk, is_some};
ghost use Rattle.iom_inflight.specs.Flights.{row_of, waiting_at};
ghost use Rattle.iom_inflight.specs.Invariant.{AreFlights, AreRowsIn};
ghost use Rattle.iom_tlb.specs.Content.{HasNothing};
ghost use Rattle.iom_iommu.specs.Parts.{IsAtPowerOn, translation_cache_of, contexts_of, AddsDevice, flights_of, frames_of};

use crate::iommu::Iommu;
use iom_base::DeviceId;
use iom_command_queue::Slots;
use iom_device_dir::{Context, DirCache};
use iom_inflight::{InFlight, MadeAt};
use iom_registers::Registers;
use iom_tlb::TransCache;
use std::alloc::{AllocError, Global};

impl<C: TransCache + Drop> Iommu<C> {
    /// The IOMMU at power-on, beside a memory of so many frames, over this cache, which has nothing. Takes its
    /// memory here, but for the contexts and translations that it caches.
    pub fn new(alloc: Global, frames: u32, translations: C) -> Result<Iommu<C>, AllocError>
        requires { HasNothing (C.content translations) }
        ensures power_on { IfOk result (IsAtPowerOn frames) }
        ensures cache { IfOk result (λ iommu. translation_cache_of iommu ≡ translations) }
    {
        Ok(Iommu {
            registers: Registers::new(),
            contexts: DirCache::new(alloc)?,
            translations,
            in_flight: InFlight::new(alloc)?,
            fence_snapshot: None,
            fence_waits: false,
            slots: Slots::new(),
            frames,
        })
    }
}

impl<C: TransCache> Iommu<C> {
    /// A device that may make requests. False exactly where it was added or 16 were, and then nothing
    /// changes.
    pub fn add(&mut self, device: DeviceId) -> bool
        ensures { AddsDevice self.old device result self.new }
    {
        self.in_flight.add(device)
    }

    /// Whether the device was added.
    pub fn is_added(&self, device: DeviceId) -> bool
        ensures { result ≡ is_some (row_of (flights_of self.now).rows device) }
    {
        self.in_flight.is_added(device)
    }

    /// The context that is cached for the device. Which one goes next stays as it is.
    pub fn cached_context(&self, device: DeviceId) -> Option<Context>
        ensures { result ≡ contexts_of self.now device }
    {
        self.contexts.peek(device)
    }

    /// The cache of translations.
    pub fn translations(&self) -> &C
        ensures { result.now ≡ translation_cache_of self.now }
    {
        &self.translations
    }

    /// What is made of the access of the device at this place among those in flight, the oldest at 0; None where as many
    /// aren't in flight.
    pub fn waiting_at(&self, device: DeviceId, place: usize) -> Option<MadeAt>
        ensures { result ≡ waiting_at (row_of (flights_of self.now).rows device) place }
    {
        self.in_flight.waiting_at(device, place)
    }

    /// How many frames the memory has that its calls are lent.
    pub fn frames(&self) -> u32
        ensures { result ≡ frames_of self.now }
    {
        self.frames
    }

    /// What holds of the accesses in flight, whatever calls were made. It does nothing.
    pub fn facts(&self)
        ensures invariants { AreFlights (flights_of self.now) }
        ensures inside { AreRowsIn (frames_of self.now) (flights_of self.now).rows }
    {
        self.in_flight.facts();
    }
}

// The commands, each by its own section of the IOMMU specification: 3.1.1, "IOMMU Page-Table cache invalidation
// commands", 3.1.2, "IOMMU Command-queue Fence commands", 3.1.3, "IOMMU Directory cache invalidation commands", and
// 3.1.4, "IOMMU Address-translation services (ATS) commands".
ghost use Rattle.std.specs.Prelude.{◌≡◌, ◌≢◌, ◌+◌, ◌<◌, ◌^◌};
ghost use Rattle.iom_registers.specs.Queues.{command_head, command_tail};
ghost use Rattle.iom_tlb.specs.Invalidations.{covers_of};
ghost use Rattle.iom_iommu.specs.Parts.{registers_of, slots_of, flights_of};
ghost use Rattle.iom_iommu.specs.Fetches.{after_command, without_fence, counted_in, waits_with, are_waited_for, are_full, Stores, InvalidatesTranslations, InvalidatesContexts, Fences, OpensRequest};

use crate::fetched::Fetched;
use crate::iommu::Iommu;
use iom_base::AccessKind;
use iom_command_queue::{Command, CommandRing, DeviceNumber, FenceStore};
use iom_inflight::InFlight;
use iom_phys_mem::{Bytes, Memory};
use iom_tlb::{TransCache, invalidate};

/// Whether one of the first so many accesses, of the kind, isn't made.
fn are_waited_for(in_flight: &InFlight, before: u64, kind: AccessKind) -> bool
    ensures { result ≡ are_waited_for in_flight.now before kind }
{
    !in_flight.drained(before, kind)
}

/// Stores the word of a fence, where it has one. False exactly where there is no place for it: then nothing changes.
fn store_word(memory: &mut Memory, store: &Option<FenceStore>) -> bool
    ensures { Stores memory.old store.now result memory.new }
{
    match *store {
        Some(store) => memory
            .store_u32(store.address.address(), store.data)
            .is_some(),
        None => true,
    }
}

impl<C: TransCache> Iommu<C> {
    /// Nothing is kept of a fence that stood at the head: what it counted, and that it waited.
    pub(crate) fn forget_fence(&mut self)
        ensures { self.new ≡ without_fence self.old }
    {
        self.fence_snapshot = None;
        self.fence_waits = false;
    }

    /// The command at the head is done.
    fn go_on(&mut self)
        requires { command_head (registers_of self.old) ≢ command_tail (registers_of self.old) }
        ensures { self.new ≡ after_command self.old }
    {
        CommandRing::advance(&mut self.registers);
        self.fence_snapshot = None;
        self.fence_waits = false;
    }

    /// IOTINVAL.VMA, IOTINVAL.GVMA: the cached translations that it covers go.
    pub(crate) fn invalidate_translations(&mut self, command: &Command)
        requires { command_head (registers_of self.old) ≢ command_tail (registers_of self.old) }
        ensures { InvalidatesTranslations (covers_of command.now) self.old self.new }
    {
        self.go_on();
        invalidate(&mut self.translations, command);
    }

    /// IODIR.INVAL_DDT: the cached context of the device goes, or all do.
    pub(crate) fn invalidate_contexts(&mut self, device: Option<DeviceNumber>)
        requires { command_head (registers_of self.old) ≢ command_tail (registers_of self.old) }
        ensures { InvalidatesContexts device self.old self.new }
    {
        self.go_on();
        match device {
            None => self.contexts.drop_all(),
            Some(device) => self.contexts.drop_one(device.number()),
        }
    }

    /// How many accesses were accepted when the fence at the head was first fetched with no request open, if it was;
    /// else how many were so far.
    pub(crate) fn counted(&self) -> u64
        ensures { result ≡ counted_in self.now }
    {
        self.fence_snapshot.unwrap_or(self.in_flight.so_far())
    }

    /// Whether a fence with PR and PW waits for accesses, where so many were accepted before it.
    pub(crate) fn waits_with(&self, pr: bool, pw: bool, before: u64) -> bool
        ensures { result ≡ waits_with pr pw (flights_of self.now) before }
    {
        (pr && are_waited_for(&self.in_flight, before, AccessKind::Read))
            || (pw && are_waited_for(&self.in_flight, before, AccessKind::Write))
    }

    /// IOFENCE.C: it waits while an invalidation request is open; then, with PR or PW, for the accesses that were
    /// accepted before its first fetch that found none open, and for no later ones. Then its word is stored, and with
    /// WSI an interrupt asked for. A word that can't be stored sets `cqmf`.
    pub(crate) fn fence(
        &mut self,
        memory: &mut Memory,
        store: &Option<FenceStore>,
        wsi: bool,
        pr: bool,
        pw: bool,
    ) -> Fetched
        requires { command_head (registers_of self.old) ≢ command_tail (registers_of self.old) }
        ensures { Fences store.now wsi pr pw memory.old self.old result memory.new self.new }
    {
        if !self.slots.is_empty() {
            self.fence_waits = true;
            return Fetched::Waiting;
        }
        let before = self.counted();
        self.fence_snapshot = Some(before);
        self.fence_waits = false;
        if self.waits_with(pr, pw, before) {
            return Fetched::Waiting;
        }
        if !store_word(memory, store) {
            self.registers.set_cqmf();
            return Fetched::Stopped;
        }
        self.go_on();
        if wsi {
            self.registers.set_fence_w_ip();
        }
        Fetched::Did(Command::IofenceC {
            store: *store,
            wsi,
            pr,
            pw,
        })
    }

    /// ATS.INVAL: it opens a request to the device. False while 32 are open: then it waits.
    pub(crate) fn open_request(&mut self, device: DeviceNumber) -> bool
        requires stands { command_head (registers_of self.old) ≢ command_tail (registers_of self.old) }
        requires serials { (slots_of self.old).last + 1 < 2 ^ 64 }
        ensures { OpensRequest (are_full (slots_of self.old)) device self.old result self.new }
    {
        match self.slots.open(device.number()) {
            None => {
                self.fence_waits = false;
                false
            }
            Some(_) => {
                self.go_on();
                true
            }
        }
    }
}

//! The chronicle: what was told line by line, and what is remembered of the hardware.
ghost use Rattle.std.specs.Prelude.{◌≡◌};

use crate::caches::CacheLines;
use crate::claim_lines::ClaimLines;
use crate::contexts::ContextLines;
use crate::flights::FlightLines;
use crate::messages::MessageLines;
use crate::origin::Origin;
use crate::pointers::PointerLines;
use crate::translations::TranslationLines;
use crate::words::WordLines;
use iom_base::DeviceId;
use iom_board::Board;
use iom_pointers::Pointer;
use iom_tlb::Space;
use std::alloc::{AllocError, Global};

/// Since which line what is there, beside the hardware's value. Nothing is decided by it.
#[derive(Drop)]
pub struct Chronicle {
    pub(crate) line: u64,
    /// Whether walks know leaves of 64 KiB.
    pub(crate) napot: bool,
    pub(crate) words: WordLines,
    pub(crate) contexts: ContextLines,
    pub(crate) translations: TranslationLines,
    pub(crate) pointers: PointerLines,
    pub(crate) caches: CacheLines,
    pub(crate) messages: MessageLines,
    pub(crate) flights: FlightLines,
    pub(crate) claims: ClaimLines,
}

impl Chronicle {
    /// Of hardware at power-on with so many frames, of which walks know leaves of 64 KiB, or don't. All memory is taken here
    /// but for rows of claims.
    pub fn new(alloc: Global, frames: u32, napot: bool) -> Result<Chronicle, AllocError> {
        Ok(Chronicle {
            line: 0,
            napot,
            words: WordLines::new(alloc, frames)?,
            contexts: ContextLines::new(alloc)?,
            translations: TranslationLines::new(alloc)?,
            pointers: PointerLines::new(alloc)?,
            caches: CacheLines::new(alloc)?,
            messages: MessageLines::new(alloc)?,
            flights: FlightLines::new(alloc)?,
            claims: ClaimLines::new(alloc, frames)?,
        })
    }

    /// The line with this number begins: from 1, comments and empty lines counted.
    pub fn begin(&mut self, line: u64)
        ensures { self.new ≡ record self.old { line = line } }
    {
        self.line = line;
    }

    /// So many bytes were stored from the physical address on, by whomever: processor, a device's commit, a record or word of
    /// the IOMMU. What stands there is there since this line.
    pub fn stored(&mut self, address: u64, len: u64)
        ensures { self.new ≡ record self.old { words = self.new.words } }
    {
        self.words.store(address, len, self.line);
    }

    /// The oldest access of the device was made: what was kept of it when it was accepted.
    pub fn made(&mut self, device: DeviceId) -> Option<Origin>
        ensures { self.new ≡ record self.old { flights = self.new.flights } }
    {
        self.flights.make(device)
    }

    /// Compares caches, contexts and messages with what is remembered: what is new is since this line. To be called after
    /// every line that hardware or a device did.
    pub fn notice(&mut self, hardware: &Board)
        ensures { self.new ≡ record self.old {
          contexts = self.new.contexts;
          translations = self.new.translations;
          caches = self.new.caches;
          messages = self.new.messages;
        } }
    {
        self.contexts.notice(hardware, self.line);
        self.translations
            .notice(hardware.iommu.translations(), self.line);
        // By the messages of before, so that an answer that arrived is still known.
        self.caches
            .notice(&hardware.devices, &self.messages, self.line);
        self.messages.notice(&hardware.fabric, self.line);
    }

    /// Compares the pointers to tables that hardware caches with those that are remembered. To be called behind
    /// [`Chronicle::notice`], where hardware caches any.
    pub fn notice_pointers(&mut self, pointers: &[Pointer])
        ensures { self.new ≡ record self.old { pointers = self.new.pointers } }
    {
        self.pointers.notice(pointers, self.line);
    }

    /// The device may reach the frame at the page from this line on. The frame is handed on no more.
    pub fn granted(&mut self, device: DeviceId, page: u64, frame: u32) -> Result<(), AllocError>
        ensures { self.new ≡ record self.old { claims = self.new.claims } }
    {
        self.claims.grant(device, page, frame, self.line)
    }

    /// What the device held at the page is withdrawn, by the claim of this number. Where memory is refused what was held is
    /// still held.
    pub fn released(
        &mut self,
        number: u32,
        device: DeviceId,
        page: u64,
        frame: u32,
    ) -> Result<(), AllocError>
        ensures { self.new ≡ record self.old { claims = self.new.claims } }
    {
        self.claims.release(number, device, page, frame, self.line)
    }

    /// The claim of this number is done.
    pub fn done(&mut self, number: u32)
        ensures { self.new ≡ record self.old { claims = self.new.claims } }
    {
        self.claims.done(number, self.line);
    }

    /// The frame is handed on.
    pub fn handed_on(&mut self, frame: u32)
        ensures { self.new ≡ record self.old { claims = self.new.claims } }
    {
        self.claims.mark(frame, Some(self.line));
    }

    /// The frame is handed on no more.
    pub fn taken(&mut self, frame: u32)
        ensures { self.new ≡ record self.old { claims = self.new.claims } }
    {
        self.claims.mark(frame, None);
    }

    /// Since when the device holds what it holds at the page. None where it holds nothing there.
    pub fn held_since(&self, device: DeviceId, page: u64) -> Option<u64> {
        self.claims.held_since(device, page)
    }

    /// When the claim of this number was made. None where it isn't open.
    pub fn released_at(&self, number: u32) -> Option<u64> {
        self.claims.released_at(number)
    }

    /// When the last claim was done that withdrew the frame from the device. None where none was.
    pub fn right_ended(&self, device: DeviceId, frame: u32) -> Option<u64> {
        self.claims.right_ended(device, frame)
    }

    /// When the frame was handed on. None where it isn't.
    pub fn handed_on_at(&self, frame: u32) -> Option<u64> {
        self.claims.handed_on_at(frame)
    }

    /// Since when the pointer is cached at which a walk to the page of the address space begins. None where none was noticed.
    pub fn pointed_since(&self, space: Space, page: u64) -> Option<u64> {
        match self.pointers.deepest(space, page) {
            Some(known) => Some(known.line),
            None => None,
        }
    }

    /// Since when a translation of the page of the address space is cached. None where none was noticed.
    pub fn cached_since(&self, space: Space, page: u64) -> Option<u64> {
        match self.translations.of_page(space, page) {
            Some(known) => Some(known.line),
            None => None,
        }
    }
}

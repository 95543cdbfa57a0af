// The accesses of one device in flight.
ghost use Rattle.std.specs.Prelude.{◌≡◌, ◌<◌, ◌≤◌, ◌+◌, ◌^◌, ◌∷◌, List, ℕ, Bool, length, drop, IfOk, Some, slice_get, option_map, IsSomeAnd, not, ◌↔◌, IsTrue};
ghost use Rattle.iom_base.specs.Accesses.{read_of, write_of};
ghost use Rattle.iom_base.specs.Bytes.{with_bytes};
ghost use Rattle.iom_base.specs.Sizes.{page_size, in_flight_limit};
ghost use Rattle.iom_base.specs.declared.access.AccessKind.TheVariants.{Read, Write};
ghost use Rattle.iom_inflight.specs.Flights.{FlightRow, new_row, made_in, first_made, first_number, has_access, is_row_drained};
ghost use Rattle.std.specs.List.{list_all};
ghost use Rattle.iom_inflight.specs.Rings.{is_header_awaited};
ghost use Rattle.iom_inflight.specs.Rows.{RowAccepts, IsMakeable, RowMakes, OldestIsRead, OldestWrites};

use crate::header::AccessHeader;
use crate::made::MadeAt;
use crate::rings::{have_same_accesses, have_same_bytes};
use circular_buffer::HeapCircularBuffer;
use iom_base::{AccessKind, DeviceId, FRAME_SIZE, MAX_IN_FLIGHT, PAGE_SIZE};
use iom_phys_mem::Memory;
use std::alloc::{AllocError, Global};
use std::marker::Model;

/// The accesses of one device in flight, the oldest first.
#[derive(Drop)]
pub(crate) struct Row {
    device: DeviceId,
    /// How many were ever accepted.
    accepted: u64,
    waiting: HeapCircularBuffer<AccessHeader>,
    /// The bytes of the writes among them, one after another.
    bytes: HeapCircularBuffer<u8>,
}

impl Model for Row {
    ghost use Rattle.iom_inflight.specs.Flights.{FlightRow};

    ghost Value = { FlightRow };

    ghost use Rattle.iom_inflight.specs.Rings.{accesses_with_bytes, AreRings};

    ghost view = { λ r. record { device = r.device; accepted = r.accepted; waiting = accesses_with_bytes r.waiting.items r.bytes.items } };

    ghost invariant = { λ r. AreRings r.waiting r.bytes };
}

/// Whether none of the accesses is of the kind and was accepted up to this number.
fn none_awaited(waiting: &HeapCircularBuffer<AccessHeader>, before: u64, kind: AccessKind) -> bool
    ensures { result ≡ list_all (λ a. not (is_header_awaited before kind a)) waiting.now.items }
{
    waiting
        .iter()
        .all(|header| !header.is_awaited(before, kind))
}

impl Row {
    /// A row of no device yet, with room for eight accesses.
    pub(crate) fn new(alloc: Global) -> Result<Row, AllocError>
        ensures { IfOk result (λ row. row ≡ new_row 0) }
    {
        let waiting = HeapCircularBuffer::with_capacity(alloc, MAX_IN_FLIGHT)?;
        let bytes = HeapCircularBuffer::with_capacity(alloc, MAX_IN_FLIGHT * FRAME_SIZE)?;
        Ok(Row {
            device: 0,
            accepted: 0,
            waiting,
            bytes,
        })
    }

    /// From now on it is the device's, of which nothing was accepted yet.
    pub(crate) fn start(&mut self, device: DeviceId)
        ensures { self.new ≡ new_row device }
    {
        self.device = device;
        self.accepted = 0;
        self.waiting.clear();
        self.bytes.clear();
    }

    pub(crate) fn device(&self) -> DeviceId
        ensures { result ≡ self.now.device }
    {
        self.device
    }

    /// How many were ever accepted.
    pub(crate) fn accepted(&self) -> u64
        ensures { result ≡ self.now.accepted }
    {
        self.accepted
    }

    /// How many are in flight.
    pub(crate) fn count(&self) -> usize
        ensures count { result ≡ length self.now.waiting }
        ensures few { result ≤ in_flight_limit }
    {
        self.waiting.len()
    }

    /// Whether one is in flight.
    pub(crate) fn has_access(&self) -> bool
        ensures { result ≡ has_access self.now.waiting }
    {
        !self.waiting.is_empty()
    }

    /// Whether none of the kind that was accepted up to this number is in flight.
    pub(crate) fn is_drained(&self, before: u64, kind: AccessKind) -> bool
        ensures { result ≡ is_row_drained before kind self.now }
    {
        none_awaited(&self.waiting, before, kind)
    }

    /// Whether the two are equal.
    pub(crate) fn is_same(&self, other: &Row) -> bool
        ensures { IsTrue result ↔ (self.now ≡ other.now) }
    {
        if self.device != other.device || self.accepted != other.accepted {
            return false;
        }
        if !have_same_accesses(&self.waiting, &other.waiting) {
            return false;
        }
        have_same_bytes(&self.bytes, &other.bytes)
    }

    /// What is made of the access at this place, the oldest at 0.
    #[tactic(auto, using(crate::proofs::Accesses::made_of))]
    pub(crate) fn waiting_at(&self, place: usize) -> Option<MadeAt>
        ensures { result ≡ made_in self.now.device self.now.waiting place }
    {
        let header = self.waiting.get(place)?;
        Some(MadeAt {
            device: self.device,
            frame: header.frame,
            offset: (header.address % PAGE_SIZE) as u16,
            len: header.len,
            kind: header.kind,
        })
    }

    /// The oldest, which is made next.
    #[tactic(auto, using(crate::proofs::Accesses::oldest_of))]
    pub(crate) fn oldest(&self) -> Option<MadeAt>
        ensures { result ≡ first_made self.now.device self.now.waiting }
    {
        let header = self.waiting.front()?;
        Some(MadeAt {
            device: self.device,
            frame: header.frame,
            offset: (header.address % PAGE_SIZE) as u16,
            len: header.len,
            kind: header.kind,
        })
    }

    /// The oldest's place in the order of acceptance over all devices.
    #[tactic(auto, using(crate::proofs::Accesses::number_of))]
    pub(crate) fn oldest_number(&self) -> Option<u64>
        ensures { result ≡ first_number self.now.waiting }
    {
        let header = self.waiting.front()?;
        Some(header.number)
    }

    /// Accepts a read of so many bytes at the address, on the frame: it goes last. None exactly where eight
    /// are in flight, and then nothing changes. Takes no memory.
    pub(crate) fn accept_read(
        &mut self,
        address: u64,
        len: u16,
        frame: u32,
        number: u64,
    ) -> Option<u64>
        requires { self.old.accepted + 1 < 2 ^ 64 }
        ensures { RowAccepts self.old (record { access = read_of address len; frame = frame }) number result self.new }
    {
        if self.waiting.len() >= MAX_IN_FLIGHT {
            return None;
        }
        let header = AccessHeader {
            address,
            len,
            kind: AccessKind::Read,
            frame,
            number,
        };
        self.waiting.push_back(header);
        self.accepted += 1;
        Some(self.accepted)
    }

    /// Accepts a write of the bytes at the address, on the frame: it goes last, with its bytes. None exactly
    /// where eight are in flight, and then nothing changes. Takes no memory.
    pub(crate) fn accept_write(
        &mut self,
        address: u64,
        bytes: &[u8],
        frame: u32,
        number: u64,
    ) -> Option<u64>
        requires room { self.old.accepted + 1 < 2 ^ 64 }
        requires short { length bytes.now ≤ page_size }
        ensures { RowAccepts self.old (record { access = write_of address bytes.now; frame = frame }) number result self.new }
    {
        if self.waiting.len() >= MAX_IN_FLIGHT {
            return None;
        }
        let header = AccessHeader {
            address,
            len: bytes.len() as u16,
            kind: AccessKind::Write,
            frame,
            number,
        };
        self.waiting.push_back(header);
        self.bytes.fill_from_slice(bytes);
        self.accepted += 1;
        Some(self.accepted)
    }

    /// The oldest is a read: it is no more in flight.
    fn take_read(&mut self)
        requires { OldestIsRead self.old.waiting }
        ensures { self.new ≡ record self.old { waiting = drop 1 self.old.waiting } }
    {
        let _made = self.waiting.pop_front();
    }

    /// The oldest is a write: its bytes come out, and it is no more in flight.
    fn take_write(&mut self, target: &mut [u8])
        requires write { OldestWrites self.old.waiting (length target.old) }
        ensures bytes { option_map (λ a. a.accepted.access.bytes) (slice_get self.old.waiting 0) ≡ Some target.new }
        ensures rest { self.new ≡ record self.old { waiting = drop 1 self.old.waiting } }
    {
        self.waiting.pop_front();
        self.bytes.read_into(target);
    }

    /// The oldest is a write of so many bytes: they are stored in the frame from the offset on, and it is no
    /// more in flight.
    fn store_write(&mut self, frame: &mut [u8], offset: usize, len: usize)
        requires write { OldestWrites self.old.waiting len }
        requires within { offset + len ≤ length frame.old }
        ensures stored { IsSomeAnd (slice_get self.old.waiting 0) (λ a. frame.new ≡ with_bytes frame.old offset a.accepted.access.bytes) }
        ensures rest { self.new ≡ record self.old { waiting = drop 1 self.old.waiting } }
    {
        self.take_write(&mut frame[offset..offset + len]);
    }

    /// Makes the oldest, where there is one.
    pub(crate) fn make(&mut self, memory: &mut Memory) -> Option<MadeAt>
        requires { IsMakeable (length memory.old) self.old.waiting }
        ensures { RowMakes memory.old self.old result memory.new self.new }
    {
        let made = self.oldest()?;
        match made.kind {
            AccessKind::Read => self.take_read(),
            AccessKind::Write => {
                let frame = memory.frame_mut(made.frame).unwrap();
                self.store_write(frame, usize::from(made.offset), usize::from(made.len));
            }
        }
        Some(made)
    }
}

// What a device asks of memory, and what becomes of an access in flight.
ghost use Rattle.std.specs.Prelude.{◌≡◌, ◌<◌, ◌≤◌, ◌+◌, ◌*◌, ◌^◌, length, IfSome};
ghost use Rattle.iom_base.specs.Sizes.{in_flight_limit, device_limit};
ghost use Rattle.iom_inflight.specs.Flights.{count_in, accepted_in, count_all, first_busy, oldest_in, oldest_number_in, row_of};
ghost use Rattle.iom_inflight.specs.Invariant.{CarriesBytes};
ghost use Rattle.iom_inflight.specs.Calls.{IsAccepted, WouldMakeOldest};
ghost use Rattle.iom_inflight.specs.Rows.{RowStandsAt};
ghost use Rattle.iom_base.specs.Spans.{FitsInPage};
ghost use Rattle.iom_iommu.specs.Parts.{IsAdded, flights_of, frames_of, registers_of};
ghost use Rattle.iom_iommu.specs.Requests.{access_of, AnswersRequest, CommitsOldest, IsWithinFrame};

use crate::iommu::Iommu;
use crate::reply::Reply;
use crate::reports::{faulted, report};
use crate::service::serve;
use iom_base::{AccessKind, DeviceId, Span};
use iom_fault_queue::Transaction;
use iom_inflight::{InFlight, MadeAt};
use iom_phys_mem::Memory;
use iom_tlb::TransCache;

/// The access of the device, whose row stands at this place and has room, is accepted: its number among the
/// device's.
#[inline(always)]
pub(crate) fn accept(
    in_flight: &mut InFlight,
    device: DeviceId,
    place: usize,
    address: u64,
    len: u16,
    kind: AccessKind,
    bytes: &[u8],
    frame: u32,
) -> u64
    requires stands { RowStandsAt in_flight.old.rows device place }
    requires room { count_in (row_of in_flight.old.rows device) < in_flight_limit }
    requires within { FitsInPage address len }
    requires carries { CarriesBytes kind len bytes.now }
    requires count { in_flight.old.so_far + 1 < 2 ^ 64 }
    ensures { IsAccepted in_flight.old device (record { access = access_of address len kind bytes.now; frame = frame }) result in_flight.new }
{
    let number = match kind {
        AccessKind::Read => in_flight.accept_read_at(device, place, address, len, frame),
        AccessKind::Write => in_flight.accept_write_at(device, place, address, bytes, frame),
    };
    number.unwrap()
}

impl<C: TransCache> Iommu<C> {
    /// A device that was added asks for an access of so many bytes at the address: of a write these are the
    /// bytes. Its reply is the first that applies: `BadSpan`, `Busy`, and what becomes of it when it is
    /// translated, `Accepted` with its number among the device's or `Fault`. An access that is accepted is
    /// in flight until it is made. The record of a fault is put into the fault queue; nothing else is written to
    /// memory.
    pub fn request(
        &mut self,
        memory: &mut Memory,
        device: DeviceId,
        address: u64,
        len: u64,
        kind: AccessKind,
        bytes: &[u8],
    ) -> Reply
        requires memory { length memory.old ≡ frames_of self.old }
        requires added { IsAdded self.old device }
        requires count { (flights_of self.old).so_far + 1 < 2 ^ 64 }
        requires carries { CarriesBytes kind len bytes.now }
        ensures answered { AnswersRequest memory.old self.old device
            (access_of address len kind bytes.now) result memory.new self.new }
        ensures frames { length memory.new ≡ length memory.old }
    {
        let Some(span) = Span::new(address, len) else {
            return Reply::BadSpan;
        };
        let place = self.in_flight.place_of(device);
        if self.in_flight.is_full_at(device, place) {
            return Reply::Busy;
        }
        match serve(
            memory,
            &self.registers,
            &mut self.contexts,
            &mut self.translations,
            device,
            address,
            kind,
        ) {
            Ok(translation) => Reply::Accepted(accept(
                &mut self.in_flight,
                device,
                place,
                address,
                span.len,
                kind,
                bytes,
                translation.frame,
            )),
            Err(fault) => {
                let request = faulted(device, Transaction::untranslated(kind), address);
                report(memory, &mut self.registers, request, fault);
                Reply::Fault(fault.cause)
            }
        }
    }

    /// Makes the oldest access of the device in flight, on the frame that it was translated to. None exactly
    /// where it has none, and then nothing changes. The bytes of a read are the frame's.
    pub fn commit(&mut self, memory: &mut Memory, device: DeviceId) -> Option<MadeAt>
        requires memory { length memory.old ≡ frames_of self.old }
        requires added { IsAdded self.old device }
        ensures effect { CommitsOldest memory.old self.old device result memory.new self.new }
        ensures within { IfSome result (IsWithinFrame (frames_of self.old)) }
    {
        // What it ensures is known from here on: each access stays within its page.
        self.in_flight.facts();
        self.in_flight.make(device, memory)
    }

    /// How many accesses of the device are in flight; 0 where it wasn't added.
    pub fn in_flight(&self, device: DeviceId) -> usize
        ensures count { result ≡ count_in (row_of (flights_of self.now).rows device) }
        ensures few { result ≤ in_flight_limit }
    {
        self.in_flight.count(device)
    }

    /// How many accesses of the device were ever accepted: the number of its last one; 0 where it wasn't
    /// added.
    pub fn accepted(&self, device: DeviceId) -> u64
        ensures { result ≡ accepted_in (row_of (flights_of self.now).rows device) }
    {
        self.in_flight.accepted(device)
    }

    /// How many accesses of all devices are in flight: at most 128.
    pub fn all_in_flight(&self) -> usize
        ensures count { result ≡ count_all (flights_of self.now).rows }
        ensures few { result ≤ device_limit * in_flight_limit }
    {
        self.in_flight.count_all()
    }

    /// What [`commit`](Iommu::commit) would make.
    pub fn oldest(&self, device: DeviceId) -> Option<MadeAt>
        ensures value { result ≡ oldest_in (row_of (flights_of self.now).rows device) }
        ensures commit { WouldMakeOldest (flights_of self.now) device result }
    {
        self.in_flight.oldest(device)
    }

    /// The place of the device's oldest access in flight in the order of acceptance over all devices, from 1. None where nothing of
    /// the device is in flight, or it wasn't added.
    pub fn oldest_number(&self, device: DeviceId) -> Option<u64>
        ensures { result ≡ oldest_number_in (row_of (flights_of self.now).rows device) }
    {
        self.in_flight.oldest_number(device)
    }

    /// The first device, in the order in which they were added, of which an access is in flight. None where nothing
    /// is.
    pub fn first_busy(&self) -> Option<DeviceId>
        ensures { result ≡ first_busy (flights_of self.now).rows }
    {
        self.in_flight.first_busy()
    }

    /// How many accesses of all devices were ever accepted.
    pub fn so_far(&self) -> u64
        ensures { result ≡ (flights_of self.now).so_far }
    {
        self.in_flight.so_far()
    }
}

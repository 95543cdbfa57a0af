// Requests whose walks make one load an event, beside what the IOMMU does in one (IOMMU specification, section 2.3, "Process to
// translate an IOVA", which doesn't order the loads of a walk with what others do meanwhile).
ghost use Rattle.std.specs.Prelude.{◌≡◌, ◌<◌, ◌+◌, ◌^◌, length, nat_le, IfOk};
ghost use Rattle.iom_base.specs.Sizes.{in_flight_limit};
ghost use Rattle.iom_base.specs.Spans.{FitsInPage};
ghost use Rattle.iom_inflight.specs.Flights.{count_in, row_of};
ghost use Rattle.iom_inflight.specs.Invariant.{CarriesBytes};
ghost use Rattle.iom_iommu.specs.Fetches.{FetchesCommand};
ghost use Rattle.iom_iommu.specs.Parts.{IsAdded, flights_of, frames_of, registers_of, slots_of};
ghost use Rattle.iom_iommu.specs.Requests.{access_of};
ghost use Rattle.iom_iommu.specs.Stepped.{AnswersTranslatedBeside, BeginsAnewAfter, BeginsRequest, HasRoomAtEnd, LoadsNext, Replies, begins_anew, places_taken, translation_by};
ghost use Rattle.iom_walks.specs.Frames.{IsAnswerIn};
ghost use Rattle.iom_walks.specs.Walks.{IsAddedTo};

use crate::begun::{Begun, Load};
use crate::fetched::Fetched;
use crate::iommu::Iommu;
use crate::reply::Reply;
use crate::reports::{faulted, report};
use crate::requests::accept;
use crate::translations::own_page;
use iom_base::{AccessKind, DeviceId, MAX_IN_FLIGHT, Span};
use iom_command_queue::Command;
use iom_fault_queue::Transaction;
use iom_phys_mem::Memory;
use iom_registers::{DirectoryPointer, Registers};
use iom_stage_walk::{WalkFault, Walked};
use iom_stepped_requests::{Answer, Request};
use iom_stepped_walk::Asked;
use iom_tlb::{TransCache, Translation};
use iom_walks::{Began, Loaded, Walks};

/// What `ddtp` holds.
fn directory_pointer(registers: &Registers) -> DirectoryPointer
    ensures { result ≡ registers.now.ddtp }
{
    DirectoryPointer {
        mode: registers.directory_mode(),
        ppn: registers.directory_root(),
    }
}

/// The translation that an answer gives, or the fault for which it has none.
fn translation_by(memory: &Memory, asked: Asked, answer: Answer) -> Result<Translation, WalkFault>
    requires { IsAnswerIn (length memory.now) answer }
    ensures value { result ≡ translation_by memory.now asked.address asked.kind answer }
    ensures inside { IfOk result (λ translation. translation.frame < length memory.now) }
{
    match answer {
        Answer::AsItIs => own_page(memory, asked.address, asked.kind),
        Answer::Cached(translation) => Ok(translation),
        Answer::Reaches(
            Walked {
                frame,
                rights,
                level,
                ..
            },
        ) => Ok(Translation {
            frame,
            rights,
            order: 9 * u16::from(level),
        }),
        Answer::Faults(fault) => Err(fault),
    }
}

/// Whether a command ends what is cached of contexts or translations: then every request that is under way begins anew.
fn begins_anew(fetched: &Fetched) -> bool
    ensures { result ≡ begins_anew fetched.now }
{
    match *fetched {
        Fetched::Did(
            Command::IotinvalVma { .. }
            | Command::IotinvalGvma { .. }
            | Command::IodirInvalDdt { .. },
        ) => true,
        Fetched::Did(Command::IofenceC { .. } | Command::AtsInval { .. })
        | Fetched::Waiting
        | Fetched::Empty
        | Fetched::Stopped => false,
    }
}

impl<C: TransCache> Iommu<C> {
    /// Whether the device may have no more accesses in flight: eight are, where a request of it that is under way counts as
    /// one of them.
    pub fn is_full_beside(&self, walks: &Walks, device: DeviceId) -> bool
        ensures { result ≡ nat_le in_flight_limit (places_taken (flights_of self.now) walks.now device) }
    {
        let waiting = self.in_flight.count(device);
        let walking = usize::from(walks.is_walking(device));
        waiting + walking >= MAX_IN_FLIGHT
    }

    /// The request of so many bytes, which has its answer: it is in flight, or the record of its fault is put into the
    /// fault queue.
    fn end(
        &mut self,
        memory: &mut Memory,
        request: Request,
        len: u16,
        bytes: &[u8],
        answer: Answer,
    ) -> Reply
        requires memory { length memory.old ≡ frames_of self.old }
        requires added { IsAdded self.old request.device }
        requires room { count_in (row_of (flights_of self.old).rows request.device) < in_flight_limit }
        requires count { (flights_of self.old).so_far + 1 < 2 ^ 64 }
        requires within { FitsInPage request.asked.address len }
        requires carries { CarriesBytes request.asked.kind len bytes.now }
        requires inside { IsAnswerIn (frames_of self.old) answer }
        ensures replied { Replies memory.old self.old request.device (access_of request.asked.address len request.asked.kind bytes.now)
            (translation_by memory.old request.asked.address request.asked.kind answer) result memory.new self.new }
        ensures caches { (self.new.contexts ≡ self.old.contexts) × (self.new.translations ≡ self.old.translations) }
        ensures frames { length memory.new ≡ length memory.old }
    {
        let Request { device, asked } = request;
        match translation_by(memory, asked, answer) {
            Ok(translation) => {
                let place = self.in_flight.place_of(device);
                Reply::Accepted(accept(
                    &mut self.in_flight,
                    device,
                    place,
                    asked.address,
                    len,
                    asked.kind,
                    bytes,
                    translation.frame,
                ))
            }
            Err(fault) => {
                let transaction = Transaction::untranslated(asked.kind);
                let request = faulted(device, transaction, asked.address);
                report(memory, &mut self.registers, request, fault);
                Reply::Fault(fault.cause)
            }
        }
    }

    /// A device that was added asks for an access, as [`request`](Iommu::request) has it, where a walk makes one load an
    /// event. What becomes of it is the first that applies: `BadSpan`; `Busy`, where its request that is under way counts
    /// as one of the eight; `Occupied` where one is; its reply, where it needs no load; `Walking`. It looks for a cached
    /// context, and once it has a context for a cached translation.
    pub fn begin(
        &mut self,
        memory: &mut Memory,
        walks: &mut Walks,
        device: DeviceId,
        address: u64,
        len: u64,
        kind: AccessKind,
        bytes: &[u8],
    ) -> Begun
        requires memory { length memory.old ≡ frames_of self.old }
        requires added { IsAdded self.old device }
        requires walked { IsAddedTo walks.old device }
        requires count { (flights_of self.old).so_far + 1 < 2 ^ 64 }
        requires carries { CarriesBytes kind len bytes.now }
        ensures begun { BeginsRequest memory.old self.old walks.old device (access_of address len kind bytes.now) result memory.new self.new walks.new }
        ensures frames { length memory.new ≡ length memory.old }
    {
        let Some(span) = Span::new(address, len) else {
            return Begun::Answered(Reply::BadSpan);
        };
        if self.is_full_beside(walks, device) {
            return Begun::Answered(Reply::Busy);
        }
        if walks.is_walking(device) {
            return Begun::Occupied;
        }
        let began = walks.begin(
            directory_pointer(&self.registers),
            &mut self.contexts,
            &mut self.translations,
            device,
            address,
            span.len,
            kind,
            bytes,
        );
        match began {
            Began::Walking => Begun::Walking,
            Began::Served(answer) => {
                let request = Request {
                    device,
                    asked: Asked { address, kind },
                };
                Begun::Answered(self.end(memory, request, span.len, bytes, answer))
            }
        }
    }

    /// Makes the next load of the device's request, if one is under way. What the load finds is cached: a context at the
    /// load that finds it, a translation at the last. At its end the request is answered, and isn't tested for `Busy`
    /// again: its place among the eight was its own.
    pub fn load(&mut self, memory: &mut Memory, walks: &mut Walks, device: DeviceId) -> Load
        requires memory { length memory.old ≡ frames_of self.old }
        requires room { HasRoomAtEnd (flights_of self.old) walks.old device }
        requires count { (flights_of self.old).so_far + 1 < 2 ^ 64 }
        ensures loaded { LoadsNext memory.old self.old walks.old device result memory.new self.new walks.new }
        ensures frames { length memory.new ≡ length memory.old }
    {
        // What it ensures is known from here on: what was begun anew and is served already names no frame.
        walks.facts();
        let loaded = walks.load(memory, &mut self.contexts, &mut self.translations, device);
        match loaded {
            Loaded::Nothing => Load::Nothing,
            Loaded::GoesOn => Load::Loaded,
            Loaded::Ended(ended) => {
                let bytes = walks.bytes(device);
                Load::Ended(self.end(memory, ended.request, ended.len, bytes, ended.answer))
            }
        }
    }

    /// A fetch, as [`fetch`](Iommu::fetch) has it. Where it did an IOTINVAL or IODIR.INVAL_DDT, whatever that covers, every
    /// request that is under way begins anew, from the root of the directory, and looks in no cache.
    pub fn fetch_beside(&mut self, memory: &mut Memory, walks: &mut Walks) -> Fetched
        requires memory { length memory.old ≡ frames_of self.old }
        requires serials { (slots_of self.old).last + 1 < 2 ^ 64 }
        ensures fetched { FetchesCommand memory.old self.old result memory.new self.new }
        ensures anew { BeginsAnewAfter (begins_anew result) (registers_of self.new).ddtp walks.old walks.new }
    {
        let fetched = self.fetch(memory);
        if begins_anew(&fetched) {
            walks.begin_anew(directory_pointer(&self.registers));
        }
        fetched
    }

    /// A translated request, as [`translated`](Iommu::translated) has it, but that a request of its device which is under
    /// way counts as one of the eight.
    pub fn translated_beside(
        &mut self,
        memory: &mut Memory,
        walks: &Walks,
        device: DeviceId,
        address: u64,
        len: u64,
        kind: AccessKind,
        bytes: &[u8],
    ) -> Reply
        requires memory { length memory.old ≡ frames_of self.old }
        requires added { IsAdded self.old device }
        requires count { (flights_of self.old).so_far + 1 < 2 ^ 64 }
        requires carries { CarriesBytes kind len bytes.now }
        ensures answered { AnswersTranslatedBeside memory.old self.old walks.now device
            (access_of address len kind bytes.now) result memory.new self.new }
        ensures frames { length memory.new ≡ length memory.old }
    {
        if Span::new(address, len).is_some() && self.is_full_beside(walks, device) {
            return Reply::Busy;
        }
        self.translated(memory, device, address, len, kind, bytes)
    }
}

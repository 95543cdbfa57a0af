// Translated requests: what a device asks by addresses of memory, which it was told (IOMMU specification, section 2.3,
// "Process to translate an IOVA").
ghost use Rattle.std.specs.Prelude.{◌≡◌, ◌<◌, ◌+◌, ◌^◌, length, IfOk};
ghost use Rattle.iom_device_dir.specs.Cached.{cached_contexts};
ghost use Rattle.iom_inflight.specs.Invariant.{CarriesBytes};
ghost use Rattle.iom_iommu.specs.Parts.{IsAdded, flights_of, frames_of};
ghost use Rattle.iom_iommu.specs.Requests.{access_of};
ghost use Rattle.iom_iommu.specs.Service.{ats_context_for, KeepsContext};
ghost use Rattle.iom_iommu.specs.Translated.{AnswersTranslated, physical_page};

use crate::contexts::find_ats_context;
use crate::iommu::Iommu;
use crate::reply::Reply;
use crate::reports::{faulted, report};
use crate::requests::accept;
use crate::translations::{own_page, plain};
use iom_base::{AccessKind, DeviceId, Span};
use iom_device_dir::DirCache;
use iom_fault_queue::Transaction;
use iom_phys_mem::Memory;
use iom_registers::Registers;
use iom_stage_walk::WalkFault;
use iom_tlb::{TransCache, Translation};

/// The frame of the address itself, where the context of the device lets the request through. The context is cached
/// where it was found in memory.
fn serve_translated(
    memory: &Memory,
    registers: &Registers,
    contexts: &mut DirCache,
    device: DeviceId,
    address: u64,
    kind: AccessKind,
) -> Result<Translation, WalkFault>
    ensures served { result ≡ physical_page (ats_context_for memory.now registers.now (cached_contexts contexts.old) device) memory.now address kind }
    ensures kept { KeepsContext memory.now registers.now (cached_contexts contexts.old) device (cached_contexts contexts.new) }
    ensures inside { IfOk result (λ translation. translation.frame < length memory.now) }
{
    match find_ats_context(memory, registers, contexts, device) {
        Ok(_) => own_page(memory, address, kind),
        Err(cause) => Err(plain(cause)),
    }
}

impl<C: TransCache> Iommu<C> {
    /// A device that was added asks for an access at an address of memory, as [`request`](Iommu::request) has it: but
    /// the address isn't translated, and the device's context has to let it.
    pub fn translated(
        &mut self,
        memory: &mut Memory,
        device: DeviceId,
        address: u64,
        len: u64,
        kind: AccessKind,
        bytes: &[u8],
    ) -> Reply
        requires memory { length memory.old ≡ frames_of self.old }
        requires added { IsAdded self.old device }
        requires count { (flights_of self.old).so_far + 1 < 2 ^ 64 }
        requires carries { CarriesBytes kind len bytes.now }
        ensures answered { AnswersTranslated memory.old self.old device
            (access_of address len kind bytes.now) result memory.new self.new }
        ensures frames { length memory.new ≡ length memory.old }
    {
        let Some(span) = Span::new(address, len) else {
            return Reply::BadSpan;
        };
        let place = self.in_flight.place_of(device);
        if self.in_flight.is_full_at(device, place) {
            return Reply::Busy;
        }
        match serve_translated(
            memory,
            &self.registers,
            &mut self.contexts,
            device,
            address,
            kind,
        ) {
            Ok(translation) => Reply::Accepted(accept(
                &mut self.in_flight,
                device,
                place,
                address,
                span.len,
                kind,
                bytes,
                translation.frame,
            )),
            Err(fault) => {
                let request = faulted(device, Transaction::translated(kind), address);
                report(memory, &mut self.registers, request, fault);
                Reply::Fault(fault.cause)
            }
        }
    }
}

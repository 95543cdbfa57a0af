// Questions of devices for translations (IOMMU specification, section 2.3, "Process to translate an IOVA"; PCI Express, "Address
// Translation Services").
ghost use Rattle.std.specs.Prelude.{◌≡◌, ◌<◌, ◌*◌, length};
ghost use Rattle.iom_fault_queue.specs.declared.transaction.Transaction.TheVariants.{AtsRequest};
ghost use Rattle.iom_fault_queue.specs.Records.{record_of};
ghost use Rattle.iom_iommu.specs.Parts.{frames_of};
ghost use Rattle.iom_iommu.specs.Requests.{faulted_of, fault_of};
ghost use Rattle.iom_iommu.specs.Questions.{AnswersQuestion, RecordsUnless, is_page_fault};

use crate::contexts::find_ats_context;
use crate::iommu::Iommu;
use crate::reports::{faulted, report};
use crate::translations::translate_by;
use iom_base::{AccessKind, Cause, DeviceId, PAGE_SIZE};
use iom_fabric::{PageNumber, Translation};
use iom_fault_queue::Transaction;
use iom_phys_mem::Memory;
use iom_registers::Registers;
use iom_stage_walk::WalkFault;
use iom_tlb::TransCache;

/// Whether the cause is that there is no lawful path to the page.
fn is_page_fault(cause: Cause) -> bool
    ensures { result ≡ is_page_fault cause }
{
    match cause {
        Cause::ReadPageFault
        | Cause::WritePageFault
        | Cause::ReadGuestPageFault
        | Cause::WriteGuestPageFault => true,
        Cause::ReadAccessFault
        | Cause::WriteAccessFault
        | Cause::AllInboundDisallowed
        | Cause::DirectoryLoadFault
        | Cause::DirectoryEntryNotValid
        | Cause::DirectoryEntryMisconfigured
        | Cause::TransactionTypeDisallowed => false,
    }
}

/// Puts the record of a question's fault into the fault queue, unless the device alone is told of it.
fn report_question(
    memory: &mut Memory,
    registers: &mut Registers,
    device: DeviceId,
    address: u64,
    fault: WalkFault,
)
    ensures recorded { RecordsUnless (is_page_fault fault.cause) memory.old registers.old
        (record_of (faulted_of device AtsRequest address) (fault_of fault)) memory.new registers.new }
    ensures frames { length memory.new ≡ length memory.old }
{
    if !is_page_fault(fault.cause) {
        let request = faulted(device, Transaction::AtsRequest, address);
        report(memory, registers, request, fault);
    }
}

impl<C: TransCache> Iommu<C> {
    /// The device asks for the translation of a page, as for a read. It is told the frame and all rights of the
    /// translation, or the cause for which there is none; then a record is put into the fault queue, unless the cause
    /// is a page fault. The context and the translation that are found in memory are cached.
    pub fn ask(&mut self, memory: &mut Memory, device: DeviceId, page: PageNumber) -> Translation
        requires { length memory.old ≡ frames_of self.old }
        ensures answered { AnswersQuestion memory.old self.old device page result memory.new self.new }
        ensures frames { length memory.new ≡ length memory.old }
    {
        let address = page.number() * PAGE_SIZE;
        let found = find_ats_context(memory, &self.registers, &mut self.contexts, device);
        match translate_by(
            memory,
            found,
            address,
            AccessKind::Read,
            &mut self.translations,
        ) {
            Ok(translation) => Translation::Page {
                frame: translation.frame,
                rights: translation.rights,
            },
            Err(fault) => {
                report_question(memory, &mut self.registers, device, address, fault);
                Translation::Refused(fault.cause)
            }
        }
    }
}

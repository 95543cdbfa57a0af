// Faults are reported to software (IOMMU specification, section 3.2, "Fault/Event-Queue (FQ)").
ghost use Rattle.std.specs.Prelude.{◌≡◌, ◌<◌, ◌^◌, length};
ghost use Rattle.iom_fault_queue.specs.Calls.{PutsRecord};
ghost use Rattle.iom_fault_queue.specs.Records.{record_of};
ghost use Rattle.iom_iommu.specs.Requests.{faulted_of, fault_of};

use iom_base::DeviceId;
use iom_fault_queue::{Fault, FaultRing, FaultedRequest, Put, Record, Transaction};
use iom_phys_mem::Memory;
use iom_registers::Registers;
use iom_stage_walk::WalkFault;

/// How many device numbers a record can tell: DID has 24 bits.
const DEVICE_IDS: DeviceId = 1 << 24;

/// What is recorded of a transaction that faults.
pub(crate) fn faulted(device: DeviceId, transaction: Transaction, address: u64) -> FaultedRequest
    ensures value { result ≡ faulted_of device transaction address }
    ensures fits { result.device < 2 ^ 24 }
{
    FaultedRequest {
        device: device % DEVICE_IDS,
        transaction,
        address,
    }
}

/// Puts the record of its fault into the fault queue.
pub(crate) fn report(
    memory: &mut Memory,
    registers: &mut Registers,
    request: FaultedRequest,
    fault: WalkFault,
) -> Put
    requires { request.device < 2 ^ 24 }
    ensures recorded { PutsRecord memory.old registers.old
        (record_of request (fault_of fault)) result memory.new registers.new }
    ensures frames { length memory.new ≡ length memory.old }
{
    let fault = Fault {
        cause: fault.cause,
        guest_address: fault.gpa,
        implicit: fault.implicit,
    };
    FaultRing::put(memory, registers, Record::new(request, fault))
}

// What a request is answered, and what the record of its fault tells.
use crate::vectors::case::{Answer, Case, Told};
use iom_base::{AccessKind, Cause, PAGE_SIZE};
use iom_iommu::{Iommu, Reply};
use iom_phys_mem::{Bytes, Memory};
use iom_registers::Mmio;
use iom_tlb::Ioatc;
use std::alloc::Global;

/// The offset of `ddtp`.
const DDTP: u64 = 16;

/// The offset of `fqb`.
const FQB: u64 = 40;

/// The offset of `fqcsr`, whose bit 0 turns the fault queue on.
const FQCSR: u64 = 76;

/// The offset of `fqt`.
const FQT: u64 = 52;

/// A fault queue of two places in the last of 2,048 frames.
const QUEUE: u64 = 2047 << 10;

/// The address of its first record.
const RECORD: u64 = 0x7f_f000;

/// An IOMMU that was just built, whose `ddtp` is written, whose fault queue is on, and to which the device was added.
fn iommu_for(alloc: Global, memory: &Memory, case: Case<'_>) -> Option<Iommu<Ioatc>> {
    let mut iommu = Iommu::new(alloc, memory.frames(), Ioatc::new(alloc).ok()?).ok()?;
    iommu.write(DDTP, 8, case.ddtp).ok()?;
    iommu.write(FQB, 8, QUEUE).ok()?;
    iommu.write(FQCSR, 4, 1).ok()?;
    iommu.add(case.device);
    Some(iommu)
}

/// How many records are in the queue, of which none was taken.
fn records(iommu: &Iommu<Ioatc>) -> Option<u64> {
    iommu.read(FQT, 4).ok()
}

/// What the only record in the queue tells (IOMMU specification, section 3.2); None where it isn't that of the case's
/// request, with this cause.
fn told(memory: &Memory, iommu: &Iommu<Ioatc>, case: Case<'_>, cause: Cause) -> Option<Told> {
    let transaction = match case.kind {
        AccessKind::Read => 2,
        AccessKind::Write => 3,
    };
    let first = u64::from(cause.code()) + (transaction << 34) + (u64::from(case.device) << 40);
    let is_its = memory.load_u64(RECORD)? == first
        && memory.load_u64(RECORD + 8)? == 0
        && memory.load_u64(RECORD + 16)? == case.address;
    if !is_its || records(iommu)? != 1 {
        return None;
    }
    Some(Told {
        cause,
        iotval2: memory.load_u64(RECORD + 24)?,
    })
}

/// Where the oldest access of the device will be made; None where a record was written too.
fn place(iommu: &Iommu<Ioatc>, case: Case<'_>) -> Option<u64> {
    let made = iommu.oldest(case.device)?;
    if records(iommu)? != 0 {
        return None;
    }
    Some(PAGE_SIZE * u64::from(made.frame) + u64::from(made.offset))
}

/// What a request of one byte at the address is answered by such an IOMMU; None where it is answered otherwise, where
/// the fault queue has something else than the record of its fault, or where there is no memory for the IOMMU.
pub(crate) fn requested(alloc: Global, memory: &mut Memory, case: Case<'_>) -> Option<Answer> {
    let mut iommu = iommu_for(alloc, memory, case)?;
    if !iommu.is_added(case.device) || iommu.frames() != memory.frames() || iommu.so_far() > 0 {
        return None;
    }
    let reply = match case.kind {
        AccessKind::Read => iommu.request(memory, case.device, case.address, 1, case.kind, &[]),
        AccessKind::Write => iommu.request(memory, case.device, case.address, 1, case.kind, &[0]),
    };
    match reply {
        Reply::Accepted(_) => Some(Ok(place(&iommu, case)?)),
        Reply::Fault(cause) => Some(Err(told(memory, &iommu, case, cause)?)),
        Reply::Busy | Reply::BadSpan => None,
    }
}
